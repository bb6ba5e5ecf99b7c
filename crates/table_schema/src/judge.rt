// What is wrong with a row of a schema; and the first fault of all rows, found without slots.
ghost use Rattle.std.specs.Prelude.{◌≡◌, ℕ, ◌^◌, ◌<◌, false, List, Option, map, length, is_some, IfOk};
ghost use Rattle.std.specs.Option.{ForSome};
ghost use Rattle.refusal.specs.Firsts.{verdict_of, first_fault};
ghost use Rattle.ordered_index.specs.Sound.{Sound};
ghost use Rattle.ordered_index.specs.Keys.{same_name, name_hash};
ghost use Rattle.table_schema.specs.Keys.{type_key};
ghost use Rattle.table_schema.specs.Found.{place_with, KeysFound};
ghost use Rattle.table_schema.specs.Verdict.{over_limit, type_fault, field_fault, fault_at, rows_fault, owns_fields};
ghost use Rattle.table_schema.specs.Meaning.{kind_of};
ghost use Rattle.table_schema.specs.declared.fault.RowFault.{RowFault};
ghost use Rattle.table_schema.specs.declared.fault.SchemaFault.{SchemaFault};
ghost use Rattle.table_schema.specs.declared.fault.SchemaFault.TheVariants.{InTypes, InFields};

use crate::fault::{RowFault, SchemaFault};
use crate::rows::{FieldRow, SchemaRows, TypeRow};
use ordered_index::{Entry, Key, find};
use schema::TypeKind;

// A row of a schema, and what is wrong with it. The check of a field looks at the types too; beside a type there is
// nothing to look at.
pub(crate) trait SchemaRow<B>: Entry {
    // What is wrong with a row behind these rows.
    ghost fault_behind: { B → List Self → Self → Option RowFault };

    // How that is told with the row's place plus 1.
    ghost told_as: { RowFault → ℕ → SchemaFault };

    // Behind any rows: `came` is whether one of them has the row's key, and then something is wrong with the row.
    fn judge(&self, beside: &B, came: bool) -> Result<(), RowFault>
        ensures fault { (before : List Self) → came ≡ is_some (place_with Self.keyed Self.Of.eq (Self.keyed self.now) before) → result ≡ verdict_of (fault_behind beside.now before self.now) }
        ensures once { IfOk result (λ _. came ≡ false) };

    fn told(fault: RowFault, row: u32) -> SchemaFault
        ensures { result ≡ told_as fault row };
}

impl SchemaRow<()> for TypeRow {
    ghost fault_behind = { λ _. type_fault };

    ghost told_as = { InTypes };

    fn judge(&self, _beside: &(), came: bool) -> Result<(), RowFault> {
        if self.name == 0 {
            return Err(RowFault::NameMissing);
        }
        if TypeKind::try_from(self.kind).is_err() {
            return Err(RowFault::KindUnknown);
        }
        if came {
            return Err(RowFault::Repeated);
        }
        Ok(())
    }

    fn told(fault: RowFault, row: u32) -> SchemaFault {
        SchemaFault::InTypes(fault, row)
    }
}

// The place of the first row that has the key, by looking through the rows.
fn look_through<E: Entry>(rows: &[E], key: &E::Of) -> Option<usize>
    ensures { result ≡ place_with E.keyed E.Of.eq key.now rows.now }
{
    rows.iter().position(|row| row.key() == *key)
}

// Whether types of this kind own fields.
fn owns_fields(kind: Option<TypeKind>) -> bool
    ensures { result ≡ owns_fields kind }
{
    matches!(kind, Some(TypeKind::Object | TypeKind::Interface))
}

// The types of a schema: each is found by its name through slots, or, where there are none, by looking through them.
#[derive(Clone, Copy)]
pub(crate) struct FoundTypes<'a> {
    rows: &'a [TypeRow],
    slots: Option<&'a [u32]>,
    ghost found: { ForSome slots (λ s. KeysFound type_key same_name name_hash rows.now s.now) },
}

impl<'a> FoundTypes<'a> {
    // These types, found through the slots where slots are given, which are an index of them.
    pub(crate) fn new(rows: &'a [TypeRow], slots: Option<&'a [u32]>) -> FoundTypes<'a>
        requires { ForSome slots (λ s. Sound same_name name_hash (map type_key rows.now) s.now) }
        ensures { result.rows.now ≡ rows.now }
    {
        FoundTypes { rows, slots }
    }

    // The place of the first type that has the name.
    fn place(&self, name: u32) -> Option<usize>
        ensures { result ≡ place_with type_key same_name name self.now.rows.now }
    {
        match self.slots {
            Some(slots) => find(self.rows, slots, &name),
            None => look_through(self.rows, &name),
        }
    }

    // Whether the type owns fields: it is one of the rows, and an object or an interface.
    fn is_owner(&self, owner: u32) -> bool
        ensures { result ≡ owns_fields (kind_of self.now.rows.now owner) }
    {
        match self.place(owner) {
            Some(i) => owns_fields(TypeKind::try_from(self.rows[i].kind).ok()),
            None => false,
        }
    }
}

impl SchemaRow<FoundTypes<'_>> for FieldRow {
    ghost fault_behind = { λ types. field_fault types.rows.now };

    ghost told_as = { InFields };

    fn judge(&self, types: &FoundTypes<'_>, came: bool) -> Result<(), RowFault> {
        if self.owner == 0 || self.name == 0 || self.inner == 0 {
            return Err(RowFault::NameMissing);
        }
        if came {
            return Err(RowFault::Repeated);
        }
        if !types.is_owner(self.owner) {
            return Err(RowFault::OwnerUnfit);
        }
        Ok(())
    }

    // The clause is that of the trait, which the check does not give to an impl at a type with a lifetime.
    fn told(fault: RowFault, row: u32) -> SchemaFault
        ensures { result ≡ InFields fault row }
    {
        SchemaFault::InFields(fault, row)
    }
}

// The first fault of the rows, told with its row. Each key is looked for among all rows before it.
fn judge_all<B, R: SchemaRow<B>>(rows: &[R], beside: &B) -> Result<(), SchemaFault>
    requires few { length rows.now < 2 ^ 32 }
    ensures { result ≡ verdict_of (first_fault R.told_as (fault_at (R.fault_behind beside.now) rows.now) 0 (length rows.now)) }
{
    for (i, row) in rows.iter().enumerate() {
        let came = look_through(&rows[..i], &row.key()).is_some();
        if let Err(fault) = row.judge(beside, came) {
            return Err(R::told(fault, (i + 1) as u32));
        }
    }
    Ok(())
}

// The first fault of all rows, found without slots.
pub(crate) fn judge_tables(rows: &SchemaRows<'_>) -> Result<(), SchemaFault>
    requires sized { over_limit rows.now.types.now rows.now.fields.now ≡ false }
    ensures { result ≡ verdict_of (rows_fault rows.now.types.now rows.now.fields.now) }
{
    judge_all(rows.types, &())?;
    judge_all(rows.fields, &FoundTypes::new(rows.types, None))
}
