// Checks rows and indexes them, in slots that the caller lends: the first fault, or a sound index of both tables.
ghost use Rattle.std.specs.Prelude.{◌≡◌, ◌<◌, ◌≤◌, false, [], ◌∷◌, ◌++◌, map, length, is_some, IfOk, MatchResult};
ghost use Rattle.refusal.specs.Firsts.{verdict_of, first_fault};
ghost use Rattle.ordered_index.specs.Slots.{limit};
ghost use Rattle.ordered_index.specs.Sound.{Sound};
ghost use Rattle.ordered_index.specs.Keys.{same_name, name_hash, same_field, field_hash};
ghost use Rattle.table_schema.specs.Keys.{type_key, row_key};
ghost use Rattle.table_schema.specs.Found.{place_with};
ghost use Rattle.table_schema.specs.Verdict.{over_limit, fault_at, rows_fault, empty_index, index_fault};

use crate::fault::SchemaFault;
use crate::judge::{FoundTypes, SchemaRow, judge_tables};
use crate::rows::{FieldRow, SchemaRows, TypeRow};
use ordered_index::{Entered, Entry, Key, empty, enter};

// How many types and fields a schema holds, and the slots of the index of each: twice as many.
const MAX_TYPES: usize = 1024;

const MAX_FIELDS: usize = 4096;

pub const TYPE_SLOTS: usize = 2048;

pub const FIELD_SLOTS: usize = 8192;

impl SchemaRows<'_> {
    /// Whether there are more types or more fields than a schema holds.
    pub(crate) fn is_over_limit(&self) -> bool
        ensures { result ≡ over_limit self.now.types.now self.now.fields.now }
    {
        self.types.len() > MAX_TYPES || self.fields.len() > MAX_FIELDS
    }
}

// Whether the slots are an empty index of this size.
fn is_empty_index(slots: &[u32], size: usize) -> bool
    ensures { result ≡ empty_index size slots.now }
{
    slots.len() == size && slots.iter().all(|s| *s == 0)
}

// Whether one of the rows before has the key. If none has, the key is entered into their index.
fn enter_new<E: Entry>(before: &[E], slots: &mut [u32], key: &E::Of) -> bool
    requires room { length before.now < limit slots.old }
    requires sound { Sound E.Of.eq E.Of.digest (map E.keyed before.now) slots.old }
    ensures came { result ≡ is_some (place_with E.keyed E.Of.eq key.now before.now) }
    ensures sound { result ≡ false → Sound E.Of.eq E.Of.digest (map E.keyed before.now ++ key.now ∷ []) slots.new }
{
    match enter(before, slots, key) {
        Entered::Added(_) => false,
        Entered::Present(_) => true,
        Entered::Full => unreachable(),
    }
}

// The first fault of the rows, told with its row; or none, and the slots are an index of them.
fn index_all<B, R: SchemaRow<B>>(
    rows: &[R],
    beside: &B,
    slots: &mut [u32],
) -> Result<(), SchemaFault>
    requires few { length rows.now ≤ limit slots.old }
    requires fresh { Sound R.Of.eq R.Of.digest [] slots.old }
    ensures fault { result ≡ verdict_of (first_fault R.told_as (fault_at (R.fault_behind beside.now) rows.now) 0 (length rows.now)) }
    ensures sound { IfOk result (λ _. Sound R.Of.eq R.Of.digest (map R.keyed rows.now) slots.new) }
{
    for (i, row) in rows.iter().enumerate() {
        let came = enter_new(&rows[..i], slots, &row.key());
        if let Err(fault) = row.judge(beside, came) {
            return Err(R::told(fault, (i + 1) as u32));
        }
    }
    Ok(())
}

// The first fault of all rows; or none, and both slots are an index of their rows.
fn index_tables(
    rows: &SchemaRows<'_>,
    type_slots: &mut [u32],
    field_slots: &mut [u32],
) -> Result<(), SchemaFault>
    requires few_types { length rows.now.types.now ≤ limit type_slots.old }
    requires few_fields { length rows.now.fields.now ≤ limit field_slots.old }
    requires fresh_types { Sound same_name name_hash [] type_slots.old }
    requires fresh_fields { Sound same_field field_hash [] field_slots.old }
    ensures fault { result ≡ verdict_of (rows_fault rows.now.types.now rows.now.fields.now) }
    ensures sound { IfOk result (λ _. Sound same_name name_hash (map type_key rows.now.types.now) type_slots.new × Sound same_field field_hash (map row_key rows.now.fields.now) field_slots.new) }
{
    index_all(rows.types, &(), type_slots)?;
    let types = FoundTypes::new(rows.types, Some(type_slots));
    index_all(rows.fields, &types, field_slots)
}

/// Checks the rows of a schema and indexes them in the slots, which are lent empty: 2,048 for the types and 8,192 for
/// the fields. Other slots are refused where nothing is wrong with the rows. A refusal leaves the slots as they were
/// handed over.
pub fn index_rows(
    rows: &SchemaRows<'_>,
    type_slots: &mut [u32],
    field_slots: &mut [u32],
) -> Result<(), SchemaFault>
    ensures verdict { result ≡ verdict_of (index_fault rows.now.types.now rows.now.fields.now type_slots.old field_slots.old) }
    ensures slots { MatchResult result (λ _. Sound same_name name_hash (map type_key rows.now.types.now) type_slots.new × Sound same_field field_hash (map row_key rows.now.fields.now) field_slots.new) (λ _. (type_slots.new ≡ type_slots.old) × (field_slots.new ≡ field_slots.old)) }
{
    if rows.is_over_limit() {
        return Err(SchemaFault::OverLimit);
    }
    if !is_empty_index(type_slots, TYPE_SLOTS) || !is_empty_index(field_slots, FIELD_SLOTS) {
        judge_tables(rows)?;
        return Err(SchemaFault::SlotsUnfit);
    }
    let verdict = index_tables(rows, type_slots, field_slots);
    if verdict.is_err() {
        empty::<TypeRow>(type_slots);
        empty::<FieldRow>(field_slots);
    }
    verdict
}
