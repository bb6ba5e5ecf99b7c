// Whether an operation is introspection only: a query whose fields, without those beneath others, are meta-fields.
ghost use Rattle.std.specs.Prelude.{◌≡◌, ℕ, ◌+◌, List, ◌++◌, map, length, drop, replicate, None, Decides, MatchResult, OnErr, OnOk};
ghost use Rattle.ordered_index.specs.Keys.{same_name, name_hash};
ghost use Rattle.ordered_index.specs.Sound.{Sound};
ghost use Rattle.stored_tables.specs.Layout.{name_of};
ghost use Rattle.walking.specs.declared.turn.Scope.TheVariants.{Flat};
ghost use Rattle.walking.specs.Tables.{Walkable};
ghost use Rattle.walking.specs.Walk.{Listing};
ghost use Rattle.walking.specs.Introspection.{Introspection};
ghost use Rattle.walking.specs.Refusals.{Refused};
ghost use Rattle.walking.specs.Lent.{WorkedWithin};
ghost use Rattle.walking.specs.Answers.{lengths, IntrospectionOf};

use crate::fault::WalkFault;
use crate::judge::{Lengths, judge};
use crate::marks::Marks;
use crate::turn::{Scope, WalkStep, turn};
use finished_tables::IndexedDocument;
use schema::names::{TYPE_FIELD, TYPENAME_FIELD};
use stored_tables::StoredDefinition;

// The operation type of a query.
const QUERY: u32 = 0;

// Whether an operation is a query that comes upon meta-fields only.
fn meets_meta_fields_only(
    document: &IndexedDocument<'_>,
    operation: &StoredDefinition,
    stack: &mut [WalkStep],
    marks: &mut [u8],
) -> bool
    requires sound { Sound same_name name_hash (map name_of document.now.stored.fragments.now) document.now.fragment_slots.now }
    requires walkable { Walkable document.now.stored operation.now }
    requires tall { length stack.old ≡ length document.now.stored.fragments.now + 1 }
    requires wide { length marks.old ≡ length document.now.stored.fragments.now }
    ensures answer { (places : List ℕ) → Listing document.now.stored Flat operation.now places → Decides result (Introspection document.now.stored operation.now places) }
    ensures marks { marks.new ≡ replicate (length marks.old) 0 }
{
    let mut marks = Marks::clear(marks);
    if operation.row.operation_type != QUERY {
        return false;
    }
    stack[0] = WalkStep {
        next: operation.row.first,
        end: operation.row.end,
    };
    let mut depth = 1;
    while depth > 0 {
        if let Some(place) = turn(document, Scope::Flat, stack, &mut depth, marks.0) {
            let name = document.stored.rows[place as usize].selection.name;
            // The meta-fields are `__typename`, `__schema` and `__type`.
            if name < TYPENAME_FIELD || name > TYPE_FIELD {
                return false;
            }
        }
    }
    true
}

/// Whether the operation is a query that comes upon meta-fields only. What stands beneath a field is not looked at; what
/// stands beneath inline fragments and in fragments is.
pub fn is_introspection(
    document: &IndexedDocument<'_>,
    operation: usize,
    stack: &mut [WalkStep],
    marks: &mut [u8],
) -> Result<bool, WalkFault>
    ensures answer { MatchResult result (IntrospectionOf document.now operation (lengths (length stack.old) (length marks.old) None)) (Refused document.now operation (lengths (length stack.old) (length marks.old) None)) }
    ensures refused { OnErr result ((stack.new ≡ stack.old) × (marks.new ≡ marks.old)) }
    ensures marks { OnOk result (marks.new ≡ replicate (length document.now.stored.fragments.now) 0 ++ drop (length document.now.stored.fragments.now) marks.old) }
    ensures further { WorkedWithin (length document.now.stored.fragments.now + 1) stack.old stack.new }
{
    let lent = Lengths {
        stack: stack.len(),
        marks: marks.len(),
        list: None,
    };
    let definition = judge(document, operation, lent)?;
    let fragments = document.stored.fragments.len();
    Ok(meets_meta_fields_only(
        document,
        &definition,
        &mut stack[..=fragments],
        &mut marks[..fragments],
    ))
}
