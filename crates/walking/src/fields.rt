// All fields that an operation reaches, in the order of a walk.
ghost use Rattle.std.specs.Prelude.{◌≡◌, ℕ, ◌+◌, List, ◌++◌, map, length, drop, replicate, MatchResult, OnErr, OnOk};
ghost use Rattle.ordered_index.specs.Keys.{same_name, name_hash};
ghost use Rattle.ordered_index.specs.Sound.{Sound};
ghost use Rattle.stored_tables.specs.Layout.{name_of};
ghost use Rattle.walking.specs.declared.turn.Scope.TheVariants.{Deep};
ghost use Rattle.walking.specs.Tables.{Walkable};
ghost use Rattle.walking.specs.Walk.{Listing};
ghost use Rattle.walking.specs.Lent.{WorkedWithin, Lent, lent_long, written_over};
ghost use Rattle.walking.specs.Refusals.{Refused};
ghost use Rattle.walking.specs.Answers.{lengths, FieldsOf};

use crate::fault::WalkFault;
use crate::judge::{Lengths, judge};
use crate::marks::Marks;
use crate::turn::{Scope, WalkStep, turn};
use finished_tables::IndexedDocument;
use stored_tables::StoredDefinition;

// Counts the fields that an operation reaches, and lists them as far as the list has places.
fn list_fields(
    document: &IndexedDocument<'_>,
    operation: &StoredDefinition,
    stack: &mut [WalkStep],
    marks: &mut [u8],
    list: &mut [u32],
) -> usize
    requires sound { Sound same_name name_hash (map name_of document.now.stored.fragments.now) document.now.fragment_slots.now }
    requires walkable { Walkable document.now.stored operation.now }
    requires tall { length stack.old ≡ length document.now.stored.fragments.now + 1 }
    requires wide { length marks.old ≡ length document.now.stored.fragments.now }
    ensures listing { (places : List ℕ) × Listing document.now.stored Deep operation.now places × (result ≡ length places) × (list.new ≡ written_over list.old places) }
    ensures marks { marks.new ≡ replicate (length marks.old) 0 }
{
    let mut marks = Marks::clear(marks);
    stack[0] = WalkStep {
        next: operation.row.first,
        end: operation.row.end,
    };
    let mut depth = 1;
    let mut count = 0;
    while depth > 0 {
        if let Some(place) = turn(document, Scope::Deep, stack, &mut depth, marks.0) {
            // No row is come upon twice.
            prove!(count < document.stored.rows.len());
            if count < list.len() {
                list[count] = place;
            }
            count += 1;
        }
    }
    count
}

// Counts and lists the fields of an operation, if it can be walked with what is lent.
fn walk_fields(
    document: &IndexedDocument<'_>,
    operation: usize,
    lent: Lengths,
    stack: &mut [WalkStep],
    marks: &mut [u8],
    list: &mut [u32],
) -> Result<usize, WalkFault>
    requires tall { lent.stack ≡ length stack.old }
    requires wide { lent.marks ≡ length marks.old }
    ensures answer { MatchResult result (FieldsOf document.now operation lent (λ places. list.new ≡ written_over list.old places)) (Refused document.now operation lent) }
    ensures refused { OnErr result ((stack.new ≡ stack.old) × (marks.new ≡ marks.old) × (list.new ≡ list.old)) }
    ensures marks { OnOk result (marks.new ≡ replicate (length document.now.stored.fragments.now) 0 ++ drop (length document.now.stored.fragments.now) marks.old) }
    ensures further { WorkedWithin (length document.now.stored.fragments.now + 1) stack.old stack.new }
{
    let definition = judge(document, operation, lent)?;
    let fragments = document.stored.fragments.len();
    Ok(list_fields(
        document,
        &definition,
        &mut stack[..=fragments],
        &mut marks[..fragments],
        list,
    ))
}

/// How many fields the operation reaches; their places among the stored rows are listed, if a list is lent.
pub fn all_fields(
    document: &IndexedDocument<'_>,
    operation: usize,
    stack: &mut [WalkStep],
    marks: &mut [u8],
    list: Option<&mut [u32]>,
) -> Result<usize, WalkFault>
    ensures answer { MatchResult result (FieldsOf document.now operation (lengths (length stack.old) (length marks.old) (lent_long list.entry)) (λ places. Lent list.entry list.exit (λ old new. new ≡ places ++ drop (length places) old))) (Refused document.now operation (lengths (length stack.old) (length marks.old) (lent_long list.entry))) }
    ensures refused { OnErr result ((stack.new ≡ stack.old) × (marks.new ≡ marks.old) × Lent list.entry list.exit (λ old new. new ≡ old)) }
    ensures marks { OnOk result (marks.new ≡ replicate (length document.now.stored.fragments.now) 0 ++ drop (length document.now.stored.fragments.now) marks.old) }
    ensures further { WorkedWithin (length document.now.stored.fragments.now + 1) stack.old stack.new }
{
    let lent = Lengths {
        stack: stack.len(),
        marks: marks.len(),
        list: None,
    };
    match list {
        Some(list) => {
            let lent = Lengths {
                list: Some(list.len()),
                ..lent
            };
            walk_fields(document, operation, lent, stack, marks, list)
        }
        None => walk_fields(document, operation, lent, stack, marks, &mut []),
    }
}
