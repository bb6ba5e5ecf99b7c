// Walking over the fields of an operation of a finished document.
ghost use Rattle.std.specs.Prelude.{◌≡◌, ◌+◌, List, ◌++◌, length, drop, replicate, OnErr, OnOk};
ghost use Rattle.schema.specs.Meaning.{Meaning};
ghost use Rattle.building_rules.specs.Calls.{Call, kept};
ghost use Rattle.walking.specs.Lent.{WorkedWithin, Lent, lent_long};
ghost use Rattle.walking.specs.Answers.{lengths};
ghost use Rattle.builder.specs.Finished.{Finished};
ghost use Rattle.executable.specs.Walking.{FieldsAnswer, ListsReached};

use crate::fault::ExecutableFault;
use builder::ExecutableDocument;
use schema::Schema;
use stored_tables::Tables;
use walking::{WalkFault, WalkStep};

impl From<WalkFault> for ExecutableFault {
    ghost use Rattle.executable.specs.Walking.{walk_fault};

    ghost from_gives = { λ fault r. r ≡ walk_fault fault };

    fn from(fault: WalkFault) -> ExecutableFault {
        match fault {
            WalkFault::TooShort => ExecutableFault::WalkTooShort,
            WalkFault::Stored(fault) => ExecutableFault::Stored(fault),
            WalkFault::IndexUnfit => ExecutableFault::IndexUnfit,
            WalkFault::NoOperation => ExecutableFault::NoOperation,
        }
    }
}

/// How many fields an operation reaches: at place 0 the anonymous one, at n the nth named one. The places of the fields among
/// the stored rows are listed, if a list is lent, a field before those beneath it. A fragment is entered at its first spread
/// only, and one that is not stored is passed over. A refusal changes nothing. Else the marks of the fragments are 0, and what
/// is lent beyond what the fragments need is as it was.
pub fn all_fields<S: Schema>(
    document: &ExecutableDocument<'_, S>,
    tables: &Tables<'_>,
    operation: usize,
    stack: &mut [WalkStep],
    marks: &mut [u8],
    list: Option<&mut [u32]>,
) -> Result<usize, ExecutableFault>
    ensures answer { FieldsAnswer document.now tables.now operation (lengths (length stack.old) (length marks.old) (lent_long list.entry)) (λ places. Lent list.entry list.exit (λ old new. new ≡ places ++ drop (length places) old)) result }
    ensures refused { OnErr result ((stack.new ≡ stack.old) × (marks.new ≡ marks.old) × Lent list.entry list.exit (λ old new. new ≡ old)) }
    ensures marks { OnOk result (marks.new ≡ replicate document.now.fragments 0 ++ drop document.now.fragments marks.old) }
    ensures further { WorkedWithin (document.now.fragments + 1) stack.old stack.new }
    ensures kept { (m : Meaning) (calls : List Call) → Finished S.Schema.meaning m calls document.now tables.now → ListsReached (kept m calls) operation (lengths (length stack.old) (length marks.old) (lent_long list.entry)) (λ places. Lent list.entry list.exit (λ old new. new ≡ places ++ drop (length places) old)) result }
{
    let Some(stored) = document.stored(tables) else {
        return Err(ExecutableFault::TableTooShort);
    };
    // An arm for each: in each it is known whether there is a list, and so what has become of it.
    match list {
        Some(list) => Ok(walking::all_fields(&stored, operation, stack, marks, Some(list))?),
        None => Ok(walking::all_fields(&stored, operation, stack, marks, None)?),
    }
}
