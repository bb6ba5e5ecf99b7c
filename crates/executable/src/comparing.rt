// Comparing two finished documents, each on its own tables.
ghost use Rattle.std.specs.Prelude.{◌≡◌, Bool, List, Decides, Ok};
ghost use Rattle.schema.specs.Meaning.{Meaning};
ghost use Rattle.building_rules.specs.Calls.{Call, kept};
ghost use Rattle.finished_rules.specs.Same.{EachIsSame};
ghost use Rattle.builder.specs.Finished.{Finished};
ghost use Rattle.executable.specs.Comparing.{Answers, SaysSame};

use crate::fault::ExecutableFault;
use builder::ExecutableDocument;
use comparison::CompareFault;
use schema::Schema;
use stored_tables::Tables;

impl From<CompareFault> for ExecutableFault {
    ghost use Rattle.executable.specs.Comparing.{compare_fault};

    ghost from_gives = { λ fault r. r ≡ compare_fault fault };

    fn from(fault: CompareFault) -> ExecutableFault {
        match fault {
            CompareFault::First(fault) | CompareFault::Second(fault) => {
                ExecutableFault::Stored(fault)
            }
            CompareFault::IndexUnfit => ExecutableFault::IndexUnfit,
        }
    }
}

/// Whether two finished documents are the same: their operations and fragments match by name and agree in all members but
/// locations. Nothing is changed.
pub fn compare<S: Schema, T: Schema>(
    a: &ExecutableDocument<'_, S>,
    a_tables: &Tables<'_>,
    b: &ExecutableDocument<'_, T>,
    b_tables: &Tables<'_>,
) -> Result<bool, ExecutableFault>
    ensures answer { Answers a.now a_tables.now b.now b_tables.now result }
    ensures kept { (m : Meaning) (calls others : List Call) → Finished S.Schema.meaning m calls a.now a_tables.now → Finished T.Schema.meaning m others b.now b_tables.now → SaysSame (kept m calls) (kept m others) result }
{
    let (Some(a), Some(b)) = (a.stored(a_tables), b.stored(b_tables)) else {
        return Err(ExecutableFault::TableTooShort);
    };
    Ok(comparison::compare(&a, &b)?)
}
