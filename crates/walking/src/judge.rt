// Whether an operation can be walked: the refusals of a walk, in their order. Nothing is changed.
ghost use Rattle.std.specs.Prelude.{◌≡◌, MatchResult};
ghost use Rattle.walking.specs.Refusals.{operation_at, too_short, Refused, Accepted};

use crate::fault::WalkFault;
use finished_tables::IndexedDocument;
use stored_tables::{StoredDefinition, StoredDocument};

/// How many places of the stack are asked for each fragment, and for the operation.
pub const STEPS_EACH: usize = 33;

/// How much is lent to a walk: the places of the stack, the marks and, if there is one, the list.
#[derive(Clone, Copy)]
pub struct Lengths {
    pub stack: usize,
    pub marks: usize,
    pub list: Option<usize>,
}

impl Lengths {
    // Whether this is too short for a walk.
    fn are_short(self, stored: &StoredDocument<'_>) -> bool
        ensures { result ≡ too_short stored.now self }
    {
        self.stack / STEPS_EACH <= stored.fragments.len()
            || self.marks < stored.fragments.len()
            || match self.list {
                Some(list) => list < stored.rows.len(),
                None => false,
            }
    }
}

// The operation at a place: at 0 the anonymous one, at n the nth named one.
fn operation_at(stored: &StoredDocument<'_>, place: usize) -> Option<StoredDefinition>
    ensures { result ≡ operation_at stored.now place }
{
    if place == 0 {
        return stored.anonymous;
    }
    stored.operations.get(place - 1).copied()
}

/// The operation to be walked.
pub fn judge(
    document: &IndexedDocument<'_>,
    operation: usize,
    lent: Lengths,
) -> Result<StoredDefinition, WalkFault>
    ensures { MatchResult result (Accepted document.now operation lent) (Refused document.now operation lent) }
{
    if lent.are_short(&document.stored) {
        return Err(WalkFault::TooShort);
    }
    document.stored.check()?;
    if !document.has_indexes() {
        return Err(WalkFault::IndexUnfit);
    }
    operation_at(&document.stored, operation).ok_or(WalkFault::NoOperation)
}
