// Why a walk is refused, in words.
ghost use Rattle.std.specs.Prelude.{◌≡◌};
ghost use Rattle.walking.specs.declared.fault.WalkFault.TheVariants as fault;

use stored_tables::StoredFault;
use thiserror::Error;

/// Why a walk is refused.
#[derive(Clone, Copy, PartialEq, Eq, Debug, Error)]
pub enum WalkFault {
    /// What is lent to the walk is too short.
    #[error("the stack, the marks or the list are too short")]
    TooShort,
    /// A stored definition or row breaks the layout.
    #[error("{0}")]
    Stored(StoredFault),
    /// An index is none of the stored names.
    #[error("an index is none of the stored names")]
    IndexUnfit,
    /// No operation is stored at the place.
    #[error("there is no such operation")]
    NoOperation,
}

// Kept, a conversion by hand: what is promised of a walk names the fault, and a derived conversion promises nothing.
impl From<StoredFault> for WalkFault {
    ghost from_gives = { λ e r. r ≡ fault.Stored e };

    fn from(e: StoredFault) -> WalkFault {
        WalkFault::Stored(e)
    }
}
