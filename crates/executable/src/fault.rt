// Why a call on a finished document is refused, in words and as a refusal.
ghost use Rattle.std.specs.Prelude.{◌≡◌};
ghost use Rattle.executable.specs.Refusals.{executable_refusal};

use refusal::{Layer, Reason, Refusal};
use stored_tables::StoredFault;
use thiserror::Error;

/// Why a call on finished documents is refused.
#[derive(Clone, Copy, PartialEq, Eq, Debug, Error)]
pub enum ExecutableFault {
    /// A table is shorter than what is stored in it.
    #[error("a table is shorter than what is stored in it")]
    TableTooShort,
    /// What is lent to a walk is too short.
    #[error("the stack, the marks or the list are too short")]
    WalkTooShort,
    /// A stored definition or row breaks the layout.
    #[error("{0}")]
    Stored(StoredFault),
    /// An index is too short, or is none of the stored names.
    #[error("an index is too short, or is none of the stored names")]
    IndexUnfit,
    /// No operation is stored at the place.
    #[error("there is no such operation")]
    NoOperation,
}

impl From<ExecutableFault> for Refusal {
    ghost from_gives = { λ fault r. r ≡ executable_refusal fault };

    fn from(fault: ExecutableFault) -> Refusal {
        let (reason, row) = match fault {
            ExecutableFault::TableTooShort => (Reason::TableTooShort, 0),
            ExecutableFault::WalkTooShort => (Reason::WalkTooShort, 0),
            ExecutableFault::Stored(fault) => (Reason::StoredBroken, fault.row_number()),
            ExecutableFault::IndexUnfit => (Reason::IndexUnfit, 0),
            ExecutableFault::NoOperation => (Reason::NoOperation, 0),
        };
        Refusal {
            reason,
            layer: Layer::FinishedDocument,
            row,
        }
    }
}
