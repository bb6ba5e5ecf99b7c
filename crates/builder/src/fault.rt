// Why a call of the builder is refused, in words and as a refusal.
ghost use Rattle.std.specs.Prelude.{◌≡◌};
ghost use Rattle.builder.specs.Refusals.{builder_refusal};
ghost use Rattle.builder.specs.declared.fault.BuilderFault.TheVariants as fault;

use document::DocumentFault;
use refusal::{Layer, Reason, Refusal};
use stored_tables::StoredFault;
use thiserror::Error;

/// Why a call of the builder is refused. What is wrong with a handed document is carried whole.
#[derive(Clone, Copy, PartialEq, Eq, Debug, Error)]
pub enum BuilderFault {
    /// The tables that are handed over are no document.
    #[error("{0}")]
    Document(DocumentFault),
    /// A table is shorter than what is stored in it.
    #[error("a table is shorter than what is stored in it")]
    TableTooShort,
    /// A stored definition or row breaks the layout.
    #[error("{0}")]
    Stored(StoredFault),
    /// An index is too short, or is none of the stored names.
    #[error("an index is too short, or is none of the stored names")]
    IndexUnfit,
    /// What is stored and what the document can need pass a limit or a table.
    #[error("what is stored and what is needed pass a limit or a table")]
    NoRoom,
}

// Kept, conversions by hand: what is promised of a call names the fault, and a derived conversion promises nothing.
impl From<DocumentFault> for BuilderFault {
    ghost from_gives = { λ e r. r ≡ fault.Document e };

    fn from(e: DocumentFault) -> BuilderFault {
        BuilderFault::Document(e)
    }
}

impl From<StoredFault> for BuilderFault {
    ghost from_gives = { λ e r. r ≡ fault.Stored e };

    fn from(e: StoredFault) -> BuilderFault {
        BuilderFault::Stored(e)
    }
}

impl From<BuilderFault> for Refusal {
    ghost from_gives = { λ fault r. r ≡ builder_refusal fault };

    fn from(fault: BuilderFault) -> Refusal {
        let (reason, row) = match fault {
            BuilderFault::Document(fault) => return Refusal::from(fault),
            BuilderFault::Stored(fault) => (Reason::StoredBroken, fault.row_number()),
            BuilderFault::TableTooShort => (Reason::TableTooShort, 0),
            BuilderFault::IndexUnfit => (Reason::IndexUnfit, 0),
            BuilderFault::NoRoom => (Reason::NoRoom, 0),
        };
        Refusal {
            reason,
            layer: Layer::Builder,
            row,
        }
    }
}
