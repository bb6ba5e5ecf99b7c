// Why two tables are no document, in words and as a refusal.
use layout::RowFault;
use refusal::{Layer, Reason, Refusal};
use thiserror::Error;

/// Why a document is refused. A row is told by its place plus 1.
#[derive(Clone, Copy, PartialEq, Eq, Debug, Error)]
pub enum DocumentFault {
    /// More definitions than a document holds.
    #[error("it has more definitions than a document holds")]
    TooManyDefinitions,
    /// More selection rows than a document holds.
    #[error("it has more rows than a document holds")]
    TooManyRows,
    /// Rows, but no definition that they belong to.
    #[error("it has rows, but no definition")]
    NoDefinition,
    /// The first faulty row is one of the definitions.
    #[error("definition {1} {0}")]
    InDefinitions(RowFault, u32),
    /// The definitions are in order, and the first faulty row is one of the selections.
    #[error("row {1} {0}")]
    InRows(RowFault, u32),
}

impl From<DocumentFault> for Refusal {
    ghost use Rattle.std.specs.Prelude.{◌≡◌};
    ghost use Rattle.document.specs.Verdict.{document_refusal};

    ghost from_gives = { λ fault refusal. refusal ≡ document_refusal fault };

    fn from(fault: DocumentFault) -> Refusal {
        let (reason, row) = match fault {
            DocumentFault::TooManyDefinitions => (Reason::TooManyDefinitions, 0),
            DocumentFault::TooManyRows => (Reason::TooManyRows, 0),
            DocumentFault::NoDefinition => (Reason::Broken, 0),
            DocumentFault::InDefinitions(fault, row) | DocumentFault::InRows(fault, row) => {
                (fault.into(), row)
            }
        };
        Refusal {
            reason,
            layer: Layer::DocumentTables,
            row,
        }
    }
}
