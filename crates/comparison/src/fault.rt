// Why two documents are not compared, in words.
use stored_tables::StoredFault;
use thiserror::Error;

/// What is wrong with the tables of one of two documents that are to be compared.
#[derive(Clone, Copy, PartialEq, Eq, Debug, Error)]
pub enum CompareFault {
    /// A stored definition or row of the first document breaks the layout.
    #[error("of the first document, {0}")]
    First(StoredFault),
    /// A stored definition or row of the second document breaks the layout.
    #[error("of the second document, {0}")]
    Second(StoredFault),
    /// An index of one of the documents is not as long as an index is, or is none of the stored names.
    #[error("an index is not as long as it has to be, or is none of the stored names")]
    IndexUnfit,
}
