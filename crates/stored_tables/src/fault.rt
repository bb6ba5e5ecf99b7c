// What is wrong with stored definitions and rows that are handed back, in words.
ghost use Rattle.std.specs.Prelude.{◌≡◌};
ghost use Rattle.stored_tables.specs.Verdict.{row_of, row_number};

use thiserror::Error;

/// The first that breaks the layout. A definition is told by its place in its table plus 1, a row by its place plus 1.
#[derive(Clone, Copy, PartialEq, Eq, Debug, Error)]
pub enum StoredFault {
    #[error("the stored anonymous operation breaks the layout")]
    InAnonymous,
    #[error("stored operation {0} breaks the layout")]
    InOperations(usize),
    #[error("stored fragment {0} breaks the layout")]
    InFragments(usize),
    #[error("stored row {0} breaks the layout")]
    InRows(usize),
}

impl StoredFault {
    /// The place, plus 1, of what is at fault in its table; 0 for the anonymous operation, which stands in none.
    pub fn row(self) -> usize
        ensures { result ≡ row_of self }
    {
        match self {
            StoredFault::InAnonymous => 0,
            StoredFault::InOperations(row)
            | StoredFault::InFragments(row)
            | StoredFault::InRows(row) => row,
        }
    }

    /// The same as a refusal tells it: one past the numbers of 32 bits as the greatest of them.
    pub fn row_number(self) -> u32
        ensures { result ≡ row_number self }
    {
        self.row().min(u32::MAX as usize) as u32
    }
}
