// A document as it is handed over: its two tables, which may hold anything until they are checked.
use crate::rows::{DefinitionRow, SelectionRow};

mod judge;
mod needs;
mod sets;

pub use needs::Needs;
pub use sets::{SelectionSet, SelectionStep};

/// A document's tables.
#[derive(Clone, Copy)]
pub struct Document<'a> {
    pub definitions: &'a [DefinitionRow],
    pub rows: &'a [SelectionRow],
}
