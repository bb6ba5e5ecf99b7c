// Documents as they are handed over: two tables of rows, checked, and then read as forests of selections.
//
// `Document::check` tells the first fault of the tables, or that they are a document; `Document::needs` also how many
// places building it can need. `selections` and `next_selection` read it, set by set.
#![tactic(auto)]

mod check;
mod fault;
mod handed;
mod kinds;
mod rows;

pub use check::{MAX_DEFINITIONS, MAX_DEPTH, MAX_ROWS, check_sizes};
pub use fault::DocumentFault;
pub use handed::{Document, Needs, SelectionSet, SelectionStep};
pub use kinds::{DefinitionKind, SelectionKind};
pub use rows::{DefinitionRow, SelectionRow};
