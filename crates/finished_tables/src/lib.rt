// What a finished document has in its tables, as it is handed back: stored definitions and rows, and their indexes.
#![tactic(auto)]

mod indexed;
mod indexes;

pub use indexed::IndexedDocument;
pub use indexes::INDEX_SLOTS;
