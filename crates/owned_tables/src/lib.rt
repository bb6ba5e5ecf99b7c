// The tables that a builder fills, and those that a walk uses, owned on the heap and lent to the calls.
#![tactic(auto)]

mod fault;
mod finished;
mod lengths;
mod tables;
mod walks;

pub use fault::{OwnedTablesFault, WalkTablesFault};
pub use finished::OwnedDocument;
pub use lengths::TableLengths;
pub use tables::OwnedTables;
pub use walks::WalkTables;
