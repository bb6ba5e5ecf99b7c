// Whether two finished documents, each on tables of its own, are the same. Both are checked before they are compared.
//
// Definitions are matched by name, with the index of the other document; their rows are compared set by set.
#![tactic(auto)]

mod documents;
mod fault;
mod members;
mod sets;
mod tables;

pub use documents::compare;
pub use fault::CompareFault;
