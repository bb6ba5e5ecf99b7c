// Whole runs: a fresh builder is sent the documents of a script, one after the other, and each refusal is put up with. What
// comes of it is said of the script and the schema's answers alone.
#![tactic(auto)]

mod outcomes;
mod running;
mod script;

pub use outcomes::{build_the_same, lists_errors, reaches_fields};
pub use running::run;
pub use script::{Adding, ScriptFault};
