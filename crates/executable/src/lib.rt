// Finished documents: comparing two of them, and walking over the fields of their operations.
#![tactic(auto)]

mod comparing;
mod fault;
mod fields;
mod introspection;

pub use comparing::compare;
pub use fault::ExecutableFault;
pub use fields::all_fields;
pub use introspection::is_introspection;
