// Walks over the fields of a finished document: all that an operation reaches, and whether it is introspection only.
#![tactic(auto)]

mod fault;
mod fields;
mod introspection;
mod judge;
mod marks;
mod turn;

pub use fault::WalkFault;
pub use fields::all_fields;
pub use introspection::is_introspection;
pub use judge::STEPS_EACH;
pub use turn::WalkStep;
