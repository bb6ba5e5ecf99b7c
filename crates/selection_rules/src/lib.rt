// What becomes of one selection: the rules of the specification on fields, leaves and conditions, over any schema;
// and what is told of it: the stored row, or the error, and the key of a field.
#![tactic(auto)]

mod error;
mod key;
mod numbers;
mod settling;
mod stored;

pub use error::{BuildError, ExecutableDefinitionName, SelectionPath};
pub use key::response_key;
pub use numbers::{ErrorNumbers, PathNumbers, RootNumbers};
pub use settling::{SelectionFault, Settled, settle};
pub use stored::StoredRow;
