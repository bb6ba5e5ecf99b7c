// Building executable documents: definitions are taken in order, typed, and stored; errors are listed with their paths.
#![tactic(auto)]

mod builder;
mod executable;
mod fault;
mod filled;
mod judge;
mod limits;
mod named;
mod path;
mod progress;
mod ruling;
mod set;
mod store;
mod take;

pub use builder::ExecutableDocumentBuilder;
pub use executable::ExecutableDocument;
pub use fault::BuilderFault;
pub use finished_tables::INDEX_SLOTS;
pub use limits::{MAX_ERRORS, MAX_FRAGMENTS, MAX_OPERATIONS, MAX_PATH_KEYS, MAX_STORED_ROWS};
