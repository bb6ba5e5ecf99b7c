// How far the tables are filled, and what the builder keeps beside them: a plain value.
use crate::filled::Filled;
use stored_tables::StoredDefinition;

/// How many definitions are stored in each table, how far the others are filled, the anonymous operation, and whether
/// its collision with another one was listed.
// Kept: that the builder has the flag of the listed collision beside the anonymous operation is a rule of the project.
#[derive(Clone, Copy)]
pub struct Progress {
    pub operations: usize,
    pub fragments: usize,
    pub filled: Filled,
    pub anonymous: Option<StoredDefinition>,
    pub multiple_anonymous: bool,
}
