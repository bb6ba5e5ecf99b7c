// The tables in which a builder keeps what it stores: its caller lends them to each call.
use crate::definition::StoredDefinition;
use selection_rules::{BuildError, StoredRow};

/// The tables of one builder: stored operations and fragments, each with the slots of an index of their names, stored
/// rows, errors, and the keys of the errors' paths. Each is filled from the front.
#[derive(Drop)]
pub struct Tables<'t> {
    pub operations: &'t mut [StoredDefinition],
    pub operation_slots: &'t mut [u32],
    pub fragments: &'t mut [StoredDefinition],
    pub fragment_slots: &'t mut [u32],
    pub rows: &'t mut [StoredRow],
    pub errors: &'t mut [BuildError],
    pub path_keys: &'t mut [u32],
}
