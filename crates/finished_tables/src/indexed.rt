// What is stored in the tables of a finished document, with the slots of the indexes of its names.
use stored_tables::StoredDocument;

/// Stored definitions and rows, and the slots of both indexes.
#[derive(Clone, Copy)]
pub struct IndexedDocument<'t> {
    pub stored: StoredDocument<'t>,
    pub operation_slots: &'t [u32],
    pub fragment_slots: &'t [u32],
}
