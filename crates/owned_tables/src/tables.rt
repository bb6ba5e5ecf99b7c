// The tables of a builder, owned: a Vec for each, and all of them lent as slices.
ghost use Rattle.std.specs.Prelude.{◌≡◌, replicate, IfOk};
ghost use Rattle.owned_tables.specs.Contents.{no_stored_definition, no_stored_row, no_error};

use crate::fault::OwnedTablesFault;
use crate::lengths::TableLengths;
use document::DefinitionRow;
use selection_rules::{BuildError, StoredRow};
use std::alloc::Global;
use stored_tables::{StoredDefinition, Tables};

/// The tables of one builder, each as long as it was made. Whoever owns them may put anything into them.
#[derive(Drop)]
pub struct OwnedTables {
    pub operations: Vec<StoredDefinition>,
    pub operation_slots: Vec<u32>,
    pub fragments: Vec<StoredDefinition>,
    pub fragment_slots: Vec<u32>,
    pub rows: Vec<StoredRow>,
    pub errors: Vec<BuildError>,
    pub path_keys: Vec<u32>,
}

impl OwnedTables {
    /// Tables of these lengths, filled with what means nothing yet.
    pub fn new(heap: Global, lengths: TableLengths) -> Result<OwnedTables, OwnedTablesFault>
        ensures operations { IfOk result (λ made. made.operations.items ≡ replicate lengths.operations no_stored_definition) }
        ensures operation_slots { IfOk result (λ made. made.operation_slots.items ≡ replicate lengths.operation_slots 0) }
        ensures fragments { IfOk result (λ made. made.fragments.items ≡ replicate lengths.fragments no_stored_definition) }
        ensures fragment_slots { IfOk result (λ made. made.fragment_slots.items ≡ replicate lengths.fragment_slots 0) }
        ensures rows { IfOk result (λ made. made.rows.items ≡ replicate lengths.rows no_stored_row) }
        ensures errors { IfOk result (λ made. made.errors.items ≡ replicate lengths.errors no_error) }
        ensures path_keys { IfOk result (λ made. made.path_keys.items ≡ replicate lengths.path_keys 0) }
    {
        let definition = StoredDefinition {
            row: DefinitionRow::default(),
            set_type: 0,
        };
        let error = BuildError::AmbiguousAnonymousOperation { location: 0 };
        Ok(OwnedTables {
            operations: vec![in heap; definition; lengths.operations]?,
            operation_slots: vec![in heap; 0u32; lengths.operation_slots]?,
            fragments: vec![in heap; definition; lengths.fragments]?,
            fragment_slots: vec![in heap; 0u32; lengths.fragment_slots]?,
            rows: vec![in heap; StoredRow::default(); lengths.rows]?,
            errors: vec![in heap; error; lengths.errors]?,
            path_keys: vec![in heap; 0u32; lengths.path_keys]?,
        })
    }

    /// All tables, lent.
    pub fn lend(&mut self) -> Tables<'_>
        ensures operations { result.operations.now ≡ self.old.operations.items }
        ensures operation_slots { result.operation_slots.now ≡ self.old.operation_slots.items }
        ensures fragments { result.fragments.now ≡ self.old.fragments.items }
        ensures fragment_slots { result.fragment_slots.now ≡ self.old.fragment_slots.items }
        ensures rows { result.rows.now ≡ self.old.rows.items }
        ensures errors { result.errors.now ≡ self.old.errors.items }
        ensures path_keys { result.path_keys.now ≡ self.old.path_keys.items }
    {
        Tables {
            operations: self.operations.as_mut_slice(),
            operation_slots: self.operation_slots.as_mut_slice(),
            fragments: self.fragments.as_mut_slice(),
            fragment_slots: self.fragment_slots.as_mut_slice(),
            rows: self.rows.as_mut_slice(),
            errors: self.errors.as_mut_slice(),
            path_keys: self.path_keys.as_mut_slice(),
        }
    }
}
