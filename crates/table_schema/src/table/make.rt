// Making a table schema from rows: checked, indexed and copied.
ghost use Rattle.std.specs.Prelude.{◌≡◌, ◌≤◌, length, replicate, IfOk};
ghost use Rattle.table_schema.specs.Kept.{entries_from};
ghost use Rattle.table_schema.specs.Table.{Makes};

use super::TableSchema;
use crate::check::{FIELD_SLOTS, TYPE_SLOTS, index_rows};
use crate::fault::{MakeFault, SchemaFault};
use crate::indexed::IndexedTable;
use crate::rows::{FieldEntry, FieldRow, SchemaRows};
use ordered_index::Entry;
use schema::FieldDefinition;
use std::alloc::{AllocError, Global};

// So many empty slots.
fn empty_slots(heap: Global, size: usize) -> Result<Vec<u32>, AllocError>
    ensures { IfOk result (λ v. v.items ≡ replicate size 0) }
{
    vec![in heap; 0u32; size]
}

// The entries of the rows of the fields, each with its definition place: the row's place plus 1.
fn field_entries(heap: Global, rows: &[FieldRow]) -> Result<Vec<FieldEntry>, AllocError>
    requires { length rows.now ≤ 4096 }
    ensures { IfOk result (λ v. v.items ≡ entries_from 0 rows.now) }
{
    rows.iter()
        .enumerate()
        .map(|(i, row)| FieldEntry {
            key: row.key(),
            definition: FieldDefinition {
                place: (i + 1) as u32,
                inner: row.inner,
            },
        })
        .collect(heap)
}

impl TableSchema {
    /// Makes a schema of the rows, which stay untouched.
    pub fn new(heap: Global, rows: &SchemaRows<'_>) -> Result<TableSchema, MakeFault>
        ensures { Makes rows.now.types.now rows.now.fields.now rows.now.roots result }
    {
        if rows.is_over_limit() {
            return Err(MakeFault::Rows(SchemaFault::OverLimit));
        }
        let mut type_slots = empty_slots(heap, TYPE_SLOTS)?;
        let mut field_slots = empty_slots(heap, FIELD_SLOTS)?;
        index_rows(rows, type_slots.as_mut_slice(), field_slots.as_mut_slice())?;
        let types = rows.types.to_vec(heap)?;
        let fields = field_entries(heap, rows.fields)?;
        Ok(TableSchema {
            types: IndexedTable::new(types, type_slots),
            fields: IndexedTable::new(fields, field_slots),
            roots: rows.roots,
        })
    }
}
