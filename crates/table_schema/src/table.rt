// The schema that owns its rows and their indexes.
ghost use Rattle.table_schema.specs.Kept.{OwnersKnown};

use crate::indexed::IndexedTable;
use crate::rows::{FieldEntry, RootTypes, TypeRow};

mod answers;
mod make;

/// A schema of types and fields that were handed over as rows. Each lookup goes through an index.
#[derive(Drop)]
pub struct TableSchema {
    types: IndexedTable<TypeRow>,
    fields: IndexedTable<FieldEntry>,
    roots: RootTypes,
    ghost owners_known: { OwnersKnown types.entries.items fields.entries.items },
}
