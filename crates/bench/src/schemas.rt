// The schemas of the measurements, each of 1,024 types: the object types come first, and what is left of the types are scalars
// and enums in turn.
use anyhow::anyhow;
use schema::{MetaLayer, Name, TypeKind};
use std::alloc::{AllocError, Global};
use table_schema::{FieldRow, RootTypes, SchemaRows, TableSchema, TypeRow};

pub const TYPES: u32 = 1024;

/// The names of the types from this one on, and after them those of the fields, which the types share.
pub const FIRST_TYPE: Name = 12;

pub const FIRST_FIELD: Name = 1036;

/// A table schema under the meta-fields.
pub type Layered = MetaLayer<TableSchema>;

/// The types, so many of them object types.
pub fn type_rows(heap: Global, objects: u32) -> Result<Vec<TypeRow>, AllocError> {
    (0..TYPES)
        .map(|i| {
            let kind = if i < objects {
                TypeKind::Object
            } else if i % 2 == 0 {
                TypeKind::Scalar
            } else {
                TypeKind::Enum
            };
            TypeRow {
                name: FIRST_TYPE + i,
                kind: kind.number(),
            }
        })
        .collect(heap)
}

/// The schema of these rows.
pub fn make_schema(
    heap: Global,
    types: &[TypeRow],
    fields: &[FieldRow],
) -> anyhow::Result<Layered> {
    let rows = SchemaRows {
        types,
        fields,
        roots: RootTypes {
            query: FIRST_TYPE,
            mutation: FIRST_TYPE + 1,
            subscription: 0,
        },
    };
    match TableSchema::new(heap, &rows) {
        Ok(lower) => Ok(MetaLayer { lower }),
        Err(_) => Err(anyhow!("the rows are no schema")),
    }
}
