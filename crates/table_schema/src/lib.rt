// The table schema: types and fields as rows, checked once and then found through an ordered index.
//
// `index_rows` checks the rows and indexes them in slots that the caller lends; `TableSchema::new` does the same in
// memory of its own, keeps a copy of the rows, and answers as a schema. `schema_with_meta_fields` puts the meta layer
// over it, which makes the original library's schema.
#![tactic(auto)]

mod check;
mod fault;
mod indexed;
mod judge;
mod original;
mod rows;
mod table;

pub use check::index_rows;
pub use fault::{MakeFault, RowFault, SchemaFault};
pub use original::schema_with_meta_fields;
pub use rows::{FieldRow, RootTypes, SchemaRows, TypeRow};
pub use table::TableSchema;
