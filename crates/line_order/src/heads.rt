// What the head of a schema, and of a document, says: how many rows follow it.
use table_schema::RootTypes;

/// The open schema, which has no rows, or a table under the meta-fields with what is known of it.
// Kept: the open schema is a schema of its own, and `None` would read as a missing one.
#[derive(Clone, Copy, Drop)]
pub enum SchemaChoice<T> {
    Open,
    Table(T),
}

/// How many rows of a table follow, and its root types.
#[derive(Clone, Copy, PartialEq, Eq, Default, Debug)]
pub struct TableHead {
    pub types: u32,
    pub fields: u32,
    pub roots: RootTypes,
}

/// Whether a document is read strictly, and how many rows of its two tables follow.
#[derive(Clone, Copy)]
pub struct DocumentHead {
    pub strict: bool,
    pub definitions: u32,
    pub rows: u32,
}
