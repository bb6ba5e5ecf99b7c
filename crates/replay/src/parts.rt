// What a test case is made of.
use document::{DefinitionRow, Document, SelectionRow};
use owned_tables::TableLengths;
use table_schema::{FieldRow, RootTypes, SchemaRows, TypeRow};

/// A test case: a schema, and the sides that are built over it, two where they are to be compared.
#[derive(Drop)]
pub struct Case {
    pub id: u32,
    pub schema: SchemaPart,
    pub sides: Vec<Side>,
}

/// A schema: the open one, or a table.
// Kept: the open schema is a schema of its own, and `None` would read as a missing one. The crate `text_input` has such
// an enum too, for its own text form; nothing else of it is of use here.
#[derive(Drop)]
pub enum SchemaPart {
    Open,
    Table(TablePart),
}

/// The rows and the root types of a table.
#[derive(Drop)]
pub struct TablePart {
    pub types: Vec<TypeRow>,
    pub fields: Vec<FieldRow>,
    pub roots: RootTypes,
}

impl TablePart {
    /// All rows, lent.
    pub fn rows(&self) -> SchemaRows<'_> {
        SchemaRows {
            types: self.types.as_slice(),
            fields: self.fields.as_slice(),
            roots: self.roots,
        }
    }
}

/// A side: the lengths of its tables, where they are not the full limits, and the documents that are added.
#[derive(Drop)]
pub struct Side {
    pub tables: Option<TableLengths>,
    pub documents: Vec<DocumentPart>,
}

/// A document, and whether it is added strictly.
#[derive(Drop)]
pub struct DocumentPart {
    pub is_strict: bool,
    pub definitions: Vec<DefinitionRow>,
    pub rows: Vec<SelectionRow>,
}

impl DocumentPart {
    /// All rows, lent.
    pub fn handed(&self) -> Document<'_> {
        Document {
            definitions: self.definitions.as_slice(),
            rows: self.rows.as_slice(),
        }
    }
}
