// The rows of a table, and of a document, gathered under the head that counts them.
ghost use Rattle.std.specs.Prelude.{◌≡◌, ◌==◌, ◌&&◌, length};

use crate::heads::{DocumentHead, TableHead};
use document::{DefinitionRow, Document, SelectionRow};
use table_schema::{FieldRow, SchemaRows, TypeRow};

/// The rows of a table as they were read.
#[derive(Drop)]
pub struct TableText {
    pub head: TableHead,
    pub types: Vec<TypeRow>,
    pub fields: Vec<FieldRow>,
}

impl TableText {
    /// All rows, lent.
    pub fn rows(&self) -> SchemaRows<'_>
        ensures types { result.types.now ≡ self.now.types.items }
        ensures fields { result.fields.now ≡ self.now.fields.items }
        ensures roots { result.roots ≡ self.now.head.roots }
    {
        SchemaRows {
            types: self.types.as_slice(),
            fields: self.fields.as_slice(),
            roots: self.head.roots,
        }
    }

    /// Whether all rows were read that the first line counts.
    pub fn is_complete(&self) -> bool
        ensures { result ≡ (length self.now.types.items == self.now.head.types && length self.now.fields.items == self.now.head.fields) }
    {
        self.types.len() == self.head.types as usize
            && self.fields.len() == self.head.fields as usize
    }
}

/// The rows of a document as they were read.
#[derive(Drop)]
pub struct DocumentText {
    pub head: DocumentHead,
    pub definitions: Vec<DefinitionRow>,
    pub rows: Vec<SelectionRow>,
}

impl DocumentText {
    /// All rows, lent.
    pub fn handed(&self) -> Document<'_>
        ensures definitions { result.definitions.now ≡ self.now.definitions.items }
        ensures rows { result.rows.now ≡ self.now.rows.items }
    {
        Document {
            definitions: self.definitions.as_slice(),
            rows: self.rows.as_slice(),
        }
    }

    /// Whether all rows were read that the first line counts.
    pub fn is_complete(&self) -> bool
        ensures { result ≡ (length self.now.definitions.items == self.now.head.definitions && length self.now.rows.items == self.now.head.rows) }
    {
        self.definitions.len() == self.head.definitions as usize
            && self.rows.len() == self.head.rows as usize
    }
}
