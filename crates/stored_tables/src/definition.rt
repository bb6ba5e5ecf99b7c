// A definition as it is stored: its row, the range of its stored rows, and the type around them. It is found by its name.
ghost use Rattle.std.specs.Prelude.{◌≡◌};
ghost use Rattle.document.specs.Rows.{head_of};
ghost use Rattle.stored_tables.specs.Layout.{name_of, stored_definition};

use document::DefinitionRow;
use ordered_index::Entry;

/// A stored operation or fragment. The range of its row is that of its stored rows.
#[derive(Clone, Copy)]
pub struct StoredDefinition {
    pub row: DefinitionRow,
    pub set_type: u32,
}

impl StoredDefinition {
    /// The definition of a row, whose stored rows stand from `first` up to `end` in the type `set_type`.
    pub fn new(row: &DefinitionRow, first: u32, end: u32, set_type: u32) -> StoredDefinition
        ensures { result ≡ stored_definition (head_of row.now) first end set_type }
    {
        StoredDefinition {
            row: DefinitionRow { first, end, ..*row },
            set_type,
        }
    }
}

impl Entry for StoredDefinition {
    type Of = u32;

    ghost keyed = { name_of };

    fn key(&self) -> u32 {
        self.row.name
    }
}
