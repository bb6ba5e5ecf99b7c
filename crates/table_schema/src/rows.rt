// The rows of a schema as they are handed over, and the keys by which they are found.
ghost use Rattle.std.specs.Prelude.{◌≡◌};
ghost use Rattle.table_schema.specs.Keys.{type_key, row_key, entry_key};
ghost use Rattle.table_schema.specs.Meaning.{root_of};

use ordered_index::{Entry, TypeField};
use schema::{FieldDefinition, Name, OperationType, name_or_none};

/// A type: its name and the number of its kind, 1 to 6.
// Kept, the kind is a number: so rows are handed over, and may be of no kind.
#[derive(Clone, Copy)]
pub struct TypeRow {
    pub name: u32,
    pub kind: u32,
}

/// A field: the type that owns it, its name there, and the named type inside its lists and non-nulls.
#[derive(Clone, Copy)]
pub struct FieldRow {
    pub owner: u32,
    pub name: u32,
    pub inner: u32,
}

/// The names of the root types, 0 for none.
// Kept, no `Option`: the roots are handed over with the rows, as numbers.
#[derive(Clone, Copy, PartialEq, Eq, Default, Debug)]
pub struct RootTypes {
    pub query: Name,
    pub mutation: Name,
    pub subscription: Name,
}

impl RootTypes {
    /// The root type of operations of this type, if there is one.
    pub fn of(self, operation_type: OperationType) -> Option<Name>
        ensures { result ≡ root_of self operation_type }
    {
        let name = match operation_type {
            OperationType::Query => self.query,
            OperationType::Mutation => self.mutation,
            OperationType::Subscription => self.subscription,
        };
        name_or_none(name)
    }
}

/// All rows of a schema, and its root types.
#[derive(Clone, Copy)]
pub struct SchemaRows<'a> {
    pub types: &'a [TypeRow],
    pub fields: &'a [FieldRow],
    pub roots: RootTypes,
}

/// A field as a schema keeps it: its definition, with its place, beside the key.
#[derive(Clone, Copy)]
pub struct FieldEntry {
    pub key: TypeField,
    pub definition: FieldDefinition,
}

impl Entry for TypeRow {
    type Of = u32;

    ghost keyed = { type_key };

    fn key(&self) -> u32 {
        self.name
    }
}

impl Entry for FieldRow {
    type Of = TypeField;

    ghost keyed = { row_key };

    fn key(&self) -> TypeField {
        TypeField {
            owner: self.owner,
            field: self.name,
        }
    }
}

impl Entry for FieldEntry {
    type Of = TypeField;

    ghost keyed = { entry_key };

    fn key(&self) -> TypeField {
        self.key
    }
}
