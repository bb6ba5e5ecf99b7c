// The meta-fields over any schema. The schema beneath is asked first; only where it knows the type and does not have the
// field, `__typename` is found in every composite type, and `__schema` and `__type` in the query root.
ghost use Rattle.std.specs.Prelude.{◌≡◌};
ghost use Rattle.schema.specs.declared.answers.OperationType.TheVariants.{Query};
ghost use Rattle.schema.specs.Meta.{meta_fields, row_of, may_stand, is_name, meta_field, with_meta, MetaFieldsAdded};
ghost use Rattle.schema.specs.Laws.{meta_lawful};

use crate::answers::{FieldDefinition, FieldLookupError, OperationType, TypeKind};
use crate::interface::Schema;
use crate::names;
use crate::names::Name;

/// In which types a meta-field is found.
#[derive(Clone, Copy)]
pub enum Stands {
    /// In every object, interface and union.
    InComposite,
    /// In the type at which queries start.
    InQueryRoot,
}

/// A row of the table of meta-fields.
#[derive(Clone, Copy)]
pub struct MetaField {
    pub name: Name,
    pub definition: FieldDefinition,
    pub stands: Stands,
}

/// The three meta-fields.
const META_FIELDS: [MetaField; 3] = [
    MetaField {
        name: names::TYPENAME_FIELD,
        definition: FieldDefinition {
            place: 4097,
            inner: names::STRING,
        },
        stands: Stands::InComposite,
    },
    MetaField {
        name: names::SCHEMA_FIELD,
        definition: FieldDefinition {
            place: 4098,
            inner: names::SCHEMA_TYPE,
        },
        stands: Stands::InQueryRoot,
    },
    MetaField {
        name: names::TYPE_FIELD,
        definition: FieldDefinition {
            place: 4099,
            inner: names::TYPE_TYPE,
        },
        stands: Stands::InQueryRoot,
    },
];

/// The row of the meta-field of this name, if there is one.
fn meta_row(name: Name) -> Option<MetaField>
    ensures { result ≡ row_of name meta_fields }
{
    META_FIELDS.iter().find(|row| row.name == name).copied()
}

/// Whether a meta-field that stands so is found in the type.
fn found_in<S: Schema>(schema: &S, type_name: Name, stands: Stands) -> bool
    ensures { result ≡ may_stand ((S.Schema.meaning schema.now).sort type_name) (is_name ((S.Schema.meaning schema.now).root Query) type_name) stands }
{
    match stands {
        Stands::InComposite => schema.kind(type_name).is_some_and(TypeKind::is_composite),
        Stands::InQueryRoot => schema.root_operation(OperationType::Query) == Some(type_name),
    }
}

/// The meta-field of this name, where it is found in the type.
fn meta_field<S: Schema>(
    schema: &S,
    type_name: Name,
    field_name: Name,
) -> Result<FieldDefinition, FieldLookupError>
    ensures { result ≡ meta_field ((S.Schema.meaning schema.now).sort type_name) (is_name ((S.Schema.meaning schema.now).root Query) type_name) field_name }
{
    match meta_row(field_name) {
        Some(row) if found_in(schema, type_name, row.stands) => Ok(row.definition),
        _ => Err(FieldLookupError::NoSuchField),
    }
}

/// A schema with the meta-fields added. What the schema beneath answers for a field goes before them.
#[derive(Drop)]
pub struct MetaLayer<S> {
    pub lower: S,
}

impl<S: Schema> Schema for MetaLayer<S> {
    ghost meaning = { λ s. with_meta (S.Schema.meaning s.lower) };

    ghost lawful = { λ s. meta_lawful (S.Schema.meaning s.lower) (S.Schema.lawful s.lower) };

    fn root_operation(&self, operation_type: OperationType) -> Option<Name> {
        self.lower.root_operation(operation_type)
    }

    fn knows(&self, type_name: Name) -> bool {
        self.lower.knows(type_name)
    }

    fn kind(&self, type_name: Name) -> Option<TypeKind> {
        self.lower.kind(type_name)
    }

    fn type_field(
        &self,
        type_name: Name,
        field_name: Name,
    ) -> Result<FieldDefinition, FieldLookupError> {
        match self.lower.type_field(type_name, field_name) {
            Err(FieldLookupError::NoSuchField) => meta_field(&self.lower, type_name, field_name),
            answer => answer,
        }
    }
}

impl<S: Schema> MetaLayer<S> {
    /// Does nothing. Its promise says, as the GraphQL specification does, which fields the layer adds to the schema
    /// beneath, and in which types: the last argument of the promise is the layer's own meaning of a field.
    pub fn adds_the_meta_fields(&self)
        ensures { MetaFieldsAdded (S.Schema.meaning self.now.lower) (with_meta (S.Schema.meaning self.now.lower)).field }
    {}
}
