// Code that works with every schema: the four questions as one, and whether a type is known as its fields tell it.
ghost use Rattle.std.specs.Prelude.{◌≡◌};
ghost use Rattle.schema.specs.Lookup.{answer_to};

use crate::answers::{FieldDefinition, FieldLookupError, OperationType, TypeKind};
use crate::interface::Schema;
use crate::names::Name;

/// A question to a schema.
#[derive(Clone, Copy)]
pub enum Question {
    /// Where operations of this type start.
    Root(OperationType),
    /// Whether the type is known.
    Known(Name),
    /// The kind of the type.
    Kind(Name),
    /// Of the first, a type, the second, a field.
    Field(Name, Name),
}

/// The answer to the question of the same name.
#[derive(Clone, Copy, PartialEq, Eq, Debug)]
pub enum Answer {
    Root(Option<Name>),
    Known(bool),
    Kind(Option<TypeKind>),
    Field(Result<FieldDefinition, FieldLookupError>),
}

/// What the schema answers to the question.
pub fn ask<S: Schema>(schema: &S, question: Question) -> Answer
    ensures { result ≡ answer_to (S.Schema.meaning schema.now) question }
{
    match question {
        Question::Root(operation_type) => Answer::Root(schema.root_operation(operation_type)),
        Question::Known(type_name) => Answer::Known(schema.knows(type_name)),
        Question::Kind(type_name) => Answer::Kind(schema.kind(type_name)),
        Question::Field(type_name, field_name) => {
            Answer::Field(schema.type_field(type_name, field_name))
        }
    }
}

/// Whether the type is known, told from the answer for one field, whichever it is.
pub fn knows_by_field<S: Schema>(schema: &S, type_name: Name, field_name: Name) -> bool
    ensures { result ≡ (S.Schema.meaning schema.now).known type_name }
{
    match schema.type_field(type_name, field_name) {
        Err(FieldLookupError::NoSuchType) => false,
        _ => true,
    }
}
