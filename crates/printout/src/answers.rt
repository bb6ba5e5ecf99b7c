// Questions and their answers in words.
use crate::shown::Shown;
use schema::{Answer, FieldDefinition, FieldLookupError, OperationType, Question, TypeKind};
use std::fmt;
use text_input::NameTable;

/// The place of the first meta-field; a table's own fields stand before it.
const FIRST_META_PLACE: u32 = 4097;

/// Operations of a type, as `queries`.
#[derive(Clone, Copy)]
pub struct Operations(pub OperationType);

impl fmt::Display for Operations {
    fn fmt<W: fmt::Write>(&self, f: &mut fmt::Formatter<W>) -> fmt::Result {
        f.write_str(match self.0 {
            OperationType::Query => "queries",
            OperationType::Mutation => "mutations",
            OperationType::Subscription => "subscriptions",
        })
    }
}

/// What a type of a kind is, as `an enum type`.
#[derive(Clone, Copy)]
pub struct OfKind(pub TypeKind);

impl fmt::Display for OfKind {
    fn fmt<W: fmt::Write>(&self, f: &mut fmt::Formatter<W>) -> fmt::Result {
        f.write_str(match self.0 {
            TypeKind::Scalar => "a scalar type",
            TypeKind::Object => "an object type",
            TypeKind::Interface => "an interface type",
            TypeKind::Union => "a union type",
            TypeKind::Enum => "an enum type",
            TypeKind::InputObject => "an input object type",
        })
    }
}

/// Where a field is defined.
#[derive(Clone, Copy)]
pub struct Place(pub u32);

impl fmt::Display for Place {
    fn fmt<W: fmt::Write>(&self, f: &mut fmt::Formatter<W>) -> fmt::Result {
        let place = self.0;
        match place {
            0 => write!(f, "defined at no known place"),
            FIRST_META_PLACE.. => write!(f, "defined at place {place} (meta-field)"),
            _ => write!(f, "defined at place {place}"),
        }
    }
}

/// A question with its answer, as `Query.meter: a field of type Meter, defined at place 1`.
#[derive(Clone, Copy)]
pub struct Answered<'n, 'a> {
    pub names: &'n NameTable<'a>,
    pub question: Question,
    pub answer: Answer,
}

impl fmt::Display for Answered<'_, '_> {
    fn fmt<W: fmt::Write>(&self, f: &mut fmt::Formatter<W>) -> fmt::Result {
        let names = self.names;
        let question = Shown {
            names,
            value: self.question,
        };
        write!(f, "{question}: ")?;
        match (self.question, self.answer) {
            (_, Answer::Root(Some(root))) => {
                let root = names.show(root);
                write!(f, "{root}")
            }
            (_, Answer::Root(None)) => write!(f, "none"),
            (_, Answer::Known(true)) => write!(f, "a known type"),
            (_, Answer::Known(false)) => write!(f, "not a known type"),
            (_, Answer::Kind(Some(kind))) => {
                let kind = OfKind(kind);
                write!(f, "{kind}")
            }
            (_, Answer::Kind(None)) => write!(f, "its kind is not known"),
            (_, Answer::Field(Ok(value))) => {
                let field = Shown { names, value };
                write!(f, "{field}")
            }
            (Question::Field(owner, _), Answer::Field(Err(error))) => {
                let owner = names.show(owner);
                match error {
                    FieldLookupError::NoSuchType => write!(f, "there is no type {owner}"),
                    FieldLookupError::NoSuchField => write!(f, "{owner} has no such field"),
                }
            }
            // A schema answers a question by the answer of the same name, so this does not come.
            (_, Answer::Field(Err(_))) => Ok(()),
        }
    }
}

/// What is asked, as `Query.meter`.
impl fmt::Display for Shown<'_, '_, Question> {
    fn fmt<W: fmt::Write>(&self, f: &mut fmt::Formatter<W>) -> fmt::Result {
        match self.value {
            Question::Root(operation) => {
                let operations = Operations(operation);
                write!(f, "root of {operations}")
            }
            Question::Known(name) | Question::Kind(name) => {
                let name = self.names.show(name);
                write!(f, "{name}")
            }
            Question::Field(owner, field) => {
                let owner = self.names.show(owner);
                let field = self.names.show(field);
                write!(f, "{owner}.{field}")
            }
        }
    }
}

/// A field that was found.
impl fmt::Display for Shown<'_, '_, FieldDefinition> {
    fn fmt<W: fmt::Write>(&self, f: &mut fmt::Formatter<W>) -> fmt::Result {
        let inner = self.names.show(self.value.inner);
        let place = Place(self.value.place);
        write!(f, "a field of type {inner}, {place}")
    }
}
