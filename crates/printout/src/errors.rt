// The errors of building in words, each with its location and its path.
use crate::answers::Operations;
use crate::outlines::operation_word;
use crate::shown::Shown;
use schema::Name;
use selection_rules::{BuildError, ErrorNumbers, ExecutableDefinitionName};
use std::fmt;

/// An error that is listed, with the response keys of its path.
#[derive(Clone, Copy)]
pub struct Listed<'t> {
    pub error: BuildError,
    pub keys: &'t [Name],
}

/// An error, as `Error 10 at 11: Meter has no field gas (anonymous query > meter > gas)`.
impl fmt::Display for Shown<'_, '_, Listed<'_>> {
    fn fmt<W: fmt::Write>(&self, f: &mut fmt::Formatter<W>) -> fmt::Result {
        let names = self.names;
        let Listed { error, keys } = self.value;
        let ErrorNumbers { code, location, .. } = error.numbers();
        let fault = Shown {
            names,
            value: error,
        };
        write!(f, "Error {code} at {location}: {fault}")?;
        let Some(path) = error.path() else {
            return Ok(());
        };
        let root = Shown {
            names,
            value: path.root,
        };
        write!(f, " ({root}")?;
        for key in keys {
            let key = names.show(*key);
            write!(f, " > {key}")?;
        }
        write!(f, ")")
    }
}

/// What is wrong, as `Meter has no field gas`.
impl fmt::Display for Shown<'_, '_, BuildError> {
    fn fmt<W: fmt::Write>(&self, f: &mut fmt::Formatter<W>) -> fmt::Result {
        let ErrorNumbers {
            kind,
            first_name,
            second_name,
            second_location,
            ..
        } = self.value.numbers();
        let name = self.names.show(first_name);
        let second = self.names.show(second_name);
        match self.value {
            BuildError::TypeSystemDefinition { name: 0, .. } => {
                write!(f, "there is a type system definition (kind {kind})")
            }
            BuildError::TypeSystemDefinition { .. } => {
                write!(f, "{name} is a type system definition (kind {kind})")
            }
            BuildError::AmbiguousAnonymousOperation { .. } => {
                write!(f, "an anonymous operation is not the only operation")
            }
            BuildError::OperationNameCollision { .. } => {
                write!(
                    f,
                    "an operation at {second_location} is named {name} already"
                )
            }
            BuildError::FragmentNameCollision { .. } => {
                write!(f, "a fragment at {second_location} is named {name} already")
            }
            BuildError::UndefinedRootOperation { operation_type, .. } => {
                let operations = Operations(operation_type);
                write!(f, "the schema has no root of {operations}")
            }
            BuildError::UndefinedTypeInNamedFragmentTypeCondition { .. } => {
                write!(f, "fragment {second} is on {name}, which is no known type")
            }
            BuildError::UndefinedTypeInInlineFragmentTypeCondition { .. } => {
                write!(f, "an inline fragment is on {name}, which is no known type")
            }
            BuildError::SubselectionOnScalarType { .. } => {
                write!(f, "there are selections on the scalar {name}")
            }
            BuildError::SubselectionOnEnumType { .. } => {
                write!(f, "there are selections on the enum {name}")
            }
            BuildError::UndefinedField { .. } => write!(f, "{name} has no field {second}"),
        }
    }
}

/// Where a path starts, as `query A`.
impl fmt::Display for Shown<'_, '_, ExecutableDefinitionName> {
    fn fmt<W: fmt::Write>(&self, f: &mut fmt::Formatter<W>) -> fmt::Result {
        match self.value {
            ExecutableDefinitionName::AnonymousOperation(operation_type) => {
                let operation = operation_word(operation_type.number());
                write!(f, "anonymous {operation}")
            }
            ExecutableDefinitionName::NamedOperation(operation_type, name) => {
                let operation = operation_word(operation_type.number());
                let name = self.names.show(name);
                write!(f, "{operation} {name}")
            }
            ExecutableDefinitionName::Fragment(name) => {
                let name = self.names.show(name);
                write!(f, "fragment {name}")
            }
        }
    }
}
