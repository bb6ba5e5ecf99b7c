// The errors of building as numbers: what each case carries, under a name of its own, and 0 what it does not carry.
ghost use Rattle.std.specs.Prelude.{◌≡◌};
ghost use Rattle.selection_rules.specs.Numbers.{root_numbers, path_numbers, error_numbers};

use crate::error::{BuildError, ExecutableDefinitionName, SelectionPath};
use schema::Name;

/// The definition that a path starts at: kind 1 is an operation, 2 a fragment. All are 0 where there is no path.
#[derive(Clone, Copy, Default)]
pub struct RootNumbers {
    pub kind: u32,
    pub operation_type: u32,
    pub name: Name,
}

/// A path: where it starts, and the range of its response keys in the table of path keys. All are 0 where there is none.
#[derive(Clone, Copy, Default)]
pub struct PathNumbers {
    pub root: RootNumbers,
    pub first_key: u32,
    pub end_key: u32,
}

/// An error: its code, 1 to 10, and what it carries.
#[derive(Clone, Copy, Default)]
pub struct ErrorNumbers {
    pub code: u32,
    pub location: u32,
    pub operation_type: u32,
    pub kind: u32,
    pub first_name: Name,
    pub second_name: Name,
    pub second_location: u32,
    pub path: PathNumbers,
}

impl ExecutableDefinitionName {
    /// The kind of the definition, its operation type and its name.
    pub fn numbers(self) -> RootNumbers
        ensures { result ≡ root_numbers self }
    {
        match self {
            ExecutableDefinitionName::AnonymousOperation(operation_type) => RootNumbers {
                kind: 1,
                operation_type: operation_type.number(),
                name: 0,
            },
            ExecutableDefinitionName::NamedOperation(operation_type, name) => RootNumbers {
                kind: 1,
                operation_type: operation_type.number(),
                name,
            },
            ExecutableDefinitionName::Fragment(name) => RootNumbers {
                kind: 2,
                operation_type: 0,
                name,
            },
        }
    }
}

impl SelectionPath {
    /// The definition, and the range of the keys.
    pub fn numbers(self) -> PathNumbers
        ensures { result ≡ path_numbers self }
    {
        PathNumbers {
            root: self.root.numbers(),
            first_key: self.first_key,
            end_key: self.end_key,
        }
    }
}

impl BuildError {
    /// The code, and all that the error carries.
    pub fn numbers(self) -> ErrorNumbers
        ensures { result ≡ error_numbers self }
    {
        let bare = ErrorNumbers {
            code: self.code(),
            path: self
                .path()
                .map_or(PathNumbers::default(), SelectionPath::numbers),
            ..ErrorNumbers::default()
        };
        match self {
            BuildError::TypeSystemDefinition {
                location,
                name,
                kind,
            } => ErrorNumbers {
                location,
                kind,
                first_name: name,
                ..bare
            },
            BuildError::AmbiguousAnonymousOperation { location } => {
                ErrorNumbers { location, ..bare }
            }
            BuildError::OperationNameCollision {
                location,
                name,
                previous_location,
            }
            | BuildError::FragmentNameCollision {
                location,
                name,
                previous_location,
            } => ErrorNumbers {
                location,
                first_name: name,
                second_location: previous_location,
                ..bare
            },
            BuildError::UndefinedRootOperation {
                location,
                operation_type,
            } => ErrorNumbers {
                location,
                operation_type: operation_type.number(),
                ..bare
            },
            BuildError::UndefinedTypeInNamedFragmentTypeCondition {
                location,
                type_name,
                fragment_name,
            } => ErrorNumbers {
                location,
                first_name: type_name,
                second_name: fragment_name,
                ..bare
            },
            BuildError::UndefinedTypeInInlineFragmentTypeCondition {
                location,
                type_name,
                ..
            }
            | BuildError::SubselectionOnScalarType {
                location,
                type_name,
                ..
            }
            | BuildError::SubselectionOnEnumType {
                location,
                type_name,
                ..
            } => ErrorNumbers {
                location,
                first_name: type_name,
                ..bare
            },
            BuildError::UndefinedField {
                location,
                type_name,
                field_name,
                ..
            } => ErrorNumbers {
                location,
                first_name: type_name,
                second_name: field_name,
                ..bare
            },
        }
    }
}
