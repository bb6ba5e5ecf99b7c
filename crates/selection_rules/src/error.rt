// The errors of building, under the original's names, each with what it carries.
ghost use Rattle.std.specs.Prelude.{◌≡◌};
ghost use Rattle.selection_rules.specs.Errors.{code_of, path_of};

use schema::{Name, OperationType};

/// Which definition a path starts at.
#[derive(Clone, Copy)]
pub enum ExecutableDefinitionName {
    AnonymousOperation(OperationType),
    NamedOperation(OperationType, Name),
    Fragment(Name),
}

/// Where a selection stands: the definition, and the response keys of the open fields, which stand in the table of path
/// keys from `first_key` up to `end_key`.
#[derive(Clone, Copy)]
pub struct SelectionPath {
    pub root: ExecutableDefinitionName,
    pub first_key: u32,
    pub end_key: u32,
}

/// What building a document can find wrong, codes 1 to 10 in this order. A name is 0 where there is none.
#[derive(Clone, Copy)]
pub enum BuildError {
    /// A definition of the type system, in a document that may have none.
    TypeSystemDefinition {
        location: u32,
        name: Name,
        kind: u32,
    },
    /// An anonymous operation that is not the only operation.
    AmbiguousAnonymousOperation {
        location: u32,
    },
    /// An operation whose name another one has, which stands at the previous location.
    OperationNameCollision {
        location: u32,
        name: Name,
        previous_location: u32,
    },
    /// A fragment whose name another one has, which stands at the previous location.
    FragmentNameCollision {
        location: u32,
        name: Name,
        previous_location: u32,
    },
    /// An operation of a type for which the schema has no root.
    UndefinedRootOperation {
        location: u32,
        operation_type: OperationType,
    },
    /// A fragment on a type that is not known.
    UndefinedTypeInNamedFragmentTypeCondition {
        location: u32,
        type_name: Name,
        fragment_name: Name,
    },
    /// An inline fragment on a type that is not known.
    UndefinedTypeInInlineFragmentTypeCondition {
        location: u32,
        type_name: Name,
        path: SelectionPath,
    },
    /// A field of a scalar type with selections beneath it.
    SubselectionOnScalarType {
        location: u32,
        type_name: Name,
        path: SelectionPath,
    },
    /// A field of an enum type with selections beneath it.
    SubselectionOnEnumType {
        location: u32,
        type_name: Name,
        path: SelectionPath,
    },
    /// A field that the type around it does not have.
    UndefinedField {
        location: u32,
        type_name: Name,
        field_name: Name,
        path: SelectionPath,
    },
}

impl BuildError {
    /// The number of the case: 1 to 10.
    // Kept, a match: cases that carry something are no numbers by themselves.
    pub fn code(self) -> u32
        ensures { result ≡ code_of self }
    {
        match self {
            BuildError::TypeSystemDefinition { .. } => 1,
            BuildError::AmbiguousAnonymousOperation { .. } => 2,
            BuildError::OperationNameCollision { .. } => 3,
            BuildError::FragmentNameCollision { .. } => 4,
            BuildError::UndefinedRootOperation { .. } => 5,
            BuildError::UndefinedTypeInNamedFragmentTypeCondition { .. } => 6,
            BuildError::UndefinedTypeInInlineFragmentTypeCondition { .. } => 7,
            BuildError::SubselectionOnScalarType { .. } => 8,
            BuildError::SubselectionOnEnumType { .. } => 9,
            BuildError::UndefinedField { .. } => 10,
        }
    }

    /// The path to the selection that is at fault; errors 1 to 6 have none.
    pub fn path(self) -> Option<SelectionPath>
        ensures { result ≡ path_of self }
    {
        match self {
            BuildError::UndefinedTypeInInlineFragmentTypeCondition { path, .. }
            | BuildError::SubselectionOnScalarType { path, .. }
            | BuildError::SubselectionOnEnumType { path, .. }
            | BuildError::UndefinedField { path, .. } => Some(path),
            _ => None,
        }
    }
}
