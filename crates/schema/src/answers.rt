// What a schema answers with, and the numbers that stand for the cases in stored rows.
ghost use Rattle.std.specs.Prelude.{◌≡◌};
ghost use Rattle.refusal.specs.Numbered.{case_or_unknown};
ghost use Rattle.schema.specs.Numbers.{operation_number, operation_of_number, kind_number, kind_of_number, composite};

use crate::names::Name;
use refusal::UnknownNumber;

/// The three types of an operation.
#[derive(Clone, Copy, PartialEq, Eq, Debug)]
pub enum OperationType {
    Query,
    Mutation,
    Subscription,
}

impl OperationType {
    /// The number of the operation type: 0, 1 or 2.
    pub fn number(self) -> u32
        ensures { result ≡ operation_number self }
    {
        self as u32
    }
}

impl TryFrom<u32> for OperationType {
    type Error = UnknownNumber;

    ghost try_from_gives = { λ number r. r ≡ case_or_unknown number (operation_of_number number) };

    /// The operation type that has the number, if any has.
    fn try_from(number: u32) -> Result<OperationType, UnknownNumber> {
        match number {
            0 => Ok(OperationType::Query),
            1 => Ok(OperationType::Mutation),
            2 => Ok(OperationType::Subscription),
            _ => Err(UnknownNumber(number)),
        }
    }
}

/// The six kinds of a named type.
#[derive(Clone, Copy, PartialEq, Eq, Debug)]
pub enum TypeKind {
    Scalar = 1,
    Object = 2,
    Interface = 3,
    Union = 4,
    Enum = 5,
    InputObject = 6,
}

impl TypeKind {
    /// The number of the kind: 1 to 6.
    pub fn number(self) -> u32
        ensures { result ≡ kind_number self }
    {
        self as u32
    }

    /// Whether a selection set can stand on a type of this kind.
    pub fn is_composite(self) -> bool
        ensures { result ≡ composite self }
    {
        matches!(
            self,
            TypeKind::Object | TypeKind::Interface | TypeKind::Union
        )
    }
}

impl TryFrom<u32> for TypeKind {
    type Error = UnknownNumber;

    ghost try_from_gives = { λ number r. r ≡ case_or_unknown number (kind_of_number number) };

    /// The kind that has the number, if any has.
    fn try_from(number: u32) -> Result<TypeKind, UnknownNumber> {
        match number {
            1 => Ok(TypeKind::Scalar),
            2 => Ok(TypeKind::Object),
            3 => Ok(TypeKind::Interface),
            4 => Ok(TypeKind::Union),
            5 => Ok(TypeKind::Enum),
            6 => Ok(TypeKind::InputObject),
            _ => Err(UnknownNumber(number)),
        }
    }
}

/// A field of a type: the place of its definition, and the named type inside its lists and non-nulls.
#[derive(Clone, Copy, PartialEq, Eq, Debug)]
pub struct FieldDefinition {
    pub place: u32,
    pub inner: Name,
}

/// Why a field was not found: its type is not known, or the type does not have it.
#[derive(Clone, Copy, PartialEq, Eq, Debug)]
pub enum FieldLookupError {
    NoSuchType,
    NoSuchField,
}
