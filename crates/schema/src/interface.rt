// The interface of a schema: its meaning, which is four answers; a method that gives each; and the law that binds the
// answers together.
ghost use Rattle.std.specs.Prelude.{◌≡◌};
ghost use Rattle.schema.specs.Meaning.{Meaning};
ghost use Rattle.schema.specs.Law.{Lawful};

use crate::answers::{FieldDefinition, FieldLookupError, OperationType, TypeKind};
use crate::names::Name;

/// What a schema answers. Its meaning depends on nothing but the schema, so a question asked twice has one answer.
pub trait Schema {
    // The four answers: roots, known types, their kinds and their fields.
    ghost meaning: { Self → Meaning };

    /// The object type at which operations of this type start, if the schema has such operations.
    fn root_operation(&self, operation_type: OperationType) -> Option<Name>
        ensures { result ≡ (meaning self.now).root operation_type };

    /// Whether the schema has a type of this name.
    fn knows(&self, type_name: Name) -> bool
        ensures { result ≡ (meaning self.now).known type_name };

    /// The kind of the type, where the schema tells one.
    fn kind(&self, type_name: Name) -> Option<TypeKind>
        ensures { result ≡ (meaning self.now).sort type_name };

    /// The field of the type, or why there is none.
    fn type_field(
        &self,
        type_name: Name,
        field_name: Name,
    ) -> Result<FieldDefinition, FieldLookupError>
        ensures { result ≡ (meaning self.now).field type_name field_name };

    // The law of every schema: "no such type" is the answer exactly for the types that are not known, and only known
    // types have a kind.
    ghost lawful: { (s : Self) → Lawful (meaning s) };
}
