// The open schema, for documents whose schema is not at hand: it knows every type, tells the kind of none,
// and finds every field in each, of which it knows neither the definition nor the type.
ghost use Rattle.std.specs.Prelude.{Some};
ghost use Rattle.schema.specs.Open.{open_meaning};
ghost use Rattle.schema.specs.Laws.{open_lawful};

use crate::answers::{FieldDefinition, FieldLookupError, OperationType, TypeKind};
use crate::interface::Schema;
use crate::names;
use crate::names::Name;

/// The root types, each at the number of its operation type.
// Kept, a table and no match: that constant tables answer for the open schema is a rule of the project.
const ROOTS: [Name; 3] = [names::QUERY, names::MUTATION, names::SUBSCRIPTION];

/// What is answered for every field.
const ANY_FIELD: FieldDefinition = FieldDefinition {
    place: 0,
    inner: names::UNKNOWN,
};

/// The schema that knows everything.
#[derive(Clone, Copy)]
pub struct OpenSchema;

impl Schema for OpenSchema {
    ghost meaning = { λ _. open_meaning };

    ghost lawful = { λ _. open_lawful };

    fn root_operation(&self, operation_type: OperationType) -> Option<Name> {
        Some(ROOTS[operation_type.number() as usize])
    }

    fn knows(&self, _type_name: Name) -> bool {
        true
    }

    fn kind(&self, _type_name: Name) -> Option<TypeKind> {
        None
    }

    fn type_field(
        &self,
        _type_name: Name,
        _field_name: Name,
    ) -> Result<FieldDefinition, FieldLookupError> {
        Ok(ANY_FIELD)
    }
}
