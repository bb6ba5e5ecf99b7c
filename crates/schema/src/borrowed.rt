// A schema that is borrowed: a reference answers as the schema that it points to. So one schema serves several owners,
// as a meta layer over a schema that stays where it is.
ghost use Rattle.std.specs.Prelude.{◌≡◌};
ghost use Rattle.schema.specs.Meta.{with_meta_fields};

use crate::answers::{FieldDefinition, FieldLookupError, OperationType, TypeKind};
use crate::interface::Schema;
use crate::meta::MetaLayer;
use crate::names::Name;

impl<S: Schema> Schema for &S {
    ghost meaning = { λ s. S.Schema.meaning s.now };

    ghost lawful = { λ s. S.Schema.lawful s.now };

    fn root_operation(&self, operation_type: OperationType) -> Option<Name> {
        (**self).root_operation(operation_type)
    }

    fn knows(&self, type_name: Name) -> bool {
        (**self).knows(type_name)
    }

    fn kind(&self, type_name: Name) -> Option<TypeKind> {
        (**self).kind(type_name)
    }

    fn type_field(
        &self,
        type_name: Name,
        field_name: Name,
    ) -> Result<FieldDefinition, FieldLookupError> {
        (**self).type_field(type_name, field_name)
    }
}

/// The field of the type in a schema that is only lent, with the meta-fields added.
pub fn field_or_meta_field<S: Schema>(
    schema: &S,
    type_name: Name,
    field_name: Name,
) -> Result<FieldDefinition, FieldLookupError>
    ensures { result ≡ with_meta_fields (S.Schema.meaning schema.now) type_name field_name }
{
    MetaLayer { lower: schema }.type_field(type_name, field_name)
}
