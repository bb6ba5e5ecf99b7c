// The table schema as a schema: what it answers is what its rows mean.
ghost use Rattle.table_schema.specs.Table.{table_meaning};
ghost use Rattle.table_schema.specs.Laws.{table_lawful};

use super::TableSchema;
use ordered_index::TypeField;
use schema::{FieldDefinition, FieldLookupError, Name, OperationType, Schema, TypeKind};

impl Schema for TableSchema {
    ghost meaning = { table_meaning };

    ghost lawful = { table_lawful };

    fn root_operation(&self, operation_type: OperationType) -> Option<Name> {
        self.roots.of(operation_type)
    }

    fn knows(&self, type_name: Name) -> bool {
        self.types.find(&type_name).is_some()
    }

    fn kind(&self, type_name: Name) -> Option<TypeKind> {
        let row = self.types.find(&type_name)?;
        TypeKind::try_from(row.kind).ok()
    }

    fn type_field(
        &self,
        type_name: Name,
        field_name: Name,
    ) -> Result<FieldDefinition, FieldLookupError> {
        let key = TypeField {
            owner: type_name,
            field: field_name,
        };
        match self.fields.find(&key) {
            Some(entry) => Ok(entry.definition),
            None if self.knows(type_name) => Err(FieldLookupError::NoSuchField),
            None => Err(FieldLookupError::NoSuchType),
        }
    }
}
