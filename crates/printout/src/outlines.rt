// The definitions and the selections of a document in words.
use crate::shown::Shown;
use document::{DefinitionKind, DefinitionRow, SelectionKind, SelectionRow};
use schema::OperationType;
use std::fmt;

/// The word of the operation type with this number. A document that was checked has no other number.
pub fn operation_word(operation_type: u32) -> &'static str {
    match OperationType::try_from(operation_type) {
        Ok(OperationType::Query) => "query",
        Ok(OperationType::Mutation) => "mutation",
        Ok(OperationType::Subscription) | Err(_) => "subscription",
    }
}

/// A definition, as `fragment F on Meter`.
impl fmt::Display for Shown<'_, '_, DefinitionRow> {
    fn fmt<W: fmt::Write>(&self, f: &mut fmt::Formatter<W>) -> fmt::Result {
        let row = self.value;
        let name = self.names.show(row.name);
        let operation = operation_word(row.operation_type);
        match row.definition_kind() {
            Some(DefinitionKind::Operation) if row.name == 0 => write!(f, "anonymous {operation}"),
            Some(DefinitionKind::Operation) => write!(f, "{operation} {name}"),
            Some(DefinitionKind::Fragment) => {
                let condition = self.names.show(row.condition);
                write!(f, "fragment {name} on {condition}")
            }
            _ => {
                let kind = row.kind;
                write!(f, "type system definition (kind {kind})")?;
                if row.name == 0 {
                    Ok(())
                } else {
                    write!(f, " {name}")
                }
            }
        }
    }
}

/// A selection: `name`, `alias: name`, `...F`, `... on T` or `...`.
impl fmt::Display for Shown<'_, '_, SelectionRow> {
    fn fmt<W: fmt::Write>(&self, f: &mut fmt::Formatter<W>) -> fmt::Result {
        let row = self.value;
        let name = self.names.show(row.name);
        let alias = self.names.show(row.alias);
        let condition = self.names.show(row.condition);
        match row.selection_kind() {
            Some(SelectionKind::Field) if row.alias == 0 => write!(f, "{name}"),
            Some(SelectionKind::Field) => write!(f, "{alias}: {name}"),
            Some(SelectionKind::Spread) => write!(f, "...{name}"),
            _ if row.condition == 0 => write!(f, "..."),
            _ => write!(f, "... on {condition}"),
        }
    }
}
