// What is stored in tables: the definitions and the rows that are in use.
use crate::definition::StoredDefinition;
use selection_rules::StoredRow;

mod check;

/// The stored definitions, and the rows that stand in their ranges. Whoever hands the tables back may have put anything
/// into them.
#[derive(Clone, Copy)]
pub struct StoredDocument<'t> {
    pub anonymous: Option<StoredDefinition>,
    pub operations: &'t [StoredDefinition],
    pub fragments: &'t [StoredDefinition],
    pub rows: &'t [StoredRow],
}
