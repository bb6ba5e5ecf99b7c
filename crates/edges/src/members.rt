// Definitions and rows by the names of their members.
use document::{DefinitionRow, SelectionRow};
use selection_rules::{BuildError, StoredRow};
use stored_tables::StoredDefinition;

/// The members of a stored definition; one that is handed over lacks the last.
pub const DEFINITION: [&'static str; 12] = [
    "kind",
    "operation_type",
    "name",
    "condition",
    "variables",
    "directives",
    "location",
    "name_location",
    "condition_location",
    "first",
    "end",
    "set_type",
];

/// The members of a stored row; one that is handed over lacks the last two.
pub const ROW: [&'static str; 12] = [
    "kind",
    "name",
    "alias",
    "condition",
    "arguments",
    "directives",
    "location",
    "name_location",
    "condition_location",
    "end",
    "place",
    "set_type",
];

pub fn definition_from(numbers: [u32; 12]) -> StoredDefinition {
    let [a, b, c, d, e, f, g, h, i, j, k, set_type] = numbers;
    StoredDefinition {
        row: DefinitionRow::from([a, b, c, d, e, f, g, h, i, j, k]),
        set_type,
    }
}

pub fn definition_numbers(definition: &StoredDefinition) -> [u32; 12] {
    let [a, b, c, d, e, f, g, h, i, j, k] = definition.row.numbers();
    [a, b, c, d, e, f, g, h, i, j, k, definition.set_type]
}

pub fn row_from(numbers: [u32; 12]) -> StoredRow {
    let [a, b, c, d, e, f, g, h, i, j, place, set_type] = numbers;
    StoredRow {
        selection: SelectionRow::from([a, b, c, d, e, f, g, h, i, j]),
        place,
        set_type,
    }
}

pub fn row_numbers(row: &StoredRow) -> [u32; 12] {
    let [a, b, c, d, e, f, g, h, i, j] = row.selection.numbers();
    [a, b, c, d, e, f, g, h, i, j, row.place, row.set_type]
}

/// What an error carries: code, location, operation type, kind, two names, a second location, and of its path the root's
/// kind, operation type and name, and the range of its keys.
pub fn error_numbers(error: BuildError) -> [u32; 12] {
    let told = error.numbers();
    [
        told.code,
        told.location,
        told.operation_type,
        told.kind,
        told.first_name,
        told.second_name,
        told.second_location,
        told.path.root.kind,
        told.path.root.operation_type,
        told.path.root.name,
        told.path.first_key,
        told.path.end_key,
    ]
}
