// Prints what a builder has listed and stored.
use crate::lines::{DefinitionLine, ErrorLine, RowLine};
use builder::ExecutableDocumentBuilder;
use schema::Schema;
use selection_rules::{BuildError, StoredRow};
use std::io;
use stored_tables::{StoredDefinition, StoredDocument, Tables};

fn print_counts(rt: &HostRuntime, stored: &StoredDocument<'_>, errors: usize) -> io::Result<()> {
    let anonymous = u32::from(stored.anonymous.is_some());
    let named = stored.operations.len();
    let fragments = stored.fragments.len();
    let rows = stored.rows.len();
    println!(rt; "counts {errors} {anonymous} {named} {fragments} {rows}")
}

fn print_errors<S: Schema>(
    rt: &HostRuntime,
    builder: &ExecutableDocumentBuilder<'_, S>,
    tables: &Tables<'_>,
    errors: &[BuildError],
) -> io::Result<()> {
    for error in errors {
        let keys = match error.path() {
            Some(path) => builder.response_keys(tables, path),
            None => &[],
        };
        let line = ErrorLine {
            error: *error,
            keys,
        };
        println!(rt; "{line}")?;
    }
    Ok(())
}

fn print_definition(
    rt: &HostRuntime,
    word: &'static str,
    place: usize,
    stored: &StoredDefinition,
) -> io::Result<()> {
    let definition = DefinitionLine(*stored);
    println!(rt; "{word} {place}{definition}")
}

// The anonymous operation has the place 0, and the nth named one the place n.
fn print_definitions(rt: &HostRuntime, stored: &StoredDocument<'_>) -> io::Result<()> {
    if let Some(anonymous) = stored.anonymous {
        print_definition(rt, "op", 0, &anonymous)?;
    }
    for (place, operation) in (1..=usize::MAX).zip(stored.operations.iter()) {
        print_definition(rt, "op", place, operation)?;
    }
    for (place, fragment) in stored.fragments.iter().enumerate() {
        print_definition(rt, "frag", place, fragment)?;
    }
    Ok(())
}

fn print_rows(rt: &HostRuntime, rows: &[StoredRow]) -> io::Result<()> {
    for (place, row) in rows.iter().enumerate() {
        let row = RowLine(*row);
        println!(rt; "row {place}{row}")?;
    }
    Ok(())
}

/// Prints how much is listed and stored, and then each error, definition and row.
pub fn print_built<S: Schema>(
    rt: &HostRuntime,
    builder: &ExecutableDocumentBuilder<'_, S>,
    tables: &Tables<'_>,
) -> io::Result<()> {
    let stored = builder.stored(tables);
    let errors = builder.errors(tables);
    print_counts(rt, &stored, errors.len())?;
    print_errors(rt, builder, tables, errors)?;
    print_definitions(rt, &stored)?;
    print_rows(rt, stored.rows)
}
