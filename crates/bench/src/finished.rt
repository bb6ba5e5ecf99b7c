// What the calls on a finished document take: a walk over all fields, and comparing a document with another that is the same.
// Both check first what is handed back, which is measured apart.
use crate::answers::measure_answers;
use crate::building::{ROUNDS, counted};
use anyhow::anyhow;
use builder::{ExecutableDocument, ExecutableDocumentBuilder};
use document::Document;
use executable::{all_fields, compare};
use owned_tables::{OwnedTables, TableLengths, WalkTables};
use schema::Schema;
use stored_tables::Tables;

// How many fields the first named operation reaches, or 0 where the walk is refused.
fn walk_over<S: Schema>(
    document: &ExecutableDocument<'_, S>,
    tables: &Tables<'_>,
    walk: &mut WalkTables,
) -> usize {
    all_fields(
        document,
        tables,
        1,
        walk.stack.as_mut_slice(),
        walk.marks.as_mut_slice(),
        Some(walk.list.as_mut_slice()),
    )
    .unwrap_or(0)
}

// The document, finished.
fn finish<'s, S: Schema>(
    schema: &'s S,
    tables: &mut Tables<'_>,
    document: &Document<'_>,
) -> anyhow::Result<ExecutableDocument<'s, S>> {
    let mut builder = ExecutableDocumentBuilder::new(schema, tables)?;
    builder.add_ast_document(tables, document, true)?;
    Ok(builder.build())
}

// The sums of the checks, of the walks and of the comparisons.
fn measure_calls<S: Schema>(
    rt: &HostRuntime,
    document: &ExecutableDocument<'_, S>,
    tables: &Tables<'_>,
    other: &ExecutableDocument<'_, S>,
    other_tables: &Tables<'_>,
) -> anyhow::Result<[u64; 3]> {
    let Some(stored) = document.stored(tables) else {
        return Err(anyhow!("the tables are too short"));
    };
    let checks = measure_answers(rt, "  checks of what is handed back", ROUNDS, || {
        counted(usize::from(stored.stored.check().is_ok() && stored.has_indexes()))
    })?;
    let mut walk = WalkTables::new(rt.alloc())?;
    let walks = measure_answers(
        rt,
        "  these checks and a walk over all fields",
        ROUNDS,
        || { counted(walk_over(document, tables, &mut walk)) },
    )?;
    let comparisons = measure_answers(rt, "  these checks twice, and comparing", ROUNDS, || {
        counted(usize::from(compare(document, tables, other, other_tables).unwrap_or(false)))
    })?;
    Ok([checks, walks, comparisons])
}

/// Builds the document twice, finishes both, and measures the calls on them.
pub fn measure_finished<S: Schema>(
    rt: &HostRuntime,
    schema: &S,
    owned: &mut OwnedTables,
    document: &Document<'_>,
) -> anyhow::Result<[u64; 3]> {
    let mut tables = owned.lend();
    let finished = finish(schema, &mut tables, document)?;
    let mut further = OwnedTables::new(rt.alloc(), TableLengths::FULL)?;
    let mut other_tables = further.lend();
    let other = finish(schema, &mut other_tables, document)?;
    measure_calls(rt, &finished, &tables, &other, &other_tables)
}
