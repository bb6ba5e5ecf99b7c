// Measures what adding a document takes, in five shapes, over a schema whose fields lead from one type to another.
//
// A whole call on a fresh builder is measured, and apart from it what is part of it: making the builder, which empties
// both indexes; the call with an empty document, which checks empty tables and indexes; and checking the document and
// counting what it needs. Then the document is finished, and the calls on it are measured.
use crate::answers::measure_answers;
use crate::documents::needs_answer;
use crate::finished::measure_finished;
use crate::schemas::{FIRST_FIELD, FIRST_TYPE, Layered, make_schema, type_rows};
use crate::shapes::{Sample, Shape};
use builder::ExecutableDocumentBuilder;
use document::Document;
use owned_tables::{OwnedTables, TableLengths};
use refusal::Refusal;
use std::alloc::Global;
use table_schema::FieldRow;
use timing::Rounds;

const OBJECTS: u32 = 1020;

const FIELDS: u32 = 4080;

/// How often each measurement goes over the rows of its document.
pub const ROUNDS: Rounds<'static> = Rounds {
    count: 1000,
    size: 4096,
    noun: "row",
};

// A document without definitions.
const NOTHING: Document<'static> = Document {
    definitions: &[],
    rows: &[],
};

/// An answer as it is added up, so that 0 counts too.
pub fn counted(answer: usize) -> u64 {
    (answer as u64).wrapping_add(1)
}

// The field i is one of the four of the type i / 4: the last one leads to a scalar or an enum, the others to object types.
fn field_row(i: u32) -> FieldRow {
    FieldRow {
        owner: FIRST_TYPE + i / 4,
        name: FIRST_FIELD + i % 4,
        inner: if i % 4 == 3 {
            FIRST_TYPE + OBJECTS + i / 4 % 4
        } else {
            FIRST_TYPE + i.wrapping_mul(7) % OBJECTS
        },
    }
}

fn make_world(heap: Global) -> anyhow::Result<Layered> {
    let types = type_rows(heap, OBJECTS)?;
    let fields: Vec<FieldRow> = (0..FIELDS).map(field_row).collect(heap)?;
    make_schema(heap, types.as_slice(), fields.as_slice())
}

// Makes a fresh builder: how many slots it emptied.
fn make_only(schema: &Layered, owned: &mut OwnedTables) -> usize {
    let mut tables = owned.lend();
    match ExecutableDocumentBuilder::new(schema, &mut tables) {
        Ok(_) => tables.operation_slots.len(),
        Err(_) => 0,
    }
}

// Adds a document to a fresh builder: how many rows and errors there are then, or the number of the refusal.
fn add_to_fresh(schema: &Layered, owned: &mut OwnedTables, document: &Document<'_>) -> usize {
    let mut tables = owned.lend();
    match ExecutableDocumentBuilder::new(schema, &mut tables) {
        Ok(mut builder) => match builder.add_ast_document(&mut tables, document, true) {
            Ok(()) => builder
                .stored(&tables)
                .rows
                .len()
                .wrapping_mul(8192)
                .wrapping_add(builder.errors(&tables).len()),
            Err(fault) => Refusal::from(fault).reason.number() as usize,
        },
        Err(_) => 0,
    }
}

fn measure_sample(
    rt: &HostRuntime,
    schema: &Layered,
    owned: &mut OwnedTables,
    sample: &Sample,
) -> anyhow::Result<()> {
    let document = sample.handed();
    let what = sample.what;
    let answer = add_to_fresh(schema, owned, &document);
    eprintln!(rt; "{what}")?;
    let whole = measure_answers(rt, "  making a builder and adding", ROUNDS, || {
        counted(add_to_fresh(schema, owned, &document))
    })?;
    let needs = measure_answers(rt, "  needs, and the check before it", ROUNDS, || {
        needs_answer(&document).wrapping_add(1)
    })?;
    let [checks, walks, comparisons] = measure_finished(rt, schema, owned, &document)?;
    let rows = answer / 8192;
    let errors = answer % 8192;
    println!(rt;
        "{what}: rows {rows}, errors {errors}, adding {whole}, needs {needs}, checks {checks}, walks {walks}, comparisons {comparisons}"
    )?;
    Ok(())
}

/// Measures a builder without a document, and then with each.
pub fn measure_building(rt: &HostRuntime) -> anyhow::Result<()> {
    let schema = make_world(rt.alloc())?;
    let mut owned = OwnedTables::new(rt.alloc(), TableLengths::FULL)?;
    eprintln!(rt; "told by row, although there are none:")?;
    let made = measure_answers(rt, "  making a builder", ROUNDS, || {
        counted(make_only(&schema, &mut owned))
    })?;
    let nothing = measure_answers(rt, "  making a builder and adding nothing", ROUNDS, || {
        counted(add_to_fresh(&schema, &mut owned, &NOTHING))
    })?;
    println!(rt; "making a builder {made}, and adding nothing {nothing}")?;
    for shape in Shape::ALL {
        measure_sample(rt, &schema, &mut owned, &Sample::new(rt.alloc(), shape)?)?;
    }
    Ok(())
}
