// Measures the lookups of a table schema at its limit, 1,024 types and 4,096 fields, under the meta-fields.
use crate::schemas::{FIRST_FIELD, FIRST_TYPE, Layered, TYPES, make_schema, type_rows};
use schema::{FieldLookupError, Name, OperationType, Schema, names};
use std::alloc::{AllocError, Global};
use std::io;
use std::ops::Range;
use std::time::Instant;
use table_schema::FieldRow;
use timing::{Rounds, measure};

const FIELDS: u32 = 4096;

// How often each measurement goes over its questions.
const ROUNDS: u32 = 4000;

// How many names the fields have.
const FIELD_NAMES: u32 = 900;

// The names of the types.
const KNOWN_TYPES: Range<Name> = FIRST_TYPE..FIRST_FIELD;

// As many names that no type has.
const NO_TYPES: Range<Name> = 4000..5024;

// A name that no field has.
const NO_FIELD: Name = 3000;

// A type and a field that are asked for.
type Pair = (Name, Name);

// What is looked up.
#[derive(Clone, Copy)]
enum Lookup {
    Field,
    Kind,
    // The types take turns in asking for each root.
    Root,
}

impl Lookup {
    // What the answer is worth.
    fn worth(self, schema: &Layered, (type_name, field_name): Pair) -> u32 {
        match self {
            Lookup::Field => match schema.type_field(type_name, field_name) {
                Ok(definition) => definition.place,
                Err(FieldLookupError::NoSuchField) => 5000,
                Err(FieldLookupError::NoSuchType) => 6000,
            },
            Lookup::Kind => match schema.kind(type_name) {
                Some(kind) => kind.number(),
                None => 0,
            },
            Lookup::Root => {
                let operation = match type_name % 3 {
                    0 => OperationType::Query,
                    1 => OperationType::Mutation,
                    _ => OperationType::Subscription,
                };
                schema.root_operation(operation).unwrap_or(0) ^ type_name
            }
        }
    }
}

// Four fields for each type.
fn field_row(i: u32) -> FieldRow {
    FieldRow {
        owner: FIRST_TYPE + i / 4,
        name: FIRST_FIELD + (i / 4 * 3 + i % 4) % FIELD_NAMES,
        inner: FIRST_TYPE + i % TYPES,
    }
}

// Every field in its type, by steps over the rows: 1 is their order, another odd step a mixed one.
fn field_pairs(heap: Global, step: u32) -> Result<Vec<Pair>, AllocError> {
    (0..FIELDS)
        .map(|i| {
            let row = field_row(i.wrapping_mul(step) % FIELDS);
            (row.owner, row.name)
        })
        .collect(heap)
}

// One field in each of these types.
fn pairs_with(heap: Global, types: Range<Name>, field: Name) -> Result<Vec<Pair>, AllocError> {
    types.map(|type_name| (type_name, field)).collect(heap)
}

// Looks up every pair, round after round; the sum of what the answers are worth.
fn measure_pairs(
    rt: &HostRuntime,
    schema: &Layered,
    what: &str,
    lookup: Lookup,
    pairs: &[Pair],
) -> io::Result<u64> {
    let rounds = Rounds {
        count: ROUNDS,
        size: pairs.len() as u64,
        noun: "lookup",
    };
    measure(rt, what, rounds, |sum| {
        pairs.iter().fold(
            sum,
            |sum, pair| sum.wrapping_add(u64::from(lookup.worth(schema, *pair))),
        )
    })
}

// Looks up what there is and what there is not.
fn measure_schema(rt: &HostRuntime, schema: &Layered) -> anyhow::Result<()> {
    let heap = rt.alloc();
    let field = Lookup::Field;
    let pairs = field_pairs(heap, 1)?;
    let hits = measure_pairs(rt, schema, "field of a type", field, &pairs)?;
    let pairs = field_pairs(heap, 1597)?;
    let mixed = measure_pairs(rt, schema, "field of a type, in mixed order", field, &pairs)?;
    let pairs = pairs_with(heap, KNOWN_TYPES, names::TYPENAME_FIELD)?;
    let typename = measure_pairs(rt, schema, "__typename of a type", field, &pairs)?;
    println!(rt; "fields {hits}, in mixed order {mixed}, __typename {typename}")?;
    let known = pairs_with(heap, KNOWN_TYPES, NO_FIELD)?;
    let no_field = measure_pairs(rt, schema, "no such field", field, &known)?;
    let pairs = pairs_with(heap, NO_TYPES, NO_FIELD)?;
    let no_type = measure_pairs(rt, schema, "no such type", field, &pairs)?;
    println!(rt; "no such field {no_field}, no such type {no_type}")?;
    let kinds = measure_pairs(rt, schema, "kind of a type", Lookup::Kind, &known)?;
    let roots = measure_pairs(rt, schema, "root operation", Lookup::Root, &known)?;
    println!(rt; "kinds {kinds}, roots {roots}")?;
    Ok(())
}

/// Measures making the schema, and each lookup in it.
pub fn measure_lookups(rt: &HostRuntime) -> anyhow::Result<()> {
    let types = type_rows(rt.alloc(), TYPES)?;
    let fields: Vec<FieldRow> = (0..FIELDS).map(field_row).collect(rt.alloc())?;
    let start = Instant::now(rt)?;
    let schema = make_schema(rt.alloc(), types.as_slice(), fields.as_slice())?;
    let micros = start.elapsed(rt)?.as_micros();
    eprintln!(rt; "making the schema: {micros} microseconds")?;
    measure_schema(rt, &schema)
}
