// Builds the documents of a test case, side by side, prints what came of it, and compares the sides.
use crate::listing::print_built;
use crate::parts::{Case, SchemaPart, Side};
use crate::refused::print_refusal;
use crate::walks::print_walks;
use builder::{BuilderFault, ExecutableDocument, ExecutableDocumentBuilder};
use executable::compare;
use owned_tables::{OwnedDocument, OwnedTables, TableLengths};
use schema::{OpenSchema, Schema};
use std::alloc::AllocError;
use std::io;
use stored_tables::Tables;
use table_schema::schema_with_meta_fields;

// Adds the documents of a side to a builder of its own, prints what is built, and finishes it.
fn build_side<'s, S: Schema>(
    rt: &HostRuntime,
    mut builder: ExecutableDocumentBuilder<'s, S>,
    tables: &mut Tables<'_>,
    side: &Side,
) -> io::Result<ExecutableDocument<'s, S>> {
    for part in side.documents.iter() {
        let added = builder.add_ast_document(tables, &part.handed(), part.is_strict);
        if let Err(fault) = added {
            print_refusal(rt, fault)?;
        }
    }
    print_built(rt, &builder, tables)?;
    let document = builder.build();
    print_walks(rt, &document, tables)?;
    Ok(document)
}

// Builds a side in tables of its own, and prints what came of it. There is none where its tables are refused.
fn print_side<'s, S: Schema>(
    rt: &HostRuntime,
    schema: &'s S,
    side: &Side,
) -> io::Result<Option<OwnedDocument<'s, S>>> {
    let lengths = side.tables.unwrap_or(TableLengths::FULL);
    let mut owned = OwnedTables::new(rt.alloc(), lengths).map_err(AllocError::from)?;
    let mut tables = owned.lend();
    let builder = match ExecutableDocumentBuilder::new(schema, &mut tables) {
        Ok(builder) => builder,
        Err(fault) => {
            print_refusal(rt, fault)?;
            return Ok(None);
        }
    };
    let document = build_side(rt, builder, &mut tables, side)?;
    Ok(Some(OwnedDocument {
        tables: owned,
        document,
    }))
}

// Prints whether the documents of two sides are the same.
fn print_equal<S: Schema>(
    rt: &HostRuntime,
    a: &mut OwnedDocument<'_, S>,
    b: &mut OwnedDocument<'_, S>,
) -> io::Result<()> {
    match compare(&a.document, &a.tables.lend(), &b.document, &b.tables.lend()) {
        Ok(equal) => {
            let equal = u32::from(equal);
            println!(rt; "equal {equal}")
        }
        Err(fault) => print_refusal(rt, fault),
    }
}

// Builds each side over the schema, whichever it is, and compares the last two. No more than two are kept, since the tables of
// each are large.
fn print_sides<S: Schema>(rt: &HostRuntime, schema: &S, sides: &[Side]) -> io::Result<()> {
    let mut first = None;
    let mut second = None;
    for (number, side) in sides.iter().enumerate() {
        println!(rt; "side {number}")?;
        if let Some(side) = print_side(rt, schema, side)? {
            first = second.replace(side);
        }
    }
    if let (Some(mut first), Some(mut second)) = (first, second) {
        print_equal(rt, &mut first, &mut second)?;
    }
    Ok(())
}

/// Prints what comes of a case: the refusal of its schema, or what each side builds.
pub fn print_case(rt: &HostRuntime, case: &Case) -> io::Result<()> {
    let id = case.id;
    println!(rt; "case {id}")?;
    let sides = case.sides.as_slice();
    match &case.schema {
        SchemaPart::Open => print_sides(rt, &OpenSchema, sides)?,
        SchemaPart::Table(table) => match schema_with_meta_fields(rt.alloc(), &table.rows()) {
            Ok(schema) => print_sides(rt, &schema, sides)?,
            Err(fault) => print_refusal(rt, fault)?,
        },
    }
    println!(rt; "end")
}
