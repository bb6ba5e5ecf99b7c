// Prints the fields that the operations of a finished document reach, and whether they are introspection only.
use crate::lines::Numbers;
use crate::refused::print_refusal;
use builder::ExecutableDocument;
use executable::{all_fields, is_introspection};
use owned_tables::WalkTables;
use schema::Schema;
use std::alloc::AllocError;
use std::io;
use stored_tables::Tables;

// Prints the rows of all fields that the operation at this place reaches, in the order of the walk.
fn print_fields<S: Schema>(
    rt: &HostRuntime,
    document: &ExecutableDocument<'_, S>,
    tables: &Tables<'_>,
    operation: usize,
    lent: &mut WalkTables,
) -> io::Result<()> {
    let walked = all_fields(
        document,
        tables,
        operation,
        lent.stack.as_mut_slice(),
        lent.marks.as_mut_slice(),
        Some(lent.list.as_mut_slice()),
    );
    match walked {
        Ok(count) => {
            let rows = Numbers(lent.list.as_slice().get(..count).unwrap_or(&[]));
            println!(rt; "walk {operation} {count} |{rows}")
        }
        Err(fault) => print_refusal(rt, fault),
    }
}

// Prints whether the operation at this place is introspection only.
fn print_introspection<S: Schema>(
    rt: &HostRuntime,
    document: &ExecutableDocument<'_, S>,
    tables: &Tables<'_>,
    operation: usize,
    lent: &mut WalkTables,
) -> io::Result<()> {
    let (stack, marks) = (lent.stack.as_mut_slice(), lent.marks.as_mut_slice());
    match is_introspection(document, tables, operation, stack, marks) {
        Ok(only) => {
            let only = u32::from(only);
            println!(rt; "intro {operation} {only}")
        }
        Err(fault) => print_refusal(rt, fault),
    }
}

/// Prints both walks of each stored operation: the anonymous one at the place 0, and the nth named one at the place n.
pub fn print_walks<S: Schema>(
    rt: &HostRuntime,
    document: &ExecutableDocument<'_, S>,
    tables: &Tables<'_>,
) -> io::Result<()> {
    let Some(stored) = document.stored(tables).map(|indexed| indexed.stored) else {
        return Ok(());
    };
    let mut lent = WalkTables::new(rt.alloc()).map_err(AllocError::from)?;
    let first = usize::from(stored.anonymous.is_none());
    for operation in first..=stored.operations.len() {
        print_fields(rt, document, tables, operation, &mut lent)?;
        print_introspection(rt, document, tables, operation, &mut lent)?;
    }
    Ok(())
}
