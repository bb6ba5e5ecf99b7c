// What scripts come to: whether errors are listed, whether two scripts build the same, and which fields an operation reaches.
ghost use Rattle.std.specs.Prelude.{◌≡◌};
ghost use Rattle.builder.specs.Lent.{SameTables};
ghost use Rattle.scripts.specs.Outcomes.{room, walk_short, TellsErrors, TellsSame, TellsFields};

use crate::running::run;
use crate::script::{Adding, ScriptFault};
use builder::{BuilderFault, INDEX_SLOTS, MAX_FRAGMENTS, MAX_STORED_ROWS};
use executable::{ExecutableFault, all_fields, compare};
use schema::Schema;
use stored_tables::Tables;
use walking::{STEPS_EACH, WalkStep};

/// Runs a script on a fresh builder: whether errors are listed then.
pub fn lists_errors<S: Schema>(
    schema: &S,
    tables: &mut Tables<'_>,
    script: &mut [Adding<'_>],
) -> Result<bool, BuilderFault>
    ensures told { TellsErrors (S.Schema.meaning schema.now) tables.old tables.new script.old script.new result }
    ensures same { SameTables tables.old tables.new }
{
    Ok(run(schema, tables, script)?.has_errors())
}

/// Runs a script on each of two fresh builders over one schema, and finishes them: whether the two documents are the same.
/// Where an index of either is too short, neither is run.
pub fn build_the_same<S: Schema>(
    schema: &S,
    tables: &mut Tables<'_>,
    script: &mut [Adding<'_>],
    other_tables: &mut Tables<'_>,
    other_script: &mut [Adding<'_>],
) -> Result<bool, ScriptFault>
    ensures told { TellsSame (S.Schema.meaning schema.now) tables.old tables.new script.old script.new other_tables.old other_tables.new other_script.old other_script.new result }
    ensures same { SameTables tables.old tables.new }
    ensures other_same { SameTables other_tables.old other_tables.new }
{
    if other_tables.operation_slots.len() < INDEX_SLOTS
        || other_tables.fragment_slots.len() < INDEX_SLOTS
    {
        return Err(ScriptFault::NoBuilder(BuilderFault::IndexUnfit));
    }
    let one = run(schema, tables, script)?.build();
    let other = run(schema, other_tables, other_script)?.build();
    Ok(compare(&one, tables, &other, other_tables)?)
}

/// Runs a script on a fresh builder, finishes it, and walks over all fields of an operation: how many there are, and their
/// places in the list; or none where no such operation is kept. Where what is lent to the walk is shorter than documents in
/// these tables can need, nothing is run.
pub fn reaches_fields<S: Schema>(
    schema: &S,
    tables: &mut Tables<'_>,
    script: &mut [Adding<'_>],
    operation: usize,
    stack: &mut [WalkStep],
    marks: &mut [u8],
    list: &mut [u32],
) -> Result<Option<usize>, ScriptFault>
    ensures told { TellsFields (S.Schema.meaning schema.now) tables.old tables.new script.old script.new operation (room stack.old marks.old list.old) (room stack.new marks.new list.new) result }
    ensures same { SameTables tables.old tables.new }
{
    if is_short(tables, stack.len(), marks.len(), list.len()) {
        return Err(ScriptFault::Finished(ExecutableFault::WalkTooShort));
    }
    let document = run(schema, tables, script)?.build();
    match all_fields(&document, tables, operation, stack, marks, Some(list)) {
        Ok(count) => Ok(Some(count)),
        Err(fault) if fault == ExecutableFault::NoOperation => Ok(None),
        Err(fault) => Err(ScriptFault::Finished(fault)),
    }
}

/// Whether a stack, marks and a list are shorter than a walk over a document in these tables can need.
fn is_short(tables: &Tables<'_>, stack: usize, marks: usize, list: usize) -> bool
    ensures { result ≡ walk_short tables.now stack marks list }
{
    let fragments = tables.fragments.len().min(MAX_FRAGMENTS);
    let rows = tables.rows.len().min(MAX_STORED_ROWS);
    stack < STEPS_EACH * (fragments + 1) || marks < fragments || list < rows
}
