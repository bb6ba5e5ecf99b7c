// Storing one definition: its errors are listed, its selections are built, and it is entered in its table.
ghost use Rattle.std.specs.Prelude.{◌≡◌, ℕ, ◌+◌, ◌<◌, ◌≤◌, Bool, true, false, List, [], length, None};
ghost use Rattle.ordered_index.specs.Keys.{same_name, name_hash};
ghost use Rattle.ordered_index.specs.Slots.{limit};
ghost use Rattle.ordered_index.specs.Sound.{Sound};
ghost use Rattle.document.specs.Rows.{head_of};
ghost use Rattle.selection_rules.specs.declared.stored.StoredRow.{StoredRow};
ghost use Rattle.selection_rules.specs.declared.error.BuildError.{BuildError};
ghost use Rattle.building_rules.specs.Definitions.{role_of, root_name, taken_at};
ghost use Rattle.stored_tables.specs.Layout.{stored_head};
ghost use Rattle.builder.specs.Filling.{put, filled_to};
ghost use Rattle.builder.specs.Holding.{table, names_in, entered, taken_by, held};
ghost use Rattle.builder.specs.Ruling.{maybe, told};
ghost use Rattle.builder.specs.Storing.{store_as, Free, Indexed};

use crate::filled::Filled;
use crate::path::OpenPath;
use crate::progress::Progress;
use crate::ruling::{Ruling, operation_type};
use crate::set::build_set;
use document::{DefinitionKind, DefinitionRow, Document};
use ordered_index::{Entered, insert};
use schema::Schema;
use selection_rules::{BuildError, ExecutableDefinitionName, StoredRow};
use stored_tables::StoredDefinition;

// Lists an error, if there is one, and tells how many are listed then.
fn list_one(error: Option<BuildError>, errors: &mut [BuildError], at: usize) -> usize
    requires { at < length errors.old }
    ensures listed { errors.new ≡ put errors.old at (maybe error []) }
    ensures counted { result ≡ at + length (maybe error []) }
{
    match error {
        Some(error) => {
            errors[at] = error;
            at + 1
        }
        None => at,
    }
}

// Lists the errors of a definition itself.
pub fn list_ruling(ruling: &Ruling, errors: &mut [BuildError], at: usize) -> usize
    requires { at + 2 ≤ length errors.old }
    ensures listed { errors.new ≡ put errors.old at (told ruling.now) }
    ensures counted { result ≡ at + length (told ruling.now) }
{
    let next = list_one(ruling.first, errors, at);
    list_one(ruling.second, errors, next)
}

// The definition at which the paths of its selections start.
pub fn root_name_of(row: &DefinitionRow) -> ExecutableDefinitionName
    ensures { result ≡ root_name (head_of row.now) }
{
    match row.definition_kind() {
        Some(DefinitionKind::Operation) if row.name == 0 => {
            ExecutableDefinitionName::AnonymousOperation(operation_type(row))
        }
        Some(DefinitionKind::Operation) => {
            ExecutableDefinitionName::NamedOperation(operation_type(row), row.name)
        }
        _ => ExecutableDefinitionName::Fragment(row.name),
    }
}

// Enters a definition whose name is not yet taken behind the others of its table, and tells how many there are then.
// Kept: the count stands beside the table, which is lent and longer than what stands in it.
fn enter_definition(
    definition: StoredDefinition,
    entries: &mut [StoredDefinition],
    count: usize,
    slots: &mut [u32],
) -> usize
    requires fits { count < length entries.old }
    requires room { count < limit slots.old }
    requires sound { Sound same_name name_hash (names_in (table entries.old slots.old count)) slots.old }
    requires free { taken_at definition.row.name (taken_by entries.old count) ≡ None }
    ensures entered { table entries.new slots.new result ≡ entered (table entries.old slots.old count) definition }
    ensures sound { Sound same_name name_hash (names_in (table entries.new slots.new result)) slots.new }
{
    match insert(entries, count, slots, definition) {
        Entered::Added(_) => count + 1,
        _ => count,
    }
}

// Keeps a definition: the anonymous operation beside the tables, every other one in its table.
// Kept: the lent tables side by side, as in building a set.
pub fn keep_definition(
    definition: StoredDefinition,
    progress: Progress,
    operations: &mut [StoredDefinition],
    operation_slots: &mut [u32],
    fragments: &mut [StoredDefinition],
    fragment_slots: &mut [u32],
) -> Progress
    requires free { Free (role_of (stored_head definition)) definition.row.name (table operations.old operation_slots.old progress.operations) (table fragments.old fragment_slots.old progress.fragments) }
    requires operations { Indexed (table operations.old operation_slots.old progress.operations) }
    requires fragments { Indexed (table fragments.old fragment_slots.old progress.fragments) }
    ensures kept { (rows : List StoredRow) (errors : List BuildError) (keys : List ℕ) → held result operations.new operation_slots.new fragments.new fragment_slots.new rows errors keys ≡ store_as (role_of (stored_head definition)) (held progress operations.old operation_slots.old fragments.old fragment_slots.old rows errors keys) definition }
    ensures operations { Indexed (table operations.new operation_slots.new result.operations) }
    ensures fragments { Indexed (table fragments.new fragment_slots.new result.fragments) }
{
    let mut next = progress;
    match definition.row.definition_kind() {
        Some(DefinitionKind::Operation) if definition.row.name == 0 => next.anonymous = Some(
            definition,
        ),
        Some(DefinitionKind::Operation) => {
            next.operations = enter_definition(
                definition,
                operations,
                progress.operations,
                operation_slots,
            );
        }
        Some(DefinitionKind::Fragment) => {
            next.fragments = enter_definition(
                definition,
                fragments,
                progress.fragments,
                fragment_slots,
            );
        }
        _ => {}
    }
    next
}
