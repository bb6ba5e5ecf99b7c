// Whether two stored definitions, or two stored rows, agree in their own members: all but locations, firsts and ends.
ghost use Rattle.std.specs.Prelude.{Decides};
ghost use Rattle.selection_rules.specs.Stored.{stored_of};
ghost use Rattle.finished_rules.specs.SameTables.{SameStored, SameMembers};

use selection_rules::StoredRow;
use stored_tables::StoredDefinition;

// Whether two definitions agree beside their rows.
pub fn same_members(a: &StoredDefinition, b: &StoredDefinition) -> bool
    ensures { Decides result (SameMembers a.now b.now) }
{
    a.row.kind == b.row.kind
        && a.row.operation_type == b.row.operation_type
        && a.row.name == b.row.name
        && a.row.condition == b.row.condition
        && a.row.variables == b.row.variables
        && a.row.directives == b.row.directives
        && a.set_type == b.set_type
}

// Whether two rows agree beside the rows beneath them.
pub fn same_selection(a: &StoredRow, b: &StoredRow) -> bool
    ensures { Decides result (SameStored (stored_of a.now) (stored_of b.now)) }
{
    a.selection.kind == b.selection.kind
        && a.selection.name == b.selection.name
        && a.selection.alias == b.selection.alias
        && a.selection.condition == b.selection.condition
        && a.selection.arguments == b.selection.arguments
        && a.selection.directives == b.selection.directives
        && a.place == b.place
        && a.set_type == b.set_type
}
