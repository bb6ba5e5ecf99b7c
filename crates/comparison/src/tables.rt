// Whether two tables of stored definitions are the same, with their rows: definitions are matched by name.
ghost use Rattle.std.specs.Prelude.{Decides, map};
ghost use Rattle.ordered_index.specs.Keys.{same_name, name_hash};
ghost use Rattle.ordered_index.specs.Sound.{Sound};
ghost use Rattle.stored_tables.specs.Layout.{name_of};
ghost use Rattle.finished_rules.specs.SameTables.{SameDefinition, SameAnonymous, SameTables};
ghost use Rattle.comparison.specs.Ranged.{RangedIn, RangedIf, Ready};

use crate::members::same_members;
use crate::sets::{RowSet, same_set};
use ordered_index::find;
use selection_rules::StoredRow;
use stored_tables::StoredDefinition;

// Stored definitions, the slots of the index of their names, and the rows in which their ranges lie.
#[derive(Clone, Copy)]
pub struct DefinitionTable<'t> {
    pub definitions: &'t [StoredDefinition],
    pub slots: &'t [u32],
    pub rows: &'t [StoredRow],
}

// Whether two definitions are the same, each with its rows.
fn same_definition(
    a: &StoredDefinition,
    rows: &[StoredRow],
    b: &StoredDefinition,
    others: &[StoredRow],
) -> bool
    requires first { RangedIn rows.now a.now }
    requires second { RangedIn others.now b.now }
    ensures { Decides result (SameDefinition rows.now others.now a.now b.now) }
{
    let set_a = RowSet {
        rows,
        first: a.row.first as usize,
        end: a.row.end as usize,
    };
    let set_b = RowSet {
        rows: others,
        first: b.row.first as usize,
        end: b.row.end as usize,
    };
    same_members(a, b) && same_set(&set_a, &set_b)
}

// Whether both documents have an anonymous operation, the same, or neither has one.
pub fn same_anonymous(
    a: Option<StoredDefinition>,
    rows: &[StoredRow],
    b: Option<StoredDefinition>,
    others: &[StoredRow],
) -> bool
    requires first { RangedIf rows.now a }
    requires second { RangedIf others.now b }
    ensures { Decides result (SameAnonymous rows.now others.now a b) }
{
    match (a, b) {
        (Some(a), Some(b)) => same_definition(&a, rows, &b, others),
        (None, None) => true,
        _ => false,
    }
}

// Whether two tables have as many definitions, and each of the one is the same as the one of its name in the other.
pub fn same_table(a: &DefinitionTable<'_>, b: &DefinitionTable<'_>) -> bool
    requires first { Ready a.now }
    requires second { Ready b.now }
    ensures { Decides result (SameTables a.now.rows.now b.now.rows.now a.now.definitions.now b.now.definitions.now) }
{
    if a.definitions.len() != b.definitions.len() {
        return false;
    }
    for definition in a.definitions {
        let Some(place) = find(b.definitions, b.slots, &definition.row.name) else {
            return false;
        };
        if !same_definition(definition, a.rows, &b.definitions[place], b.rows) {
            return false;
        }
    }
    true
}
