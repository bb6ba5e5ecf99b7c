// Whether two sets of stored rows are the same: one pass over the rows of both, whatever stands beneath another.
ghost use Rattle.std.specs.Prelude.{Decides};
ghost use Rattle.layout.specs.Shapes.{forest_in};
ghost use Rattle.selection_rules.specs.Stored.{stored_selections};
ghost use Rattle.finished_rules.specs.SameTables.{SameSets};
ghost use Rattle.comparison.specs.Ranged.{Ranged};

use crate::members::same_selection;
use selection_rules::StoredRow;

// A set of a table: its rows stand from `first` up to `end`.
#[derive(Clone, Copy)]
pub struct RowSet<'t> {
    pub rows: &'t [StoredRow],
    pub first: usize,
    pub end: usize,
}

// Whether the rows of two sets are the same, in order, and as many.
// Rows stand in the order of a walk, so that what stands beneath two rows is the same where they end equally far from the
// first rows of their sets, and the rows up to there are the same.
pub fn same_set(a: &RowSet<'_>, b: &RowSet<'_>) -> bool
    requires first { Ranged a.now.rows.now a.now.first a.now.end }
    requires second { Ranged b.now.rows.now b.now.first b.now.end }
    ensures { Decides result (SameSets (forest_in stored_selections a.now.rows.now a.now.first a.now.end) (forest_in stored_selections b.now.rows.now b.now.first b.now.end)) }
{
    let rows_a = &a.rows[a.first..a.end];
    let rows_b = &b.rows[b.first..b.end];
    if rows_a.len() != rows_b.len() {
        return false;
    }
    for (row_a, row_b) in rows_a.iter().zip(rows_b) {
        let end_a = row_a.selection.end as usize + b.first;
        let end_b = row_b.selection.end as usize + a.first;
        if end_a != end_b || !same_selection(row_a, row_b) {
            return false;
        }
    }
    true
}
