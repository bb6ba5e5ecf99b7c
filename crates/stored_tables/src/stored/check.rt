// Whether stored definitions and rows keep the layout; else the first that does not.
ghost use Rattle.std.specs.Prelude.{◌≡◌, false, map, length, count_by};
ghost use Rattle.refusal.specs.Firsts.{verdict_of};
ghost use Rattle.selection_rules.specs.Stored.{stored_view};
ghost use Rattle.stored_tables.specs.Verdict.{first_place, alone, all_stored, holds, unfit, stray, unfit_in, broken_row, stored_fault, anonymous_broken};
ghost use Rattle.stored_tables.specs.Ranges.{Placed, InOrder, earlier, first_bound};

use super::StoredDocument;
use crate::definition::StoredDefinition;
use crate::fault::StoredFault;
use crate::ranges::{ending_behind, first_bound, first_broken, held_by_first};
use document::{DefinitionKind, MAX_DEPTH};
use layout::check_range;

// The earlier of two places.
fn earlier(a: Option<usize>, b: Option<usize>) -> Option<usize>
    ensures { result ≡ earlier a b }
{
    match (a, b) {
        (Some(a), Some(b)) => Some(a.min(b)),
        (None, place) | (place, None) => place,
    }
}

impl StoredDocument<'_> {
    // Whether the anonymous operation breaks the layout.
    fn is_anonymous_broken(&self) -> bool
        ensures { result ≡ anonymous_broken (length self.now.rows.now) self.now.anonymous }
    {
        match self.anonymous {
            Some(definition) => {
                let row = definition.row;
                !matches!(row.definition_kind(), Some(DefinitionKind::Operation))
                    || row.name != 0
                    || row.is_broken()
                    || definition.is_misplaced(0, self.rows.len())
            }
            None => false,
        }
    }

    // 1 where the row is in the range of the anonymous operation, else 0.
    fn held_by_anonymous(&self, row: usize) -> usize
        ensures { result ≡ count_by (holds row) (alone self.now.anonymous) }
    {
        match self.anonymous {
            Some(definition) if definition.holds(row) => 1,
            _ => 0,
        }
    }

    // The first of the rows behind this one from which on the anonymous operation's range begins or has ended; their number,
    // if there is none.
    fn anonymous_bound(&self, row: usize) -> usize
        ensures { result ≡ first_bound row (length self.now.rows.now) (alone self.now.anonymous) }
    {
        match &self.anonymous {
            Some(definition) => definition.bound_behind(row, self.rows.len()),
            None => self.rows.len(),
        }
    }

    // The first row that is in none of the ranges, or in several. The ranges of each table follow one another.
    // Kept, a loop by hand: the rows up to the next bound of a range are in the same ranges, and are passed over.
    fn first_stray(&self) -> Option<usize>
        requires operations { InOrder (length self.now.rows.now) 0 self.now.operations.now }
        requires fragments { InOrder (length self.now.rows.now) 0 self.now.fragments.now }
        ensures { result ≡ first_place (stray (all_stored self.now.anonymous self.now.operations.now self.now.fragments.now)) 0 (length self.now.rows.now) }
    {
        let rows = self.rows.len();
        let mut operations = self.operations;
        let mut fragments = self.fragments;
        let mut row = 0;
        while row < rows {
            operations = ending_behind(operations, row);
            fragments = ending_behind(fragments, row);
            let ranges = held_by_first(operations, row)
                + held_by_first(fragments, row)
                + self.held_by_anonymous(row);
            if ranges != 1 {
                return Some(row);
            }
            row = first_bound(operations, row, rows)
                .min(first_bound(fragments, row, rows))
                .min(self.anonymous_bound(row));
        }
        None
    }

    // The first row that does not fit the range of a definition.
    fn misfit_in(&self, definition: &StoredDefinition) -> Option<usize>
        requires { Placed (length self.now.rows.now) definition.now }
        ensures { result ≡ first_place (λ row. unfit (map stored_view self.now.rows.now) row definition.now) 0 (length self.now.rows.now) }
    {
        let row = definition.row;
        match check_range(self.rows, row.first as usize, row.end as usize, MAX_DEPTH) {
            Ok(()) => None,
            Err(misfit) => Some(misfit.row - 1),
        }
    }

    // The first row that does not fit the range of one of the definitions, or the place before, if that is earlier.
    fn first_misfit(&self, definitions: &[StoredDefinition], before: Option<usize>) -> Option<usize>
        requires { InOrder (length self.now.rows.now) 0 definitions.now }
        ensures { result ≡ earlier before (first_place (unfit_in (map stored_view self.now.rows.now) definitions.now) 0 (length self.now.rows.now)) }
    {
        let mut first = before;
        for definition in definitions {
            first = earlier(first, self.misfit_in(definition));
        }
        first
    }

    // The first row that breaks the layout. The definitions are in order.
    fn first_broken_row(&self) -> Option<usize>
        requires anonymous { anonymous_broken (length self.now.rows.now) self.now.anonymous ≡ false }
        requires operations { InOrder (length self.now.rows.now) 0 self.now.operations.now }
        requires fragments { InOrder (length self.now.rows.now) 0 self.now.fragments.now }
        ensures { result ≡ first_place (broken_row (map stored_view self.now.rows.now) (all_stored self.now.anonymous self.now.operations.now self.now.fragments.now)) 0 (length self.now.rows.now) }
    {
        let mut first = self.first_misfit(self.operations, self.first_stray());
        first = self.first_misfit(self.fragments, first);
        match &self.anonymous {
            Some(definition) => earlier(first, self.misfit_in(definition)),
            None => first,
        }
    }

    /// Whether what is stored keeps the layout; else the first fault: of the anonymous operation, of the named operations,
    /// of the fragments, then of the rows. Nothing is changed.
    pub fn check(&self) -> Result<(), StoredFault>
        ensures { result ≡ verdict_of (stored_fault self.now.anonymous self.now.operations.now self.now.fragments.now self.now.rows.now) }
    {
        if self.is_anonymous_broken() {
            return Err(StoredFault::InAnonymous);
        }
        let rows = self.rows.len();
        if let Some(i) = first_broken(self.operations, DefinitionKind::Operation, rows) {
            return Err(StoredFault::InOperations(i + 1));
        }
        if let Some(i) = first_broken(self.fragments, DefinitionKind::Fragment, rows) {
            return Err(StoredFault::InFragments(i + 1));
        }
        match self.first_broken_row() {
            Some(row) => Err(StoredFault::InRows(row + 1)),
            None => Ok(()),
        }
    }
}
