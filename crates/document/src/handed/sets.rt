// Reading selections as sets: the rows that stand directly in a set, one after the other, each with the set beneath it.
ghost use Rattle.std.specs.Prelude.{◌≡◌, ℕ, ◌<◌, List, length, nat_le, slice_index_or};
ghost use Rattle.layout.specs.Forest.{Forest};
ghost use Rattle.document.specs.Rows.{Selection};
ghost use Rattle.document.specs.Document.{Definition, IsDocument, no_definition};
ghost use Rattle.document.specs.Sets.{next_of, set_of, set_for, Holds, Follows};

use super::Document;
use crate::rows::{DefinitionRow, SelectionRow};

/// The selections of a set that are still to come.
#[derive(Clone, Copy)]
pub struct SelectionSet {
    next: usize,
    end: usize,
}

/// A selection of a set: its row and place, the set beneath it, and the rest of its own set.
#[derive(Clone, Copy)]
pub struct SelectionStep {
    pub place: usize,
    pub row: SelectionRow,
    pub beneath: SelectionSet,
    pub after: SelectionSet,
}

impl SelectionSet {
    /// Whether no selection is left in the set.
    pub fn is_empty(self) -> bool
        ensures { result ≡ nat_le self.end self.next }
    {
        self.next >= self.end
    }
}

impl DefinitionRow {
    // The selections that stand directly in the definition.
    pub(super) fn selections(&self) -> SelectionSet
        ensures { result ≡ set_of self.now.first self.now.end }
    {
        SelectionSet {
            next: self.first as usize,
            end: self.end as usize,
        }
    }
}

impl Document<'_> {
    /// The selections that stand directly in a definition, by its place; none past the last definition.
    pub fn selections(&self, definition: usize) -> SelectionSet
        ensures set { result ≡ set_for self.now.definitions.now definition }
        ensures forest { (document : List Definition) → IsDocument self.now.definitions.now self.now.rows.now document → Holds self.now.rows.now result (slice_index_or document definition no_definition).selected }
    {
        match self.definitions.get(definition) {
            Some(row) => row.selections(),
            None => SelectionSet { next: 0, end: 0 },
        }
    }

    /// The next selection of a set, with what stands beneath it and the rest of the set.
    // Kept, no iterator of its own: on rows that were not checked an end may lead a set back to itself, and an iterator
    // without a bound need not end there. Callers know that the rows were checked, or bring a bound of their own.
    pub fn next_selection(&self, set: SelectionSet) -> Option<SelectionStep>
        ensures step { result ≡ next_of self.now.rows.now set }
        ensures forest { (f : Forest Selection) → Holds self.now.rows.now set f → Follows self.now.rows.now set f result }
    {
        if set.is_empty() {
            return None;
        }
        let row = self.rows.get(set.next)?;
        let end = row.end as usize;
        Some(SelectionStep {
            place: set.next,
            row: *row,
            beneath: SelectionSet {
                next: set.next + 1,
                end,
            },
            after: SelectionSet { next: end, ..set },
        })
    }
}
