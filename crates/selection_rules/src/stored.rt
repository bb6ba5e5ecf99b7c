// Selections as they are stored: with the place of their definition and the type of the set beneath.
ghost use Rattle.std.specs.Prelude.{◌≡◌};
ghost use Rattle.document.specs.Rows.{selection_of};
ghost use Rattle.selection_rules.specs.Stored.{stored, stored_row, stored_view};

use document::{SelectionKind, SelectionRow};
use layout::{Row, RowView};

/// A stored selection row. Its selection's end is that of its stored set, and 0 until the set is closed.
#[derive(Clone, Copy, Default)]
pub struct StoredRow {
    pub selection: SelectionRow,
    pub place: u32,
    pub set_type: u32,
}

impl StoredRow {
    /// The row of a selection whose set is not closed yet.
    pub fn open(row: &SelectionRow, place: u32, set_type: u32) -> StoredRow
        ensures { result ≡ stored_row (stored (selection_of row.now) place set_type) 0 }
    {
        StoredRow {
            selection: SelectionRow { end: 0, ..*row },
            place,
            set_type,
        }
    }
}

/// A stored row keeps the rules of its selection; a spread has neither place nor set type, an inline fragment no place.
impl Row for StoredRow {
    ghost seen = { stored_view };

    fn view(&self) -> RowView {
        let view = self.selection.view();
        let broken = match self.selection.selection_kind() {
            Some(SelectionKind::Spread) => self.place != 0 || self.set_type != 0,
            Some(SelectionKind::InlineFragment) => self.place != 0,
            _ => false,
        };
        RowView {
            broken: view.broken || broken,
            ..view
        }
    }
}
