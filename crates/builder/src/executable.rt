// A finished document: what a builder has stored, in the same tables.
ghost use Rattle.std.specs.Prelude.{◌≡◌, true, List, take, MatchOption};
ghost use Rattle.schema.specs.Meaning.{Meaning};
ghost use Rattle.building_rules.specs.Calls.{Call, kept};
ghost use Rattle.builder.specs.Finished.{Finished, finished_short, ReadFrom, IsFinished};

use finished_tables::{INDEX_SLOTS, IndexedDocument};
use ordered_index::in_use;
use schema::Schema;
use stored_tables::{StoredDefinition, StoredDocument, Tables};

/// A finished document over a schema. Nothing can be added to it. Its operations, fragments and rows stand in the tables of the
/// builder that it came from, which are lent to each call; it keeps how many there are of them.
#[derive(Drop)]
pub struct ExecutableDocument<'s, S> {
    pub(crate) schema: &'s S,
    pub(crate) operations: usize,
    pub(crate) fragments: usize,
    pub(crate) rows: usize,
    pub(crate) anonymous: Option<StoredDefinition>,
}

impl<'s, S: Schema> ExecutableDocument<'s, S> {
    // Whether a table is shorter than what is stored in it.
    fn is_too_long(&self, tables: &Tables<'_>) -> bool
        ensures { result ≡ finished_short self.now tables.now }
    {
        tables.operations.len() < self.operations
            || tables.fragments.len() < self.fragments
            || tables.rows.len() < self.rows
    }

    /// What is stored in the tables, with the slots of the indexes; nothing where a table is shorter than what is stored in it.
    pub fn stored<'t>(&self, tables: &'t Tables<'_>) -> Option<IndexedDocument<'t>>
        ensures stored { MatchOption result (finished_short self.now tables.now ≡ true) (ReadFrom self.now tables.now) }
        ensures kept { (m : Meaning) (calls : List Call) → Finished S.Schema.meaning m calls self.now tables.now → MatchOption result ⊥ (IsFinished (kept m calls)) }
    {
        if self.is_too_long(tables) {
            return None;
        }
        Some(IndexedDocument {
            stored: StoredDocument {
                anonymous: self.anonymous,
                operations: in_use(tables.operations, self.operations),
                fragments: in_use(tables.fragments, self.fragments),
                rows: in_use(tables.rows, self.rows),
            },
            operation_slots: in_use(tables.operation_slots, INDEX_SLOTS),
            fragment_slots: in_use(tables.fragment_slots, INDEX_SLOTS),
        })
    }
}
