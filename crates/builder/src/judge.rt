// Whether a document can be added: the refusals of adding, in their order. Nothing is changed.
ghost use Rattle.std.specs.Prelude.{◌≡◌, ◌≤◌, Bool, List, not, map, length, take, Decides, IfOk};
ghost use Rattle.ordered_index.specs.Keys.{same_name, name_hash};
ghost use Rattle.ordered_index.specs.Sound.{Sound};
ghost use Rattle.document.specs.Document.{Definition};
ghost use Rattle.stored_tables.specs.Layout.{name_of};
ghost use Rattle.builder.specs.Taking.{AllReady};
ghost use Rattle.builder.specs.Adding.{held_in, too_short, IsIndexed, passes, crowded, Answers};

use crate::fault::BuilderFault;
use crate::limits::{MAX_ERRORS, MAX_FRAGMENTS, MAX_OPERATIONS, MAX_PATH_KEYS, MAX_STORED_ROWS};
use crate::progress::Progress;
use document::{Document, Needs, check_sizes};
use finished_tables::INDEX_SLOTS;
use ordered_index::{agrees, in_use};
use stored_tables::{StoredDefinition, StoredDocument, Tables};

// Whether so many places more can be filled, in a table of this length and under this limit.
fn has_room(filled: usize, needed: usize, long: usize, limit: usize) -> bool
    ensures { result ≡ not (passes filled needed long limit) }
{
    let most = long.min(limit);
    filled <= most && needed <= most - filled
}

// Whether the first slots are an index of the definitions.
fn is_index(definitions: &[StoredDefinition], slots: &[u32]) -> bool
    ensures { Decides result ((512 ≤ length slots.now) × Sound same_name name_hash (map name_of definitions.now) (take 512 slots.now)) }
{
    slots.len() >= INDEX_SLOTS && agrees(definitions, &slots[..INDEX_SLOTS])
}

impl Progress {
    // Whether a table is shorter than what is stored in it.
    fn is_too_long(&self, tables: &Tables<'_>) -> bool
        ensures { result ≡ too_short self.now tables.now }
    {
        tables.operations.len() < self.operations
            || tables.fragments.len() < self.fragments
            || tables.rows.len() < self.filled.rows
            || tables.errors.len() < self.filled.errors
            || tables.path_keys.len() < self.filled.path_keys
    }

    /// What is stored in the tables.
    pub fn stored<'t>(&self, tables: &'t Tables<'_>) -> StoredDocument<'t>
        ensures anonymous { result.anonymous ≡ self.now.anonymous }
        ensures operations { result.operations.now ≡ take self.now.operations tables.now.operations.now }
        ensures fragments { result.fragments.now ≡ take self.now.fragments tables.now.fragments.now }
        ensures rows { result.rows.now ≡ take self.now.filled.rows tables.now.rows.now }
    {
        StoredDocument {
            anonymous: self.anonymous,
            operations: in_use(tables.operations, self.operations),
            fragments: in_use(tables.fragments, self.fragments),
            rows: in_use(tables.rows, self.filled.rows),
        }
    }

    // Whether both indexes are those of the stored names.
    fn is_indexed(&self, tables: &Tables<'_>) -> bool
        ensures { Decides result (IsIndexed self.now tables.now) }
    {
        let stored = self.stored(tables);
        is_index(stored.operations, tables.operation_slots)
            && is_index(stored.fragments, tables.fragment_slots)
    }

    // Whether there is room for what is needed.
    fn has_room(&self, tables: &Tables<'_>, needs: Needs) -> bool
        ensures { result ≡ not (crowded self.now tables.now needs) }
    {
        let filled = self.filled;
        has_room(
            self.operations,
            needs.operations,
            tables.operations.len(),
            MAX_OPERATIONS,
        ) && has_room(
            self.fragments,
            needs.fragments,
            tables.fragments.len(),
            MAX_FRAGMENTS,
        ) && has_room(filled.rows, needs.rows, tables.rows.len(), MAX_STORED_ROWS)
            && has_room(filled.errors, needs.errors, tables.errors.len(), MAX_ERRORS)
            && has_room(
                filled.path_keys,
                needs.path_keys,
                tables.path_keys.len(),
                MAX_PATH_KEYS,
            )
    }

    /// Refuses a document that cannot be added.
    pub fn judge(&self, tables: &Tables<'_>, document: &Document<'_>) -> Result<(), BuilderFault>
        ensures answer { Answers self.now tables.now document.now.definitions.now document.now.rows.now result }
        ensures ready { IfOk result (λ _. ((strict : Bool) → (d : List Definition) × AllReady document.now.definitions.now document.now.rows.now strict d (held_in self.now tables.now))) }
    {
        check_sizes(document.definitions.len(), document.rows.len())?;
        if self.is_too_long(tables) {
            return Err(BuilderFault::TableTooShort);
        }
        self.stored(tables).check()?;
        let needs = document.needs()?;
        if !self.is_indexed(tables) {
            return Err(BuilderFault::IndexUnfit);
        }
        if !self.has_room(tables, needs) {
            return Err(BuilderFault::NoRoom);
        }
        Ok(())
    }
}
