// Whether the slots are the indexes of what is stored.
ghost use Rattle.std.specs.Prelude.{Decides, ◌≡◌, map, length};
ghost use Rattle.ordered_index.specs.Keys.{same_name, name_hash};
ghost use Rattle.ordered_index.specs.Sound.{Sound};
ghost use Rattle.stored_tables.specs.Layout.{name_of};
ghost use Rattle.finished_tables.specs.Indexes.{HasIndexes};

use crate::indexed::IndexedDocument;
use ordered_index::agrees;
use stored_tables::StoredDefinition;

/// How many slots an index has.
pub const INDEX_SLOTS: usize = 512;

// Whether the slots are as many as an index has, and those of the definitions' names.
fn is_index(definitions: &[StoredDefinition], slots: &[u32]) -> bool
    ensures { Decides result ((length slots.now ≡ 512) × Sound same_name name_hash (map name_of definitions.now) slots.now) }
{
    slots.len() == INDEX_SLOTS && agrees(definitions, slots)
}

impl IndexedDocument<'_> {
    /// Whether both indexes are those of the stored names.
    pub fn has_indexes(&self) -> bool
        ensures { Decides result (HasIndexes self.now) }
    {
        is_index(self.stored.operations, self.operation_slots)
            && is_index(self.stored.fragments, self.fragment_slots)
    }
}
