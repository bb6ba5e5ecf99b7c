// A table that owns its entries, and beside them the slots that find each entry by its key.
ghost use Rattle.std.specs.Prelude.{◌≡◌, map};
ghost use Rattle.std.specs.Option.{option_copied};
ghost use Rattle.ordered_index.specs.Sound.{Sound};
ghost use Rattle.table_schema.specs.Found.{KeysFound, first_with};

use ordered_index::{Entry, Key, find};

// Entries in their order, each found by its key.
#[derive(Drop)]
pub struct IndexedTable<E: Entry> {
    pub entries: Vec<E>,
    slots: Vec<u32>,
    ghost found: { KeysFound E.keyed E.Of.eq E.Of.digest entries.items slots.items },
}

impl<E: Entry> IndexedTable<E> {
    // The table of these entries, of which the slots are an index.
    pub fn new(entries: Vec<E>, slots: Vec<u32>) -> IndexedTable<E>
        requires { Sound E.Of.eq E.Of.digest (map E.keyed entries.items) slots.items }
        ensures { result.entries ≡ entries }
    {
        IndexedTable { entries, slots }
    }

    // The first entry that has the key.
    pub fn find(&self, key: &E::Of) -> Option<&E>
        ensures { option_copied result ≡ first_with E.keyed E.Of.eq key.now self.now.entries.items }
    {
        let place = find(self.entries.as_slice(), self.slots.as_slice(), key)?;
        self.entries.get(place)
    }
}
