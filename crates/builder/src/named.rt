// Stored definitions as the rules look at them: those in use, found by their names through a sound index; and, beside the
// two tables, the anonymous operation.
ghost use Rattle.std.specs.Prelude.{◌≡◌, map, length};
ghost use Rattle.ordered_index.specs.Keys.{same_name, name_hash};
ghost use Rattle.ordered_index.specs.Sound.{Sound};
ghost use Rattle.building_rules.specs.Definitions.{taken_at};
ghost use Rattle.stored_tables.specs.Layout.{name_of};

use ordered_index::find;
use stored_tables::StoredDefinition;

/// The definitions in use of a table, and slots that are a sound index of their names.
#[derive(Clone, Copy)]
pub struct Named<'t> {
    pub definitions: &'t [StoredDefinition],
    pub slots: &'t [u32],
    ghost sound: { ∥ Sound same_name name_hash (map name_of definitions.now) slots.now ∥₁ },
}

impl Named<'_> {
    ghost use Rattle.builder.specs.Holding.{taken_by};

    /// Where the name is taken: the location of the name in the definition that has it.
    pub fn location_of(&self, name: u32) -> Option<u32>
        ensures { result ≡ taken_at name (taken_by self.now.definitions.now (length self.now.definitions.now)) }
    {
        let place = find(self.definitions, self.slots, &name)?;
        Some(self.definitions[place].row.name_location)
    }
}

/// What is stored: the named operations, the fragments and the anonymous operation; and whether its collision with
/// another one was listed.
#[derive(Clone, Copy)]
pub struct Stored<'t> {
    pub operations: Named<'t>,
    pub fragments: Named<'t>,
    pub anonymous: Option<StoredDefinition>,
    pub multiple_anonymous: bool,
}
