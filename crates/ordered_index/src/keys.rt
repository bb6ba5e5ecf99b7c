// The two types of keys: a name, which is its number, and a field of a type by both names.
ghost use Rattle.ordered_index.specs.Keys.{name_hash, field_hash};
ghost use Rattle.ordered_index.specs.Laws.{name_lawful, field_lawful};

use crate::key::{Entry, Key};

// Names are given in order of their first use, so near numbers should go to slots of their own: the upper half of a
// product with an odd constant near 2^32 divided by the golden ratio does that.
impl Key for u32 {
    ghost digest = { name_hash };

    ghost lawful = { name_lawful };

    fn hash(&self) -> u32 {
        self.wrapping_mul(2654435769) >> 16
    }
}

/// A field of a type: the type that owns it and its name there.
#[derive(Clone, Copy, PartialEq, Eq)]
pub struct TypeField {
    pub owner: u32,
    pub field: u32,
}

impl Key for TypeField {
    ghost digest = { field_hash };

    ghost lawful = { field_lawful };

    fn hash(&self) -> u32 {
        let owner = self.owner.wrapping_mul(2654435769);
        owner.wrapping_add(self.field.wrapping_mul(2246822507)) >> 16
    }
}
