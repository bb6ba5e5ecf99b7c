// What stands in an index by itself: names, and fields of types by the names of both.
use crate::answer::Fault;
use crate::line::{cut, number_at};
use ordered_index::{Entry, TypeField};
use std::alloc::AllocError;

/// An entry that lines name by numbers.
pub trait IndexEntry: Entry + Clone + PartialEq {
    /// What stands in places that no call has written.
    fn unwritten() -> Self;

    /// The entry that the words come to in this turn.
    fn read(words: &str, turn: u32) -> Result<Self, Fault>;

    /// Puts its numbers behind these.
    fn push_to(&self, numbers: &mut Vec<u32>) -> Result<(), AllocError>;
}

/// An entry that is nothing but a name.
#[derive(Clone, Copy, PartialEq, Eq)]
pub struct Named {
    name: u32,
}

impl Entry for Named {
    type Of = u32;

    ghost keyed = { λ e. e.name };

    fn key(&self) -> u32 {
        self.name
    }
}

impl IndexEntry for Named {
    fn unwritten() -> Named {
        Named { name: 7 }
    }

    // `NAME`
    fn read(words: &str, turn: u32) -> Result<Named, Fault> {
        Ok(Named {
            name: number_at(words, turn)?,
        })
    }

    fn push_to(&self, numbers: &mut Vec<u32>) -> Result<(), AllocError> {
        numbers.push(self.name)?;
        Ok(())
    }
}

/// An entry that is a field of a type.
#[derive(Clone, Copy, PartialEq, Eq)]
pub struct Owned {
    owner: u32,
    field: u32,
}

impl Entry for Owned {
    type Of = TypeField;

    ghost keyed = { λ e. record { owner = e.owner; field = e.field } };

    fn key(&self) -> TypeField {
        TypeField {
            owner: self.owner,
            field: self.field,
        }
    }
}

impl IndexEntry for Owned {
    fn unwritten() -> Owned {
        Owned { owner: 7, field: 7 }
    }

    // `OWNER FIELD`
    fn read(words: &str, turn: u32) -> Result<Owned, Fault> {
        let (owner, field) = cut(words);
        Ok(Owned {
            owner: number_at(owner, turn)?,
            field: number_at(field, turn)?,
        })
    }

    fn push_to(&self, numbers: &mut Vec<u32>) -> Result<(), AllocError> {
        numbers.push(self.owner)?;
        numbers.push(self.field)?;
        Ok(())
    }
}
