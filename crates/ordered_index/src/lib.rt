// The ordered index: entries keep their order of entry, each key once, and are found by hash and probing.
//
// An index is a row of slots beside a table of entries; both are lent by the caller. A slot holds 0, or the place of
// an entry plus 1. One text serves every type of entry and key. No call asks anything of its caller: on slots and
// entries that are no sound index each call still answers what the probe, as defined, comes to. So in its promises that
// the index is sound is a premise, and no invariant of a type.
#![tactic(auto)]

mod check;
mod index;
mod key;
mod keys;
mod probe;

pub use check::{agrees, agrees_in_use};
pub use index::{Entered, empty, enter, enter_after, find, in_use, insert};
pub use key::{Entry, Key};
pub use keys::TypeField;
