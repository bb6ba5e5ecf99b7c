// Probing: from the slot that the hash chooses, slot by slot and around the end, to the key or to an empty slot.
ghost use Rattle.std.specs.Prelude.{◌≡◌, ◌<◌, map, length};
ghost use Rattle.ordered_index.specs.Slots.{slot_start, slot_after};
ghost use Rattle.ordered_index.specs.Probing.{probe_for};

use crate::key::{Entry, Key};

// Where a probe ends: at the key's place, at an empty slot, or with every slot looked at.
// Kept: no `Option` or `Result` has these three cases, and only an empty slot can take a new key.
#[derive(Clone, Copy)]
pub enum Probed {
    Found(usize),
    Vacant(usize),
    Round,
}

// The slot where a probe for this hash starts.
fn start_slot(hash: u32, size: usize) -> usize
    requires { 0 < size }
    ensures { result ≡ slot_start hash size }
{
    hash as usize % size
}

// The slot that is looked at after this one.
fn next_slot(at: usize, size: usize) -> usize
    requires { at < size }
    ensures { result ≡ slot_after at size }
{
    if at + 1 == size { 0 } else { at + 1 }
}

pub fn probe<E: Entry>(entries: &[E], slots: &[u32], key: &E::Of) -> Probed
    ensures { result ≡ probe_for E.Of.eq E.Of.digest (map E.keyed entries.now) slots.now key.now }
{
    let size = slots.len();
    if size == 0 {
        return Probed::Round;
    }
    let mut at = start_slot(key.hash(), size);
    // Kept: that the first slot and the next slot are one function each is a rule of the project, so no chain of two
    // ranges goes over the slots.
    for step in 0..size {
        let held = slots[at] as usize;
        if held == 0 {
            return Probed::Vacant(at);
        }
        if held <= entries.len() && entries[held - 1].key() == *key {
            return Probed::Found(held - 1);
        }
        at = next_slot(at, size);
    }
    Probed::Round
}
