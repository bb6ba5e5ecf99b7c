// Whether slots that are handed back are a sound index of the entries beside them.
ghost use Rattle.std.specs.Prelude.{◌≡◌, ℕ, ◌≤◌, map, nat_eq, Decides, slice_index};
ghost use Rattle.std.specs.Int.{IsPowerOfTwo};
ghost use Rattle.std.specs.List.{list_all, enumerate_from};
ghost use Rattle.std.specs.Option.{option_eq};
ghost use Rattle.ordered_index.specs.Slots.{used};
ghost use Rattle.ordered_index.specs.Sound.{Sound, keys_of};
ghost use Rattle.ordered_index.specs.Probing.{probe_for, found_at};

use crate::index::{find, in_use, limit_of};
use crate::key::{Entry, Key};

fn power_of_two(n: usize) -> bool
    ensures { Decides result (IsPowerOfTwo n) }
{
    n.is_power_of_two()
}

// Whether no slot holds more than `most`.
fn all_within(slots: &[u32], most: usize) -> bool
    ensures { Decides result ((s : ℕ) → slice_index slots.now s ≤ most) }
{
    slots.iter().all(|s| *s as usize <= most)
}

// How many slots are in use.
#[tactic(auto, using(crate::proofs::Used::few))]
fn count_used(slots: &[u32]) -> usize
    ensures { result ≡ used slots.now }
{
    slots.iter().map(|s| usize::from(*s > 0)).sum()
}

// Whether each entry is found at its own place.
fn each_found<E: Entry>(entries: &[E], slots: &[u32]) -> bool
    ensures { result ≡ list_all (λ placed. option_eq nat_eq (found_at (probe_for E.Of.eq E.Of.digest (map E.keyed entries.now) slots.now (E.keyed placed.1))) (Some placed.0)) (enumerate_from 0 entries.now) }
{
    entries
        .iter()
        .enumerate()
        .all(|(i, entry)| find(entries, slots, &entry.key()) == Some(i))
}

// Whether the slots are a sound index of the entries.
pub fn agrees<E: Entry>(entries: &[E], slots: &[u32]) -> bool
    ensures { Decides result (Sound E.Of.eq E.Of.digest (map E.keyed entries.now) slots.now) }
{
    power_of_two(slots.len())
        && entries.len() <= limit_of(slots)
        && all_within(slots, entries.len())
        && count_used(slots) == entries.len()
        && each_found(entries, slots)
}

// Whether the slots are a sound index of the first `count` entries: `agrees` for a table with a count beside it.
pub fn agrees_in_use<E: Entry>(entries: &[E], count: usize, slots: &[u32]) -> bool
    ensures { Decides result (Sound E.Of.eq E.Of.digest (keys_of E.keyed count entries.now) slots.now) }
{
    agrees(in_use(entries, count), slots)
}
