// Finding an entry by its key, entering one more key, and starting from none.
ghost use Rattle.std.specs.Prelude.{◌≡◌, false, [], map, length, take, replicate};
ghost use Rattle.std.specs.Int.{IsPowerOfTwo};
ghost use Rattle.ordered_index.specs.Slots.{limit};
ghost use Rattle.ordered_index.specs.Sound.{Sound, Located, keys_of};
ghost use Rattle.ordered_index.specs.Probing.{probe_for, found_at};
ghost use Rattle.ordered_index.specs.Entering.{entered, present, slots_after, entries_after, keys_after, count_after, enter_room, room_after, insert_room};

use crate::key::{Entry, Key};
use crate::probe::{Probed, probe};

// What entering a key comes to: its place where it was there, its new place, or no place left.
// Kept: no `Option` or `Result` has these three cases, and a caller that matches on it names each of them.
#[derive(Clone, Copy, PartialEq, Eq, Debug)]
pub enum Entered {
    Present(usize),
    Added(usize),
    Full,
}

/// The entries in use of a table with a count beside it: the first `count`, or all where there are fewer.
pub fn in_use<E>(entries: &[E], count: usize) -> &[E]
    ensures { result.now ≡ take count entries.now }
{
    &entries[..count.min(entries.len())]
}

// How many keys an index may hold: half as many as it has slots, and no more than a slot can name.
pub fn limit_of(slots: &[u32]) -> usize
    ensures { result ≡ limit slots.now }
{
    (slots.len() / 2).min(0xffff_ffff)
}

// Empties the slots: they are an index of no entry.
pub fn empty<E: Entry>(slots: &mut [u32])
    ensures clear { slots.new ≡ replicate (length slots.old) 0 }
    ensures sound { IsPowerOfTwo (length slots.old) → Sound E.Of.eq E.Of.digest [] slots.new }
{
    slots.fill(0);
}

// The place of the key among the entries.
pub fn find<E: Entry>(entries: &[E], slots: &[u32], key: &E::Of) -> Option<usize>
    ensures answer { result ≡ found_at (probe_for E.Of.eq E.Of.digest (map E.keyed entries.now) slots.now key.now) }
    ensures located { Sound E.Of.eq E.Of.digest (map E.keyed entries.now) slots.now → Located E.Of.eq (map E.keyed entries.now) key.now result }
{
    match probe(entries, slots, key) {
        Probed::Found(n) => Some(n),
        Probed::Vacant(_) | Probed::Round => None,
    }
}

// Gives the key the place after the entries, unless one of them has it. Only a slot is written: the entry itself
// stands there already, or is written by the caller.
pub fn enter<E: Entry>(entries: &[E], slots: &mut [u32], key: &E::Of) -> Entered
    ensures answer { result ≡ entered (probe_for E.Of.eq E.Of.digest (map E.keyed entries.now) slots.old key.now) (enter_room entries.now slots.old) (length entries.now) }
    ensures slots { slots.new ≡ slots_after (probe_for E.Of.eq E.Of.digest (map E.keyed entries.now) slots.old key.now) result slots.old }
    ensures located { Sound E.Of.eq E.Of.digest (map E.keyed entries.now) slots.old → Located E.Of.eq (map E.keyed entries.now) key.now (present result) }
    ensures full { Sound E.Of.eq E.Of.digest (map E.keyed entries.now) slots.old → result ≡ Entered.Full → enter_room entries.now slots.old ≡ false }
    ensures sound { Sound E.Of.eq E.Of.digest (map E.keyed entries.now) slots.old → Sound E.Of.eq E.Of.digest (keys_after (map E.keyed entries.now) result key.now) slots.new }
{
    match probe(entries, slots, key) {
        Probed::Found(n) => Entered::Present(n),
        Probed::Vacant(s) => {
            let count = entries.len();
            if count >= limit_of(slots) {
                return Entered::Full;
            }
            slots[s] = (count + 1) as u32;
            Entered::Added(count)
        }
        Probed::Round => Entered::Full,
    }
}

// The same with a count beside the entries: gives the key the place after the first `count` of them, unless one of these has
// it. Where there are fewer, that place is none, and a new key is not entered.
pub fn enter_after<E: Entry>(entries: &[E], count: usize, slots: &mut [u32], key: &E::Of) -> Entered
    ensures answer { result ≡ entered (probe_for E.Of.eq E.Of.digest (keys_of E.keyed count entries.now) slots.old key.now) (room_after entries.now count slots.old) count }
    ensures slots { slots.new ≡ slots_after (probe_for E.Of.eq E.Of.digest (keys_of E.keyed count entries.now) slots.old key.now) result slots.old }
    ensures located { Sound E.Of.eq E.Of.digest (keys_of E.keyed count entries.now) slots.old → Located E.Of.eq (keys_of E.keyed count entries.now) key.now (present result) }
    ensures full { Sound E.Of.eq E.Of.digest (keys_of E.keyed count entries.now) slots.old → result ≡ Entered.Full → room_after entries.now count slots.old ≡ false }
    ensures sound { Sound E.Of.eq E.Of.digest (keys_of E.keyed count entries.now) slots.old → Sound E.Of.eq E.Of.digest (keys_after (keys_of E.keyed count entries.now) result key.now) slots.new }
{
    if count > entries.len() {
        return find(entries, slots, key).map_or(Entered::Full, Entered::Present);
    }
    enter(&entries[..count], slots, key)
}

// Puts the entry after the first `count` entries, unless one of them has its key.
// Kept: the count stands beside the entries, since the entry is written behind those in use, in memory that is lent.
pub fn insert<E: Entry>(entries: &mut [E], count: usize, slots: &mut [u32], entry: E) -> Entered
    ensures answer { result ≡ entered (probe_for E.Of.eq E.Of.digest (keys_of E.keyed count entries.old) slots.old (E.keyed entry)) (insert_room entries.old count slots.old) count }
    ensures entries { entries.new ≡ entries_after entries.old result entry }
    ensures slots { slots.new ≡ slots_after (probe_for E.Of.eq E.Of.digest (keys_of E.keyed count entries.old) slots.old (E.keyed entry)) result slots.old }
    ensures located { Sound E.Of.eq E.Of.digest (keys_of E.keyed count entries.old) slots.old → Located E.Of.eq (keys_of E.keyed count entries.old) (E.keyed entry) (present result) }
    ensures full { Sound E.Of.eq E.Of.digest (keys_of E.keyed count entries.old) slots.old → result ≡ Entered.Full → insert_room entries.old count slots.old ≡ false }
    ensures sound { Sound E.Of.eq E.Of.digest (keys_of E.keyed count entries.old) slots.old → Sound E.Of.eq E.Of.digest (keys_of E.keyed (count_after count result) entries.new) slots.new }
{
    let key = entry.key();
    if count >= entries.len() {
        return match find(entries, slots, &key) {
            Some(n) => Entered::Present(n),
            None => Entered::Full,
        };
    }
    let entered = enter(&entries[..count], slots, &key);
    if let Entered::Added(n) = entered {
        entries[n] = entry;
    }
    entered
}
