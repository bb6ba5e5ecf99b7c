// An ordered index by itself.
use crate::answer::{Answer, Fault};
use crate::entries::IndexEntry;
use crate::line::{Line, cut, number, number_at, number_of};
use ordered_index::{Entered, agrees, agrees_in_use, empty, enter_after, find, in_use, insert};
use std::alloc::Global;

/// Entries, how many of them are in use, and the slots of their index.
#[derive(Drop)]
pub struct IndexDesk<E> {
    entries: Vec<E>,
    count: usize,
    slots: Vec<u32>,
}

impl<E: IndexEntry> IndexDesk<E> {
    /// No entries and no slots.
    pub fn new(heap: Global) -> IndexDesk<E> {
        IndexDesk {
            entries: Vec::new(heap),
            count: 0,
            slots: Vec::new(heap),
        }
    }

    /// The answer to a line about the index, or none where the line is about something else.
    pub fn answer(&mut self, heap: Global, line: &Line<'_>) -> Result<Option<Answer>, Fault> {
        match line.keyword {
            "entries" => self.make(heap, line)?,
            "insert" => return Ok(Some(self.insert(heap, line)?)),
            "enter" => return Ok(Some(self.enter(heap, line)?)),
            "find" => return Ok(Some(self.find(heap, line)?)),
            "each_in_place" => return Ok(Some(self.each_in_place(heap)?)),
            "slot" => self.write(line)?,
            "name" => self.write_entry(line)?,
            "empty" => empty::<E>(self.slots.as_mut_slice()),
            "held_slots" => return Ok(Some(Answer::numbers(heap, self.slots.as_slice())?)),
            "held_entries" => return Ok(Some(self.held_entries(heap)?)),
            "sound" => return Ok(Some(self.is_sound(line)?)),
            _ => return Ok(None),
        }
        Ok(Some(Answer::Done))
    }

    // `ENTRIES SLOTS COUNT`: so many entries, of which so many are in use.
    fn make(&mut self, heap: Global, line: &Line<'_>) -> Result<(), Fault> {
        let [entries, slots, count] = line.numbers::<3>()?;
        self.entries = vec![in heap; E::unwritten(); entries as usize]?;
        self.count = count as usize;
        self.slots = vec![in heap; 0u32; slots as usize]?;
        Ok(())
    }

    // Another index that is the same.
    fn copied(&self, heap: Global) -> Result<IndexDesk<E>, Fault> {
        Ok(IndexDesk {
            entries: self.entries.as_slice().to_vec(heap)?,
            count: self.count,
            slots: self.slots.as_slice().to_vec(heap)?,
        })
    }

    // Whether entries and slots are those of another index.
    fn is_as(&self, other: &IndexDesk<E>) -> bool {
        self.entries == other.entries && self.slots == other.slots
    }

    // Whether the entry stands in this place.
    fn stands(&self, place: usize, entry: E) -> bool {
        self.entries.get(place) == Some(&entry)
    }

    // `ENTRY`: how many are added, present, and refused. An entry that is added is to stand behind those in use, with the index
    // sound and the other entries as they were; one that is not, to change nothing.
    fn insert(&mut self, heap: Global, line: &Line<'_>) -> Result<Answer, Fault> {
        let mut counts = [0u32; 3];
        for turn in 0..line.times {
            let entry = E::read(line.words, turn)?;
            let before = self.copied(heap)?;
            let (entries, slots) = (self.entries.as_mut_slice(), self.slots.as_mut_slice());
            let entered = insert(entries, self.count, slots, entry);
            if let Some(word) = self.amiss(before, entry, entered) {
                return Ok(Answer::Word(word));
            }
            let place = match entered {
                Entered::Added(_) => {
                    self.count = self.count.wrapping_add(1);
                    0
                }
                Entered::Present(_) => 1,
                Entered::Full => 2,
            };
            counts[place] = counts[place].wrapping_add(1);
        }
        Answer::numbers(heap, &counts)
    }

    // What is amiss, if anything is, where inserting an entry came to this.
    fn amiss(&self, mut before: IndexDesk<E>, entry: E, entered: Entered) -> Option<&'static str> {
        if let Entered::Added(place) = entered {
            if place != self.count || !self.stands(place, entry) {
                return Some("another place");
            }
            *before.entries.get_mut(place)? = entry;
            if self.entries != before.entries {
                return Some("overwritten");
            }
            let used = in_use(self.entries.as_slice(), place.wrapping_add(1));
            if !agrees(used, self.slots.as_slice()) {
                return Some("the index is not sound");
            }
            return None;
        }
        if let Entered::Present(place) = entered {
            if place >= self.count || !self.stands(place, entry) {
                return Some("another place");
            }
        }
        if self.is_as(&before) {
            None
        } else {
            Some("overwritten")
        }
    }

    // `ENTRY`: its place, new or as it was. Where it is not new, no slot is to be written.
    fn enter(&mut self, heap: Global, line: &Line<'_>) -> Result<Answer, Fault> {
        let key = E::read(line.words, 0)?.key();
        let before = self.slots.as_slice().to_vec(heap)?;
        let (entries, slots) = (self.entries.as_slice(), self.slots.as_mut_slice());
        match enter_after(entries, self.count, slots, &key) {
            Entered::Added(place) => Answer::numbers(heap, &[number_of(place), 1]),
            _ if self.slots != before => Ok(Answer::Overwritten),
            Entered::Present(place) => Answer::numbers(heap, &[number_of(place), 0]),
            Entered::Full => Ok(Answer::Word("full")),
        }
    }

    // `ENTRY`: its place among the entries in use.
    fn find(&self, heap: Global, line: &Line<'_>) -> Result<Answer, Fault> {
        let key = E::read(line.words, 0)?.key();
        let used = in_use(self.entries.as_slice(), self.count);
        match find(used, self.slots.as_slice(), &key) {
            Some(place) => Answer::numbers(heap, &[number_of(place)]),
            None => Ok(Answer::Word("none")),
        }
    }

    // Whether each entry in use is in its place, which is to change nothing.
    fn each_in_place(&mut self, heap: Global) -> Result<Answer, Fault> {
        let before = self.copied(heap)?;
        for place in 0..self.count {
            if !self.is_in_place(place) {
                return Ok(Answer::Word("another place"));
            }
        }
        if self.is_as(&before) {
            Ok(Answer::Word("yes"))
        } else {
            Ok(Answer::Overwritten)
        }
    }

    // Whether the entry in this place is found there, is not there for one who looks at those before it only, and is present
    // there where it is inserted or entered again.
    fn is_in_place(&mut self, place: usize) -> bool {
        let (entries, slots) = (self.entries.as_mut_slice(), self.slots.as_mut_slice());
        let Some(entry) = entries.get(place).copied() else {
            return false;
        };
        let key = entry.key();
        find(in_use(entries, self.count), slots, &key) == Some(place)
            && find(in_use(entries, place), slots, &key).is_none()
            && insert(entries, self.count, slots, entry) == Entered::Present(place)
            && enter_after(entries, self.count, slots, &key) == Entered::Present(place)
    }

    // `PLACE NUMBER`
    fn write(&mut self, line: &Line<'_>) -> Result<(), Fault> {
        let (place, value) = cut(line.words);
        for turn in 0..line.times {
            let place = number_at(place, turn)? as usize;
            *self.slots.get_mut(place).ok_or(Fault::BadLine)? = number_at(value, turn)?;
        }
        Ok(())
    }

    // `PLACE ENTRY`
    fn write_entry(&mut self, line: &Line<'_>) -> Result<(), Fault> {
        let (place, words) = cut(line.words);
        for turn in 0..line.times {
            let place = number_at(place, turn)? as usize;
            let entry = E::read(words, turn)?;
            *self.entries.get_mut(place).ok_or(Fault::BadLine)? = entry;
        }
        Ok(())
    }

    // All entries, in use or not.
    fn held_entries(&self, heap: Global) -> Result<Answer, Fault> {
        let mut numbers = Vec::new(heap);
        for entry in self.entries.iter() {
            entry.push_to(&mut numbers)?;
        }
        Ok(Answer::Numbers(numbers))
    }

    // `COUNT`: whether the slots are a sound index of so many entries.
    fn is_sound(&self, line: &Line<'_>) -> Result<Answer, Fault> {
        let count = number(line.words)? as usize;
        if agrees_in_use(self.entries.as_slice(), count, self.slots.as_slice()) {
            Ok(Answer::Word("yes"))
        } else {
            Ok(Answer::Word("no"))
        }
    }
}
