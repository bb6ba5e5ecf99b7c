// Walks over finished documents, and their comparison.
use crate::answer::{Answer, Fault};
use crate::desk::{Desk, UNWRITTEN};
use crate::line::{Line, all_are, number, number_of};
use executable::{all_fields, compare, is_introspection};
use owned_tables::WalkTables;
use schema::Schema;
use std::alloc::Global;

// What stands in marks that no walk has written.
const UNMARKED: u8 = 7;

// Whether nothing has written the marks and the list.
fn is_untouched(walk: &WalkTables) -> bool {
    all_are(walk.marks.as_slice(), UNMARKED) && all_are(walk.list.as_slice(), UNWRITTEN)
}

// Whether the marks of so many fragments are clear, and nothing has written the others.
fn is_cleared(marks: &[u8], fragments: usize) -> bool {
    let (first, rest) = marks.split_at(fragments.min(marks.len()));
    all_are(first, 0) && all_are(rest, UNMARKED)
}

impl<'s, S: Schema> Desk<'s, S> {
    // How many fragments the finished document has.
    fn fragment_count(&mut self) -> Result<usize, Fault> {
        let document = self.document.as_ref().ok_or(Fault::BadLine)?;
        let tables = self.owned.lend();
        match document.stored(&tables) {
            Some(indexed) => Ok(indexed.stored.fragments.len()),
            None => Ok(0),
        }
    }

    // Marks and list hold what no walk writes.
    fn untouch(&mut self) {
        self.walk.marks.as_mut_slice().fill(UNMARKED);
        self.walk.list.as_mut_slice().fill(UNWRITTEN);
    }

    /// `OPERATION`: how many fields it reaches, the sum of their places among the rows, and the first six places. Behind them
    /// the list is to stay as it was, and the marks to be clear.
    pub fn fields(&mut self, heap: Global, line: &Line<'_>) -> Result<Answer, Fault> {
        let fragments = self.fragment_count()?;
        self.untouch();
        let document = self.document.as_ref().ok_or(Fault::BadLine)?;
        let reached = all_fields(
            document,
            &self.owned.lend(),
            number(line.words)? as usize,
            self.walk.stack.as_mut_slice(),
            self.walk.marks.as_mut_slice(),
            Some(self.walk.list.as_mut_slice()),
        );
        let count = match reached {
            Ok(count) => count,
            Err(fault) => return Answer::refused(heap, fault, is_untouched(&self.walk)),
        };
        let list = self.walk.list.as_slice();
        let (places, rest) = list.split_at(count.min(list.len()));
        if !all_are(rest, UNWRITTEN) || !is_cleared(self.walk.marks.as_slice(), fragments) {
            return Ok(Answer::Overwritten);
        }
        let mut sum = 0u32;
        for place in places {
            sum = sum.wrapping_add(*place);
        }
        let mut told = Vec::new(heap);
        told.push(number_of(count))?;
        told.push(sum)?;
        told.extend_from_slice(places.get(..6).unwrap_or(places))?;
        Ok(Answer::Numbers(told))
    }

    /// `OPERATION`: whether it reaches introspection alone. The marks are to be clear.
    pub fn introspection(&mut self, heap: Global, line: &Line<'_>) -> Result<Answer, Fault> {
        let fragments = self.fragment_count()?;
        self.untouch();
        let document = self.document.as_ref().ok_or(Fault::BadLine)?;
        let only = is_introspection(
            document,
            &self.owned.lend(),
            number(line.words)? as usize,
            self.walk.stack.as_mut_slice(),
            self.walk.marks.as_mut_slice(),
        );
        match only {
            Err(fault) => Answer::refused(heap, fault, is_untouched(&self.walk)),
            Ok(_) if !is_cleared(self.walk.marks.as_slice(), fragments) => Ok(Answer::Overwritten),
            Ok(true) => Ok(Answer::Word("yes")),
            Ok(false) => Ok(Answer::Word("no")),
        }
    }

    /// Whether the finished document is the same as another.
    pub fn compared(&mut self, heap: Global, other: &mut Desk<'s, S>) -> Result<Answer, Fault> {
        let document = self.document.as_ref().ok_or(Fault::BadLine)?;
        let second = other.document.as_ref().ok_or(Fault::BadLine)?;
        match compare(document, &self.owned.lend(), second, &other.owned.lend()) {
            Ok(true) => Ok(Answer::Word("same")),
            Ok(false) => Ok(Answer::Word("different")),
            Err(fault) => Answer::refused(heap, fault, true),
        }
    }
}
