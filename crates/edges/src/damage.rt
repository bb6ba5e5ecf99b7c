// The lent tables by their names: what stands in a place, another number there, and another length.
use crate::answer::{Answer, Fault};
use crate::desk::{Desk, UNWRITTEN};
use crate::line::{Line, all_are, cut, members, number, number_at};
use crate::members::{
    DEFINITION, ROW, definition_from, definition_numbers, error_numbers, row_from, row_numbers,
};
use schema::Schema;
use std::alloc::Global;
use std::mem;
use stored_tables::StoredDefinition;
use walking::WalkStep;

impl<'s, S: Schema> Desk<'s, S> {
    // One of the two tables of definitions.
    fn definitions(&mut self, table: &str) -> Option<&mut Vec<StoredDefinition>> {
        match table {
            "operations" => Some(&mut self.owned.operations),
            "fragments" => Some(&mut self.owned.fragments),
            _ => None,
        }
    }

    // One of the tables that hold numbers.
    fn plain(&mut self, table: &str) -> Option<&mut Vec<u32>> {
        match table {
            "operation_slots" => Some(&mut self.owned.operation_slots),
            "fragment_slots" => Some(&mut self.owned.fragment_slots),
            "path_keys" => Some(&mut self.owned.path_keys),
            "list" => Some(&mut self.walk.list),
            _ => None,
        }
    }

    /// `TABLE PLACE MEMBERS`, or `TABLE PLACE to=NUMBER` where the table holds numbers
    pub fn damage(&mut self, line: &Line<'_>) -> Result<Answer, Fault> {
        let (table, rest) = cut(line.words);
        let (place, words) = cut(rest);
        for turn in 0..line.times {
            let place = number_at(place, turn)? as usize;
            if let Some(definitions) = self.definitions(table) {
                let held = definitions.get_mut(place).ok_or(Fault::BadLine)?;
                let numbers = members(words, &DEFINITION, definition_numbers(held), turn)?;
                *held = definition_from(numbers);
            } else if let Some(numbers) = self.plain(table) {
                let held = numbers.get_mut(place).ok_or(Fault::BadLine)?;
                let [to] = members(words, &["to"], [*held], turn)?;
                *held = to;
            } else {
                let held = self.owned.rows.get_mut(place).ok_or(Fault::BadLine)?;
                let numbers = members(words, &ROW, row_numbers(held), turn)?;
                *held = row_from(numbers);
            }
        }
        Ok(Answer::Done)
    }

    /// `TABLE LENGTH`: a table that grows gets places that nothing has written.
    pub fn length(&mut self, line: &Line<'_>) -> Result<Answer, Fault> {
        let (table, word) = cut(line.words);
        let length = number(word)? as usize;
        if let Some(definitions) = self.definitions(table) {
            definitions.truncate(length);
        } else if let Some(numbers) = self.plain(table) {
            numbers.resize(length, UNWRITTEN)?;
        } else {
            match table {
                "rows" => self.owned.rows.truncate(length),
                "errors" => self.owned.errors.truncate(length),
                "stack" => self.walk.stack.resize(length, WalkStep::default())?,
                _ => self.walk.marks.resize(length, 7)?,
            }
        }
        Ok(Answer::Done)
    }

    /// `TABLE PLACE`: what stands there.
    pub fn held(&mut self, heap: Global, line: &Line<'_>) -> Result<Answer, Fault> {
        let (table, word) = cut(line.words);
        let place = number(word)? as usize;
        if let Some(definitions) = self.definitions(table) {
            let held = definitions.get(place).ok_or(Fault::BadLine)?;
            return Answer::numbers(heap, &definition_numbers(held));
        }
        if let Some(numbers) = self.plain(table) {
            return Answer::numbers(heap, &[*numbers.get(place).ok_or(Fault::BadLine)?]);
        }
        if table == "errors" {
            let held = self.owned.errors.get(place).ok_or(Fault::BadLine)?;
            return Answer::numbers(heap, &error_numbers(*held));
        }
        let held = self.owned.rows.get(place).ok_or(Fault::BadLine)?;
        Answer::numbers(heap, &row_numbers(held))
    }

    /// `INDEX`: how many of its slots are in use, of those that a builder looks at. Nothing is to have written further ones.
    pub fn slots(&mut self, heap: Global, line: &Line<'_>) -> Result<Answer, Fault> {
        let slots = self.plain(line.words).ok_or(Fault::BadLine)?;
        let (first, rest) = slots.as_slice().split_at(512.min(slots.len()));
        if !all_are(rest, UNWRITTEN) {
            return Ok(Answer::Overwritten);
        }
        let mut used = 0u32;
        for slot in first {
            used = used.wrapping_add(u32::from(*slot != 0));
        }
        Answer::numbers(heap, &[used])
    }

    /// Each index in the place of the other.
    pub fn turn_indexes(&mut self) -> Answer {
        mem::swap(
            &mut self.owned.operation_slots,
            &mut self.owned.fragment_slots,
        );
        Answer::Done
    }

    /// Exchanges an index for that of another builder.
    pub fn exchange(&mut self, other: &mut Desk<'s, S>, line: &Line<'_>) -> Result<Answer, Fault> {
        let mine = self.plain(line.words).ok_or(Fault::BadLine)?;
        let theirs = other.plain(line.words).ok_or(Fault::BadLine)?;
        mem::swap(mine, theirs);
        Ok(Answer::Done)
    }
}
