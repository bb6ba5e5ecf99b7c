// The document that is handed over, and what it says of itself.
use crate::answer::{Answer, Fault};
use crate::line::{Line, cut, members, number, number_at, number_of, place};
use crate::members::{DEFINITION, ROW, definition_from, definition_numbers, row_from, row_numbers};
use document::{
    DefinitionKind, DefinitionRow, Document, SelectionKind, SelectionRow, SelectionSet,
};
use selection_rules::StoredRow;
use std::alloc::Global;
use stored_tables::StoredDefinition;

/// The two tables of a document.
#[derive(Drop)]
pub struct DocumentText {
    definitions: Vec<DefinitionRow>,
    rows: Vec<SelectionRow>,
}

impl DocumentText {
    /// A document without definitions.
    pub fn new(heap: Global) -> DocumentText {
        DocumentText {
            definitions: Vec::new(heap),
            rows: Vec::new(heap),
        }
    }

    /// The document, lent.
    pub fn handed(&self) -> Document<'_> {
        Document {
            definitions: self.definitions.as_slice(),
            rows: self.rows.as_slice(),
        }
    }

    /// Another document of the same tables.
    pub fn copied(&self, heap: Global) -> Result<DocumentText, Fault> {
        Ok(DocumentText {
            definitions: self.definitions.as_slice().to_vec(heap)?,
            rows: self.rows.as_slice().to_vec(heap)?,
        })
    }

    /// The answer to a line about the document, or none where the line is about something else.
    pub fn answer(&mut self, heap: Global, line: &Line<'_>) -> Result<Option<Answer>, Fault> {
        match line.keyword {
            "definition" => self.push_definitions(line)?,
            "row" => self.push_rows(line)?,
            "change" => self.change(line)?,
            "no_document" => {
                self.definitions.clear();
                self.rows.clear();
            }
            "check" => return Ok(Some(self.check(heap)?)),
            "needs" => return Ok(Some(self.needs(heap)?)),
            "kind" => return Ok(Some(kind_of(heap, line)?)),
            "selections" => return Ok(Some(self.selections(heap, line)?)),
            _ => return Ok(None),
        }
        Ok(Some(Answer::Done))
    }

    fn push_definitions(&mut self, line: &Line<'_>) -> Result<(), Fault> {
        for turn in 0..line.times {
            let numbers = members(line.words, &DEFINITION, [0; 12], turn)?;
            self.definitions.push(definition_from(numbers).row)?;
        }
        Ok(())
    }

    fn push_rows(&mut self, line: &Line<'_>) -> Result<(), Fault> {
        for turn in 0..line.times {
            let numbers = members(line.words, &ROW, [0; 12], turn)?;
            self.rows.push(row_from(numbers).selection)?;
        }
        Ok(())
    }

    // `definition PLACE MEMBERS` or `row PLACE MEMBERS`
    fn change(&mut self, line: &Line<'_>) -> Result<(), Fault> {
        let (table, rest) = cut(line.words);
        let (place, words) = cut(rest);
        for turn in 0..line.times {
            let place = number_at(place, turn)? as usize;
            if table == "definition" {
                let row = self.definitions.get_mut(place).ok_or(Fault::BadLine)?;
                let stored = StoredDefinition {
                    row: *row,
                    set_type: 0,
                };
                let numbers = members(words, &DEFINITION, definition_numbers(&stored), turn)?;
                *row = definition_from(numbers).row;
            } else {
                let row = self.rows.get_mut(place).ok_or(Fault::BadLine)?;
                let stored = StoredRow {
                    selection: *row,
                    ..Default::default()
                };
                let numbers = members(words, &ROW, row_numbers(&stored), turn)?;
                *row = row_from(numbers).selection;
            }
        }
        Ok(())
    }

    // What the check says, and so does the count of places.
    fn check(&self, heap: Global) -> Result<Answer, Fault> {
        let document = self.handed();
        let checked = document.check();
        if document.needs().err() != checked.err() {
            return Ok(Answer::Word("another answer where places are counted"));
        }
        match checked {
            Ok(()) => Ok(Answer::Done),
            Err(fault) => Answer::refused(heap, fault, true),
        }
    }

    // The places that the document needs for operations, fragments, rows, errors and path keys.
    fn needs(&self, heap: Global) -> Result<Answer, Fault> {
        match self.handed().needs() {
            Ok(needs) => {
                let places = [
                    number_of(needs.operations),
                    number_of(needs.fragments),
                    number_of(needs.rows),
                    number_of(needs.errors),
                    number_of(needs.path_keys),
                ];
                Answer::numbers(heap, &places)
            }
            Err(fault) => Answer::refused(heap, fault, true),
        }
    }

    // `DEFINITION STEPS`: the places of the selections of a set, found from the definition's own set by so many steps, each
    // to what stands beneath the first selection. Each selection is to come with the row that stands in its place.
    fn selections(&self, heap: Global, line: &Line<'_>) -> Result<Answer, Fault> {
        let (definition, steps) = cut(line.words);
        let document = self.handed();
        let mut set = document.selections(place(definition)?);
        for _ in 0..number(steps)? {
            set = beneath_first(&document, set);
        }
        let mut places = Vec::new(heap);
        for _ in 0..self.rows.len() {
            let Some(step) = document.next_selection(set) else {
                break;
            };
            let row = self.rows.get(step.place).ok_or(Fault::BadLine)?;
            if step.row.numbers() != row.numbers() {
                return Ok(Answer::Word("another row"));
            }
            places.push(number_of(step.place))?;
            set = step.after;
        }
        Ok(Answer::Numbers(places))
    }
}

// `definition NUMBER` or `row NUMBER`: whether there is such a kind.
fn kind_of(heap: Global, line: &Line<'_>) -> Result<Answer, Fault> {
    let (table, word) = cut(line.words);
    let number = number(word)?;
    let unknown = match table {
        "definition" => DefinitionKind::try_from(number).err(),
        _ => SelectionKind::try_from(number).err(),
    };
    match unknown {
        Some(fault) => Ok(Answer::Words(format!(in heap; "{fault}")?)),
        None => Ok(Answer::Done),
    }
}

// What stands beneath the first selection of a set, if it has one; else the set itself.
fn beneath_first(document: &Document<'_>, set: SelectionSet) -> SelectionSet {
    match document.next_selection(set) {
        Some(step) => step.beneath,
        None => set,
    }
}
