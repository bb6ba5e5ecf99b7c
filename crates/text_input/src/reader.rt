// Reads lines one after the other: it keeps the names that were given, and sees that each line stands in its place.
use crate::lines::{Line, read_line};
use crate::name_table::NameTable;
use crate::problems::{Problem, ReadFault, TextError};
use crate::word_list::Words;
use line_order::{Keyword, Misplaced, RowsLeft, check_place};
use std::alloc::{AllocError, Global};

/// A reader of a text's lines.
#[derive(Drop)]
pub struct LineReader<'a> {
    names: NameTable<'a>,
    lines_read: u64,
    // What is left of the rows of the schema, or of its last document; nothing before the first schema.
    left: Option<RowsLeft>,
}

impl<'a> LineReader<'a> {
    /// A reader that has read nothing.
    pub fn new(heap: Global) -> Result<LineReader<'a>, AllocError> {
        Ok(LineReader {
            names: NameTable::new(heap)?,
            lines_read: 0,
            left: None,
        })
    }

    /// The names that were given up to here.
    pub fn names(&self) -> &NameTable<'a> {
        &self.names
    }

    /// Reads the next line of the text.
    pub fn read(&mut self, text: &'a str) -> Result<Line<'a>, ReadFault<'a>> {
        self.lines_read = self.lines_read.saturating_add(1);
        let number = self.lines_read;
        let understood = self.understand(text).map_err(|problem| TextError {
            line: number,
            problem,
        })?;
        let Some((keyword, line)) = understood else {
            return Ok(Line::Blank);
        };
        self.left = self.left.map(|left| left.after(keyword));
        self.note(line)?;
        Ok(line)
    }

    /// Refuses the end of the text where rows are still to come.
    pub fn end(&self) -> Result<(), TextError<'a>> {
        match self.left {
            Some(left) if !left.is_complete() => Err(TextError {
                line: self.lines_read,
                problem: Misplaced::EndsEarly(left).into(),
            }),
            _ => Ok(()),
        }
    }

    /// The keyword of the line and what the line says, if it may stand here; nothing for a blank line.
    fn understand(&self, text: &'a str) -> Result<Option<(Keyword, Line<'a>)>, Problem<'a>> {
        let mut words = Words::of_line(text, &self.names);
        let Some(first) = words.next_word() else {
            return Ok(None);
        };
        let keyword = first
            .parse::<Keyword>()
            .map_err(|_| Problem::UnknownKeyword(first))?;
        check_place(self.left, keyword)?;
        words.take_form(keyword.form());
        let line = read_line(keyword, &mut words)?;
        words.end()?;
        Ok(Some((keyword, line)))
    }

    /// Keeps what later lines depend on: the rows that are to come, or a name's text.
    fn note(&mut self, line: Line<'a>) -> Result<(), AllocError> {
        match line {
            Line::Schema(head) => self.left = Some(RowsLeft::from(head)),
            Line::Document(head) => self.left = Some(RowsLeft::from(head)),
            Line::Name(name, text) => self.names.give(name, text)?,
            Line::Type(_)
            | Line::Field(_)
            | Line::Definition(_)
            | Line::Row(_)
            | Line::Ask(_)
            | Line::Other
            | Line::Blank => {}
        }
        Ok(())
    }
}
