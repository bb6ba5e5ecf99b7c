// The words of a line, taken one after the other.
use crate::name_table::{NameTable, begins_with_digit};
use crate::problems::Problem;
use schema::Name;
use std::num::IntErrorKind;
use std::str::SplitWhitespace;

/// What a word writes: a number, or a name by its number or its text.
#[derive(Clone, Copy)]
pub enum Member {
    Number,
    Named,
}

/// The words of a line that are still to be read, and the names that they can tell; a comment is none of the words.
#[derive(Drop)]
pub struct Words<'n, 'a> {
    rest: SplitWhitespace<'a>,
    form: &'static str,
    names: &'n NameTable<'a>,
}

impl<'n, 'a> Words<'n, 'a> {
    /// All words of the line.
    pub fn of_line(line: &'a str, names: &'n NameTable<'a>) -> Words<'n, 'a> {
        Words {
            rest: line.split_whitespace(),
            form: "KEYWORD ..",
            names,
        }
    }

    /// The names that were given before this line.
    pub fn names(&self) -> &'n NameTable<'a> {
        self.names
    }

    /// From here on, errors tell this form of the line.
    pub fn take_form(&mut self, form: &'static str) {
        self.form = form;
    }

    /// The next word, if there is one before the end of the line or a comment.
    pub fn next_word(&mut self) -> Option<&'a str> {
        let word = self.rest.next()?;
        if word.starts_with('#') {
            self.rest = "".split_whitespace();
            return None;
        }
        Some(word)
    }

    /// The next word, which has to be there.
    pub fn word(&mut self) -> Result<&'a str, Problem<'a>> {
        self.next_word().ok_or(Problem::TooFewWords(self.form))
    }

    /// The next word as a number.
    pub fn number(&mut self) -> Result<u32, Problem<'a>> {
        let word = self.word()?;
        read_number(word)
    }

    /// The next word as a name: its number, or a text that was given to it.
    pub fn name(&mut self) -> Result<Name, Problem<'a>> {
        let word = self.word()?;
        if begins_with_digit(word) {
            return read_number(word);
        }
        self.names.name_of(word).ok_or(Problem::UnknownName(word))
    }

    /// The next words, as many members of a row.
    pub fn members<const N: usize>(
        &mut self,
        kinds: &[Member; N],
    ) -> Result<[u32; N], Problem<'a>> {
        let mut members = [0; N];
        for (member, kind) in members.iter_mut().zip(kinds.iter()) {
            *member = match kind {
                Member::Number => self.number()?,
                Member::Named => self.name()?,
            };
        }
        Ok(members)
    }

    /// Refuses words that are left over.
    pub fn end(&mut self) -> Result<(), Problem<'a>> {
        match self.next_word() {
            Some(word) => Err(Problem::TooManyWords(self.form, word)),
            None => Ok(()),
        }
    }
}

/// The number that the word writes in decimal digits.
fn read_number(word: &str) -> Result<u32, Problem<'_>> {
    if !begins_with_digit(word) {
        return Err(Problem::NotANumber(word));
    }
    word.parse::<u32>().map_err(|error| match error.kind() {
        IntErrorKind::PosOverflow => Problem::NumberTooLarge(word),
        _ => Problem::NotANumber(word),
    })
}
