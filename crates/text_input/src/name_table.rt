// The texts of names: the fixed names have theirs from the start, the others by the lines that give them one.
use crate::problems::Problem;
use schema::Name;
use schema::names::{QUERY, UNKNOWN, fixed_name};
use std::alloc::{AllocError, Global};
use std::collections::BTreeMap;
use std::fmt;

/// Which name has which text. A name has at most one text, and a text is that of at most one name.
#[derive(Drop)]
pub struct NameTable<'a> {
    texts: BTreeMap<Name, &'a str>,
    numbers: BTreeMap<&'a str, Name>,
}

impl<'a> NameTable<'a> {
    /// The table with the fixed names.
    pub fn new(heap: Global) -> Result<NameTable<'a>, AllocError> {
        let mut table = NameTable {
            texts: BTreeMap::new(heap),
            numbers: BTreeMap::new(heap),
        };
        for number in QUERY..=UNKNOWN {
            if let Some(text) = fixed_name(number) {
                table.give(number, text)?;
            }
        }
        Ok(table)
    }

    /// The text of the name, if it has one.
    pub fn text_of(&self, name: Name) -> Option<&'a str> {
        self.texts.get(&name).copied()
    }

    /// The name that has the text, if one has.
    pub fn name_of(&self, text: &str) -> Option<Name> {
        self.numbers.get(text).copied()
    }

    /// The name as it is printed.
    pub fn show(&self, name: Name) -> ShownName<'a> {
        self.text_of(name)
            .map_or(ShownName::Number(name), ShownName::Text)
    }

    /// Refuses to give the name the text where one of them is taken, or where the text would be read as a number.
    pub(crate) fn allow(&self, name: Name, text: &'a str) -> Result<(), Problem<'a>> {
        if name == 0 {
            return Err(Problem::NameZero);
        }
        if begins_with_digit(text) {
            return Err(Problem::TextLikeNumber(text));
        }
        match (self.text_of(name), self.name_of(text)) {
            (_, Some(other)) if other != name => Err(Problem::TextTaken(text, other)),
            (Some(other), None) => Err(Problem::NameTaken(name, other)),
            _ => Ok(()),
        }
    }

    /// Gives the name the text.
    pub(crate) fn give(&mut self, name: Name, text: &'a str) -> Result<(), AllocError> {
        self.texts.insert(name, text)?;
        self.numbers.insert(text, name)?;
        Ok(())
    }
}

/// Whether the word is to be read as a number.
pub(crate) fn begins_with_digit(word: &str) -> bool {
    word.starts_with(|c: char| c.is_ascii_digit())
}

/// A name as it is printed: its text, or its number after `#`.
#[derive(Clone, Copy)]
pub enum ShownName<'a> {
    Text(&'a str),
    Number(Name),
}

impl fmt::Display for ShownName<'_> {
    fn fmt<W: fmt::Write>(&self, f: &mut fmt::Formatter<W>) -> fmt::Result {
        match *self {
            ShownName::Text(text) => write!(f, "{text}"),
            ShownName::Number(number) => write!(f, "#{number}"),
        }
    }
}
