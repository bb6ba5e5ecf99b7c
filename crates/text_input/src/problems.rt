// What can be wrong with a text, in words that help to put it right.
use line_order::Misplaced;
use schema::Name;
use std::alloc::AllocError;
use thiserror::Error;

/// What is wrong with a line.
#[derive(Clone, Copy, Debug, Error)]
pub enum Problem<'a> {
    /// The first word is no keyword.
    #[error("'{0}' is no keyword: a line begins with schema, type, field, name, ask, doc, def, row or other")]
    UnknownKeyword(&'a str),
    /// Words are missing from a line of this form.
    #[error("too few words: the line is '{0}'")]
    TooFewWords(&'static str),
    /// A line of this form goes on with this word.
    #[error("'{1}' is a word too many: the line is '{0}'")]
    TooManyWords(&'static str, &'a str),
    /// A number was to stand in place of the word.
    #[error("'{0}' is no number")]
    NotANumber(&'a str),
    /// The number has more than 32 bits.
    #[error("{0} is too large: a number is at most 4294967295")]
    NumberTooLarge(&'a str),
    /// The text is that of no name.
    #[error("'{0}' is no name: give it a text by a line 'name NUMBER {0}'")]
    UnknownName(&'a str),
    /// A text was to be given to 0, which is no name.
    #[error("0 is no name, so it takes no text")]
    NameZero,
    /// The text would be read as a number.
    #[error("'{0}' begins with a digit: it would be read as a number")]
    TextLikeNumber(&'a str),
    /// The text is that of this other name.
    #[error("'{0}' is the text of the name {1} already")]
    TextTaken(&'a str, Name),
    /// The name has this other text.
    #[error("the name {0} has the text '{1}' already")]
    NameTaken(Name, &'a str),
    /// No schema is of this kind.
    #[error("no schema is of the kind {0}: 0 is the open schema, 1 a table")]
    UnknownSchemaKind(u32),
    /// An open schema was given rows or roots.
    #[error("the open schema has no rows and no roots of its own: the five numbers after its kind are 0")]
    OpenWithRows,
    /// A document is neither strict nor not.
    #[error("no document is of the strictness {0}: 0 is not strict, 1 strict")]
    UnknownStrictness(u32),
    /// There is no such question.
    #[error("'{0}' is no question: ask root, known, kind or field")]
    UnknownQuestion(&'a str),
    /// There is no such operation.
    #[error("'{0}' is no operation: write query, mutation or subscription")]
    UnknownOperation(&'a str),
    /// The line, or the end of the text, stands out of place.
    #[error(transparent)]
    Misplaced(#[from] Misplaced),
}

/// A problem and the number of its line, from 1.
#[derive(Clone, Copy, Debug, Error)]
#[error("line {line}: {problem}")]
pub struct TextError<'a> {
    pub line: u64,
    pub problem: Problem<'a>,
}

/// Why a line was not read.
#[derive(Clone, Copy, Debug, Error)]
pub enum ReadFault<'a> {
    #[error(transparent)]
    Text(#[from] TextError<'a>),
    #[error("out of memory")]
    NoMemory(#[from(alloc)] AllocError),
}
