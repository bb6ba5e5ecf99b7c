// The printout as it grows, line by line.
use std::alloc::{AllocError, Global};
use std::fmt::Display;
use text_input::NameTable;

/// A printout that lines are added to, and the names that they tell.
#[derive(Drop)]
pub struct Printer<'n, 'a> {
    pub heap: Global,
    pub names: &'n NameTable<'a>,
    text: String,
}

impl<'n, 'a> Printer<'n, 'a> {
    /// A printout with no line.
    pub fn new(heap: Global, names: &'n NameTable<'a>) -> Printer<'n, 'a> {
        Printer {
            heap,
            names,
            text: String::new(heap),
        }
    }

    /// Adds a line.
    pub fn line<D: Display + Drop>(&mut self, line: D) -> Result<(), AllocError> {
        writeln!(self.text, "{line}")
    }

    /// All lines.
    pub fn into_text(self) -> String {
        self.text
    }
}
