// What is shown in words: a value, and the names that its words tell.
use text_input::NameTable;

/// A value in words, beside the names that they tell.
#[derive(Clone, Copy)]
pub struct Shown<'n, 'a, T> {
    pub names: &'n NameTable<'a>,
    pub value: T,
}
