// Reads the text form of schemas, of the questions to them and of documents, line by line, into typed lines.
//
// A new kind of line takes a `Keyword` with its word, its form and the rule where it may stand in `line_order`, a case of
// `Line`, and its reading in `lines`; `Words` takes a line apart, with the errors that every kind of line can have.
#![tactic(auto)]

mod lines;
mod name_table;
mod problems;
mod reader;
mod word_list;

pub use line_order::{Counted, DocumentHead, DocumentText, SchemaChoice, TableHead, TableText};
pub use lines::Line;
pub use name_table::NameTable;
pub use problems::{ReadFault, TextError};
pub use reader::LineReader;
