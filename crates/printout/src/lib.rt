// The printout of a text: what was read of each schema, the answer to each question, each document, what is built of the
// documents, what their operations reach, and whether two builders come to the same, in words.
#![tactic(auto)]

mod answers;
mod building;
mod documents;
mod errors;
mod headings;
mod outlines;
mod printer;
mod refusals;
mod sections;
mod shown;
mod typed;
mod walks;
mod whole;

pub use whole::printout;
