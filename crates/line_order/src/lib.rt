// Which lines the text form has, where each may stand, how many rows are still to come, and the rows once they were read.
#![tactic(auto)]

mod gathered;
mod heads;
mod keywords;
mod places;
mod rows_left;

pub use gathered::{DocumentText, TableText};
pub use heads::{DocumentHead, SchemaChoice, TableHead};
pub use keywords::Keyword;
pub use places::{Misplaced, check_place};
pub use rows_left::{Counted, RowsLeft};
