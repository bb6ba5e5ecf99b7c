// Rows that stand for a forest: a row's end is the place after the rows beneath it. One text for every type of row.
//
// `check_range` tells whether the rows of a range fit, or the first that does not: by its own members, by its end, or by
// its depth.
#![tactic(auto)]

mod check;
mod row;

pub use check::check_range;
pub use row::{Misfit, Row, RowFault, RowView};
