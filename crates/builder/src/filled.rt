// How far the tables of rows, errors and path keys are filled.

/// How many places are filled.
// Kept: counts beside the tables, which are lent and longer than what stands in them.
#[derive(Clone, Copy)]
pub struct Filled {
    pub rows: usize,
    pub errors: usize,
    pub path_keys: usize,
}
