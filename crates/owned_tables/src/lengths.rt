// How long the tables of a builder are.
ghost use Rattle.std.specs.Prelude.{◌≡◌};
ghost use Rattle.owned_tables.specs.Lengths.{full_lengths};

use builder::{
    INDEX_SLOTS, MAX_ERRORS, MAX_FRAGMENTS, MAX_OPERATIONS, MAX_PATH_KEYS, MAX_STORED_ROWS,
};

/// The length of each table of a builder.
#[derive(Clone, Copy)]
pub struct TableLengths {
    pub operations: usize,
    pub operation_slots: usize,
    pub fragments: usize,
    pub fragment_slots: usize,
    pub rows: usize,
    pub errors: usize,
    pub path_keys: usize,
}

impl TableLengths {
    /// As long as a builder's limits: in longer tables it holds no more.
    pub const FULL: TableLengths = TableLengths {
        operations: MAX_OPERATIONS,
        operation_slots: INDEX_SLOTS,
        fragments: MAX_FRAGMENTS,
        fragment_slots: INDEX_SLOTS,
        rows: MAX_STORED_ROWS,
        errors: MAX_ERRORS,
        path_keys: MAX_PATH_KEYS,
    };

    /// The numbers of `FULL`.
    pub fn full_in_numbers()
        ensures { TableLengths.FULL ≡ full_lengths }
    {}
}
