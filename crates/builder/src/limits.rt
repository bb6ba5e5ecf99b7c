// How much a builder holds; less where a table that is lent is shorter.

/// How many named operations.
pub const MAX_OPERATIONS: usize = 256;

/// How many fragments.
pub const MAX_FRAGMENTS: usize = 256;

/// How many stored rows.
pub const MAX_STORED_ROWS: usize = 16_384;

/// How many errors.
pub const MAX_ERRORS: usize = 16_384;

/// How many keys of the errors' paths.
pub const MAX_PATH_KEYS: usize = 131_072;
