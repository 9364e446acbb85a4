//! How much is scanned at once.

/// The most diagonals in a group.
pub const GROUP: usize = 2_048;

/// The most rows in a block. What its rows and columns are compared with stays in a small cache.
pub const ROWS: usize = 1_024;

/// The most columns in a block.
pub const COLUMNS: usize = ROWS + GROUP;

/// How many samples of a window are taken at once.
pub(crate) const TAKEN: usize = 256;

/// The most samples of windows whose numbers are taken once for what comes in and for what goes.
pub const SHORT: usize = 1_024;

/// The room for what is told of a block's rows and columns: the differences and sums of both, and rounded samples.
pub(crate) const ROOM: usize = 2 * ROWS + 2 * COLUMNS + COLUMNS + SHORT;

/// The room for its marks.
pub(crate) const MARKS: usize = ROWS + COLUMNS;
