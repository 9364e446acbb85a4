//! How much of several channels is scanned at once.

use mp_scans::ROWS;

/// The most diagonals that are scanned together.
pub(crate) const WIDTH: usize = 512;

/// As many strips of thirty-two diagonals.
pub(crate) const STRIPS: usize = 16;

/// How many places there are for a block's columns. They are some more than it has at most, so that what is told of the
/// channels doesn't lie whole pages of memory apart, where it would fall on the same lines of a small cache.
pub(crate) const WIDE: usize = ROWS + WIDTH + 32;
