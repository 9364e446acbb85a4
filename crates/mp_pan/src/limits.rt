//! How many window lengths are computed together.

/// The most window lengths of a range.
pub const MAX_LENGTHS: u32 = 256;

/// How many successive lengths one scan serves, and how many slots a window has for them.
pub(crate) const SPAN: usize = 4;
