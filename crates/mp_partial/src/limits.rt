//! How much is shared out.

/// The most pieces that workers share.
pub const MAX_PIECES: u64 = 2_097_152;

/// The most workers that share pieces.
pub const MAX_WORKERS: u32 = 32;
