//! How many channels there may be.

/// The most channels that are taken together.
pub const MAX_CHANNELS: u64 = 8;

/// As many places for what is kept of each channel.
pub(crate) const PLACES: usize = 8;
