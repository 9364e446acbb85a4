//! The stores of a session: each closed, or open with 1 to 8 channels of the same length, whose profiles and arcs grow
//! with them, or with one channel of which the last samples are kept, and the profile of their windows.
#![tactic(auto)]

mod arcs;
mod channels;
mod groups;
mod live_windows;
mod store;
mod stores;

pub use channels::{Channel, Plan};
pub use live_windows::live_slots;
pub use stores::{MAX_CHANNELS, SLOTS, Stores};
