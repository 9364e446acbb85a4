//! The nearest windows of each window, in their order: the first of them is the entry of the matrix profile.
#![tactic(auto)]

mod closed_words;
mod compact_lists;
mod compact_merging;
mod compact_placing;
mod compact_ranks;
mod entries;
mod examples;
mod kernels;
mod laws;
mod lists;
mod near;
mod offers;
mod placing;
mod profiles;
mod ranks;
mod scans;
mod shared_ranks;
mod summed;
mod tellers;
mod told;
mod words;

pub use examples::{plain_ranks, tied_ranks};
pub use laws::{candidates_are_in_order, first_rank_is_the_entry};
pub use profiles::nearest;
pub use ranks::{MAX_RANKS, Ranks};
