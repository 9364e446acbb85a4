//! Time series chains: patterns that drift, each window the nearest of the one before.
#![tactic(auto)]

mod chains;
mod examples;
mod laws;
mod lengths;

pub use chains::{all_chains, anchored};
pub use examples::worked_chains;
pub use laws::{
    chains_are_whole, chains_follow, chains_part_the_windows, longest_is_first,
    successors_are_unique,
};
pub use lengths::longest;
