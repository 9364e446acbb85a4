//! Cuts of the pairs of windows into tiles, some rows of successive diagonals.
#![tactic(auto)]

mod cuts;
mod examples;
mod laws;

pub use cuts::{Cut, MAX_ROWS, MAX_TILE, MAX_TILES, Tile, cut_both, cut_own};
pub use examples::worked_cuts;
pub use laws::{cuts_hold_each_pair_once, limits_are_as_defined};
