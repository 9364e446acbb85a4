//! Profiles along diagonals: each tile of a cut of the pairs of windows is scanned.
#![tactic(auto)]

mod blocks;
mod columns;
mod compact;
mod found;
mod joined;
mod joins;
mod kernels;
mod laws;
mod limits;
mod near;
mod offers;
mod parts;
mod plans;
mod scans;
mod sides;
mod summed;
mod summed_joins;

pub use compact::{Compact, NO_WORD, word_of};
pub use joined::JoinSeeds;
pub use joins::{JoinTiles, join};
pub use kernels::{OwnTiles, profile};
pub use laws::{profiles_are_of_both_sides, tiles_make_the_join, tiles_make_the_profile};
pub use mp_cuts::{
    Cut, MAX_ROWS, MAX_TILE, MAX_TILES, Tile, cut_both, cut_own, cuts_hold_each_pair_once,
    worked_cuts,
};
pub use mp_skips::Seeking;
pub use near::{Bands, NearTiles};
pub use parts::{TileParts, part_of_tile, parts_within, rows_in_part};
pub use scans::{scan_both, scan_own, scan_patch};
pub use sides::Sides;
pub use summed::{SUMMED_TILE, SummedTiles, summed_tile};
pub use summed_joins::SummedJoin;
