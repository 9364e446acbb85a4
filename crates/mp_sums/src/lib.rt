//! Sums of squared differences of windows: exact ones of 128 bits, and residues modulo 2^32 of rounded samples, which
//! tell of most pairs of windows that they lie beyond a limit.
#![tactic(auto)]

mod distances;
mod laws;
mod limits;
mod lists;
mod numbers;
mod ranges;
mod residues;
mod roundings;
mod rows;

pub use distances::Grid;
pub use laws::{
    distances_are_sums, ranges_bound_sums, residues_move_on, residues_tell, rounded_sums_are_near,
    sums_run_on, sums_tell_together,
};
pub use limits::Limit;
pub use lists::window_sum;
pub use numbers::{NUMBER_BITS, close_square, narrow_square, number_of, sample_at, square};
pub use ranges::Range;
pub use residues::{
    ALWAYS, Change, NEVER, ZERO, change_of, fill_changes, first_residue, next_residue, passes,
    sum_of,
};
pub use roundings::Rounding;
pub use rows::{add_numbers, clear_residues};
