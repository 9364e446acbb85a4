//! All window lengths of a range: the nearest pair of windows and the most unusual window at each.
#![tactic(auto)]

mod examples;
mod extremes;
mod found;
mod kernels;
mod laws;
mod lengths;
mod limits;
mod offers;
mod places;
mod rows;
mod scans;

pub use examples::plain_rows;
pub use laws::best_pairs_rise;
pub use limits::MAX_LENGTHS;
pub use rows::pan;
