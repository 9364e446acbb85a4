//! Arcs between windows and their nearest ones, and the changes of regime that they tell of.
#![tactic(auto)]

mod boards;
mod counts;
mod curves;
mod ends;
mod examples;
mod laws;
mod segments;

pub use boards::ArcBoard;
pub use counts::arcs;
pub use curves::{MAX_FACTOR, corrected};
pub use examples::worked_arcs;
pub use laws::{
    arcs_are_few, arcs_come_and_go, curve_is_at_most_one, regimes_are_described,
    regimes_are_of_parts,
};
pub use segments::regimes;
