//! The centre of several series: the window that they have in common.
#![tactic(auto)]

mod blocks;
mod bounds;
mod candidates;
mod centres;
mod examples;
mod laws;
mod lookers;
mod rows;
mod searchers;
mod searches;

pub use bounds::Bound;
pub use centres::{MAX_SERIES, consensus};
pub use examples::worked_centres;
pub use laws::{centre_is_least, radius_is_greatest};
pub use lookers::Looker;
