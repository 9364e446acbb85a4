//! The naive matrix profile and AB-join, by comparing every pair of windows: the definitions as plain programs, which
//! faster ones are tested against.
#![tactic(auto)]

mod distances;
mod joins;
mod kept;
mod profiles;

pub use distances::distance;
pub use joins::join;
pub use kept::kept_profile;
pub use profiles::{Columns, profile};
