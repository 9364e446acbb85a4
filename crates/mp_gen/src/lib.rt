//! Made series for tests and times.
#![tactic(auto)]

mod examples;
mod samples;

pub use examples::samples_by_hand;
pub use samples::sample_at;
