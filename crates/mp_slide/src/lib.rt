//! The distance profile of a pattern: its distances to each window of a series.
#![tactic(auto)]

mod kernels;
mod plain;
mod refusal;
mod slides;

pub use refusal::SlideRefusal;
pub use slides::distances;
