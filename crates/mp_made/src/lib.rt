//! What is written of a made series in place of the reports of a session.
#![tactic(auto)]

mod summaries;

pub use summaries::summary;
