//! Lines in and reports out: a source is read and cut into lines, and reports are written to a sink. What a line means
//! is no matter here.
#![tactic(auto)]

mod feeds;
mod laws;
mod readers;
mod writes;

pub use feeds::{Fed, Feed};
pub use laws::pieces_give_the_lines;
pub use readers::{LineReader, Next};
pub use writes::write_report;
