//! The lines of a session: what cuts an input into lines, and what a line asks for.
#![tactic(auto)]

mod commands;
mod numbers;
mod ref_lists;
mod shapes;
mod texts;

pub use commands::{Command, LineFault, parse_line};
pub use mp_feed::{Fed, Feed};
pub use numbers::Columns;
pub use ref_lists::{MAX_REFS, Refs};
