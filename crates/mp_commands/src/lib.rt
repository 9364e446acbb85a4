//! What each line does: what it asks for, and what it changes.
#![tactic(auto)]

mod advance_command;
mod append_command;
mod keep_command;
mod lazy_command;
mod load_command;
mod open_command;
mod prepared;
mod preparing;
mod requests;

pub use prepared::{Change, Prepared};
pub use preparing::prepare;
