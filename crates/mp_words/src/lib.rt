//! What a run is started with, and the words that say it.
#![tactic(auto)]

mod grammar;
mod jobs;
mod names;
mod numbers;
mod options;
mod settings;
mod words;

pub use jobs::{Job, WordsAnswer};
pub use mp_replies::Make;
pub use settings::Settings;
pub use words::read_words;
