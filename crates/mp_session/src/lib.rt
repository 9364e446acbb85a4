//! The session: lines in, reports out, and the call that serves an input from its first byte to its last.
#![tactic(auto)]

mod changes;
mod halts;
mod runs;
mod sessions;
pub mod top;

pub use mp_lines::{Fed, Feed};
pub use mp_requests::{Reply, ReplyKind, Stop};
pub use mp_words::{Job, Make, Settings, WordsAnswer, read_words};
pub use sessions::Session;
