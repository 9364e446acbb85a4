//! What happens to a core, and why it may not.

use thiserror::Error;

/// What a worker does, named by its number.
#[derive(Clone, Copy, Debug, PartialEq, Eq)]
pub enum Event {
    /// The worker takes the next number.
    Claim(u32),
    /// The worker has finished the piece that it holds.
    Finish(u32),
    /// The worker hands over what it has finished.
    Deliver(u32),
}

/// Why an event is refused.
#[derive(Clone, Copy, Debug, PartialEq, Eq, Error)]
pub enum CoreRefusal {
    /// There is no such worker.
    #[error("there is no such worker")]
    Stranger,
    /// The worker holds a piece.
    #[error("the worker holds a piece")]
    Holding,
    /// The worker holds no piece.
    #[error("the worker holds no piece")]
    Idle,
    /// The worker is spent.
    #[error("the worker is spent")]
    Spent,
}
