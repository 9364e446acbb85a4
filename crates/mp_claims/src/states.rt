//! What a worker is doing, and where a piece is.

/// What a worker is doing.
#[derive(Clone, Copy, Debug, PartialEq, Eq)]
pub enum WorkerState {
    /// Nothing.
    Free,
    /// It holds the piece of this number.
    Holds(u64),
    /// It was given a number past the last piece, and takes no more.
    Spent,
}

/// Where a piece is.
#[derive(Clone, Copy, Debug, PartialEq, Eq)]
pub enum PieceState {
    /// No worker has claimed it.
    Unclaimed,
    /// The worker of this number holds it.
    Held(u32),
    /// The worker of this number has finished it, and not delivered it.
    Finished(u32),
    /// Its value is part of the total.
    Delivered,
}
