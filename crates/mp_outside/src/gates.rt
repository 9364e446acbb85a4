/// Where a worker passes before each piece of its work. It says nothing of what a pass does.
pub trait Gate: Sync {
    /// Called by a worker before it begins a piece, both named by their numbers, counted from 0. It returns.
    fn pass(&self, worker: u32, piece: u64);
}

/// A gate that is passed at once.
#[derive(Clone, Copy, Debug)]
pub struct OpenGate;

impl Gate for OpenGate {
    fn pass(&self, _worker: u32, _piece: u64) {}
}
