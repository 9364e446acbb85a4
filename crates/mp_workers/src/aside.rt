//! Work in threads of their own.

use std::thread::{Threads, join_mut};

/// Runs a closure in a new thread, while this one waits: the threads that do the work are then as many as the workers,
/// and a system that starts a thread on the processor of the one that starts it doesn't have two of them share it.
/// Where no thread can be made, this one runs it.
pub fn run_aside<R: Threads, F: FnMut() -> A + Send, A: Send>(rt: &R, run: &mut F) -> A
    requires { F.pre run.old }
    ensures { F.step run.old result run.new }
{
    let mut wait = || {};
    let (found, ()) = join_mut(rt, run, &mut wait);
    found
}
