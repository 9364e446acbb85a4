use crate::gates::Gate;
use std::hint::spin_loop;
use std::sync::atomic::{AtomicBool, AtomicU64, Ordering};

/// How often a worker looks before it goes on.
const TURNS: u32 = 100_000_000;

/// A gate at which worker 0 is held up while worker 1 goes on. In its first pass worker 1 looks for worker 0's flag.
/// Worker 0 raises that flag in its first pass, and then looks until worker 1 has begun so many passes. Both look at
/// most 100,000,000 times. All other passes are made at once.
#[derive(Debug, Drop)]
pub struct HoldGate {
    passes: u64,
    came: AtomicBool,
    begun: AtomicU64,
    held: AtomicBool,
}

impl HoldGate {
    /// A gate that nobody has passed, at which worker 0 is held up for so many passes of worker 1. It takes no memory.
    pub fn new(passes: u64) -> HoldGate {
        HoldGate {
            passes,
            came: AtomicBool::new(false),
            begun: AtomicU64::new(0),
            held: AtomicBool::new(false),
        }
    }

    /// Whether worker 0 saw in its first pass that worker 1 had begun that many passes.
    pub fn held(&self) -> bool {
        self.held.load(Ordering::SeqCst)
    }

    fn hold_up(&self) {
        let came_before = self.came.swap(true, Ordering::SeqCst);
        if !came_before && self.are_seen_to_begin() {
            self.held.store(true, Ordering::SeqCst);
        }
    }

    fn begin(&self) {
        let begun_before = self.begun.fetch_add(1, Ordering::SeqCst);
        if begun_before == 0 {
            self.wait_for_flag();
        }
    }

    fn are_seen_to_begin(&self) -> bool {
        for _ in 0..TURNS {
            if self.begun.load(Ordering::SeqCst) >= self.passes {
                return true;
            }
            spin_loop();
        }
        false
    }

    fn wait_for_flag(&self) {
        for _ in 0..TURNS {
            if self.came.load(Ordering::SeqCst) {
                return;
            }
            spin_loop();
        }
    }
}

impl Gate for HoldGate {
    fn pass(&self, worker: u32, _piece: u64) {
        match worker {
            0 => self.hold_up(),
            1 => self.begin(),
            _ => {}
        }
    }
}
