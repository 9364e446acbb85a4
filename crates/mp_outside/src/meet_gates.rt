use crate::gates::Gate;
use std::hint::spin_loop;
use std::sync::atomic::{AtomicBool, Ordering};

/// How often a worker looks for the other's flag before it goes on alone.
const TURNS: u32 = 100_000_000;

/// A gate at which two workers are seen to run side by side. In its first pass, each of the workers 0 and 1 raises a
/// flag and looks for the other's, at most 100,000,000 times. Their later passes, and all of other workers, are made at
/// once.
#[derive(Debug, Drop)]
pub struct MeetGate {
    first: Meeting,
    second: Meeting,
}

/// One worker's side of the meeting.
#[derive(Debug, Drop)]
struct Meeting {
    came: AtomicBool,
    saw: AtomicBool,
}

impl MeetGate {
    /// A gate that nobody has passed. It takes no memory.
    pub fn new() -> MeetGate {
        MeetGate {
            first: Meeting::new(),
            second: Meeting::new(),
        }
    }

    /// Whether each of the two saw the other's flag in its own first pass.
    pub fn met(&self) -> bool {
        self.first.saw.load(Ordering::SeqCst) && self.second.saw.load(Ordering::SeqCst)
    }
}

impl Gate for MeetGate {
    fn pass(&self, worker: u32, _piece: u64) {
        match worker {
            0 => self.first.meet(&self.second),
            1 => self.second.meet(&self.first),
            _ => {}
        }
    }
}

impl Meeting {
    fn new() -> Meeting {
        Meeting {
            came: AtomicBool::new(false),
            saw: AtomicBool::new(false),
        }
    }

    fn meet(&self, other: &Meeting) {
        let came_before = self.came.swap(true, Ordering::SeqCst);
        if !came_before && other.is_seen_to_come() {
            self.saw.store(true, Ordering::SeqCst);
        }
    }

    fn is_seen_to_come(&self) -> bool {
        for _ in 0..TURNS {
            if self.came.load(Ordering::SeqCst) {
                return true;
            }
            spin_loop();
        }
        false
    }
}
