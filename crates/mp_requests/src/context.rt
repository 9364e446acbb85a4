//! What a command is carried out over, beside the slots.

ghost use Rattle.std.specs.Prelude.{◌≡◌, ◌-◌, ◌^◌, ◌<◌, ◌≤◌};
ghost use Rattle.mp_defs.specs.Limits.{max_window, min_window};
ghost use Rattle.mp_replies.specs.State.{first_version, second_version};

use mp_replies::Mode;
use mp_stores::Plan;
use mp_words::Settings;
use std::alloc::Global;

/// What is known of a session beside its slots, and where its memory is from.
#[derive(Clone, Copy, Debug)]
pub struct Context {
    pub alloc: Global,
    pub settings: Settings,
    /// How the line is read.
    pub mode: Mode,
    /// How many lines were run before.
    pub lines: u64,
    /// Whether a command was accepted before.
    pub begun: bool,
    ghost first: { first_version ≤ mode.version },
    ghost last: { mode.version ≤ second_version },
    ghost counted: { lines < 2 ^ 64 - 1 },
}

impl Context {
    /// How profiles of windows of `m` samples are computed.
    pub fn plan(&self, m: u32) -> Plan
        requires shortest { min_window ≤ m }
        requires longest { m ≤ max_window }
        ensures { result.m ≡ m }
    {
        Plan {
            m,
            tile: self.settings.tile(),
            workers: self.settings.workers(),
        }
    }
}
