ghost use Rattle.std.specs.Prelude.{◌≡◌, ◌-◌, ◌^◌, ◌≤◌, min, [], length, take, Some, IfOk, OnOk, OnErr, is_err, true};
ghost use Rattle.std.specs.Prelude.{unwrap_or};
ghost use Rattle.std.proofs.Common.{rules};
ghost use Rattle.mp_outside.specs.States.{after_writing};
ghost use Rattle.mp_outside.specs.Planned.{is_next_to_fail, after_call};

use crate::calm_sinks::CalmSink;
use crate::failures::Failed;
use crate::fault_plans::FaultPlan;
use crate::sinks::Sink;
use mp_nums::Memory;
use std::alloc::Global;
use std::marker::Model;

/// Bytes written into memory some at a time, where some writes and flushes fail. Past its room it
/// keeps their count alone.
#[derive(Debug, Drop)]
pub struct MemSink {
    sink: CalmSink,
    step: usize,
    plan: FaultPlan,
}

impl Model for MemSink {
    ghost use Rattle.std.specs.Prelude.{◌≤◌};
    ghost use Rattle.mp_outside.specs.Planned.{MemSinkState};

    ghost Value = { MemSinkState };

    ghost view = { λ a. record { sink = a.sink; step = a.step; plan = a.plan } };

    ghost invariant = { λ a. 1 ≤ a.step };
}

impl MemSink {
    /// An empty sink that tells up to `room` bytes, of which one write takes at most `step`. The
    /// writes and flushes with the numbers in `fail` fail, counted together from 0. It takes the
    /// memory for its room now, and none later.
    pub fn new(alloc: Global, room: u64, step: usize, fail: Vec<u64>) -> Result<MemSink, Memory>
        requires { 1 ≤ step }
        ensures written { IfOk result (λ it. ⟦<MemSink as Sink>⟧.written it ≡ Some []) }
        ensures room { IfOk result (λ it. ⟦<MemSink as Sink>⟧.room it ≡ room) }
        ensures flushed { IfOk result (λ it. ⟦<MemSink as Sink>⟧.flushed it ≡ true) }
        ensures faults { IfOk result (λ it. ⟦<MemSink as Sink>⟧.faults it ≡ 0) }
        ensures count { IfOk result (λ it. it.sink.count ≡ 0) }
        ensures step { IfOk result (λ it. it.step ≡ step) }
        ensures plan { IfOk result (λ it. it.plan ≡ record { fail = fail.items; calls = 0; faults = 0 }) }
    {
        Ok(MemSink {
            sink: CalmSink::new(alloc, room)?,
            step,
            plan: FaultPlan::new(fail),
        })
    }

    /// The bytes written, or none where these are more than the room.
    pub fn bytes(&self) -> &[u8]
        ensures { result.now ≡ unwrap_or self.now.sink.written [] }
    {
        self.sink.bytes()
    }

    /// How many bytes were written.
    pub fn count(&self) -> u128
        ensures { result ≡ self.now.sink.count }
    {
        self.sink.count()
    }
}

impl Sink for MemSink {
    ghost written = { λ it. it.sink.written };

    ghost room = { λ it. it.sink.room };

    ghost flushed = { λ it. it.sink.flushed };

    ghost faults = { λ it. min it.plan.faults (2 ^ 64 - 1) };

    ghost faults_fit = { Prim.search rules };

    fn write(&mut self, bytes: &[u8]) -> Result<usize, Failed>
        ensures fails { is_err result ≡ is_next_to_fail self.old.plan }
        ensures plan { self.new.plan ≡ after_call self.old.plan }
        ensures failed { OnErr result (self.new.sink ≡ self.old.sink) }

        ensures count { IfOk result (λ n. n ≡ min self.old.step (length bytes.now)) }
        ensures after { IfOk result (λ n. self.new.sink ≡ after_writing (take n bytes.now) self.old.sink) }
        ensures step { 1 ≤ self.old.step }
        ensures step_stays { self.new.step ≡ self.old.step }
    {
        if self.plan.fails() {
            return Err(Failed);
        }
        let count = self.step.min(bytes.len());
        self.sink.write(&bytes[..count])
    }

    fn flush(&mut self) -> Result<(), Failed>
        ensures fails { is_err result ≡ is_next_to_fail self.old.plan }
        ensures plan { self.new.plan ≡ after_call self.old.plan }
        ensures failed { OnErr result (self.new.sink ≡ self.old.sink) }
        ensures after { OnOk result (self.new.sink ≡ record self.old.sink { flushed = true }) }
        ensures step_stays { self.new.step ≡ self.old.step }
    {
        if self.plan.fails() {
            return Err(Failed);
        }
        self.sink.flush()
    }
}
