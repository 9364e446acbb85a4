ghost use Rattle.std.specs.Prelude.{◌≡◌, ◌-◌, ◌^◌, ◌≤◌, min, length, take, Some, IfOk, OnOk, OnErr, is_err};
ghost use Rattle.std.proofs.Common.{rules};
ghost use Rattle.mp_outside.specs.States.{given_away};
ghost use Rattle.mp_outside.specs.Planned.{is_next_to_fail, after_call};

use crate::calm_sources::CalmSource;
use crate::failures::Failed;
use crate::fault_plans::FaultPlan;
use crate::sources::Source;
use std::marker::Model;

/// Bytes in memory that are read some at a time, where some reads fail.
#[derive(Debug, Drop)]
pub struct MemSource {
    source: CalmSource,
    plan: FaultPlan,
}

impl Model for MemSource {
    ghost use Rattle.mp_outside.specs.Planned.{MemSourceState};

    ghost Value = { MemSourceState };

    ghost view = { λ a. record { source = a.source; plan = a.plan } };
}

impl MemSource {
    /// A source of these bytes, of which one read gives at most `step`. The reads with the numbers
    /// in `fail`, counted from 0, fail.
    pub fn new(bytes: Vec<u8>, step: usize, fail: Vec<u64>) -> MemSource
        requires { 1 ≤ step }
        ensures left { ⟦<MemSource as Source>⟧.left result ≡ Some bytes.items }
        ensures given { ⟦<MemSource as Source>⟧.given result ≡ 0 }
        ensures faults { ⟦<MemSource as Source>⟧.faults result ≡ 0 }
        ensures step { result.source.step ≡ step }
        ensures plan { result.plan ≡ record { fail = fail.items; calls = 0; faults = 0 } }
    {
        MemSource {
            source: CalmSource::new(bytes, step),
            plan: FaultPlan::new(fail),
        }
    }
}

impl Source for MemSource {
    ghost left = { λ it. Some it.source.left };

    ghost given = { λ it. min it.source.given (2 ^ 128 - 1) };

    ghost faults = { λ it. min it.plan.faults (2 ^ 64 - 1) };

    ghost given_fits = { Prim.search rules };

    ghost faults_fit = { Prim.search rules };

    fn read(&mut self, buf: &mut [u8]) -> Result<usize, Failed>
        ensures fails { is_err result ≡ is_next_to_fail self.old.plan }
        ensures plan { self.new.plan ≡ after_call self.old.plan }
        ensures failed { OnErr result (self.new.source ≡ self.old.source) }

        ensures count { IfOk result (λ n.
            n ≡ min self.old.source.step (min (length buf.new) (length self.old.source.left))) }
        ensures first { IfOk result (λ n. take n buf.new ≡ take n self.old.source.left) }
        ensures after { IfOk result (λ n. self.new.source ≡ given_away n self.old.source) }
        ensures step { OnOk result (1 ≤ self.old.source.step) }
    {
        if self.plan.fails() {
            return Err(Failed);
        }
        self.source.read(buf)
    }
}
