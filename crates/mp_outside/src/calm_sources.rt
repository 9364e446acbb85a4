ghost use Rattle.std.specs.Prelude.{◌≡◌, ◌-◌, ◌^◌, ◌≤◌, min, length, take, Some, Ok, IfOk};
ghost use Rattle.std.proofs.Common.{rules};
ghost use Rattle.mp_outside.specs.States.{given_away};

use crate::failures::Failed;
use crate::sources::Source;
use std::marker::Model;

/// Bytes in memory that are read without failing, some at a time.
#[derive(Debug, Drop)]
pub struct CalmSource {
    bytes: Vec<u8>,
    position: usize,
    step: usize,
    given: u128,
}

impl Model for CalmSource {
    ghost use Rattle.std.specs.Prelude.{◌≤◌, drop, vec_len};
    ghost use Rattle.mp_outside.specs.States.{SourceState};

    ghost Value = { SourceState };

    ghost view = { λ a. record { left = drop a.position a.bytes.items; step = a.step; given = a.given } };

    ghost invariant = { λ a. (a.position ≤ vec_len a.bytes) × (1 ≤ a.step) };
}

impl CalmSource {
    /// A source of these bytes, of which one read gives at most `step`.
    pub fn new(bytes: Vec<u8>, step: usize) -> CalmSource
        requires { 1 ≤ step }
        ensures left { ⟦<CalmSource as Source>⟧.left result ≡ Some bytes.items }
        ensures given { ⟦<CalmSource as Source>⟧.given result ≡ 0 }
        ensures faults { ⟦<CalmSource as Source>⟧.faults result ≡ 0 }
        ensures step { result.step ≡ step }
    {
        CalmSource {
            bytes,
            position: 0,
            step,
            given: 0,
        }
    }
}

impl Source for CalmSource {
    ghost left = { λ source. Some source.left };

    ghost given = { λ source. min source.given (2 ^ 128 - 1) };

    ghost faults = { λ _. 0 };

    ghost given_fits = { Prim.search rules };

    ghost faults_fit = { Prim.search rules };

    fn read(&mut self, buf: &mut [u8]) -> Result<usize, Failed>
        ensures count { result ≡ Ok (min self.old.step (min (length buf.new) (length self.old.left))) }
        ensures first { IfOk result (λ n. take n buf.new ≡ take n self.old.left) }
        ensures after { IfOk result (λ n. self.new ≡ given_away n self.old) }
        ensures step { 1 ≤ self.old.step }
    {
        let count = self
            .step
            .min(buf.len())
            .min(self.bytes.len() - self.position);
        buf[..count].copy_from_slice(&self.bytes[self.position..self.position + count]);
        self.position += count;
        self.given = self.given.saturating_add(count as u128);
        Ok(count)
    }
}
