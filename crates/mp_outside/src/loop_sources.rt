ghost use Rattle.std.specs.Prelude.{◌≡◌, ◌+◌, ◌-◌, ◌^◌, min, length, take, replicate, Some, Ok, IfOk};
ghost use Rattle.std.proofs.Common.{rules};

use crate::failures::Failed;
use crate::sources::Source;
use std::marker::Model;

/// One byte, given again and again without failing.
#[derive(Debug, Drop)]
pub struct LoopSource {
    byte: u8,
    left: u128,
    given: u128,
}

impl Model for LoopSource {
    ghost use Rattle.mp_outside.specs.States.{LoopSourceState};

    ghost Value = { LoopSourceState };

    ghost view = { λ a. record { byte = a.byte; left = a.left; given = a.given } };
}

impl LoopSource {
    /// A source of the byte, `2^128 - 1` times.
    pub fn new(byte: u8) -> LoopSource
        ensures byte { result.byte ≡ byte }
        ensures left { result.left ≡ 2 ^ 128 - 1 }
        ensures given { ⟦<LoopSource as Source>⟧.given result ≡ 0 }
        ensures faults { ⟦<LoopSource as Source>⟧.faults result ≡ 0 }
    {
        LoopSource {
            byte,
            left: u128::MAX,
            given: 0,
        }
    }
}

impl Source for LoopSource {
    ghost left = { λ source. Some (replicate source.left source.byte) };

    ghost given = { λ source. min source.given (2 ^ 128 - 1) };

    ghost faults = { λ _. 0 };

    ghost given_fits = { Prim.search rules };

    ghost faults_fit = { Prim.search rules };

    fn read(&mut self, buf: &mut [u8]) -> Result<usize, Failed>
        ensures count { result ≡ Ok (min (length buf.new) self.old.left) }
        ensures first { IfOk result (λ n. take n buf.new ≡ replicate n self.old.byte) }
        ensures after { IfOk result (λ n.
            self.new ≡ record self.old { left = self.old.left - n; given = min (self.old.given + n) (2 ^ 128 - 1) }) }
    {
        let count = (buf.len() as u128).min(self.left);
        buf[..count as usize].fill(self.byte);
        self.left -= count;
        self.given = self.given.saturating_add(count);
        Ok(count as usize)
    }
}
