ghost use Rattle.std.specs.Prelude.{◌≡◌, ℕ, ◌+◌, ◌-◌, ◌^◌, ◌<◌, ◌≤◌, min, List, [], length, take, drop, Option, Some};
ghost use Rattle.std.specs.Prelude.{IfOk, OnOk, OnErr};
ghost use Rattle.std.specs.Option.{ForSome};
ghost use Rattle.mp_outside.specs.Counts.{Rose};

use crate::failures::Failed;

/// Where bytes are read from.
pub trait Source {
    /// The bytes left, where the source tells them.
    ghost left: { Self → Option (List ℕ) };

    /// How many bytes were given.
    ghost given: { Self → ℕ };

    /// How often a read has failed.
    ghost faults: { Self → ℕ };

    /// Reads bytes into the front of `buf` and answers how many. 0 at a `buf` that isn't empty is
    /// the end. What stands in `buf` behind these bytes, or after a failure, is open.
    fn read(&mut self, buf: &mut [u8]) -> Result<usize, Failed>
        ensures within { IfOk result (λ n. n ≤ length buf.new) }
        ensures given { IfOk result (λ n. given self.new ≡ min (given self.old + n) (2 ^ 128 - 1)) }

        // Where the bytes left are told, the first of them are given and taken away.
        ensures first { IfOk result (λ n. ForSome (left self.old) (λ bytes. take n buf.new ≡ take n bytes)) }
        ensures rest { IfOk result (λ n. ForSome (left self.old) (λ bytes. left self.new ≡ Some (drop n bytes))) }
        ensures end { IfOk result (λ n. n ≡ 0 → 0 < length buf.new → ForSome (left self.old) (λ bytes. bytes ≡ [])) }

        // A read that failed took nothing.
        ensures failed_given { OnErr result (given self.new ≡ given self.old) }
        ensures failed_left { OnErr result (left self.new ≡ left self.old) }

        // A read that failed is counted, and no other.
        ensures faults { faults self.old ≤ faults self.new }
        ensures calm { OnOk result (faults self.new ≡ faults self.old) }
        ensures cause { OnErr result (Rose (faults self.old) (faults self.new)) };

    ghost given_fits: { (source : Self) → given source ≤ 2 ^ 128 - 1 };

    ghost faults_fit: { (source : Self) → faults source ≤ 2 ^ 64 - 1 };
}
