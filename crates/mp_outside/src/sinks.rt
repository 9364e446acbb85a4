ghost use Rattle.std.specs.Prelude.{◌≡◌, ℕ, ◌+◌, ◌-◌, ◌^◌, ◌<◌, ◌≤◌, List, [], ◌++◌, length, take, Bool, false, true};
ghost use Rattle.std.specs.Prelude.{Option, Some, IfOk, OnOk, OnErr};
ghost use Rattle.std.specs.Option.{ForSome};
ghost use Rattle.mp_outside.specs.Counts.{Rose};

use crate::failures::Failed;

/// Where bytes are written to.
pub trait Sink {
    /// The bytes written, where the sink tells them.
    ghost written: { Self → Option (List ℕ) };

    /// How many bytes the sink goes on telling. Past these it may tell none.
    ghost room: { Self → ℕ };

    /// Whether the bytes written have gone through.
    ghost flushed: { Self → Bool };

    /// How often a write or a flush has failed.
    ghost faults: { Self → ℕ };

    /// Writes bytes from the front of `bytes`, and answers how many.
    fn write(&mut self, bytes: &[u8]) -> Result<usize, Failed>
        ensures within { IfOk result (λ n. n ≤ length bytes.now) }
        ensures some { 0 < length bytes.now → IfOk result (λ n. 0 < n) }

        // Where the bytes written are told and have room for the new ones, they are told with these behind.
        ensures written { IfOk result (λ n. ForSome (written self.old) (λ before.
            length before + n ≤ room self.old → written self.new ≡ Some (before ++ take n bytes.now))) }

        // No bytes change nothing, and a write that failed wrote nothing.
        ensures none_written { bytes.now ≡ [] → written self.new ≡ written self.old }
        ensures failed_written { OnErr result (written self.new ≡ written self.old) }

        ensures flushed { 0 < length bytes.now → OnOk result (flushed self.new ≡ false) }
        ensures none_flushed { bytes.now ≡ [] → flushed self.new ≡ flushed self.old }
        ensures failed_flushed { OnErr result (flushed self.new ≡ flushed self.old) }

        ensures room { room self.new ≡ room self.old }

        // A write that failed is counted, and no other.
        ensures faults { faults self.old ≤ faults self.new }
        ensures calm { OnOk result (faults self.new ≡ faults self.old) }
        ensures cause { OnErr result (Rose (faults self.old) (faults self.new)) };

    /// Brings what was written to where it goes.
    fn flush(&mut self) -> Result<(), Failed>
        ensures flushed { OnOk result (flushed self.new ≡ true) }
        ensures failed_flushed { OnErr result (flushed self.new ≡ flushed self.old) }
        ensures written { written self.new ≡ written self.old }
        ensures room { room self.new ≡ room self.old }

        // A flush that failed is counted, and no other.
        ensures faults { faults self.old ≤ faults self.new }
        ensures calm { OnOk result (faults self.new ≡ faults self.old) }
        ensures cause { OnErr result (Rose (faults self.old) (faults self.new)) };

    ghost faults_fit: { (sink : Self) → faults sink ≤ 2 ^ 64 - 1 };
}
