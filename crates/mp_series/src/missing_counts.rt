//! How many samples were missing before each place of a ring.

ghost use Rattle.std.specs.Prelude.{◌≡◌, ◌+◌, ◌^◌, ◌<◌, ◌≤◌, [], ◌∷◌, ◌++◌, length, drop, slice_index, IfOk};
ghost use Rattle.circular_buffer.specs.Buffer.{buffer};
ghost use Rattle.mp_series.specs.HeldSamples.{all_missing};

use circular_buffer::HeapCircularBuffer;
use mp_nums::Memory;
use std::alloc::Global;

/// How many of all samples that were pushed into a ring are missing: of the dropped ones alone, and up to and with each
/// held one.
#[derive(Debug, Drop)]
pub struct MissingCounts {
    dropped: u64,
    held: HeapCircularBuffer<u64>,
}

impl MissingCounts {
    /// No samples, with room for `capacity` held ones.
    pub fn new(alloc: Global, capacity: u64) -> Result<MissingCounts, Memory>
        ensures dropped { IfOk result (λ counts. counts.dropped ≡ 0) }
        ensures held { IfOk result (λ counts. counts.held ≡ buffer [] capacity) }
    {
        Ok(MissingCounts {
            dropped: 0,
            held: HeapCircularBuffer::with_capacity(alloc, capacity as usize)?,
        })
    }

    /// How many were missing before held sample `i`, or of all where no sample is held there.
    #[inline]
    pub fn before(&self, i: u64) -> u64
        requires { i ≤ length self.now.held.items }
        ensures { result ≡ slice_index (self.now.dropped ∷ self.now.held.items) i }
    {
        if i == 0 {
            return self.dropped;
        }
        *self.held.get(i as usize - 1).unwrap()
    }

    /// Drops the first held sample.
    pub fn drop_first(&mut self)
        requires { 0 < length self.old.held.items }
        ensures dropped { self.new.dropped ≡ slice_index self.old.held.items 0 }
        ensures held { self.new.held ≡ buffer (drop 1 self.old.held.items) self.old.held.capacity }
    {
        self.dropped = self.held.pop_front().unwrap();
    }

    /// Appends a sample, for which there is room: `gap` is 1 where it is missing, and else 0.
    pub fn append(&mut self, gap: u32)
        requires room { length self.old.held.items < self.old.held.capacity }
        requires within { all_missing self.old.dropped self.old.held + gap < 2 ^ 64 }
        ensures dropped { self.new.dropped ≡ self.old.dropped }
        ensures held { self.new.held
            ≡ buffer (self.old.held.items ++ (all_missing self.old.dropped self.old.held + gap) ∷ [])
            self.old.held.capacity }
    {
        let count = self.before(self.held.len() as u64) + u64::from(gap);
        self.held.push_back(count);
    }
}
