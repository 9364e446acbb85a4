//! A ring of samples, which keeps those that were pushed last.

ghost use Rattle.std.specs.Prelude.{◌≡◌, ◌+◌, ◌-◌, ◌*◌, ◌^◌, ◌<◌, ◌≤◌, [], ◌∷◌, ◌++◌, length, take, drop};
ghost use Rattle.std.specs.Prelude.{slice_get, Some, IfOk};
ghost use Rattle.circular_buffer.specs.Buffer.{keep_last};
ghost use Rattle.mp_defs.specs.Series.{series_of};
ghost use Rattle.mp_defs.specs.Window.{is_free};
ghost use Rattle.mp_series.specs.HeldSamples.{held_after_reads};
ghost use Rattle.mp_series.specs.Samples.{numbers_in};

use crate::counted_list::{gap, number};
use crate::missing_counts::MissingCounts;
use crate::sliding::Sliding;
use circular_buffer::HeapCircularBuffer;
use mp_nums::{Memory, Sample, Whole};
use std::alloc::Global;
use std::marker::Model;

/// The samples that were pushed last, seen as their list, how many it holds at most, how many were dropped before them,
/// and how often samples were read. Reads are counted at the calls that give samples out, and their count stays at its
/// greatest value.
///
/// The samples are kept as they are, and as plain numbers, which stand side by side, for a reader of parts. Beside them
/// stands how many were missing so far, which tells a free window without a read.
#[derive(Debug, Drop)]
pub struct Ring {
    stored: HeapCircularBuffer<Sample>,
    numbers: Sliding<Whole>,
    missing: MissingCounts,
    dropped: u64,
    reads: u128,
}

impl Model for Ring {
    ghost use Rattle.mp_series.specs.HeldSamples.{Held, IsHeld};

    ghost Value = { Held };

    ghost view = { λ r. record {
      items = r.stored.items;
      capacity = r.stored.capacity;
      dropped = r.dropped;
      reads = r.reads;
    } };

    ghost invariant = { λ r. IsHeld r.stored r.numbers r.missing.dropped r.missing.held r.dropped };
}

impl Ring {
    ghost use Rattle.std.specs.Borrow.{sem};
    ghost use Rattle.mp_defs.specs.Limits.{max_samples};
    ghost use Rattle.mp_series.specs.Lending.{CountsReadsOfHeld};

    /// A ring that holds nothing and has room for `capacity` samples. Nothing that is done with it later takes memory.
    pub fn new(alloc: Global, capacity: u64) -> Result<Ring, Memory>
        requires some { 0 < capacity }
        requires within { capacity ≤ max_samples }
        ensures items { IfOk result (λ ring. ring.items ≡ []) }
        ensures capacity { IfOk result (λ ring. ring.capacity ≡ capacity) }
        ensures dropped { IfOk result (λ ring. ring.dropped ≡ 0) }
        ensures reads { IfOk result (λ ring. ring.reads ≡ 0) }
    {
        Ok(Ring {
            stored: HeapCircularBuffer::with_capacity(alloc, capacity as usize)?,
            numbers: Sliding::new(alloc, capacity as usize)?,
            missing: MissingCounts::new(alloc, capacity)?,
            dropped: 0,
            reads: 0,
        })
    }

    /// Appends the sample, and drops the first one where the ring was full. It is no read.
    pub fn push(&mut self, sample: Sample)
        requires { length self.old.items + self.old.dropped < 2 ^ 64 - 1 }
        ensures items { self.new.items ≡ keep_last self.old.capacity (self.old.items ++ sample ∷ []) }
        ensures capacity { self.new.capacity ≡ self.old.capacity }
        ensures dropped { length self.new.items + self.new.dropped ≡ length self.old.items + self.old.dropped + 1 }
        ensures reads { self.new.reads ≡ self.old.reads }
    {
        if self.stored.is_full() {
            self.drop_first();
        }
        self.append(sample);
    }

    /// Drops the first sample.
    fn drop_first(&mut self)
        requires { 0 < length self.old.items }
        ensures items { self.new.items ≡ drop 1 self.old.items }
        ensures capacity { self.new.capacity ≡ self.old.capacity }
        ensures dropped { self.new.dropped ≡ self.old.dropped + 1 }
        ensures reads { self.new.reads ≡ self.old.reads }
    {
        self.stored.pop_front();
        self.numbers.drop_first();
        self.missing.drop_first();
        self.dropped += 1;
    }

    /// Appends the sample, for which there is room.
    fn append(&mut self, sample: Sample)
        requires room { length self.old.items < self.old.capacity }
        requires within { length self.old.items + self.old.dropped < 2 ^ 64 - 1 }
        ensures items { self.new.items ≡ self.old.items ++ sample ∷ [] }
        ensures capacity { self.new.capacity ≡ self.old.capacity }
        ensures dropped { self.new.dropped ≡ self.old.dropped }
        ensures reads { self.new.reads ≡ self.old.reads }
    {
        self.missing.append(gap(&sample));
        self.numbers.append(number(&sample));
        self.stored.push_back(sample);
    }

    /// Held sample `i`, counted from the front.
    #[inline]
    pub fn get(&mut self, i: u64) -> Sample
        requires { i < length self.old.items }
        ensures value { slice_get self.old.items i ≡ Some result }
        ensures reads { self.new ≡ held_after_reads self.old 1 }
    {
        self.reads = self.reads.saturating_add(1);
        *self.stored.get(i as usize).unwrap()
    }

    /// The numbers of `count` held samples from `first` on, and those of as many from `second` on. That of a missing
    /// one is 0.
    #[inline]
    pub fn parts(&mut self, first: u64, second: u64, count: u64) -> (&[Whole], &[Whole])
        requires first { first + count ≤ length self.old.items }
        requires second { second + count ≤ length self.old.items }
        ensures* reads { sem 𝓛 (CountsReadsOfHeld self.entry (2 * count)) }
        ensures first { result.0.now ≡ take count (drop first (numbers_in self.old.items)) }
        ensures second { result.1.now ≡ take count (drop second (numbers_in self.old.items)) }
        ensures reads_within { self.old.reads < 2 ^ 128 }
    {
        self.reads = self.reads.saturating_add(2 * count as u128);
        let numbers = self.numbers.as_slice();
        (
            &numbers[first as usize..(first + count) as usize],
            &numbers[second as usize..(second + count) as usize],
        )
    }

    /// Whether none of the `m` held samples from `i` on is missing. It is no read.
    #[inline]
    pub fn free(&self, i: u64, m: u32) -> bool
        requires { i + m ≤ length self.now.items }
        ensures { result ≡ is_free m (series_of self.now.items) i }
    {
        self.missing.before(i) == self.missing.before(i + u64::from(m))
    }

    /// How many samples are held. It is no read.
    pub fn len(&self) -> u64
        ensures length { result ≡ length self.now.items }
        ensures within { result ≤ self.now.capacity }
        ensures capacity_within { self.now.capacity ≤ max_samples }
    {
        self.stored.len() as u64
    }

    /// How many samples were dropped.
    pub fn dropped(&self) -> u64
        ensures dropped { result ≡ self.now.dropped }
        ensures within { length self.now.items + result < 2 ^ 64 }
    {
        self.dropped
    }

    /// How often samples were read.
    pub fn reads(&self) -> u128
        ensures { result ≡ self.now.reads }
    {
        self.reads
    }
}
