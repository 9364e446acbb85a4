//! A list of samples that counts how often they are read.

ghost use Rattle.std.specs.Prelude.{◌≡◌, ◌+◌, ◌*◌, ◌^◌, ◌<◌, ◌≤◌, ◌↔◌, [], ◌∷◌, ◌++◌, length, take, drop, slice_get};
ghost use Rattle.std.specs.Prelude.{Some, IsOk, IsErrOf, IsTrue, IfOk, OnOk, OnErr};
ghost use Rattle.mp_defs.specs.Series.{series_of};
ghost use Rattle.mp_defs.specs.Window.{is_free};
ghost use Rattle.mp_series.specs.Samples.{number_in, numbers_in, gap_in, missing_before, after_reads};

use crate::limits::MAX_SAMPLES;
use mp_nums::{Items, Memory, Sample, Whole};
use std::alloc::Global;
use std::marker::Model;
use thiserror::Error;

/// Why a sample was not taken.
#[derive(Clone, Copy, Debug, PartialEq, Eq, Error)]
pub enum PushRefusal {
    /// The series would have more than `MAX_SAMPLES` samples.
    #[error("the series is full")]
    Full,
    /// There was no memory for the samples.
    #[error("out of memory")]
    Memory,
}

impl From<Memory> for PushRefusal {
    ghost use Rattle.std.specs.Prelude.{◌≡◌};
    ghost use Rattle.mp_series.specs.declared.counted_list.PushRefusal.TheVariants.{Memory as out_of_memory};

    ghost from_gives = { λ _ refusal. refusal ≡ out_of_memory };

    fn from(_memory: Memory) -> PushRefusal {
        PushRefusal::Memory
    }
}

/// A sample's number, 0 where it is missing.
pub(crate) fn number(sample: &Sample) -> Whole
    ensures { result ≡ number_in sample.now }
{
    match sample {
        Sample::Value(number) => *number,
        Sample::Missing => Whole::from(0),
    }
}

/// 1 for a missing sample.
pub(crate) fn gap(sample: &Sample) -> u32
    ensures { result ≡ gap_in sample.now }
{
    match sample {
        Sample::Value(_) => 0,
        Sample::Missing => 1,
    }
}

/// The samples of a series, seen as their list, how often they were read, and how many more can be taken without
/// memory. Reads are counted at the calls that give samples out, and their count stays at its greatest value.
///
/// The samples are kept as they are, for a reader of the whole list, and as plain numbers, for a reader of parts.
/// Beside them stands how many were missing so far, which tells a free window without a read.
#[derive(Debug, Drop)]
pub struct Samples {
    stored: Items<Sample>,
    numbers: Items<Whole>,
    missing: Items<u32>,
    reads: u128,
}

impl Model for Samples {
    ghost use Rattle.std.specs.Prelude.{min};
    ghost use Rattle.mp_series.specs.Samples.{Counted, IsStored};

    ghost Value = { Counted };

    ghost view = { λ s. record {
      items = s.stored.items;
      reads = s.reads;
      spare = min s.stored.spare (min s.numbers.spare s.missing.spare);
    } };

    ghost invariant = { λ s. IsStored s.stored.items s.numbers.items s.missing.items };
}

impl Samples {
    ghost use Rattle.std.specs.Borrow.{sem};
    ghost use Rattle.mp_defs.specs.Limits.{max_samples};
    ghost use Rattle.mp_series.specs.Lending.{CountsEveryPair, CountsReads};

    /// The empty series, of which nothing was read. It takes no memory.
    pub fn new(alloc: Global) -> Samples
        ensures items { result.items ≡ [] }
        ensures reads { result.reads ≡ 0 }
        ensures spare { result.spare ≡ 0 }
    {
        Samples {
            stored: Items::new(alloc),
            numbers: Items::new(alloc),
            missing: Items::new(alloc),
            reads: 0,
        }
    }

    /// A copy of the series, of which nothing was read.
    pub fn of(alloc: Global, series: &[Sample]) -> Result<Samples, PushRefusal>
        ensures items { IfOk result (λ samples. samples.items ≡ series.now) }
        ensures reads { IfOk result (λ samples. samples.reads ≡ 0) }
        ensures full { IsErrOf result PushRefusal.Full ↔ (max_samples < length series.now) }
    {
        if MAX_SAMPLES < series.len() as u64 {
            return Err(PushRefusal::Full);
        }
        let mut samples = Samples::new(alloc);
        samples.reserve(series.len() as u64)?;
        samples.push_each(series);
        Ok(samples)
    }

    /// Appends the samples of a series, for which there is room.
    fn push_each(&mut self, series: &[Sample])
        requires empty { self.old.items ≡ [] }
        requires room { length series.now ≤ self.old.spare }
        requires within { length series.now ≤ max_samples }
        ensures items { self.new.items ≡ series.now }
        ensures reads { self.new.reads ≡ self.old.reads }
    {
        for sample in series {
            self.push(*sample).unwrap();
        }
    }

    /// Makes room for `k` more samples.
    pub fn reserve(&mut self, k: u64) -> Result<(), Memory>
        ensures ok { OnOk result (k ≤ self.new.spare) }
        ensures items { self.new.items ≡ self.old.items }
        ensures reads { self.new.reads ≡ self.old.reads }
        ensures spare { self.old.spare ≤ self.new.spare }
        ensures succeeds { k ≤ self.old.spare → IsOk result }
    {
        self.stored.reserve(k)?;
        self.numbers.reserve(k)?;
        self.missing.reserve(k)
    }

    /// Appends the sample. It is no read.
    pub fn push(&mut self, sample: Sample) -> Result<(), PushRefusal>
        ensures ok { OnOk result (self.new.items ≡ self.old.items ++ sample ∷ []) }
        ensures err { OnErr result (self.new.items ≡ self.old.items) }
        ensures reads { self.new.reads ≡ self.old.reads }
        ensures full { IsErrOf result PushRefusal.Full ↔ (length self.old.items ≡ max_samples) }
        ensures spare { self.old.spare ≤ self.new.spare + 1 }
        ensures succeeds { 0 < self.old.spare → length self.old.items < max_samples → IsOk result }
    {
        if self.len() == MAX_SAMPLES {
            return Err(PushRefusal::Full);
        }
        self.numbers.reserve(1)?;
        self.missing.reserve(1)?;
        let missing = self.missing_before(self.len()) + gap(&sample);
        let number = number(&sample);
        self.stored.push(sample)?;
        self.numbers.push(number).unwrap();
        self.missing.push(missing).unwrap();
        Ok(())
    }

    /// Sample `i`.
    #[inline]
    pub fn get(&mut self, i: u64) -> Sample
        requires { i < length self.old.items }
        ensures value { slice_get self.old.items i ≡ Some result }
        ensures reads { self.new ≡ after_reads self.old 1 }
    {
        self.reads = self.reads.saturating_add(1);
        self.stored.as_slice()[i as usize]
    }

    /// The numbers of `count` samples from `first` on, and those of as many from `second` on. A missing sample's is 0.
    #[inline]
    pub fn parts(&mut self, first: u64, second: u64, count: u64) -> (&[Whole], &[Whole])
        requires first { first + count ≤ length self.old.items }
        requires second { second + count ≤ length self.old.items }
        ensures* reads { sem 𝓛 (CountsReads self.entry (2 * count)) }
        ensures first { result.0.now ≡ take count (drop first (numbers_in self.old.items)) }
        ensures second { result.1.now ≡ take count (drop second (numbers_in self.old.items)) }
        ensures reads_within { self.old.reads < 2 ^ 128 }
    {
        self.reads = self.reads.saturating_add(2 * count as u128);
        let numbers = self.numbers.as_slice();
        (
            &numbers[first as usize..(first + count) as usize],
            &numbers[second as usize..(second + count) as usize],
        )
    }

    /// How many of the first `count` samples are missing.
    #[inline]
    fn missing_before(&self, count: u64) -> u32
        requires { count ≤ length self.now.items }
        ensures count { result ≡ missing_before self.now.items count }
        ensures within { length self.now.items ≤ max_samples }
    {
        let missing = self.missing.as_slice();
        if count == 0 {
            return 0;
        }
        missing[count as usize - 1]
    }

    /// Whether none of the `m` samples from `i` on is missing. It is no read.
    #[inline]
    pub fn free(&self, i: u64, m: u32) -> bool
        requires { i + m ≤ length self.now.items }
        ensures { result ≡ is_free m (series_of self.now.items) i }
    {
        self.missing_before(i) == self.missing_before(i + u64::from(m))
    }

    /// The whole list, for a reader that may form every pair of its samples.
    pub fn lend(&mut self) -> &[Sample]
        ensures* reads { sem 𝓛 (CountsEveryPair self.entry) }
        ensures items { result.now ≡ self.old.items }
        ensures within { length result.now ≤ max_samples }
        ensures reads_within { self.old.reads < 2 ^ 128 }
    {
        let count = self.stored.as_slice().len() as u128;
        self.reads = self.reads.saturating_add(count * count);
        self.stored.as_slice()
    }

    /// How many samples there are. It is no read.
    pub fn len(&self) -> u64
        ensures length { result ≡ length self.now.items }
        ensures within { result ≤ max_samples }
    {
        self.stored.as_slice().len() as u64
    }

    /// Whether there is no sample. It is no read.
    pub fn is_empty(&self) -> bool
        ensures { IsTrue result ↔ (length self.now.items ≡ 0) }
    {
        self.len() == 0
    }

    /// How often samples were read.
    pub fn reads(&self) -> u128
        ensures { result ≡ self.now.reads }
    {
        self.reads
    }

    /// How many samples can be appended without memory.
    pub fn spare(&self) -> u64
        ensures { result ≡ self.now.spare }
    {
        self.stored
            .spare()
            .min(self.numbers.spare().min(self.missing.spare()))
    }
}
