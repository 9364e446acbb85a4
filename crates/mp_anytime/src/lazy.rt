//! A profile in parts.

ghost use Rattle.std.specs.Prelude.{◌≡◌, ◌+◌, ◌*◌, ◌<◌, ◌≤◌, ◌↔◌, [], ◌∷◌};
ghost use Rattle.std.specs.Prelude.{◌++◌, length};
ghost use Rattle.std.specs.Prelude.{IsOk, IsErrOf, IsTrue, IfOk, OnOk, OnErr};
ghost use Rattle.mp_defs.specs.Limits.{max_samples};
ghost use Rattle.mp_defs.specs.Series.{series_of};
ghost use Rattle.mp_defs.specs.Window.{windows as windows_in};
ghost use Rattle.mp_series.specs.declared.limits.TheConstants.{MIN_WINDOW, MAX_WINDOW};
ghost use Rattle.mp_partial.specs.declared.limits.TheConstants.{MAX_WORKERS};
ghost use Rattle.mp_results.specs.Covering.{advanced, uncovered};
ghost use Rattle.mp_results.specs.LazyProfile.{lazy_profile};

use crate::coverage::Coverage;
use crate::diagonals::found_along;
use mp_nums::{Memory, Sample};
use mp_outside::Gate;
use mp_partial::{MAX_WORKERS, Profile};
use mp_series::{MAX_SAMPLES, MAX_WINDOW, MIN_WINDOW, Samples, excl, windows};
use std::alloc::Global;
use std::marker::Model;
use std::thread::Threads;
use thiserror::Error;

/// Why a sample was not appended.
#[derive(Clone, Copy, Debug, PartialEq, Eq, Error)]
pub enum AppendRefusal {
    /// The series would have more than `MAX_SAMPLES` samples.
    #[error("the series is full")]
    Full,
    /// There was no memory for one more sample.
    #[error("out of memory")]
    Memory,
}

impl From<Memory> for AppendRefusal {
    ghost use Rattle.std.specs.Prelude.{◌≡◌};
    ghost use Rattle.mp_anytime.specs.declared.lazy.AppendRefusal.TheVariants.{Memory as out_of_memory};

    ghost from_gives = { λ _ refusal. refusal ≡ out_of_memory };

    fn from(_memory: Memory) -> AppendRefusal {
        AppendRefusal::Memory
    }
}

/// A series and the profile of the pairs of its windows that lie on some diagonals, which are said to be covered. It is
/// seen as its samples, the covered diagonals in the order in which they were covered, its window length, how often
/// samples were read, and how many more samples it can take without memory.
#[derive(Debug, Drop)]
pub struct Anytime {
    samples: Samples,
    m: u32,
    coverage: Coverage,
}

impl Model for Anytime {
    ghost use Rattle.std.specs.Prelude.{◌≤◌, min};
    ghost use Rattle.mp_defs.specs.Limits.{min_window, max_window};
    ghost use Rattle.mp_results.specs.Covering.{Covering};
    ghost use Rattle.mp_anytime.specs.Kept.{IsOf, room_of};

    ghost Value = { Covering };

    ghost view = { λ a. record {
      items = a.samples.items;
      covered = a.coverage.covered.items;
      m = a.m;
      reads = a.samples.reads;
      spare = min a.samples.spare (room_of a.coverage);
    } };

    ghost invariant = { λ a. (min_window ≤ a.m) × (a.m ≤ max_window) × IsOf a.m a.samples.items a.coverage };
}

impl Anytime {
    /// The samples at window length `m`, with no diagonal covered. Where there is no memory, the samples are given up.
    pub fn from(alloc: Global, samples: Samples, m: u32) -> Result<Anytime, Memory>
        requires shortest { MIN_WINDOW ≤ m }
        requires longest { m ≤ MAX_WINDOW }
        ensures items { IfOk result (λ anytime. anytime.items ≡ samples.items) }
        ensures covered { IfOk result (λ anytime. anytime.covered ≡ []) }
        ensures m { IfOk result (λ anytime. anytime.m ≡ m) }
        ensures reads { IfOk result (λ anytime. anytime.reads ≡ samples.reads) }
    {
        let coverage = Coverage::none(alloc, m, windows(samples.len(), m))?;
        Ok(Anytime {
            samples,
            m,
            coverage,
        })
    }

    /// Makes room for `k` more samples.
    pub fn reserve(&mut self, k: u64) -> Result<(), Memory>
        ensures ok { OnOk result (k ≤ self.new.spare) }
        ensures items { self.new.items ≡ self.old.items }
        ensures covered { self.new.covered ≡ self.old.covered }
        ensures m { self.new.m ≡ self.old.m }
        ensures reads { self.new.reads ≡ self.old.reads }
        ensures spare { self.old.spare ≤ self.new.spare }
        ensures succeeds { k ≤ self.old.spare → IsOk result }
    {
        self.samples.reserve(k)?;
        self.coverage.reserve(k)
    }

    /// Appends the sample, which brings a pair to each covered diagonal. It reads no more than four samples for each
    /// covered diagonal and for each sample of a window.
    pub fn append(&mut self, sample: Sample) -> Result<(), AppendRefusal>
        ensures ok { OnOk result (self.new.items ≡ self.old.items ++ sample ∷ []) }
        ensures err { OnErr result (self.new.items ≡ self.old.items) }
        ensures covered { self.new.covered ≡ self.old.covered }
        ensures m { self.new.m ≡ self.old.m }
        ensures full { IsErrOf result AppendRefusal.Full ↔ (length self.old.items ≡ max_samples) }
        ensures spare { self.old.spare ≤ self.new.spare + 1 }
        ensures succeeds { 0 < self.old.spare → length self.old.items < max_samples → IsOk result }
        ensures reads_rise { self.old.reads ≤ self.new.reads }
        ensures reads { self.new.reads ≤ self.old.reads + 4 * (length self.old.covered + self.old.m) }
        ensures few { length self.new.covered ≤ windows_in (length self.new.items) self.new.m }
    {
        let _covered = &self.coverage;
        if self.len() == MAX_SAMPLES {
            return Err(AppendRefusal::Full);
        }
        self.reserve(1)?;
        let sample = &sample;
        self.samples.push(*sample).unwrap();
        self.coverage.add_last(&mut self.samples, self.m, *sample);
        Ok(())
    }

    /// Covers the next `k` diagonals, or all that are left where these are fewer, by so many workers: a diagonal is a
    /// piece of work. The result is how many it covered. It is the same for every number of workers and gate.
    pub fn advance<R: Threads + Sync, G: Gate>(
        &mut self,
        rt: &R,
        alloc: Global,
        k: u64,
        workers: u32,
        gate: &G,
    ) -> Result<u64, Memory>
        requires some { 1 ≤ workers }
        requires workers { workers ≤ MAX_WORKERS }
        ensures ok { OnOk result (self.new.covered
            ≡ advanced self.old.m (windows_in (length self.old.items) self.old.m) k self.old.covered) }
        ensures count { IfOk result (λ count. length self.new.covered ≡ length self.old.covered + count) }
        ensures err { OnErr result (self.new.covered ≡ self.old.covered) }
        ensures items { self.new.items ≡ self.old.items }
        ensures m { self.new.m ≡ self.old.m }
        ensures spare { self.new.spare ≡ self.old.spare }
        ensures reads_rise { self.old.reads ≤ self.new.reads }
        ensures few { length self.new.covered ≤ windows_in (length self.new.items) self.new.m }
    {
        let chosen = self.coverage.waiting.choose(alloc, k)?;
        let count = chosen.len() as u64;
        self.coverage.reserve_covered(count)?;
        let chosen = chosen.as_slice();
        let found = found_along(
            rt,
            alloc,
            &mut self.samples,
            self.m,
            &self.coverage,
            chosen,
            workers,
            gate,
        )?;
        self.coverage
            .cover(&mut self.samples, self.m, chosen, &found);
        Ok(count)
    }

    /// For each window the nearest of the windows outside its exclusion zone on covered diagonals.
    pub fn profile(&self) -> &Profile
        ensures all { result.now.all ≡ (lazy_profile self.now.m self.now.covered (series_of self.now.items)).all }
        ensures left { result.now.left ≡ (lazy_profile self.now.m self.now.covered (series_of self.now.items)).left }
        ensures right { result.now.right
            ≡ (lazy_profile self.now.m self.now.covered (series_of self.now.items)).right }
    {
        let _entries = self.coverage.profile.all();
        &self.coverage.profile
    }

    /// How many diagonals are covered.
    pub fn covered(&self) -> u64
        ensures { result ≡ length self.now.covered }
    {
        self.coverage.covered.as_slice().len() as u64
    }

    /// How many diagonals aren't covered.
    pub fn left(&self) -> u64
        ensures { result
            ≡ length (uncovered self.now.m (windows_in (length self.now.items) self.now.m) self.now.covered) }
    {
        let diagonals = windows(self.len(), self.m).saturating_sub(excl(self.m) + 1);
        diagonals - self.covered()
    }

    /// How many samples there are. It is no read.
    pub fn len(&self) -> u64
        ensures length { result ≡ length self.now.items }
        ensures within { result ≤ max_samples }
    {
        self.samples.len()
    }

    /// Whether there is no sample. It is no read.
    pub fn is_empty(&self) -> bool
        ensures { IsTrue result ↔ (length self.now.items ≡ 0) }
    {
        self.samples.is_empty()
    }

    /// How often samples were read.
    pub fn reads(&self) -> u128
        ensures { result ≡ self.now.reads }
    {
        self.samples.reads()
    }

    /// How many samples can be appended without memory.
    pub fn spare(&self) -> u64
        ensures { result ≡ self.now.spare }
    {
        self.samples.spare().min(self.coverage.room())
    }
}
