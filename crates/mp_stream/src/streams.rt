//! A series whose profile grows with it.

ghost use Rattle.std.specs.Prelude.{◌≡◌, ℕ, ◌+◌, ◌*◌, ◌^◌, ◌<◌, ◌≤◌, ◌↔◌, [], ◌∷◌, ◌++◌, false, length, slice_index_or};
ghost use Rattle.std.specs.Prelude.{IsOk, IsErrOf, IsTrue, IfOk, OnOk, OnErr};
ghost use Rattle.mp_defs.specs.Series.{series_of};
ghost use Rattle.mp_defs.specs.Window.{is_free, windows};
ghost use Rattle.mp_defs.specs.Profile.{matrix_profile};
ghost use Rattle.mp_series.specs.declared.limits.TheConstants.{MIN_WINDOW, MAX_WINDOW};
ghost use Rattle.mp_cuts.specs.declared.cuts.TheConstants.{MAX_TILE};
ghost use Rattle.mp_partial.specs.declared.limits.TheConstants.{MAX_WORKERS};

use crate::profiles::GrowingProfile;
use mp_nums::{Memory, Sample};
use mp_outside::Gate;
use mp_partial::Profile;
use mp_series::{MAX_SAMPLES, Samples};
use mp_workers::self_join;
use std::alloc::Global;
use std::marker::Model;
use std::thread::Threads;
use thiserror::Error;

/// Why a sample was not appended.
#[derive(Clone, Copy, Debug, PartialEq, Eq, Error)]
pub enum AppendRefusal {
    /// The series would have more than `MAX_SAMPLES` samples.
    #[error("the series is full")]
    Full,
    /// There was no memory for one more sample.
    #[error("out of memory")]
    Memory,
}

impl From<Memory> for AppendRefusal {
    ghost use Rattle.std.specs.Prelude.{◌≡◌};
    ghost use Rattle.mp_stream.specs.declared.streams.AppendRefusal.TheVariants.{Memory as out_of_memory};

    ghost from_gives = { λ _ refusal. refusal ≡ out_of_memory };

    fn from(_memory: Memory) -> AppendRefusal {
        AppendRefusal::Memory
    }
}

/// A series and its matrix profile, which is kept as samples are appended. It is seen as its samples, its window
/// length, how often samples were read, how many more samples it can take without memory, and for each block of `BLOCK`
/// windows whether it is marked: an append marks the blocks in which it finds a nearer window.
#[derive(Debug, Drop)]
pub struct Stream {
    samples: Samples,
    m: u32,
    growing: GrowingProfile,
}

impl Model for Stream {
    ghost use Rattle.std.specs.Prelude.{◌≤◌, min};
    ghost use Rattle.mp_defs.specs.Limits.{min_window, max_window};
    ghost use Rattle.mp_stream.specs.Streams.{Streamed, IsOf, room_of};

    ghost Value = { Streamed };

    ghost view = { λ s. record {
      items = s.samples.items;
      m = s.m;
      reads = s.samples.reads;
      spare = min s.samples.spare
          (room_of s.growing);
      changed = s.growing.entries.profile.changed;
    } };

    ghost invariant = { λ s. (min_window ≤ s.m) × (s.m ≤ max_window) × IsOf s.m s.samples.items s.growing };
}

impl Stream {
    ghost use Rattle.std.specs.Borrow.{sem};
    ghost use Rattle.mp_defs.specs.Limits.{max_samples};
    ghost use Rattle.mp_partial.specs.Values.{Column};
    ghost use Rattle.mp_stream.specs.Blocks.{block_count};
    ghost use Rattle.mp_stream.specs.Lending.{CountsEveryPair};
    ghost use Rattle.mp_stream.specs.Streams.{IsKnown};

    /// The samples at window length `m`, with their profile computed in tiles of at most `tile` diagonals by so many
    /// workers. It is the same for every tile, number of workers and gate. No block is marked. Where there is no
    /// memory, the samples are given up.
    pub fn from<R: Threads + Sync, G: Gate>(
        rt: &R,
        alloc: Global,
        samples: Samples,
        m: u32,
        tile: u32,
        workers: u32,
        gate: &G,
    ) -> Result<Stream, Memory>
        requires shortest { MIN_WINDOW ≤ m }
        requires longest { m ≤ MAX_WINDOW }
        requires least { 1 ≤ tile }
        requires greatest { tile ≤ MAX_TILE }
        requires some { 1 ≤ workers }
        requires workers { workers ≤ MAX_WORKERS }
        ensures items { IfOk result (λ stream. stream.items ≡ samples.items) }
        ensures m { IfOk result (λ stream. stream.m ≡ m) }
        ensures unmarked { IfOk result (λ stream. (block : ℕ) → slice_index_or stream.changed block false ≡ false) }
        ensures reads_rise { IfOk result (λ stream. samples.reads ≤ stream.reads) }
        ensures reads { IfOk result (λ stream. stream.reads
            ≤ samples.reads + length samples.items * (length samples.items + 2 * (m + 1))) }
    {
        let mut samples = samples;
        let profile = self_join(rt, alloc, samples.lend(), m, tile, workers, gate)?;
        let growing = GrowingProfile::of(alloc, &mut samples, m, profile)?;
        Ok(Stream {
            samples,
            m,
            growing,
        })
    }

    /// Makes room for `k` more samples.
    pub fn reserve(&mut self, k: u64) -> Result<(), Memory>
        ensures ok { OnOk result (k ≤ self.new.spare) }
        ensures items { self.new.items ≡ self.old.items }
        ensures m { self.new.m ≡ self.old.m }
        ensures reads { self.new.reads ≡ self.old.reads }
        ensures spare { self.old.spare ≤ self.new.spare }
        ensures succeeds { k ≤ self.old.spare → IsOk result }
        ensures changed { self.new.changed ≡ self.old.changed }
    {
        self.samples.reserve(k)?;
        self.growing.reserve(k)
    }

    /// Appends the sample. It reads no more than four samples for each window and for each sample of one.
    pub fn append(&mut self, sample: Sample) -> Result<(), AppendRefusal>
        ensures ok { OnOk result (self.new.items ≡ self.old.items ++ sample ∷ []) }
        ensures err { OnErr result (self.new.items ≡ self.old.items) }
        ensures m { self.new.m ≡ self.old.m }
        ensures full { IsErrOf result AppendRefusal.Full ↔ (length self.old.items ≡ max_samples) }
        ensures spare { self.old.spare ≤ self.new.spare + 1 }
        ensures succeeds { 0 < self.old.spare → length self.old.items < max_samples → IsOk result }
        ensures reads_rise { self.old.reads ≤ self.new.reads }
        ensures reads { self.new.reads ≤ self.old.reads + 4
            * (windows (length self.new.items) self.new.m + self.new.m) }
        ensures known { (known : Column) → IsKnown known self.old → IsKnown known self.new }
    {
        if self.len() == MAX_SAMPLES {
            return Err(AppendRefusal::Full);
        }
        self.reserve(1)?;
        let sample = &sample;
        self.samples.push(*sample).unwrap();
        self.growing.append(&mut self.samples, self.m, *sample);
        Ok(())
    }

    /// The matrix profile of the samples.
    pub fn profile(&self) -> &Profile
        ensures all { result.now.all ≡ (matrix_profile self.now.m (series_of self.now.items)).all }
        ensures left { result.now.left ≡ (matrix_profile self.now.m (series_of self.now.items)).left }
        ensures right { result.now.right ≡ (matrix_profile self.now.m (series_of self.now.items)).right }
    {
        self.growing.entries.profile.inner()
    }

    /// For each block of `BLOCK` windows whether it is marked. In the others each window has the nearest one that it
    /// had when the marks were cleared, and a window that came later has none.
    pub fn changed(&self) -> &[bool]
        ensures marks { result.now ≡ self.now.changed }
        ensures blocks { length result.now ≡ block_count (windows (length self.now.items) self.now.m) }
    {
        self.growing.entries.profile.changed()
    }

    /// Clears all marks.
    pub fn clear_changed(&mut self)
        ensures none { (block : ℕ) → slice_index_or self.new.changed block false ≡ false }
        ensures items { self.new.items ≡ self.old.items }
        ensures m { self.new.m ≡ self.old.m }
        ensures reads { self.new.reads ≡ self.old.reads }
        ensures spare { self.new.spare ≡ self.old.spare }
    {
        self.growing.clear_changed();
    }

    /// How many samples there are. It is no read.
    pub fn len(&self) -> u64
        ensures length { result ≡ length self.now.items }
        ensures within { result ≤ max_samples }
    {
        self.samples.len()
    }

    /// Whether there is no sample. It is no read.
    pub fn is_empty(&self) -> bool
        ensures { IsTrue result ↔ (length self.now.items ≡ 0) }
    {
        self.samples.is_empty()
    }

    /// The window length.
    pub fn window(&self) -> u32
        ensures length { result ≡ self.now.m }
        ensures least { MIN_WINDOW ≤ result }
        ensures greatest { result ≤ MAX_WINDOW }
    {
        self.m
    }

    /// How often samples were read.
    pub fn reads(&self) -> u128
        ensures { result ≡ self.now.reads }
    {
        self.samples.reads()
    }

    /// How many samples can be appended without memory.
    pub fn spare(&self) -> u64
        ensures { result ≡ self.now.spare }
    {
        self.samples.spare().min(self.growing.room())
    }

    /// Whether no sample of window `i` is missing. It is no read.
    pub fn free(&self, i: u64) -> bool
        requires { i < windows (length self.now.items) self.now.m }
        ensures { result ≡ is_free self.now.m (series_of self.now.items) i }
    {
        self.samples.free(i, self.m)
    }

    /// The whole list of samples, for a reader that may form every pair of them.
    pub fn lend(&mut self) -> &[Sample]
        ensures* reads { sem 𝓛 (CountsEveryPair self.entry) }
        ensures items { result.now ≡ self.old.items }
        ensures within { length result.now ≤ max_samples }
        ensures reads_within { self.old.reads < 2 ^ 128 }
    {
        self.samples.lend()
    }
}
