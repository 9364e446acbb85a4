//! A series of which the last samples are kept, and the profile of the windows that lie in them.

ghost use Rattle.std.specs.Prelude.{◌≡◌, ℕ, ◌+◌, ◌-◌, ◌*◌, ◌<◌, ◌≤◌, ◌↔◌, List, [], ◌∷◌, ◌++◌, length, slice_index_or};
ghost use Rattle.std.specs.Prelude.{slice_get, IsErrOf, IfOk, OnOk, OnErr, None, Some};
ghost use Rattle.mp_nums.specs.declared.samples.Sample.{Sample as TheSample};
ghost use Rattle.mp_series.specs.declared.limits.TheConstants.{MIN_WINDOW, MAX_WINDOW, MAX_SAMPLES};
ghost use Rattle.mp_defs.specs.Limits.{max_appended};

use crate::kept_profiles::{add_sample, make_room, no_windows};
use crate::profiles::GrowingProfile;
use mp_nums::{Memory, Sample, Slot, nearer};
use mp_series::{Ring, windows};
use std::alloc::Global;
use std::marker::Model;
use thiserror::Error;

/// The most samples that are ever appended to a kept store.
pub const MAX_APPENDED: u64 = 4_294_967_296;

/// Why a sample was not appended to a kept store.
#[derive(Clone, Copy, Debug, PartialEq, Eq, Error)]
pub enum KeptRefusal {
    /// More than `MAX_APPENDED` samples would have been appended.
    #[error("the store is full")]
    Full,
}

/// Which windows an entry is the nearest of.
#[derive(Clone, Copy, Debug, PartialEq, Eq)]
pub enum Column {
    /// Those that start earlier, and those that start later.
    All,
    /// Those that start earlier.
    Left,
    /// Those that start later.
    Right,
}

/// The last samples of a series, and for each window that lies in them the nearest windows of the series, as far off as
/// two windows can lie in so many samples. It is seen as the samples that it holds, how many were ever appended, its
/// window length, how many samples it holds at most, the columns of its windows, and how often samples were read.
#[derive(Debug, Drop)]
pub struct Kept {
    ring: Ring,
    m: u32,
    keep: u64,
    growing: GrowingProfile,
}

impl Model for Kept {
    ghost use Rattle.std.specs.Prelude.{◌+◌, length};
    ghost use Rattle.mp_partial.specs.Values.{merged_column};
    ghost use Rattle.mp_stream.specs.Kept.{Keeping};
    ghost use Rattle.mp_stream.specs.KeptProfiles.{IsKept};

    ghost Value = { Keeping };

    ghost view = { λ k. record {
      held = k.ring.items;
      count = length k.ring.items + k.ring.dropped;
      m = k.m;
      keep = k.keep;
      all = merged_column k.growing.entries.profile.left k.growing.entries.profile.right;
      left = k.growing.entries.profile.left;
      right = k.growing.entries.profile.right;
      reads = k.ring.reads;
    } };

    ghost invariant = { λ k. IsKept k.m k.keep k.ring k.growing };
}

impl Kept {
    ghost use Rattle.mp_defs.specs.Band.{first_kept, live_windows};
    ghost use Rattle.mp_stream.specs.Kept.{StandsFor, column_of, kept_after_reads};

    /// Nothing was appended, and of what comes `keep` samples are kept, with their windows of length `m`. What is done
    /// with it later takes no memory.
    pub fn open(alloc: Global, m: u32, keep: u64) -> Result<Kept, Memory>
        requires shortest { MIN_WINDOW ≤ m }
        requires longest { m ≤ MAX_WINDOW }
        requires least { m ≤ keep }
        requires greatest { keep ≤ MAX_SAMPLES }
        ensures stands { IfOk result (StandsFor []) }
        ensures m { IfOk result (λ kept. kept.m ≡ m) }
        ensures keep { IfOk result (λ kept. kept.keep ≡ keep) }
        ensures reads { IfOk result (λ kept. kept.reads ≡ 0) }
    {
        let places = windows(keep, m);
        Ok(Kept {
            ring: Ring::new(alloc, keep)?,
            m,
            keep,
            growing: no_windows(alloc, m, places + places / 16 + 1)?,
        })
    }

    /// Appends the sample. It reads no more than four samples for each sample that may be kept and for each sample of a
    /// window, and takes no memory.
    pub fn append(&mut self, sample: Sample) -> Result<(), KeptRefusal>
        ensures stands { OnOk result ((samples : List TheSample) → StandsFor samples self.old
            → StandsFor (samples ++ sample ∷ []) self.new) }
        ensures err { OnErr result (self.new ≡ self.old) }
        ensures full { IsErrOf result KeptRefusal.Full ↔ (self.old.count ≡ max_appended) }
        ensures m { self.new.m ≡ self.old.m }
        ensures keep { self.new.keep ≡ self.old.keep }
        ensures reads_rise { self.old.reads ≤ self.new.reads }
        ensures reads { self.new.reads ≤ self.old.reads + 4 * (self.new.keep + self.new.m) }
    {
        if self.len() == MAX_APPENDED {
            return Err(KeptRefusal::Full);
        }
        make_room(&mut self.growing, &self.ring, self.m, self.keep);
        let sample = &sample;
        self.ring.push(*sample);
        add_sample(&mut self.growing, &mut self.ring, self.m, *sample);
        Ok(())
    }

    /// The first window that is kept. Windows are numbered by the samples that were ever appended.
    pub fn first(&self) -> u64
        ensures { result ≡ first_kept self.now.keep self.now.count }
    {
        self.ring.dropped()
    }

    /// How many windows are kept.
    pub fn live(&self) -> u64
        ensures { result ≡ live_windows self.now.keep self.now.m self.now.count }
    {
        windows(self.ring.len(), self.m)
    }

    /// The nearest window of window `i` in a column.
    pub fn slot(&self, column: Column, i: u64) -> Slot
        requires first { first_kept self.now.keep self.now.count ≤ i }
        requires last { i < first_kept self.now.keep self.now.count
            + live_windows self.now.keep self.now.m self.now.count }
        ensures { result ≡ slice_index_or (column_of column self.now)
            (i - first_kept self.now.keep self.now.count) None }
    {
        let place = (i - self.first()) as usize;
        let left = self.growing.entries.profile.left()[place];
        let right = self.growing.entries.profile.right()[place];
        match column {
            Column::All => nearer(left, right),
            Column::Left => left,
            Column::Right => right,
        }
    }

    /// Held sample `i`, counted from the front.
    pub fn held(&mut self, i: u64) -> Sample
        requires { i < length self.old.held }
        ensures value { slice_get self.old.held i ≡ Some result }
        ensures reads { self.new ≡ kept_after_reads self.old 1 }
    {
        self.ring.get(i)
    }

    /// How many samples were ever appended.
    pub fn len(&self) -> u64
        ensures length { result ≡ self.now.count }
        ensures within { result ≤ max_appended }
    {
        self.ring.len() + self.ring.dropped()
    }

    /// How often samples were read.
    pub fn reads(&self) -> u128
        ensures { result ≡ self.now.reads }
    {
        self.ring.reads()
    }
}
