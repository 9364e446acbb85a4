//! Two windows in each channel, which move on together.

ghost use Rattle.std.specs.Prelude.{◌≡◌, ℕ, ◌+◌, ◌<◌, ◌≤◌, length, map, slice_index_or, []};
ghost use Rattle.std.specs.Option.{option_map};
ghost use Rattle.mp_defs.specs.Series.{series_of};
ghost use Rattle.mp_results.specs.Multi.{pair_value};
ghost use Rattle.mp_results.specs.Slide.{square};
ghost use Rattle.mp_multi.specs.Conditions.{AreChannels};
ghost use Rattle.mp_multi.specs.Running.{AreRunning};

use crate::running::Running;
use crate::values::least_sum;
use mp_nums::Sq;
use mp_series::Bundle;

/// Channels that are compared at window length `m`, `k` of them together.
#[derive(Clone, Copy)]
pub(crate) struct Channels<'a> {
    pub list: &'a Bundle,
    pub m: u32,
    pub k: u64,
    pub ghost are: { AreChannels list.now m k },
}

impl<'a> Channels<'a> {
    /// What is kept of the windows that start at `i` and at `j`, in each of the `D` channels.
    pub(crate) fn at<const D: usize>(&self, i: u64, j: u64) -> [Running; D]
        requires count { length self.now.list.now ≡ D }
        requires first { i + self.now.m ≤ length (slice_index_or self.now.list.now 0 []) }
        requires second { j + self.now.m ≤ length (slice_index_or self.now.list.now 0 []) }
        ensures { AreRunning self.now.m self.now.list.now i j result }
    {
        let mut running = [Running::none(); D];
        for c in 0..D {
            let channel = self.list.series(c as u64);
            running[c] = Running::of(channel, self.m, i as usize, j as usize);
        }
        running
    }

    /// Moves on from the windows that start at `i` and at `j` to the next.
    #[inline]
    pub(crate) fn move_on<const D: usize>(&self, running: &mut [Running; D], i: u64, j: u64)
        requires count { length self.now.list.now ≡ D }
        requires first { i + self.now.m < length (slice_index_or self.now.list.now 0 []) }
        requires second { j + self.now.m < length (slice_index_or self.now.list.now 0 []) }
        requires running { AreRunning self.now.m self.now.list.now i j running.old }
        ensures { AreRunning self.now.m self.now.list.now (i + 1) (j + 1) running.new }
    {
        for c in 0..D {
            let channel = self.list.series(c as u64);
            running[c] = running[c].next(channel, self.m, i as usize, j as usize);
        }
    }

    /// The value of two windows: the sum of their `k` least distances.
    #[inline]
    pub(crate) fn value<const D: usize>(&self, running: &[Running; D]) -> Option<Sq>
        requires count { length self.now.list.now ≡ D }
        ensures { (i j : ℕ) → AreRunning self.now.m self.now.list.now i j running.now
            → result ≡ option_map square (pair_value self.now.m self.now.k (map series_of self.now.list.now) i j) }
    {
        let mut dists = [None; D];
        for c in 0..D {
            dists[c] = running[c].distance();
        }
        least_sum(&dists, self.k)
    }
}
