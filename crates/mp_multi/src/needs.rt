//! From which coarse sum of several channels on a pair gives its windows nothing.

ghost use Rattle.std.specs.Prelude.{◌≡◌, ℕ, ◌+◌, ◌*◌, ◌^◌, ◌<◌, ◌≤◌, length, map, None, true};
ghost use Rattle.mp_defs.specs.Series.{series_of};
ghost use Rattle.mp_defs.specs.Window.{is_free};
ghost use Rattle.mp_results.specs.Multi.{distance_in, pair_value};
ghost use Rattle.mp_results.specs.Rising.{rising};
ghost use Rattle.mp_scans.specs.Windows.{row_windows};
ghost use Rattle.mp_skips.specs.Sums.{number_in};
ghost use Rattle.mp_skips.specs.declared.sums.TheConstants.{NO_NEED};
ghost use Rattle.mp_multi.specs.Skips.{IsWindowNeed, IsNeedOfAll, AreGroupNeeds};
ghost use Rattle.mp_multi.specs.declared.needs.TheConstants.{MOST_GROUPS};

use crate::bounds::Level;
use mp_nums::Slots;
use mp_scans::{GROUP, ROWS, limit_of};
use mp_skips::{Coarse, NO_NEED, need_of};

/// The most groups of columns that the rows of a block of pairs have on its diagonals, and those behind them that are
/// asked together with the last.
pub(crate) const MOST_GROUPS: usize = (ROWS + GROUP) / 8 + 17;

/// The most columns of these, with those that their blocks reach.
const MOST_COLUMNS: usize = 8 * MOST_GROUPS + 64;

/// Whether a channel has all samples of a window.
#[inline]
fn is_free_in(coarse: &Coarse, window: usize) -> bool
    requires { window < row_windows coarse.now.plan.grid }
    ensures { result ≡ is_free coarse.now.plan.grid.m (series_of coarse.now.plan.grid.rows.now) window }
{
    let free = coarse.rows.free;
    free[window]
}

impl<'a> Level<'a> {
    /// How many channels have all samples of a window.
    fn count_free(&self, window: usize) -> u64
        requires window { window < self.now.windows }
        ensures bound { (other : ℕ) → length (rising (distance_in self.now.plan.channels.m
            (map series_of self.now.plan.channels.list.now) window other) (length self.now.coarse.now)) ≤ result }
    {
        let mut count = 0;
        for c in 0..self.coarse.len() {
            count += u64::from(is_free_in(&self.coarse[c], window));
        }
        count
    }

    /// Whether a window has samples in so few channels that it has no value with any other.
    fn has_no_value(&self, window: usize) -> bool
        requires window { window < self.now.windows }
        ensures { result ≡ true → (other : ℕ) → pair_value self.now.plan.channels.m self.now.plan.channels.k
            (map series_of self.now.plan.channels.list.now) window other ≡ None }
    {
        self.count_free(window) < self.plan.channels.k
    }

    /// The need of a window to which others from `first` on are offered, by what stands at its place.
    #[inline]
    fn need_of_slot(&self, window: usize, first: usize, into: &Slots) -> u64
        requires channels { 1 ≤ length self.now.coarse.now }
        requires windows { length into.now.items ≡ self.now.windows }
        ensures { IsWindowNeed self.now.plan self.now.units into.now.items first window result }
    {
        if window >= self.windows {
            return 0;
        }
        let limit = limit_of(&into.as_slice()[window], first as u64);
        need_of(&self.coarse[0], limit)
    }

    /// The need of a window to which others from `first` on are offered. One that has no value with any other needs
    /// nothing.
    #[inline]
    pub(crate) fn need(&self, window: usize, first: usize, into: &Slots) -> u64
        requires channels { 1 ≤ length self.now.coarse.now }
        requires windows { length into.now.items ≡ self.now.windows }
        ensures { IsWindowNeed self.now.plan self.now.units into.now.items first window result }
    {
        if window < self.windows && into.as_slice()[window].is_none() && self.has_no_value(window) {
            return 0;
        }
        self.need_of_slot(window, first, into)
    }

    /// One need for some successive windows from one on.
    pub(crate) fn need_of_all(&self, window: usize, count: usize, first: usize, into: &Slots) -> u64
        requires channels { 1 ≤ length self.now.coarse.now }
        requires windows { length into.now.items ≡ self.now.windows }
        requires window { window + count < 2 ^ 32 }
        ensures need { IsNeedOfAll self.now.plan self.now.units into.now.items first window count result }
        ensures small { result ≤ NO_NEED }
    {
        let mut need = 0;
        for r in 0..count {
            need = self.need(window + r, first, into).max(need);
        }
        need.min(NO_NEED)
    }

    /// The needs of successive groups of columns from `group` on, to which rows from `first` on are offered: of each
    /// one for all columns that its blocks reach.
    pub(crate) fn fill_group_needs(
        &self,
        group: usize,
        first: usize,
        needs: &mut [u64],
        into: &Slots,
    )
        requires channels { 1 ≤ length self.now.coarse.now }
        requires windows { length into.now.items ≡ self.now.windows }
        requires few { length needs.old ≤ MOST_GROUPS }
        requires group { group < 2 ^ 28 }
        ensures needs { AreGroupNeeds self.now.plan self.now.units into.now.items first group (length needs.old)
            needs.new }
        ensures places { length needs.new ≡ length needs.old }
    {
        for g in 0..needs.len() {
            needs[g] = self.need_of_all(8 * (group + g), 8 + self.height(), first, into);
        }
    }
}
