//! What the last window makes of the entries, by sums of 64 bits.

ghost use Rattle.std.specs.Prelude.{◌≡◌, ℕ, ◌-◌, ◌^◌, ◌<◌, ◌≤◌, length, if◌then◌else◌, slice_index, Some};
ghost use Rattle.mp_nums.specs.Near.{nearer_of};
ghost use Rattle.mp_defs.specs.Least.{near, near_at};
ghost use Rattle.mp_partial.specs.Values.{offered};
ghost use Rattle.mp_stream.specs.Blocks.{numbered};
ghost use Rattle.mp_stream.specs.Limits.{limit_of, StartsAtMost};
ghost use Rattle.mp_stream.specs.Offers.{AreOffered, IsReady, OnlyRightChanges};
ghost use Rattle.mp_stream.specs.Rows.{row_candidate};

use crate::bests::Best;
use crate::entries::{Entries, set_limit};
use mp_nums::{Near, Sq};

/// Offers window `j` to window `i` on the right.
#[inline]
fn take_right(sum: u64, i: usize, j: usize, entries: &mut Entries)
    requires order { i < j }
    requires small { sum < 2 ^ 63 }
    requires ready { IsReady limit_of j entries.old }
    ensures right { entries.new.profile.right
        ≡ offered entries.old.profile.right i (near_at (numbered entries.old.profile.first j) sum) }
    ensures only { OnlyRightChanges entries.old entries.new }
    ensures ready { IsReady limit_of j entries.new }
{
    if sum < entries.limits.as_slice()[i] {
        set_limit(&mut entries.limits, i, sum);
        let dist = Sq(u128::from(sum));
        entries.profile.offer(i as u64, j as u64, dist);
    }
}

/// Offers window `i` to the best of a window behind it.
#[inline]
fn take_best(sum: u64, i: usize, best: &mut Best)
    requires small { sum < 2 ^ 63 }
    requires before { StartsAtMost i best.old.found }
    ensures { best.new.found ≡ nearer_of best.old.found (Some (near_at i sum)) }
{
    if sum < best.limit {
        let found = Near {
            dist: Sq(u128::from(sum)),
            index: i as u64,
        };
        *best = Best {
            found: Some(found),
            limit: sum,
        };
    }
}

/// Where window `i` is free, offers window `j` to it on the right, and window `i` to the best of window `j`.
#[inline]
fn take_window(is_free: bool, sum: u64, i: usize, j: usize, entries: &mut Entries, best: &mut Best)
    requires order { i < j }
    requires small { sum < 2 ^ 63 }
    requires ready { IsReady limit_of j entries.old }
    requires before { StartsAtMost i best.old.found }
    ensures right { entries.new.profile.right ≡ (if is_free then offered entries.old.profile.right i
        (near_at (numbered entries.old.profile.first j) sum) else entries.old.profile.right) }
    ensures only { OnlyRightChanges entries.old entries.new }
    ensures ready { IsReady limit_of j entries.new }
    ensures best { best.new.found ≡ (if is_free then nearer_of best.old.found (Some (near_at i sum)) else
        best.old.found) }
{
    if is_free {
        take_right(sum, i, j, entries);
        take_best(sum, i, best);
    }
}

/// The same of the windows from `first` on and before `end`.
#[inline(never)]
pub(crate) fn take(
    sums: &[u64],
    free: &[bool],
    first: usize,
    end: usize,
    entries: &mut Entries,
    best: &mut Best,
)
    requires frees { length free.now ≡ length sums.now }
    requires ordered { first ≤ end }
    requires within { end < length sums.now }
    requires small { (i : ℕ) → first ≤ i → i < end → slice_index sums.now i < 2 ^ 63 }
    requires ready { IsReady limit_of (length sums.now - 1) entries.old }
    requires best { best.old.found ≡ near (row_candidate free.now (slice_index sums.now)) first }
    ensures offered { AreOffered limit_of free.now (slice_index sums.now) (length sums.now - 1) first end entries.old
        entries.new }
    ensures best { best.new.found ≡ near (row_candidate free.now (slice_index sums.now)) end }
{
    let j = sums.len() - 1;
    for i in first..end {
        take_window(free[i], sums[i], i, j, entries, best);
    }
}
