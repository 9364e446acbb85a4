//! What the distances of the last window make of the entries.

ghost use Rattle.std.specs.Prelude.{◌≡◌, ℕ, ◌-◌, ◌^◌, ◌<◌, ◌≤◌, length, true, false, if◌then◌else◌, slice_index, Some};
ghost use Rattle.std.specs.Prelude.{IfSome};
ghost use Rattle.mp_nums.specs.Near.{nearer_of};
ghost use Rattle.mp_defs.specs.Least.{near, near_at};
ghost use Rattle.mp_partial.specs.Values.{offered};
ghost use Rattle.mp_stream.specs.Blocks.{StayKnown, numbered, renumbered};
ghost use Rattle.mp_stream.specs.Limits.{coarse as coarse_of, coarse_limit as limit_of};
ghost use Rattle.mp_stream.specs.Offers.{AreOffered, IsReady, OnlyRightChanges};
ghost use Rattle.mp_stream.specs.Rows.{row_candidate, with_best};

use crate::entries::{Entries, set_limit};
use crate::limits::{GREATEST, coarse, coarse_limit, either};
use crate::nearest::Nearest;
use mp_nums::{Near, Slot, Sq, nearer};

/// How many windows are tested at once.
const GROUP: usize = 32;

/// Whether a sum of the windows from `first` on and before `end` may be below its limit or below that of the best.
#[inline]
fn is_below(sums: &[u128], first: usize, end: usize, limits: &[u64], best: u64) -> bool
    requires limits { length limits.now ≡ length sums.now }
    requires within { end ≤ length sums.now }
    requires small { (i : ℕ) → i < length sums.now → slice_index sums.now i < 2 ^ 79 }
    requires small_limits { (i : ℕ) → i < length limits.now → slice_index limits.now i ≤ 2 ^ 63 }
    requires small_best { best ≤ 2 ^ 63 }
    ensures above { result ≡ false → (i : ℕ) → first ≤ i → i < end
        → (slice_index limits.now i ≤ coarse_of (slice_index sums.now i))
        × (best ≤ coarse_of (slice_index sums.now i)) }
{
    let mut below = 0;
    for i in first..end {
        let sum = coarse(sums[i]);
        let nearer = either(sum.wrapping_sub(limits[i]), sum.wrapping_sub(best));
        below = either(below, nearer);
    }
    GREATEST <= below
}

/// Where window `i` is free, offers window `j` to it on the right, and window `i` to the best of window `j`.
#[inline]
fn offer_window(
    is_free: bool,
    sum: u128,
    i: usize,
    j: usize,
    entries: &mut Entries,
    best: &mut Slot,
)
    requires order { i < j }
    requires ready { IsReady limit_of j entries.old }
    ensures right { entries.new.profile.right ≡ (if is_free then offered entries.old.profile.right i
        (near_at (numbered entries.old.profile.first j) sum) else entries.old.profile.right) }
    ensures only { OnlyRightChanges entries.old entries.new }
    ensures ready { IsReady limit_of j entries.new }
    ensures best { best.new ≡ (if is_free then nearer_of best.old (Some (near_at i sum)) else best.old) }
{
    if is_free {
        entries.profile.offer(i as u64, j as u64, Sq(sum));
        let limit = coarse_limit(entries.profile.right()[i]);
        set_limit(&mut entries.limits, i, limit);
        let found = Near {
            dist: Sq(sum),
            index: i as u64,
        };
        *best = nearer(*best, Some(found));
    }
}

/// The same of the windows from `first` on and before `end`.
#[inline(never)]
fn offer_each(
    sums: &[u128],
    free: &[bool],
    first: usize,
    end: usize,
    entries: &mut Entries,
    best: &mut Slot,
)
    requires frees { length free.now ≡ length sums.now }
    requires ordered { first ≤ end }
    requires within { end < length sums.now }
    requires ready { IsReady limit_of (length sums.now - 1) entries.old }
    requires best { best.old ≡ near (row_candidate free.now (slice_index sums.now)) first }
    ensures offered { AreOffered limit_of free.now (slice_index sums.now) (length sums.now - 1) first end entries.old
        entries.new }
    ensures best { best.new ≡ near (row_candidate free.now (slice_index sums.now)) end }
{
    let j = sums.len() - 1;
    for i in first..end {
        offer_window(free[i], sums[i], i, j, entries, best);
    }
}

/// The same where some sum may be nearer than what is known. Else nothing changes.
#[inline]
fn offer_group(
    sums: &[u128],
    free: &[bool],
    first: usize,
    end: usize,
    entries: &mut Entries,
    best: &mut Slot,
)
    requires frees { length free.now ≡ length sums.now }
    requires ordered { first ≤ end }
    requires within { end < length sums.now }
    requires small { (i : ℕ) → i < length sums.now → slice_index sums.now i < 2 ^ 79 }
    requires ready { IsReady limit_of (length sums.now - 1) entries.old }
    requires best { best.old ≡ near (row_candidate free.now (slice_index sums.now)) first }
    ensures offered { AreOffered limit_of free.now (slice_index sums.now) (length sums.now - 1) first end entries.old
        entries.new }
    ensures best { best.new ≡ near (row_candidate free.now (slice_index sums.now)) end }
{
    let limits = entries.limits.as_slice();
    if is_below(sums, first, end, limits, coarse_limit(*best)) {
        offer_each(sums, free, first, end, entries, best);
    }
}

/// Offers what was found to the last window on the left, where there is a window.
pub(crate) fn offer_best(profile: &mut Nearest, last: usize, best: Slot)
    requires last { last < length profile.old.right }
    requires number { numbered profile.old.first last < 2 ^ 64 }
    requires before { IfSome best (λ best. best.index < last) }
    ensures left { profile.new.left ≡ with_best profile.old.left last (renumbered profile.old.first best) }
    ensures right { profile.new.right ≡ profile.old.right }
    ensures spare { profile.new.spare ≡ profile.old.spare }
    ensures first { profile.new.first ≡ profile.old.first }
    ensures known { StayKnown profile.old profile.new }
{
    if let Some(best) = best {
        profile.offer(last as u64, best.index, best.dist);
    }
}

/// Offers the last window to each free window before `end`, on the right, where the sums have no more than
/// `COARSE_BITS`. The result is the nearest of these.
fn offer_groups(sums: &[u128], free: &[bool], end: usize, entries: &mut Entries) -> Slot
    requires frees { length free.now ≡ length sums.now }
    requires within { end < length sums.now }
    requires small { (i : ℕ) → i < length sums.now → slice_index sums.now i < 2 ^ 79 }
    requires ready { IsReady limit_of (length sums.now - 1) entries.old }
    ensures offered { AreOffered limit_of free.now (slice_index sums.now) (length sums.now - 1) 0 end entries.old
        entries.new }
    ensures best { result ≡ near (row_candidate free.now (slice_index sums.now)) end }
{
    let mut best: Slot = None;
    let groups = end / GROUP;
    for g in 0..groups {
        let first = g * GROUP;
        offer_group(sums, free, first, first + GROUP, entries, &mut best);
    }
    offer_group(sums, free, groups * GROUP, end, entries, &mut best);
    best
}

/// Offers the last window to each free window before `end`, on the right: in groups where the sums are known to have no
/// more than `COARSE_BITS`. The result is the nearest of these.
pub(crate) fn offer_row(
    sums: &[u128],
    free: &[bool],
    end: usize,
    is_coarse: bool,
    entries: &mut Entries,
) -> Slot
    requires frees { length free.now ≡ length sums.now }
    requires within { end < length sums.now }
    requires small { is_coarse ≡ true → (i : ℕ) → i < length sums.now → slice_index sums.now i < 2 ^ 79 }
    requires ready { IsReady limit_of (length sums.now - 1) entries.old }
    ensures offered { AreOffered limit_of free.now (slice_index sums.now) (length sums.now - 1) 0 end entries.old
        entries.new }
    ensures best { result ≡ near (row_candidate free.now (slice_index sums.now)) end }
{
    if is_coarse {
        return offer_groups(sums, free, end, entries);
    }
    let mut best: Slot = None;
    offer_each(sums, free, 0, end, entries, &mut best);
    best
}
