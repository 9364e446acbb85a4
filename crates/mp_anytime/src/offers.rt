//! The offers of the last window to the windows before it, by sums of 64 bits.

ghost use Rattle.std.specs.Prelude.{◌≡◌, ℕ, ◌+◌, ◌-◌, ◌^◌, ◌<◌, ◌≤◌, length, slice_index};
ghost use Rattle.std.specs.Prelude.{All, false, true};
ghost use Rattle.mp_defs.specs.Series.{series_of};
ghost use Rattle.mp_defs.specs.Window.{excl as zone_of};
ghost use Rattle.mp_results.specs.Covering.{is_covered};
ghost use Rattle.mp_tiles.specs.Scanning.{IsScanned};
ghost use Rattle.mp_anytime.specs.Kept.{IsDiagonal, is_last_pair};
ghost use Rattle.mp_anytime.specs.Offers.{IsCoveredWithin, IsReady, IsRow, is_last_from};

use crate::limits::{GREATEST, limit_of};
use crate::pairs::offer_pair;
use crate::waiting::Waiting;
use mp_nums::Sq;
use mp_partial::Profile;
use mp_series::Samples;

/// How many diagonals are tested at once.
const GROUP: usize = 32;

/// The last window, the sums of the diagonals' pairs with it, which of them are covered, and which wait.
#[derive(Clone, Copy)]
pub(crate) struct Row<'a> {
    pub(crate) samples: &'a Samples,
    pub(crate) m: u32,
    pub(crate) covered: &'a [u64],
    pub(crate) waiting: &'a Waiting,
    pub(crate) sums: &'a [u64],
    pub(crate) last: usize,
    ghost row: { IsRow m samples.now.items covered.now waiting.now sums.now last },
}

/// The bits of both.
#[inline]
#[tactic(auto, using(std::proofs::lemmas::Nat::le_or_l, std::proofs::lemmas::Nat::le_or_r))]
fn either(a: u64, b: u64) -> u64
    ensures a { a ≤ result }
    ensures b { b ≤ result }
{
    a | b
}

/// Whether a sum of the diagonals from `first` on and before `end` may be below its window's limit or below that of the
/// last window: up to 2^63 the top bit of a difference tells.
#[inline]
fn is_below(sums: &[u64], last: usize, first: usize, end: usize, limits: &[u64], best: u64) -> bool
    requires sums { length sums.now ≡ last + 1 }
    requires limits { length limits.now ≡ last + 1 }
    requires within { end ≤ last }
    requires small_limits { (i : ℕ) → i < length limits.now → slice_index limits.now i ≤ 2 ^ 63 }
    requires small_best { best ≤ 2 ^ 63 }
    ensures { result ≡ false → (d : ℕ) → first ≤ d → d < end
        → (slice_index limits.now (last - d) ≤ slice_index sums.now d) × (best ≤ slice_index sums.now d) }
{
    let mut below = 0;
    for diagonal in first..end {
        let sum = sums[diagonal];
        let nearer = either(
            sum.wrapping_sub(limits[last - diagonal]),
            sum.wrapping_sub(best),
        );
        below = either(below, nearer);
    }
    GREATEST <= below
}

/// Whether a sum of some diagonals may be nearer than what is known.
#[inline]
fn may_give(row: &Row, first: usize, end: usize, profile: &Profile, limits: &[u64]) -> bool
    requires apart { 1 ≤ first }
    requires within { end ≤ row.now.last }
    requires ready { IsReady row.now.last profile.now limits.now }
    ensures { result ≡ false → IsScanned (is_last_from row.now.covered.now row.now.last first end) row.now.m
        (series_of row.now.samples.now.items) profile.now profile.now }
{
    let _entries = profile.all();
    let best = limit_of(profile.left()[row.last]);
    is_below(row.sums, row.last, first, end, limits, best)
}

/// Offers the windows of a covered diagonal's pair to each other, where they are free.
fn offer_covered(row: &Row, diagonal: usize, profile: &mut Profile, limits: &mut [u64])
    requires apart { 1 ≤ diagonal }
    requires within { diagonal < row.now.last }
    requires covered { is_covered row.now.covered.now diagonal ≡ true }
    requires ready { IsReady row.now.last profile.old limits.old }
    ensures ready { IsReady row.now.last profile.new limits.new }
    ensures scanned { IsScanned (is_last_from row.now.covered.now row.now.last diagonal (diagonal + 1)) row.now.m
        (series_of row.now.samples.now.items) profile.old profile.new }
{
    let (i, j) = (row.last - diagonal, row.last);
    let both_free = row.samples.free(i as u64, row.m) & row.samples.free(j as u64, row.m);
    let dist = Sq(u128::from(row.sums[diagonal]));
    offer_pair(profile, i as u64, j as u64, both_free, dist);
    limits[i] = limit_of(profile.right()[i]);
}

/// The same of any diagonal, where it is covered.
fn offer_at(row: &Row, diagonal: usize, profile: &mut Profile, limits: &mut [u64])
    requires zone { zone_of row.now.m < diagonal }
    requires within { diagonal < row.now.last }
    requires ready { IsReady row.now.last profile.old limits.old }
    ensures ready { IsReady row.now.last profile.new limits.new }
    ensures scanned { IsScanned (is_last_from row.now.covered.now row.now.last diagonal (diagonal + 1)) row.now.m
        (series_of row.now.samples.now.items) profile.old profile.new }
{
    if row.waiting.is_waiting(diagonal as u64) {
        return;
    }
    offer_covered(row, diagonal, profile, limits);
}

/// The same, unless the sum is too great.
#[inline]
fn offer_near(row: &Row, diagonal: usize, profile: &mut Profile, limits: &mut [u64])
    requires zone { zone_of row.now.m < diagonal }
    requires within { diagonal < row.now.last }
    requires ready { IsReady row.now.last profile.old limits.old }
    ensures ready { IsReady row.now.last profile.new limits.new }
    ensures scanned { IsScanned (is_last_from row.now.covered.now row.now.last diagonal (diagonal + 1)) row.now.m
        (series_of row.now.samples.now.items) profile.old profile.new }
{
    if may_give(row, diagonal, diagonal + 1, profile, limits) {
        offer_at(row, diagonal, profile, limits);
    }
}

/// The same of the diagonals from `first` on and before `end`.
#[inline(never)]
fn offer_each(row: &Row, first: usize, end: usize, profile: &mut Profile, limits: &mut [u64])
    requires zone { zone_of row.now.m < first }
    requires order { first ≤ end }
    requires within { end ≤ row.now.last }
    requires ready { IsReady row.now.last profile.old limits.old }
    ensures ready { IsReady row.now.last profile.new limits.new }
    ensures scanned { IsScanned (is_last_from row.now.covered.now row.now.last first end) row.now.m
        (series_of row.now.samples.now.items) profile.old profile.new }
{
    for diagonal in first..end {
        offer_near(row, diagonal, profile, limits);
    }
}

/// The same, unless all of their sums are too great.
#[inline]
fn offer_group(row: &Row, first: usize, end: usize, profile: &mut Profile, limits: &mut [u64])
    requires zone { zone_of row.now.m < first }
    requires order { first ≤ end }
    requires within { end ≤ row.now.last }
    requires ready { IsReady row.now.last profile.old limits.old }
    ensures ready { IsReady row.now.last profile.new limits.new }
    ensures scanned { IsScanned (is_last_from row.now.covered.now row.now.last first end) row.now.m
        (series_of row.now.samples.now.items) profile.old profile.new }
{
    if may_give(row, first, end, profile, limits) {
        offer_each(row, first, end, profile, limits);
    }
}

/// The same of all diagonals from `first` on, in groups.
pub(crate) fn offer_row(row: &Row, first: usize, profile: &mut Profile, limits: &mut [u64])
    requires zone { zone_of row.now.m < first }
    requires order { first ≤ row.now.last }
    requires ready { IsReady row.now.last profile.old limits.old }
    ensures ready { IsReady row.now.last profile.new limits.new }
    ensures scanned { IsScanned (is_last_from row.now.covered.now row.now.last first row.now.last) row.now.m
        (series_of row.now.samples.now.items) profile.old profile.new }
{
    let groups = (row.last - first) / GROUP;
    for group in 0..groups {
        let start = first + group * GROUP;
        offer_group(row, start, start + GROUP, profile, limits);
    }
    offer_group(row, first + groups * GROUP, row.last, profile, limits);
}

/// The same as `is_below` of some diagonals.
#[inline]
fn is_one_below(sums: &[u64], last: usize, listed: &[u64], limits: &[u64], best: u64) -> bool
    requires sums { length sums.now ≡ last + 1 }
    requires limits { length limits.now ≡ last + 1 }
    requires within { All (λ d. d < last) listed.now }
    requires small_limits { (i : ℕ) → i < length limits.now → slice_index limits.now i ≤ 2 ^ 63 }
    requires small_best { best ≤ 2 ^ 63 }
    ensures { result ≡ false → All (λ d. (slice_index limits.now (last - d) ≤ slice_index sums.now d)
        × (best ≤ slice_index sums.now d)) listed.now }
{
    let mut below = 0;
    for k in 0..listed.len() {
        let diagonal = listed[k] as usize;
        let sum = sums[diagonal];
        let nearer = either(
            sum.wrapping_sub(limits[last - diagonal]),
            sum.wrapping_sub(best),
        );
        below = either(below, nearer);
    }
    GREATEST <= below
}

/// Whether a sum of some covered diagonals may be nearer than what is known.
#[inline]
fn may_one_give(row: &Row, listed: &[u64], profile: &Profile, limits: &[u64]) -> bool
    requires covered { All (IsCoveredWithin row.now.m row.now.last row.now.covered.now) listed.now }
    requires ready { IsReady row.now.last profile.now limits.now }
    ensures { result ≡ false → IsScanned (is_last_pair listed.now row.now.last) row.now.m
        (series_of row.now.samples.now.items) profile.now profile.now }
{
    let _entries = profile.all();
    let best = limit_of(profile.left()[row.last]);
    is_one_below(row.sums, row.last, listed, limits, best)
}

/// Offers the windows of the pairs of some covered diagonals to each other, one pair after another.
#[inline(never)]
fn offer_some(row: &Row, listed: &[u64], profile: &mut Profile, limits: &mut [u64])
    requires covered { All (IsCoveredWithin row.now.m row.now.last row.now.covered.now) listed.now }
    requires ready { IsReady row.now.last profile.old limits.old }
    ensures ready { IsReady row.now.last profile.new limits.new }
    ensures scanned { IsScanned (is_last_pair listed.now row.now.last) row.now.m
        (series_of row.now.samples.now.items) profile.old profile.new }
{
    for k in 0..listed.len() {
        offer_near(row, listed[k] as usize, profile, limits);
    }
}

/// The same, unless all of their sums are too great.
#[inline]
fn offer_part(row: &Row, listed: &[u64], profile: &mut Profile, limits: &mut [u64])
    requires covered { All (IsCoveredWithin row.now.m row.now.last row.now.covered.now) listed.now }
    requires ready { IsReady row.now.last profile.old limits.old }
    ensures ready { IsReady row.now.last profile.new limits.new }
    ensures scanned { IsScanned (is_last_pair listed.now row.now.last) row.now.m
        (series_of row.now.samples.now.items) profile.old profile.new }
{
    if may_one_give(row, listed, profile, limits) {
        offer_some(row, listed, profile, limits);
    }
}

/// The same of all covered diagonals, in groups.
pub(crate) fn offer_listed(row: &Row, profile: &mut Profile, limits: &mut [u64])
    requires diagonals { All (IsDiagonal row.now.m row.now.last) row.now.covered.now }
    requires ready { IsReady row.now.last profile.old limits.old }
    ensures ready { IsReady row.now.last profile.new limits.new }
    ensures scanned { IsScanned (is_last_pair row.now.covered.now row.now.last) row.now.m
        (series_of row.now.samples.now.items) profile.old profile.new }
{
    let mut first = 0;
    while first < row.covered.len() {
        let end = (first + GROUP).min(row.covered.len());
        offer_part(row, &row.covered[first..end], profile, limits);
        first = end;
    }
}
