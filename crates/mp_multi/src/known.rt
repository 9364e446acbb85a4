//! The values of successive pairs of windows, from their distances in each channel.

ghost use Rattle.std.specs.Prelude.{◌≡◌, ℕ, ◌+◌, ◌%◌, ◌<◌, ◌≤◌, [], length, map, slice_index_or, IfSome, Some, true};
ghost use Rattle.std.specs.Option.{option_map};
ghost use Rattle.mp_defs.specs.Series.{series_of};
ghost use Rattle.mp_results.specs.Multi.{distance_in, pair_value};
ghost use Rattle.mp_results.specs.Slide.{square};
ghost use Rattle.mp_skips.specs.Sums.{number_in};
ghost use Rattle.mp_skips.specs.Lanes.{HasLanes};
ghost use Rattle.mp_skips.specs.declared.sums.TheConstants.{MOST_SUM};
ghost use Rattle.mp_multi.specs.Skips.{AreBelow, AreDistancesIn, least_at};
ghost use Rattle.mp_multi.specs.declared.known.TheConstants.{SHORT};
ghost use Rattle.mp_multi.specs.declared.limits.TheConstants.{MAX_CHANNELS};

use crate::bounds::{Level, least_sums};
use crate::values::least_sum;
use mp_nums::Sq;
use std::simd::prelude::*;

/// Windows of fewer samples have distances below `MOST_SUM`, so that those of all channels can be added up in 64 bits.
const SHORT: u32 = 2048;

/// The distances of successive rows and columns in each channel.
pub(crate) fn fill_dists<const D: usize, const N: usize>(
    level: &Level,
    row: usize,
    column: usize,
    count: usize,
    dists: &mut [[u64; N]],
)
    requires exact { level.now.units.step.size ≡ 1 }
    requires channels { length level.now.coarse.now ≡ D }
    requires count { length dists.old ≡ D }
    requires some { 1 ≤ count }
    requires few { count ≤ N }
    requires size { N ≤ 256 }
    requires rows { row + count ≤ level.now.windows }
    requires columns { column + count ≤ level.now.windows }
    ensures dists { AreDistancesIn level.now.plan row column count D dists.new }
    ensures small { level.now.plan.channels.m < SHORT → AreBelow MOST_SUM D N dists.new }
    ensures count { length dists.new ≡ D }
{
    for c in 0..D {
        let mut one = [0; N];
        level.coarse[c].fill_distances(row, column, count, &mut one);
        dists[c] = one;
    }
}

/// The sums of the `k` least distances of eight successive pairs from a place on.
#[inline(always)]
fn least_eight<const D: usize, const N: usize>(
    dists: &[[u64; N]],
    k: usize,
    place: usize,
    sums: &mut u64x8,
)
    requires count { length dists.now ≡ D }
    requires few { D ≤ MAX_CHANNELS }
    requires some { 1 ≤ k }
    requires present { k ≤ D }
    requires size { N ≤ 256 }
    requires place { place + 8 ≤ N }
    requires small { AreBelow MOST_SUM D N dists.now }
    ensures sums { HasLanes sums.new (λ t. least_at k D dists.now (place + t)) }
{
    let mut numbers = [u64x8::splat(0); D];
    for c in 0..D {
        numbers[c] = u64x8::from_slice(&dists[c][place..]);
    }
    least_sums::<D>(&numbers, k, sums);
}

/// Fills in the sum of the least distances of each pair, as many as are taken together, and tells whether it did: not
/// where windows are so long that a sum may not fit.
pub(crate) fn fill_sums<const D: usize, const N: usize>(
    level: &Level,
    dists: &[[u64; N]],
    count: usize,
    sums: &mut [u64],
) -> bool
    requires channels { length level.now.coarse.now ≡ D }
    requires count { length dists.now ≡ D }
    requires few { count ≤ N }
    requires size { N ≤ 256 }
    requires eights { N % 8 ≡ 0 }
    requires small { level.now.plan.channels.m < SHORT → AreBelow MOST_SUM D N dists.now }
    requires places { length sums.old ≡ N }
    ensures sums { result ≡ true → (r : ℕ) → r < count
        → number_in sums.new r ≡ least_at level.now.plan.channels.k D dists.now r }
    ensures places { length sums.new ≡ N }
{
    if level.plan.channels.m >= SHORT {
        return false;
    }
    for h in 0..count.div_ceil(8) {
        let mut eight = u64x8::splat(0);
        least_eight::<D, N>(dists, level.plan.channels.k as usize, 8 * h, &mut eight);
        eight.copy_to_slice(&mut sums[8 * h..]);
    }
    true
}

/// Whether a row and a column lack no sample in any channel.
#[inline]
fn are_known<const D: usize, const N: usize>(
    level: &Level,
    row: usize,
    column: usize,
    dists: &[[u64; N]],
    r: usize,
) -> bool
    requires channels { length level.now.coarse.now ≡ D }
    requires row { row < level.now.windows }
    requires column { column < level.now.windows }
    requires count { length dists.now ≡ D }
    requires size { N ≤ 256 }
    requires place { r < N }
    requires dists { (c d : ℕ) → c < D → distance_in level.now.plan.channels.m
        (map series_of level.now.plan.channels.list.now) row column c ≡ Some d
        → number_in (slice_index_or dists.now c []) r ≡ d }
    ensures { result ≡ true → (c : ℕ) → c < D → distance_in level.now.plan.channels.m
        (map series_of level.now.plan.channels.list.now) row column c
        ≡ Some (number_in (slice_index_or dists.now c []) r) }
{
    for c in 0..D {
        if level.coarse[c]
            .distance_of(row, column, dists[c][r])
            .is_none()
        {
            return false;
        }
    }
    true
}

/// The value of a row and a column, from the distances in each channel of a stretch of successive ones, of which it is
/// the one at a place, and from their sum, where it is told.
#[inline]
pub(crate) fn value_at<const D: usize, const N: usize>(
    level: &Level,
    row: usize,
    column: usize,
    dists: &[[u64; N]],
    r: usize,
    sum: Option<u64>,
) -> Option<Sq>
    requires channels { length level.now.coarse.now ≡ D }
    requires row { row < level.now.windows }
    requires column { column < level.now.windows }
    requires count { length dists.now ≡ D }
    requires size { N ≤ 256 }
    requires place { r < N }
    requires dists { (c d : ℕ) → c < D → distance_in level.now.plan.channels.m
        (map series_of level.now.plan.channels.list.now) row column c ≡ Some d
        → number_in (slice_index_or dists.now c []) r ≡ d }
    requires sum { IfSome sum (λ n. n ≡ least_at level.now.plan.channels.k D dists.now r) }
    ensures { result ≡ option_map square (pair_value level.now.plan.channels.m level.now.plan.channels.k
        (map series_of level.now.plan.channels.list.now) row column) }
{
    if let Some(least) = sum {
        if are_known::<D, N>(level, row, column, dists, r) {
            return Some(Sq(u128::from(least)));
        }
    }
    let mut known = [None; D];
    for c in 0..D {
        known[c] = level.coarse[c].distance_of(row, column, dists[c][r]);
    }
    least_sum(&known, level.plan.channels.k)
}
