//! The last pair of each covered diagonal, and the pair that one window more brings.

ghost use Rattle.std.specs.Prelude.{ℕ, pos, slice_index_or, ◌≡◌, ◌+◌, ◌-◌, ◌*◌, ◌<◌, ◌≤◌, length, All, true};
ghost use Rattle.mp_defs.specs.Limits.{max_samples};
ghost use Rattle.mp_defs.specs.Series.{Series, series_of};
ghost use Rattle.mp_series.specs.declared.limits.TheConstants.{MAX_WINDOW};
ghost use Rattle.mp_series.specs.Samples.{numbers_in};
ghost use Rattle.mp_sums.specs.Sums.{greatest_square, numbers_of};
ghost use Rattle.mp_scans.specs.Offering.{only};
ghost use Rattle.mp_tiles.specs.Scanning.{HasPlaces, IsScanned};
ghost use Rattle.mp_anytime.specs.Kept.{AreDistinct, AreSums, IsDiagonal, IsSumAt, OnlyReads, is_last_pair};
ghost use Rattle.mp_anytime.specs.Kept.{square_at};
ghost use Rattle.mp_anytime.specs.Sums.{AreNear, HavePlaces, LieClose, room_of};

use crate::pairs::offer_pair;
use crate::sums::Sums;
use mp_nums::{Sq, Whole};
use mp_partial::Profile;
use mp_series::Samples;
use mp_sums::{close_square, square};

/// The squared difference of samples `i` and `j`, where a missing one counts as 0.
#[inline]
fn square_between(samples: &mut Samples, i: u64, j: u64) -> u128
    requires first { i < length samples.old.items }
    requires second { j < length samples.old.items }
    ensures square { result ≡ square_at (series_of samples.old.items) i j }
    ensures small { result ≤ greatest_square }
    ensures read { OnlyReads 2 samples.old samples.new }
{
    let (first, second) = samples.parts(i, j, 1);
    square(first[0], second[0])
}

/// The sum of the squared differences of numbers at the same places.
fn sum_between(first: &[Whole], second: &[Whole]) -> u128
    requires same { length second.now ≡ length first.now }
    requires few { length first.now ≤ MAX_WINDOW }
    ensures { (a : Series) (i j : ℕ)
        → ((k : ℕ) → k < length first.now → slice_index_or first.now k (pos 0) ≡ numbers_of a (i + k))
        → ((k : ℕ) → k < length first.now → slice_index_or second.now k (pos 0) ≡ numbers_of a (j + k))
        → IsSumAt (length first.now) a i j result }
{
    let mut sum = 0;
    for k in 0..first.len() {
        sum += square(first[k], second[k]);
    }
    sum
}

/// The same where 63 bits hold the sum.
fn near_sum(first: &[Whole], second: &[Whole]) -> u64
    requires some { 2 ≤ length first.now }
    requires same { length second.now ≡ length first.now }
    requires few { length first.now ≤ MAX_WINDOW }
    requires near { AreNear first.now second.now }
    ensures { (a : Series) (i j : ℕ)
        → ((k : ℕ) → k < length first.now → slice_index_or first.now k (pos 0) ≡ numbers_of a (i + k))
        → ((k : ℕ) → k < length first.now → slice_index_or second.now k (pos 0) ≡ numbers_of a (j + k))
        → IsSumAt (length first.now) a i j result }
{
    let mut sum = 0;
    for k in 0..first.len() {
        sum += close_square(first[k], second[k]);
    }
    sum
}

/// The sum of windows `i` and `j`, of samples that may lie close.
pub(crate) fn sum_of(samples: &mut Samples, m: u32, i: u64, j: u64, are_close: bool) -> u128
    requires shortest { 2 ≤ m }
    requires width { m ≤ MAX_WINDOW }
    requires close { are_close ≡ true → LieClose m (numbers_in samples.old.items) }
    requires few { length samples.old.items ≤ max_samples }
    requires first { i + m ≤ length samples.old.items }
    requires second { j + m ≤ length samples.old.items }
    ensures sum { IsSumAt m (series_of samples.old.items) i j result }
    ensures read { OnlyReads (2 * m) samples.old samples.new }
{
    let (first, second) = samples.parts(i, j, u64::from(m));
    if are_close {
        u128::from(near_sum(first, second))
    } else {
        sum_between(first, second)
    }
}

/// The sum of windows `i` and `j`, from that of the windows before them.
#[inline]
fn next_sum(samples: &mut Samples, m: u32, i: u64, j: u64, sum: u128) -> u128
    requires shortest { 1 ≤ m }
    requires width { m ≤ MAX_WINDOW }
    requires some { 1 ≤ i }
    requires order { i < j }
    requires within { j + m ≤ length samples.old.items }
    requires few { length samples.old.items ≤ max_samples }
    requires sum { IsSumAt m (series_of samples.old.items) (i - 1) (j - 1) sum }
    ensures sum { IsSumAt m (series_of samples.old.items) i j result }
    ensures read { OnlyReads 4 samples.old samples.new }
{
    let behind = u64::from(m) - 1;
    let enters = square_between(samples, i + behind, j + behind);
    let leaves = square_between(samples, i - 1, j - 1);
    sum + enters - leaves
}

/// Takes the pair of a diagonal with the last window, where the sum is that of the pair before it. The result is the
/// sum of this pair.
#[inline]
fn extend(
    samples: &mut Samples,
    m: u32,
    i: u64,
    last: u64,
    sum: u128,
    profile: &mut Profile,
) -> u128
    requires shortest { 1 ≤ m }
    requires width { m ≤ MAX_WINDOW }
    requires some { 1 ≤ i }
    requires order { i < last }
    requires within { last + m ≡ length samples.old.items }
    requires few { length samples.old.items ≤ max_samples }
    requires sum { IsSumAt m (series_of samples.old.items) (i - 1) (last - 1) sum }
    requires places { HasPlaces (last + 1) profile.old }
    ensures sum { IsSumAt m (series_of samples.old.items) i last result }
    ensures scanned { IsScanned (only i last) m (series_of samples.old.items) profile.old profile.new }
    ensures read { OnlyReads 4 samples.old samples.new }
{
    let both_free = samples.free(i, m) & samples.free(last, m);
    let sum = next_sum(samples, m, i, last, sum);
    offer_pair(profile, i, last, both_free, Sq(sum));
    sum
}

/// Takes the pair of each covered diagonal with the last window.
pub(crate) fn extend_each(
    samples: &mut Samples,
    m: u32,
    last: u64,
    covered: &[u64],
    sums: &mut Sums,
    profile: &mut Profile,
)
    requires shortest { 1 ≤ m }
    requires width { m ≤ MAX_WINDOW }
    requires within { last + m ≡ length samples.old.items }
    requires few { length samples.old.items ≤ max_samples }
    requires diagonals { All (IsDiagonal m last) covered.now }
    requires distinct { AreDistinct covered.now }
    requires sums { AreSums m (series_of samples.old.items) covered.now (last - 1) sums.old }
    requires sum_places { HavePlaces (last + 1) sums.old }
    requires places { HasPlaces (last + 1) profile.old }
    ensures sums { AreSums m (series_of samples.old.items) covered.now last sums.new }
    ensures sum_places { HavePlaces (last + 1) sums.new }
    ensures room { room_of sums.new ≡ room_of sums.old }
    ensures scanned { IsScanned (is_last_pair covered.now last) m (series_of samples.old.items) profile.old
        profile.new }
    ensures read { OnlyReads (4 * length covered.now) samples.old samples.new }
{
    for k in 0..covered.len() {
        let diagonal = covered[k] as usize;
        let sum = extend(
            samples,
            m,
            last - covered[k],
            last,
            sums.at(diagonal),
            profile,
        );
        sums.set(diagonal, sum);
    }
}
