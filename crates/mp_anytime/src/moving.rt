//! The sums of diagonals' last pairs, moved one place on in 64 bits.

ghost use Rattle.std.specs.Prelude.{◌≡◌, ℕ, ◌+◌, ◌-◌, ◌*◌, ◌^◌, ◌<◌, ◌≤◌, length};
ghost use Rattle.std.specs.Prelude.{slice_index, All, true};
ghost use Rattle.mp_defs.specs.Distance.{squared_difference};
ghost use Rattle.mp_defs.specs.Limits.{max_samples};
ghost use Rattle.mp_defs.specs.Series.{series_of};
ghost use Rattle.mp_series.specs.Samples.{numbers_in};
ghost use Rattle.mp_sums.specs.Sums.{numbers_of};
ghost use Rattle.mp_anytime.specs.Kept.{AreDistinct, AreSums, IsDiagonal, IsSumAt, OnlyReads};
ghost use Rattle.mp_anytime.specs.Offers.{IsMovedSum};
ghost use Rattle.mp_anytime.specs.Sums.{AreClose, HavePlaces, IsMoved, LieClose, room_of, square_behind, sum_in};

use crate::sums::Sums;
use mp_nums::Whole;
use mp_series::Samples;
use mp_sums::close_square;

/// The sum of two windows one place on, where 64 bits hold it.
#[inline]
fn next_sum(sum: u64, enters: Whole, leaves: Whole, last_enters: Whole, last_leaves: Whole) -> u64
    requires enters { squared_difference enters last_enters < 2 ^ 62 }
    requires leaves { squared_difference leaves last_leaves < 2 ^ 62 }
    ensures { IsMoved (squared_difference enters last_enters) (squared_difference leaves last_leaves) sum result }
{
    let entered = sum.wrapping_add(close_square(enters, last_enters));
    entered.wrapping_sub(close_square(leaves, last_leaves))
}

/// Moves the sum of each diagonal one place on, from the numbers that enter the windows before the last one and those
/// that leave them.
fn move_each(enters: &[Whole], leaves: &[Whole], sums: &mut [u64])
    requires some { 1 ≤ length enters.now }
    requires same { length leaves.now ≡ length enters.now }
    requires places { length enters.now ≤ length sums.old }
    requires entering { AreClose enters.now }
    requires leaving { AreClose leaves.now }
    ensures places { length sums.new ≡ length sums.old }
    ensures moved { (d : ℕ) → d < length enters.now
        → IsMoved (square_behind enters.now d) (square_behind leaves.now d) (slice_index sums.old d)
        (slice_index sums.new d) }
{
    let last = enters.len() - 1;
    let (last_enters, last_leaves) = (enters[last], leaves[last]);
    for diagonal in 0..enters.len() {
        let row = last - diagonal;
        sums[diagonal] = next_sum(
            sums[diagonal],
            enters[row],
            leaves[row],
            last_enters,
            last_leaves,
        );
    }
}

/// Moves the sums of the last pairs to those with the last window, where the samples lie close. These have no more than
/// 63 bits.
fn move_sums(samples: &mut Samples, m: u32, last: u64, sums: &mut Sums)
    requires shortest { 2 ≤ m }
    requires some { 1 ≤ last }
    requires within { last + m ≡ length samples.old.items }
    requires places { HavePlaces (last + 1) sums.old }
    requires close { LieClose m (numbers_in samples.old.items) }
    ensures places { HavePlaces (last + 1) sums.new }
    ensures sums { (d : ℕ) → d < last → IsSumAt m (series_of samples.old.items) (last - 1 - d) (last - 1)
        (sum_in sums.old d) → IsMovedSum m samples.old.items last d (slice_index sums.new.upper.items d)
        (slice_index sums.new.lower.items d) }
    ensures room { room_of sums.new ≡ room_of sums.old }
    ensures read { OnlyReads (2 * last) samples.old samples.new }
{
    let (enters, leaves) = samples.parts(u64::from(m), 0, last);
    move_each(enters, leaves, sums.lower.as_mut_slice());
}

/// What comes in and what goes where a window moves on by one place.
#[derive(Clone, Copy)]
struct Move {
    enters: Whole,
    leaves: Whole,
}

/// The move from the window before to window `i`.
#[inline]
fn move_to(samples: &mut Samples, m: u32, i: u64) -> Move
    requires shortest { 1 ≤ m }
    requires some { 1 ≤ i }
    requires within { i + m ≤ length samples.old.items }
    requires few { length samples.old.items ≤ max_samples }
    ensures enters { result.enters ≡ numbers_of (series_of samples.old.items) (i - 1 + m) }
    ensures leaves { result.leaves ≡ numbers_of (series_of samples.old.items) (i - 1) }
    ensures read { OnlyReads 2 samples.old samples.new }
{
    let (enters, leaves) = samples.parts(i - 1 + u64::from(m), i - 1, 1);
    Move {
        enters: enters[0],
        leaves: leaves[0],
    }
}

/// Moves the sums of the covered diagonals' last pairs to those with the last window, where the samples lie close.
fn move_covered(samples: &mut Samples, m: u32, last: u64, covered: &[u64], sums: &mut Sums)
    requires shortest { 2 ≤ m }
    requires some { 1 ≤ last }
    requires within { last + m ≡ length samples.old.items }
    requires few { length samples.old.items ≤ max_samples }
    requires diagonals { All (IsDiagonal m last) covered.now }
    requires distinct { AreDistinct covered.now }
    requires sums { AreSums m (series_of samples.old.items) covered.now (last - 1) sums.old }
    requires places { HavePlaces (last + 1) sums.old }
    requires close { LieClose m (numbers_in samples.old.items) }
    ensures places { HavePlaces (last + 1) sums.new }
    ensures sums { AreSums m (series_of samples.old.items) covered.now last sums.new }
    ensures room { room_of sums.new ≡ room_of sums.old }
    ensures read { OnlyReads (2 * length covered.now + 2) samples.old samples.new }
{
    let ahead = move_to(samples, m, last);
    for k in 0..covered.len() {
        let own = move_to(samples, m, last - covered[k]);
        let diagonal = covered[k] as usize;
        let sum = next_sum(
            sums.lower.as_slice()[diagonal],
            own.enters,
            own.leaves,
            ahead.enters,
            ahead.leaves,
        );
        sums.set_lower(diagonal, sum);
    }
}

/// The same, and those of all diagonals with them where most are covered.
pub(crate) fn move_on(
    samples: &mut Samples,
    m: u32,
    last: u64,
    covered: &[u64],
    are_most: bool,
    sums: &mut Sums,
)
    requires shortest { 2 ≤ m }
    requires some { 1 ≤ length covered.now }
    requires most { are_most ≡ true → last ≤ 2 * length covered.now }
    requires within { last + m ≡ length samples.old.items }
    requires few { length samples.old.items ≤ max_samples }
    requires diagonals { All (IsDiagonal m last) covered.now }
    requires distinct { AreDistinct covered.now }
    requires sums { AreSums m (series_of samples.old.items) covered.now (last - 1) sums.old }
    requires places { HavePlaces (last + 1) sums.old }
    requires close { LieClose m (numbers_in samples.old.items) }
    ensures places { HavePlaces (last + 1) sums.new }
    ensures sums { AreSums m (series_of samples.old.items) covered.now last sums.new }
    ensures room { room_of sums.new ≡ room_of sums.old }
    ensures read { OnlyReads (4 * length covered.now) samples.old samples.new }
{
    if are_most {
        move_sums(samples, m, last, sums);
    } else {
        move_covered(samples, m, last, covered, sums);
    }
}
