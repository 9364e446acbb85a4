//! Sums of 64 bits that move one place on.

ghost use Rattle.std.specs.Prelude.{◌≡◌, ℕ, ◌+◌, ◌-◌, ◌^◌, ◌<◌, ◌≤◌, length, false, slice_index};
ghost use Rattle.mp_defs.specs.Distance.{squared_difference};
ghost use Rattle.mp_stream.specs.Rows.{next_of, CanStep};
ghost use Rattle.mp_stream.specs.Moves.{moved_by};

use crate::limits::{GREATEST, either};
use crate::moves::Moves;
use mp_nums::Whole;
use mp_sums::close_square;

/// The sum of two windows one place on.
#[inline]
fn next_sum(sum: u64, enters: Whole, leaves: Whole, last_enters: Whole, last_leaves: Whole) -> u64
    requires can { CanStep (2 ^ 64) sum enters leaves last_enters last_leaves }
    requires enters { squared_difference last_enters enters < 2 ^ 62 }
    requires leaves { squared_difference last_leaves leaves < 2 ^ 62 }
    ensures { result ≡ next_of sum enters leaves last_enters last_leaves }
{
    sum + close_square(last_enters, enters) - close_square(last_leaves, leaves)
}

/// Moves the sums of the windows from `first` on and before `end`. Answers whether one may be below its limit or below
/// the limit of the best: below 2^63 the top bit of a difference tells.
#[inline]
pub(crate) fn move_below(
    moves: &Moves,
    first: usize,
    end: usize,
    sums: &mut [u64],
    limits: &[u64],
    best: u64,
) -> bool
    requires places { length sums.old ≡ length moves.now.before.now + 1 }
    requires limits { length limits.now ≡ length sums.old }
    requires after { 1 ≤ first }
    requires ordered { first ≤ end }
    requires within { end < length sums.old }
    requires done { (i : ℕ) → i < first → slice_index sums.old i ≡ moved_by moves.now i }
    requires small_limits { (i : ℕ) → i < length limits.now → slice_index limits.now i ≤ 2 ^ 63 }
    requires small_best { best ≤ 2 ^ 63 }
    ensures done { (i : ℕ) → i < end → slice_index sums.new i ≡ moved_by moves.now i }
    ensures above { result ≡ false → (i : ℕ) → first ≤ i → i < end
        → (slice_index limits.now i ≤ moved_by moves.now i) × (best ≤ moved_by moves.now i) }
{
    let last = moves.before.len() - 1;
    let (last_enters, last_leaves) = (moves.enters[last], moves.leaves[last]);
    let mut below = 0;
    for i in first..end {
        let sum = next_sum(
            moves.before[i - 1],
            moves.enters[i - 1],
            moves.leaves[i - 1],
            last_enters,
            last_leaves,
        );
        sums[i] = sum;
        let nearer = either(sum.wrapping_sub(limits[i]), sum.wrapping_sub(best));
        below = either(below, nearer);
    }
    GREATEST <= below
}

/// Moves the sums of the windows from `first` on.
#[inline]
pub(crate) fn move_rest(moves: &Moves, first: usize, sums: &mut [u64])
    requires places { length sums.old ≡ length moves.now.before.now + 1 }
    requires after { 1 ≤ first }
    requires within { first ≤ length sums.old }
    requires done { (i : ℕ) → i < first → slice_index sums.old i ≡ moved_by moves.now i }
    ensures { (i : ℕ) → i < length sums.old → slice_index sums.new i ≡ moved_by moves.now i }
{
    if moves.before.is_empty() {
        return;
    }
    let last = moves.before.len() - 1;
    let (last_enters, last_leaves) = (moves.enters[last], moves.leaves[last]);
    for i in first..sums.len() {
        sums[i] = next_sum(
            moves.before[i - 1],
            moves.enters[i - 1],
            moves.leaves[i - 1],
            last_enters,
            last_leaves,
        );
    }
}
