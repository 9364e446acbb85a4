//! Sums of 128 bits that move one place on.

ghost use Rattle.std.specs.Prelude.{◌≡◌, ℕ, ◌+◌, ◌^◌, ◌<◌, ◌≤◌, length, slice_index, true};
ghost use Rattle.mp_defs.specs.Distance.{squared_difference};
ghost use Rattle.mp_stream.specs.Rows.{next_of, AreClose, CanStep, CanMove, moved_row};

use mp_nums::Whole;
use mp_sums::{narrow_square, square};

/// The sum of two windows one place on.
#[inline]
fn next_sum(sum: u128, enters: Whole, leaves: Whole, last_enters: Whole, last_leaves: Whole) -> u128
    requires { CanStep (2 ^ 128) sum enters leaves last_enters last_leaves }
    ensures { result ≡ next_of sum enters leaves last_enters last_leaves }
{
    sum + square(last_enters, enters) - square(last_leaves, leaves)
}

/// The same where the squares have no more than 64 bits.
#[inline]
fn next_close_sum(
    sum: u128,
    enters: Whole,
    leaves: Whole,
    last_enters: Whole,
    last_leaves: Whole,
) -> u128
    requires can { CanStep (2 ^ 128) sum enters leaves last_enters last_leaves }
    requires enters { squared_difference last_enters enters < 2 ^ 64 }
    requires leaves { squared_difference last_leaves leaves < 2 ^ 64 }
    ensures { result ≡ next_of sum enters leaves last_enters last_leaves }
{
    sum + u128::from(narrow_square(last_enters, enters))
        - u128::from(narrow_square(last_leaves, leaves))
}

/// The sums of the windows behind the first with the last one, from the sums of the windows before them.
fn move_far(before: &[u128], enters: &[Whole], leaves: &[Whole], sums: &mut [u128])
    requires some { 1 ≤ length before.now }
    requires one_more { length sums.old ≡ length before.now + 1 }
    requires can { CanMove (2 ^ 128) before.now enters.now leaves.now }
    ensures { (i : ℕ) → i < length sums.old → slice_index sums.new i
        ≡ moved_row (slice_index sums.old 0) before.now enters.now leaves.now i }
{
    let (last_enters, last_leaves) = (enters[before.len() - 1], leaves[before.len() - 1]);
    for i in 0..before.len() {
        sums[i + 1] = next_sum(before[i], enters[i], leaves[i], last_enters, last_leaves);
    }
}

/// The same where the squares have no more than 64 bits.
fn move_close(before: &[u128], enters: &[Whole], leaves: &[Whole], sums: &mut [u128])
    requires some { 1 ≤ length before.now }
    requires one_more { length sums.old ≡ length before.now + 1 }
    requires can { CanMove (2 ^ 128) before.now enters.now leaves.now }
    requires close { AreClose (2 ^ 64) enters.now leaves.now }
    ensures { (i : ℕ) → i < length sums.old → slice_index sums.new i
        ≡ moved_row (slice_index sums.old 0) before.now enters.now leaves.now i }
{
    let (last_enters, last_leaves) = (enters[before.len() - 1], leaves[before.len() - 1]);
    for i in 0..before.len() {
        sums[i + 1] = next_close_sum(before[i], enters[i], leaves[i], last_enters, last_leaves);
    }
}

/// The sums of all windows with the last one, from the first of them and the sums of the windows before them. It is
/// known whether the squares have no more than 64 bits.
pub(crate) fn move_sums(
    first: u128,
    before: &[u128],
    enters: &[Whole],
    leaves: &[Whole],
    is_close: bool,
    sums: &mut [u128],
)
    requires one_more { length sums.old ≡ length before.now + 1 }
    requires can { CanMove (2 ^ 128) before.now enters.now leaves.now }
    requires close { is_close ≡ true → AreClose (2 ^ 64) enters.now leaves.now }
    ensures { (i : ℕ) → i < length sums.old
        → slice_index sums.new i ≡ moved_row first before.now enters.now leaves.now i }
{
    sums[0] = first;
    if before.is_empty() {
        return;
    }
    if is_close {
        move_close(before, enters, leaves, sums);
    } else {
        move_far(before, enters, leaves, sums);
    }
}
