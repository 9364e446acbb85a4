//! The sum of the squared differences of two windows, in parts of 64 bits.

ghost use Rattle.std.specs.Prelude.{◌≡◌, ◌-◌, ◌≤◌, length};
ghost use Rattle.mp_sums.specs.Lists.{list_sum};
ghost use Rattle.mp_slide.specs.Plain.{IsShort, LieClose};

use mp_nums::Whole;
use mp_sums::close_square;

/// How many squares are summed in 64 bits, where the numbers lie close enough.
pub(crate) const PART: usize = 256;

/// The sum over the places from `first` on and before `end`, in 64 bits.
#[inline]
fn narrow_sum(pattern: &[Whole], window: &[Whole], first: usize, end: usize) -> u64
    requires places { length window.now ≡ length pattern.now }
    requires ordered { first ≤ end }
    requires within { end ≤ length pattern.now }
    requires few { end - first ≤ PART }
    requires close { LieClose pattern.now window.now }
    ensures { result ≡ list_sum (end - first) pattern.now first window.now first }
{
    let mut sum: u64 = 0;
    for k in first..end {
        sum += close_square(pattern[k], window[k]);
    }
    sum
}

/// The sum over all places, in parts of 64 bits.
pub(crate) fn parted_sum(pattern: &[Whole], window: &[Whole]) -> u128
    requires places { length window.now ≡ length pattern.now }
    requires short { IsShort pattern.now }
    requires close { LieClose pattern.now window.now }
    ensures { result ≡ list_sum (length pattern.now) pattern.now 0 window.now 0 }
{
    let mut sum: u128 = 0;
    let parts = pattern.len() / PART;
    for part in 0..parts {
        sum += u128::from(narrow_sum(pattern, window, part * PART, part * PART + PART));
    }
    sum + u128::from(narrow_sum(pattern, window, parts * PART, pattern.len()))
}
