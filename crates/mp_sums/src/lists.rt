//! Sums of windows of plain numbers.

ghost use Rattle.std.specs.Prelude.{◌≡◌, ◌^◌, ◌<◌, ◌≤◌, length};
ghost use Rattle.mp_series.specs.declared.limits.TheConstants.{MAX_WINDOW};
ghost use Rattle.mp_sums.specs.Lists.{list_sum};

use crate::numbers::square;
use mp_nums::Whole;

/// The sum of the squared differences of two windows of as many numbers.
pub fn window_sum(xs: &[Whole], ys: &[Whole]) -> u128
    requires places { length ys.now ≡ length xs.now }
    requires short { length xs.now ≤ MAX_WINDOW }
    ensures sum { result ≡ list_sum (length xs.now) xs.now 0 ys.now 0 }
    ensures small { result < 2 ^ 110 }
{
    let mut sum: u128 = 0;
    for k in 0..xs.len() {
        sum += square(xs[k], ys[k]);
    }
    sum
}
