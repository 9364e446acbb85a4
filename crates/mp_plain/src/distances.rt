//! The distance of two windows.

ghost use Rattle.std.specs.Prelude.{◌≡◌, ◌+◌, ◌-◌, ◌*◌, ◌^◌, ◌<◌, ◌≤◌, length, IfSome};
ghost use Rattle.std.specs.Option.{option_map};
ghost use Rattle.mp_defs.specs.Distance as defs;
ghost use Rattle.mp_defs.specs.Series.{reading_of, series_of};
ghost use Rattle.mp_plain.specs.Square.{square as square_of};

use mp_nums::{Sample, Sq, Whole};

/// The squared difference of two numbers.
fn square(x: Whole, y: Whole) -> u128
    ensures square { result ≡ defs.squared_difference x y }
    ensures small { result < 2 ^ 96 }
{
    let difference = u128::from(x.get().abs_diff(y.get()));
    difference * difference
}

/// The squared difference of two samples, none where one is missing.
fn square_between(x: Sample, y: Sample) -> Option<u128>
    ensures value { result ≡ defs.square_between (reading_of x) (reading_of y) }
    ensures small { IfSome result (λ square. square < 2 ^ 96) }
{
    let Sample::Value(x) = x else {
        return None;
    };
    let Sample::Value(y) = y else {
        return None;
    };
    Some(square(x, y))
}

/// The squared distance of the windows of `m` samples that start at `i` in `a` and at `j` in `b`, none where a sample
/// of either is missing.
pub fn distance(a: &[Sample], i: u64, b: &[Sample], j: u64, m: u32) -> Option<Sq>
    requires first { i + m ≤ length a.now }
    requires second { j + m ≤ length b.now }
    ensures value { result ≡ option_map square_of (defs.distance m (series_of a.now) i (series_of b.now) j) }
    ensures small { IfSome result (λ found. found.0 ≤ m * (2 ^ 96 - 1)) }
{
    let mut sum: u128 = 0;
    for k in 0..u64::from(m) {
        sum += square_between(a[(i + k) as usize], b[(j + k) as usize])?;
    }
    Some(Sq(sum))
}
