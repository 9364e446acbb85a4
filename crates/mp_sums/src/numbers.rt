//! Samples in plain numbers, and their squared differences.

ghost use Rattle.std.specs.Prelude.{◌≡◌, ◌^◌, ◌<◌, ◌≤◌, slice_index_or, IsSome};
ghost use Rattle.mp_nums.specs.declared.samples.Sample.TheVariants.{Missing};
ghost use Rattle.mp_defs.specs.Series.{reading_of};
ghost use Rattle.mp_defs.specs.Distance.{squared_difference};
ghost use Rattle.mp_sums.specs.Sums.{filled, greatest_square};

use mp_nums::{Sample, Whole};

/// How many bits a number has.
pub const NUMBER_BITS: u32 = 48;

/// The number of a sample, 0 where it is missing.
#[inline]
pub fn number_of(sample: Sample) -> Whole
    ensures { result ≡ filled (reading_of sample) }
{
    match sample {
        Sample::Value(number) => number,
        Sample::Missing => Whole::from(0),
    }
}

/// The number of a sample that isn't missing.
#[inline]
pub(crate) fn number_in(sample: Sample) -> Whole
    requires { IsSome (reading_of sample) }
    ensures { result ≡ filled (reading_of sample) }
{
    match sample {
        Sample::Value(number) => number,
        Sample::Missing => unreachable!(),
    }
}

/// The squared difference of two numbers. It is a product of numbers with sign, which takes one instruction, and no
/// test of which number is the greater.
#[inline]
pub fn square(x: Whole, y: Whole) -> u128
    ensures square { result ≡ squared_difference x y }
    ensures small { result ≤ greatest_square }
{
    let difference = i128::from(x.get() - y.get());
    (difference * difference) as u128
}

/// The squared difference of two numbers, where it has no more than 64 bits.
#[inline]
pub fn narrow_square(x: Whole, y: Whole) -> u64
    requires { squared_difference x y < 2 ^ 64 }
    ensures { result ≡ squared_difference x y }
{
    let apart = x.get().abs_diff(y.get());
    apart * apart
}

/// The squared difference of two numbers that differ by less than 2^31.
#[inline]
pub fn close_square(x: Whole, y: Whole) -> u64
    requires { squared_difference x y < 2 ^ 62 }
    ensures { result ≡ squared_difference x y }
{
    let difference = i64::from((x.get() - y.get()) as i32);
    (difference * difference) as u64
}

/// The sample at a place, a missing one past the last.
#[inline]
pub fn sample_at(samples: &[Sample], place: usize) -> Sample
    ensures { result ≡ slice_index_or samples.now place Missing }
{
    if place < samples.len() {
        samples[place]
    } else {
        Sample::Missing
    }
}
