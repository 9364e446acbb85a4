//! From which number up to which some numbers reach, and whether the sums of their squared differences fit.

ghost use Rattle.std.specs.Prelude.{ℤ, ◌≤ℤ◌};

use crate::numbers::{number_of, square};
use mp_nums::{Sample, Whole};

/// From which number up to which some numbers reach.
#[derive(Clone, Copy, Debug)]
pub struct Range {
    pub least: Whole,
    pub greatest: Whole,
}

/// The lesser of two numbers.
#[inline]
fn lesser(x: Whole, y: Whole) -> Whole
    ensures first { result ≤ℤ x }
    ensures second { result ≤ℤ y }
    ensures greatest { (z : ℤ) → z ≤ℤ x → z ≤ℤ y → z ≤ℤ result }
{
    if x.get() < y.get() { x } else { y }
}

/// The greater of two numbers.
#[inline]
fn greater(x: Whole, y: Whole) -> Whole
    ensures first { x ≤ℤ result }
    ensures second { y ≤ℤ result }
    ensures least { (z : ℤ) → x ≤ℤ z → y ≤ℤ z → result ≤ℤ z }
{
    if x.get() < y.get() { y } else { x }
}

impl Range {
    ghost use Rattle.std.specs.Prelude.{◌≡◌, ◌<◌, ◌≤◌, ◌↔◌, length, IsTrue};
    ghost use Rattle.mp_defs.specs.Distance.{squared_difference};
    ghost use Rattle.mp_sums.specs.Sums.{greatest_square};
    ghost use Rattle.mp_sums.specs.declared.ranges.Range.{Range};
    ghost use Rattle.mp_sums.specs.Ranges.{AreWithin, AreSamplesWithin, IsInRange, Reaches, SumsFit};

    /// The range of a number alone.
    pub fn at(number: Whole) -> Range
        ensures least { result.least ≡ number }
        ensures greatest { result.greatest ≡ number }
    {
        Range {
            least: number,
            greatest: number,
        }
    }

    /// The least range that has this number too.
    #[inline]
    pub fn around(self, number: Whole) -> Range
        ensures number { IsInRange result number }
        ensures wider { Reaches result self }
        ensures least { (range : Range) → Reaches range self → IsInRange range number → Reaches range result }
    {
        Range {
            least: lesser(self.least, number),
            greatest: greater(self.greatest, number),
        }
    }

    /// The least range that has these numbers too.
    pub fn with_numbers(self, numbers: &[Whole]) -> Range
        ensures numbers { AreWithin result numbers.now }
        ensures wider { Reaches result self }
        ensures least { (range : Range) → Reaches range self → AreWithin range numbers.now → Reaches range result }
    {
        let mut range = self;
        for number in numbers {
            range = range.around(*number);
        }
        range
    }

    /// The least range that has the numbers of these samples too. A missing one counts as 0.
    pub fn with_samples(self, samples: &[Sample]) -> Range
        ensures samples { AreSamplesWithin result samples.now }
        ensures wider { Reaches result self }
        ensures least { (range : Range) → Reaches range self → AreSamplesWithin range samples.now
            → Reaches range result }
    {
        let mut range = self;
        for sample in samples {
            range = range.around(number_of(*sample));
        }
        range
    }

    /// The least range of some numbers, which is 0 alone where there are none.
    pub fn of(numbers: &[Whole]) -> Range
        ensures numbers { AreWithin result numbers.now }
        ensures least { (range : Range) → 0 < length numbers.now → AreWithin range numbers.now
            → Reaches range result }
    {
        match numbers.first() {
            Some(first) => Range::at(*first).with_numbers(numbers),
            None => Range::at(Whole::from(0)),
        }
    }

    /// Whether the sum of `m` squared differences of any numbers in this range has no more than so many bits. Each of
    /// these is one of numbers of 48 bits.
    pub fn sums_fit(&self, m: u32, bits: u32) -> bool
        requires { bits < 128 }
        ensures fit { IsTrue result ↔ SumsFit m bits self.now }
        ensures small { squared_difference self.now.greatest self.now.least ≤ greatest_square }
    {
        let square = square(self.greatest, self.least);
        (u128::from(m) * square) >> bits == 0
    }
}
