//! Samples rounded down to multiples of a power of two.

ghost use Rattle.std.specs.Prelude.{◌≡◌, ◌<◌};
ghost use Rattle.std.specs.Int.{w32, int_wrap};
ghost use Rattle.mp_sums.specs.Residues.{residue_up_to as residue_limit_up_to};
ghost use Rattle.mp_sums.specs.declared.numbers.TheConstants.{NUMBER_BITS};

use crate::limits::Limit;
use crate::numbers::number_of;
use crate::residues::{ALWAYS, NEVER};
use mp_nums::{Sample, Sq};

/// How samples are rounded: in units of `2^shift`, down. Windows of `m` samples are compared.
#[derive(Clone, Copy, Debug)]
pub struct Rounding {
    pub m: u32,
    pub shift: u32,
    pub ghost small: { shift < NUMBER_BITS },
}

/// A number, as far as 32 bits hold it.
#[inline]
fn low_half(number: i64) -> i32
    ensures { result ≡ int_wrap w32 number }
{
    ((number.cast_unsigned() % (1 << 32)) as u32).cast_signed()
}

/// The greatest residue of the sums up to one.
#[inline]
fn residue_up_to(sum: u128) -> i32
    ensures { result ≡ residue_limit_up_to sum }
{
    (sum.min(4_294_967_294) as i64 - 2_147_483_647) as i32
}

impl Rounding {
    ghost use Rattle.std.specs.Prelude.{◌≡◌, ℕ, ◌+◌, ◌*◌, ◌/◌, ◌^◌, ◌≤◌, length};
    ghost use Rattle.std.specs.Int.{w32, int_shr, int_wrap};
    ghost use Rattle.mp_defs.specs.Series.{reading_of, series_of};
    ghost use Rattle.mp_sums.specs.Sums.{filled, numbers_of};
    ghost use Rattle.mp_sums.specs.Rounding.{rounded, weight, widened_least, threshold};
    ghost use Rattle.mp_sums.specs.Residues.{limit_within, limit_below, residue_limit, AreNumbers, IsLimitOf};
    ghost use Rattle.mp_sums.specs.declared.limits.Limit.TheVariants.{Below};

    /// A sample, rounded, as far as 32 bits hold it. A missing one counts as 0.
    #[inline]
    pub fn round(&self, sample: Sample) -> i32
        ensures { result ≡ int_wrap w32 (int_shr (filled (reading_of sample)) self.now.shift) }
    {
        low_half(number_of(sample).get() >> self.shift)
    }

    /// The samples from `start` on, rounded, as far as 32 bits hold them. Past the last sample stands 0.
    pub fn fill(&self, samples: &[Sample], start: usize, numbers: &mut [i32])
        requires { start + length numbers.old < 2 ^ 63 }
        ensures numbers { AreNumbers (rounded self.now.shift (numbers_of (series_of samples.now))) start numbers.new }
        ensures places { length numbers.new ≡ length numbers.old }
    {
        let there = samples.len().saturating_sub(start).min(numbers.len());
        for k in 0..there {
            numbers[k] = self.round(samples[start + k]);
        }
        for k in there..numbers.len() {
            numbers[k] = self.round(Sample::Missing);
        }
    }

    /// The most that the sum of rounded squared differences can be where that of the differences themselves is at most
    /// a limit of so many squares of the unit.
    #[inline]
    fn threshold(&self, units: u64) -> u64
        requires small { units < 2 ^ 32 }
        ensures { (limit : ℕ) → units ≡ limit / 2 ^ (2 * self.now.shift)
            → result ≡ threshold self.now.m self.now.shift limit }
    {
        if self.shift == 0 {
            units
        } else {
            self.widened(units)
        }
    }

    /// The same where samples are rounded.
    #[inline]
    fn widened(&self, units: u64) -> u64
        requires { units < 2 ^ 32 }
        ensures { result ≡ widened_least self.now.m units }
    {
        let m = u64::from(self.m);
        let weight = self.weight(units);
        units + (units >> weight) + 1 + m + (m << weight)
    }

    /// Half of the bits by which a limit is longer than `m`.
    #[inline]
    fn weight(&self, units: u64) -> u32
        requires { units < 2 ^ 32 }
        ensures weight { result ≡ weight self.now.m units }
        ensures small { result ≤ 16 }
    {
        let m = u64::from(self.m);
        m.leading_zeros().saturating_sub(units.leading_zeros()) / 2
    }

    /// The greatest residue at distances up to one.
    #[inline]
    fn limit_within(&self, dist: u128) -> i32
        ensures { result ≡ limit_within self.now.m self.now.shift dist }
    {
        if self.shift == 0 {
            residue_up_to(dist)
        } else {
            self.rounded_limit(dist)
        }
    }

    /// The same where samples are rounded. Where the distance has too many squares of the unit, it is the greatest
    /// number.
    #[inline]
    fn rounded_limit(&self, dist: u128) -> i32
        ensures { result ≡ limit_within self.now.m self.now.shift dist }
    {
        let units = dist >> (2 * self.shift);
        if units >= 1 << 32 {
            ALWAYS
        } else {
            let threshold = self.threshold(units as u64).min(4_294_967_294);
            (threshold as i64 - 2_147_483_647) as i32
        }
    }

    /// The greatest residue at distances below one.
    #[inline]
    fn limit_below(&self, dist: u128) -> i32
        ensures { result ≡ limit_below self.now.m self.now.shift dist }
    {
        if dist == 0 {
            NEVER
        } else {
            self.limit_within(dist - 1)
        }
    }

    /// A limit of residues for distances below one, from that for distances up to it. Where samples are rounded, a pair
    /// at the distance itself may be within it too.
    #[inline]
    pub fn limit_before(&self, dist: Sq, within: i32) -> i32
        requires { within ≡ limit_within self.now.m self.now.shift dist.0 }
        ensures { IsLimitOf self.now.m self.now.shift (Below dist) result }
    {
        if dist.0 == 0 {
            NEVER
        } else if self.shift == 0 && within < ALWAYS {
            within - 1
        } else {
            within
        }
    }

    /// The greatest residue that a pair of windows within the limit can have.
    #[inline]
    pub fn residue_limit(&self, limit: Limit) -> i32
        ensures { result ≡ residue_limit self.now.m self.now.shift limit }
    {
        match limit {
            Limit::Every => ALWAYS,
            Limit::Within(most) => self.limit_within(most.0),
            Limit::Below(end) => self.limit_below(end.0),
        }
    }
}
