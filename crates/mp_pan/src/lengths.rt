//! Successive window lengths.

ghost use Rattle.std.specs.Prelude.{◌≡◌, ℕ, ◌+◌, ◌*◌, ◌^◌, ◌<◌, if◌then◌else◌, length, is_some, true};
ghost use Rattle.std.specs.Prelude.{IfSome, None, Some};
ghost use Rattle.mp_defs.specs.Series.{number_at, reading_of, series_of};
ghost use Rattle.mp_defs.specs.Distance.{distance, plus, square_between};
ghost use Rattle.mp_sums.specs.Sums.{greatest_square};
ghost use Rattle.std.specs.Prelude.{◌≤◌};
ghost use Rattle.mp_series.specs.declared.limits.TheConstants.{MAX_SAMPLES, MAX_WINDOW, MIN_WINDOW};
ghost use Rattle.mp_pan.specs.declared.limits.TheConstants.{SPAN};

use crate::limits::SPAN;
use mp_nums::{Sample, Whole};
use mp_series::{allowed, windows};
use mp_sums::{sample_at, square};

/// Whether the sample at a place isn't missing. Past the last one it is.
#[inline]
fn is_there(samples: &[Sample], place: usize) -> bool
    ensures { result ≡ is_some (number_at (series_of samples.now) place) }
{
    match sample_at(samples, place) {
        Sample::Value(_) => true,
        Sample::Missing => false,
    }
}

/// The squared difference of a number and a sample, none where that is missing.
#[inline]
fn square_with(x: Whole, other: Sample) -> Option<u128>
    ensures square { result ≡ square_between (Some x) (reading_of other) }
    ensures small { IfSome result (λ square. square ≤ greatest_square) }
{
    match other {
        Sample::Value(y) => Some(square(x, y)),
        Sample::Missing => None,
    }
}

/// The squared difference of two samples, none where one is missing.
#[inline]
fn square_of(one: Sample, other: Sample) -> Option<u128>
    ensures square { result ≡ square_between (reading_of one) (reading_of other) }
    ensures small { IfSome result (λ square. square ≤ greatest_square) }
{
    match one {
        Sample::Value(x) => square_with(x, other),
        Sample::Missing => None,
    }
}

/// A distance with one square more, none where either is none.
#[inline]
fn longer(dist: Option<u128>, square: Option<u128>) -> Option<u128>
    requires { IfSome dist (λ sum. IfSome square (λ more. sum + more < 2 ^ 128)) }
    ensures { result ≡ plus dist square }
{
    match (dist, square) {
        (Some(sum), Some(more)) => Some(sum + more),
        _ => None,
    }
}

/// Some successive window lengths of a series.
#[derive(Clone, Copy)]
pub(crate) struct Lengths<'a> {
    pub(crate) samples: &'a [Sample],
    /// The least of the lengths.
    pub(crate) least: u32,
    /// How many lengths there are.
    pub(crate) count: usize,
    ghost few_samples: { length samples.now ≤ MAX_SAMPLES },
    ghost long: { MIN_WINDOW ≤ least },
    ghost short: { least ≤ MAX_WINDOW },
    ghost few: { count ≤ SPAN },
}

impl<'a> Lengths<'a> {
    ghost use Rattle.mp_defs.specs.Window.{is_allowed, is_free, windows};

    /// How many windows of the least length there are.
    pub(crate) fn windows(&self) -> usize
        ensures { result ≡ windows (length self.now.samples.now) self.now.least }
    {
        windows(self.samples.len() as u64, self.least) as usize
    }

    /// At how many of the lengths a window that lacks no sample at the least one lacks none.
    #[inline]
    pub(crate) fn reach(&self, window: usize) -> usize
        requires { window < MAX_SAMPLES }
        ensures few { result ≤ self.now.count }
        ensures free { (k : ℕ) → k < self.now.count
            → is_free (self.now.least + k) (series_of self.now.samples.now) window ≡ true → k < result }
    {
        let end = window + self.least as usize;
        for k in 1..self.count {
            if !is_there(self.samples, end + k - 1) {
                return k;
            }
        }
        self.count
    }

    /// A distance of two windows at one of the lengths, where they lie outside each other's exclusion zone.
    #[inline]
    pub(crate) fn where_apart(
        &self,
        k: usize,
        row: usize,
        column: usize,
        dist: Option<u128>,
    ) -> Option<u128>
        requires { k < self.now.count }
        ensures { result ≡ (if is_allowed (self.now.least + k) row column then dist else None) }
    {
        if allowed(row as u64, column as u64, self.least + k as u32) {
            dist
        } else {
            None
        }
    }

    /// The distance of two windows at the next length, from that at one of the lengths.
    #[inline]
    pub(crate) fn next_distance(
        &self,
        k: usize,
        row: usize,
        column: usize,
        dist: Option<u128>,
    ) -> Option<u128>
        requires k { k < self.now.count }
        requires row { row < MAX_SAMPLES }
        requires column { column < MAX_SAMPLES }
        requires dist { IfSome dist (λ sum. sum < 2 ^ 110 + k * greatest_square) }
        ensures next { dist ≡ distance (self.now.least + k) (series_of self.now.samples.now) row
            (series_of self.now.samples.now) column
            → result ≡ distance (self.now.least + (k + 1)) (series_of self.now.samples.now) row
            (series_of self.now.samples.now) column }
        ensures small { IfSome result (λ sum. sum < 2 ^ 110 + (k + 1) * greatest_square) }
    {
        let end = self.least as usize + k;
        let first = sample_at(self.samples, row + end);
        let second = sample_at(self.samples, column + end);
        longer(dist, square_of(first, second))
    }
}
