//! Exact distances of pairs of windows: from the first sample, as far as a limit, and along a diagonal.

ghost use Rattle.std.specs.Prelude.{◌≤◌};
ghost use Rattle.mp_series.specs.declared.limits.TheConstants.{MAX_WINDOW};

use crate::numbers::{number_in, number_of, sample_at, square};
use crate::ranges::Range;
use mp_nums::Sample;

/// Two series, which may be the same, and the length of their windows that are compared. Windows of one are the rows,
/// those of the other the columns.
#[derive(Clone, Copy)]
pub struct Grid<'a> {
    pub rows: &'a [Sample],
    pub columns: &'a [Sample],
    /// How many samples a window has.
    pub m: usize,
    pub ghost short: { m ≤ MAX_WINDOW },
}

impl<'a> Grid<'a> {
    ghost use Rattle.std.specs.Prelude.{◌≡◌, ℕ, ◌+◌, ◌^◌, ◌<◌, ◌↔◌, length, true, IsTrue, IsSome, IfSome, IfNone, Some};
    ghost use Rattle.mp_defs.specs.Series.{number_at, series_of};
    ghost use Rattle.mp_sums.specs.Sums.{at_most, greatest_square};
    ghost use Rattle.mp_sums.specs.Grids.{square_in, first_sum_in, IsFirstSumIn, sum_in, IsSumIn, distance_in};
    ghost use Rattle.mp_sums.specs.Grids.{DistancesFit};
    ghost use Rattle.mp_sums.specs.Ranges.{AreSamplesWithin, SumsFit};
    ghost use Rattle.mp_sums.specs.declared.ranges.Range.{Range};

    /// The squared difference of a sample of the rows and one of the columns.
    #[inline]
    fn square(&self, row: usize, column: usize) -> u128
        requires row { row < length self.now.rows.now }
        requires column { column < length self.now.columns.now }
        ensures square { result ≡ square_in self.now row column }
        ensures small { result ≤ greatest_square }
    {
        square(number_of(self.rows[row]), number_of(self.columns[column]))
    }

    /// The squared difference of a sample of the rows and one of the columns, neither of which is missing.
    #[inline]
    fn free_square(&self, row: usize, column: usize) -> u128
        requires row { row < length self.now.rows.now }
        requires column { column < length self.now.columns.now }
        requires free_row { IsSome (number_at (series_of self.now.rows.now) row) }
        requires free_column { IsSome (number_at (series_of self.now.columns.now) column) }
        ensures square { result ≡ square_in self.now row column }
        ensures small { result ≤ greatest_square }
    {
        square(number_in(self.rows[row]), number_in(self.columns[column]))
    }

    /// The squared distance of a row and a column that lack no sample. It takes less time than `distance`, which
    /// chooses between a number and 0 at each sample.
    pub fn free_distance(&self, row: usize, column: usize) -> u128
        requires row { row + self.now.m ≤ length self.now.rows.now }
        requires column { column + self.now.m ≤ length self.now.columns.now }
        requires free { IsSome (distance_in self.now row column) }
        ensures sum { IsSumIn self.now row column result }
        ensures small { result < 2 ^ 110 }
        ensures distance { (d : ℕ) → distance_in self.now row column ≡ Some d → result ≡ d }
    {
        let mut sum: u128 = 0;
        for k in 0..self.m {
            sum += self.free_square(row + k, column + k);
        }
        sum
    }

    /// The squared distance of a row and a column. A missing sample counts as 0.
    pub fn distance(&self, row: usize, column: usize) -> u128
        requires row { row + self.now.m ≤ length self.now.rows.now }
        requires column { column + self.now.m ≤ length self.now.columns.now }
        ensures sum { IsSumIn self.now row column result }
        ensures small { result < 2 ^ 110 }
        ensures distance { (d : ℕ) → distance_in self.now row column ≡ Some d → result ≡ d }
    {
        let mut sum: u128 = 0;
        for k in 0..self.m {
            sum += self.square(row + k, column + k);
        }
        sum
    }

    /// The sum of the first `count` squares of a row and a column, as long as it is at most `limit`.
    fn first_sum_within(&self, row: usize, column: usize, count: usize, limit: u128) -> Option<u128>
        requires count { count ≤ self.now.m }
        requires row { row + self.now.m ≤ length self.now.rows.now }
        requires column { column + self.now.m ≤ length self.now.columns.now }
        ensures found { IfSome result (λ sum. IsFirstSumIn self.now count row column sum) }
        ensures within { IfSome result (λ sum. sum ≤ limit) }
        ensures none { IfNone result (limit < first_sum_in self.now count row column) }
    {
        let mut sum: u128 = 0;
        for k in 0..count {
            sum += self.square(row + k, column + k);
            if sum > limit {
                return None;
            }
        }
        Some(sum)
    }

    /// The squared distance of a row and a column where it is at most `limit`. It looks no further than to the sample
    /// that takes the sum beyond. A missing sample counts as 0.
    pub fn distance_within(&self, row: usize, column: usize, limit: u128) -> Option<u128>
        requires row { row + self.now.m ≤ length self.now.rows.now }
        requires column { column + self.now.m ≤ length self.now.columns.now }
        ensures found { IfSome result (λ sum. IsSumIn self.now row column sum) }
        ensures small { IfSome result (λ sum. sum < 2 ^ 110) }
        ensures none { IfNone result (limit < sum_in self.now row column) }
        ensures distance { (d : ℕ) → distance_in self.now row column ≡ Some d → result ≡ at_most limit d }
    {
        self.first_sum_within(row, column, self.m, limit)
    }

    /// Whether the first `count` samples of a row and a column alone tell that they lie farther apart than `limit`.
    pub fn begins_beyond(&self, row: usize, column: usize, count: usize, limit: u128) -> bool
        requires count { count ≤ self.now.m }
        requires row { row + self.now.m ≤ length self.now.rows.now }
        requires column { column + self.now.m ≤ length self.now.columns.now }
        ensures first { IsTrue result ↔ (limit < first_sum_in self.now count row column) }
        ensures distance { (d : ℕ) → distance_in self.now row column ≡ Some d → IsTrue result → limit < d }
    {
        self.first_sum_within(row, column, count, limit).is_none()
    }

    /// The squared distance of the next row and the next column, from that of a row and a column.
    #[inline]
    pub fn next_distance(&self, row: usize, column: usize, sum: u128) -> u128
        requires row { row + self.now.m < length self.now.rows.now }
        requires column { column + self.now.m < length self.now.columns.now }
        requires sum { IsSumIn self.now row column sum }
        ensures sum { IsSumIn self.now (row + 1) (column + 1) result }
        ensures small { result < 2 ^ 110 }
        ensures distance { (d : ℕ) → distance_in self.now (row + 1) (column + 1) ≡ Some d → result ≡ d }
    {
        let enters = self.square(row + self.m, column + self.m);
        let leaves = self.square(row, column);
        sum + enters - leaves
    }

    /// The squared distance of the row and the column that come `steps` places later, from that of a row and a column:
    /// two squares for each step.
    pub fn distance_along(&self, row: usize, column: usize, sum: u128, steps: usize) -> u128
        requires row { row + steps + self.now.m ≤ length self.now.rows.now }
        requires column { column + steps + self.now.m ≤ length self.now.columns.now }
        requires sum { IsSumIn self.now row column sum }
        ensures sum { IsSumIn self.now (row + steps) (column + steps) result }
        ensures small { result < 2 ^ 110 }
        ensures distance { (d : ℕ) → distance_in self.now (row + steps) (column + steps) ≡ Some d → result ≡ d }
    {
        let mut sum = sum;
        for k in 0..steps {
            sum = self.next_distance(row + k, column + k, sum);
        }
        sum
    }

    /// Whether the range of the samples tells that no distance has more than so many bits.
    pub fn distances_fit(&self, bits: u32) -> bool
        requires bits { bits < 128 }
        ensures fit { result ≡ true → DistancesFit bits self.now }
        ensures range { (range : Range) → 0 < length self.now.rows.now → AreSamplesWithin range self.now.rows.now
            → AreSamplesWithin range self.now.columns.now → SumsFit self.now.m bits range → result ≡ true }
    {
        let first = number_of(sample_at(self.rows, 0));
        let range = Range::at(first)
            .with_samples(self.rows)
            .with_samples(self.columns);
        range.sums_fit(self.m as u32, bits)
    }
}
