//! Blocks of pairs that coarse sums tell to be far apart.

ghost use Rattle.std.specs.Prelude.{◌≡◌, ℕ, ◌+◌, ◌*◌, ◌<◌, ◌≤◌, length, true};
ghost use Rattle.mp_skips.specs.Sums.{number_in, outside};
ghost use Rattle.mp_skips.specs.Lanes.{HasLanes};
ghost use Rattle.mp_skips.specs.Blocks.{squares_outside, squares_apart, AreApart};
ghost use Rattle.mp_skips.specs.declared.sums.TheConstants.{MOST_SUM, NO_NEED};

use crate::sums::Coarse;
use crate::vectors::{add_gaps, add_squares};
use std::simd::prelude::*;

/// How far a number lies outside of two others.
#[inline]
fn distance_outside(number: u32, least: u32, greatest: u32) -> u64
    requires { least ≤ greatest }
    ensures { result ≡ outside number least greatest }
{
    u64::from(number.saturating_sub(greatest)) + u64::from(least.saturating_sub(number))
}

impl<'a> Coarse<'a> {
    /// The coarse sum of squares of a block: how far the sums of its first row lie outside of those of the columns of
    /// a group.
    pub(crate) fn square_sum(&self, row: usize, group: usize) -> u64
        requires row { row + self.now.plan.grid.m ≤ length self.now.plan.grid.rows.now }
        requires group { 8 * group + self.now.plan.grid.m ≤ length self.now.plan.grid.columns.now }
        ensures sum { result ≡ squares_outside self.now row group self.now.terms }
        ensures small { result < MOST_SUM }
    {
        let mut sum = 0;
        for t in 0..self.terms {
            let behind = self.rows.units.eights * (t + 1);
            let gap = distance_outside(
                self.rows.floors[row + 8 * behind],
                self.columns.least[group + behind],
                self.columns.greatest[group + behind],
            );
            sum += gap * gap;
        }
        sum
    }

    /// The coarse sums of squares of the blocks of eight successive groups. All pairs of a block reach its sum.
    #[inline(always)]
    pub fn eight_sums(&self, row: usize, group: usize, sums: &mut u64x8)
        requires row { row + self.now.plan.grid.m ≤ length self.now.plan.grid.rows.now }
        requires groups { 8 * group + 56 + self.now.plan.grid.m ≤ length self.now.plan.grid.columns.now }
        ensures sums { HasLanes sums.new (λ l. squares_outside self.now row (group + l) self.now.terms) }
        ensures apart { (l need : ℕ) → l < 8 → need ≤ number_in sums.new l
            → AreApart self.now row (8 * (group + l)) 8 need }
        ensures small { (l : ℕ) → l < 8 → number_in sums.new l < MOST_SUM }
    {
        *sums = u64x8::splat(0);
        for t in 0..self.terms {
            let behind = self.rows.units.eights * (t + 1);
            add_squares(
                sums,
                &self.rows.floors[row + 8 * behind],
                self.columns.least,
                self.columns.greatest,
                group + behind,
            );
        }
    }

    /// The sums of squares of eight successive diagonals: how far each sum of the row and of the columns are apart at
    /// least.
    #[inline(always)]
    fn fill_apart(&self, row: usize, column: usize, sums: &mut u64x8)
        requires row { row + self.now.plan.grid.m ≤ length self.now.plan.grid.rows.now }
        requires columns { column + 7 + self.now.plan.grid.m ≤ length self.now.plan.grid.columns.now }
        ensures sums { HasLanes sums.new (λ u. squares_apart self.now row (column + u) self.now.terms) }
        ensures small { (u : ℕ) → u < 8 → number_in sums.new u < MOST_SUM }
    {
        *sums = u64x8::splat(0);
        for t in 0..self.terms {
            let behind = 8 * (self.rows.units.eights * (t + 1));
            add_gaps(
                sums,
                &self.rows.floors[row + behind],
                self.columns.floors,
                &self.rows.units.grain.slack,
                column + behind,
            );
        }
    }

    /// Coarse sums of squares of the rows of a block on each of eight successive diagonals, which tell nothing at the
    /// end of the columns.
    pub fn diagonal_sums(&self, row: usize, column: usize, sums: &mut u64x8)
        requires row { row + self.now.plan.grid.m ≤ length self.now.plan.grid.rows.now }
        requires column { column + self.now.plan.grid.m ≤ length self.now.plan.grid.columns.now }
        ensures lanes { length sums.new ≡ 8 }
        ensures apart { (u need : ℕ) → u < 8 → need ≤ number_in sums.new u → AreApart self.now row (column + u) 1 need }
        ensures small { (u : ℕ) → u < 8 → number_in sums.new u < MOST_SUM }
    {
        *sums = u64x8::splat(0);
        if column + 7 + self.plan.grid.m <= self.plan.grid.columns.len() {
            self.fill_apart(row, column, sums);
        }
    }

    /// Whether sums tell that all pairs of a block reach a coarse sum of squares, and with it the limits that it was
    /// made of: the greatest of its rows and of its columns.
    pub fn is_quiet(&self, row: usize, group: usize, need: u64) -> bool
        requires row { row + self.now.plan.grid.m ≤ length self.now.plan.grid.rows.now }
        requires group { 8 * group + self.now.plan.grid.m ≤ length self.now.plan.grid.columns.now }
        ensures apart { result ≡ true → AreApart self.now row (8 * group) 8 need }
        ensures some { result ≡ true → need < NO_NEED }
    {
        need <= self.square_sum(row, group)
    }
}
