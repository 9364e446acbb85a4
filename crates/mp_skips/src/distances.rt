//! Distances of series whose samples aren't rounded, from sums of the squares of plain numbers.

ghost use Rattle.std.specs.Prelude.{◌≡◌, ℕ, ◌+◌, ◌*◌, ◌^◌, ◌<◌, ◌≤◌, length, Some, None, IfSome, IfNone, true};
ghost use Rattle.mp_sums.specs.Grids.{distance_in};
ghost use Rattle.mp_scans.specs.Windows.{row_windows, column_windows};
ghost use Rattle.mp_skips.specs.Sums.{number_in};
ghost use Rattle.mp_skips.specs.Levels.{squares_in};

use crate::pairs::are_free;
use crate::sums::Coarse;
use mp_nums::Sq;

impl<'a> Coarse<'a> {
    /// The sum of the squares of a row and a column.
    fn sum_at(&self, row: usize, column: usize) -> u64
        requires row { row + self.now.plan.grid.m < length self.now.rows.levels.now }
        requires column { column + self.now.plan.grid.m < length self.now.columns.levels.now }
        ensures { result ≡ squares_in self.now self.now.plan.grid.m row column }
    {
        match self.core_within(row, column, 0, u64::MAX) {
            Some(sum) => sum,
            None => self.squares(row, column, self.plan.grid.m),
        }
    }

    /// Whether all distances are told to be below a bound by how far samples lie above the low number at most.
    pub fn are_below(&self, bound: u64) -> bool
        ensures { result ≡ true → (i j d : ℕ) → distance_in self.now.plan.grid i j ≡ Some d → d < bound }
    {
        if self.rows.units.step.size != 1 {
            return false;
        }
        let width = u128::from(self.rows.units.width);
        width * width * (self.plan.grid.m as u128) < u128::from(bound)
    }

    /// What the distances of `count` successive rows and columns are, where they have one.
    pub fn fill_distances(&self, row: usize, column: usize, count: usize, dists: &mut [u64])
        requires exact { self.now.rows.units.step.size ≡ 1 }
        requires some { 1 ≤ count }
        requires places { count ≤ length dists.old }
        requires rows { row + count ≤ row_windows self.now.plan.grid }
        requires columns { column + count ≤ column_windows self.now.plan.grid }
        ensures dists { (r d : ℕ) → r < count → distance_in self.now.plan.grid (row + r) (column + r) ≡ Some d
            → number_in dists.new r ≡ d }
        ensures small { (r : ℕ) → r < count → number_in dists.new r ≤ self.now.plan.grid.m * 2 ^ 48 }
        ensures others { (r : ℕ) → count ≤ r → number_in dists.new r ≡ number_in dists.old r }
        ensures places { length dists.new ≡ length dists.old }
    {
        let mut sum = self.sum_at(row, column);
        for r in 0..count {
            dists[r] = sum;
            sum = self.next_sum(row + r, column + r, sum);
        }
    }

    /// The distance of a row and a column, none where a sample of either is missing, from what it is otherwise.
    #[inline]
    pub fn distance_of(&self, row: usize, column: usize, dist: u64) -> Option<Sq>
        requires row { row < row_windows self.now.plan.grid }
        requires column { column < column_windows self.now.plan.grid }
        requires dist { (d : ℕ) → distance_in self.now.plan.grid row column ≡ Some d → dist ≡ d }
        ensures some { IfSome result (λ known. distance_in self.now.plan.grid row column ≡ Some known.0) }
        ensures small { IfSome result (λ known. known.0 < 2 ^ 64) }
        ensures none { IfNone result (distance_in self.now.plan.grid row column ≡ None) }
    {
        if are_free(self, row, column) {
            Some(Sq(u128::from(dist)))
        } else {
            None
        }
    }
}
