//! Sums of squared differences of plain numbers, as rounding leaves them.

ghost use Rattle.std.specs.Prelude.{◌≡◌, ℕ, ◌+◌, ◌-◌, ◌*◌, ◌^◌, ◌<◌, ◌≤◌, length, IfSome, IfNone, true};
ghost use Rattle.mp_series.specs.declared.limits.TheConstants.{MAX_WINDOW};
ghost use Rattle.mp_scans.specs.Windows.{row_windows, column_windows};
ghost use Rattle.mp_skips.specs.Sums.{number_in};
ghost use Rattle.mp_skips.specs.Levels.{square_at, squares_in};

use crate::sums::Coarse;

/// How many samples are compared before it is asked whether they are enough.
const STEP: usize = 32;

/// More steps than any sample of a narrow series lies above the low number. The squares of as many samples as are
/// compared at once then have 32 bits together, which takes half as long as sums of 64 bits.
const NARROW: u32 = 8_192;

impl<'a> Coarse<'a> {
    /// The square of how far a sample of the rows and one of the columns are apart at least. Where nothing is rounded
    /// it is that of their difference, whichever of them is the greater one.
    #[inline]
    fn square(&self, row: usize, column: usize) -> u64
        requires row { row < length self.now.rows.levels.now }
        requires column { column < length self.now.columns.levels.now }
        ensures square { result ≡ square_at self.now row column }
        ensures small { result ≤ 2 ^ 48 }
    {
        let (one, other) = (self.rows.levels[row], self.columns.levels[column]);
        let slack = self.rows.units.step.slack;
        if slack == 0 {
            let gap = u64::from(one).wrapping_sub(u64::from(other));
            gap.wrapping_mul(gap)
        } else {
            let beyond = u64::from(one.abs_diff(other).saturating_sub(slack));
            beyond * beyond
        }
    }

    /// The sum of these squares of some successive samples.
    #[inline]
    pub(crate) fn squares(&self, row: usize, column: usize, count: usize) -> u64
        requires row { row + count ≤ length self.now.rows.levels.now }
        requires column { column + count ≤ length self.now.columns.levels.now }
        requires few { count ≤ MAX_WINDOW }
        ensures sum { result ≡ squares_in self.now count row column }
        ensures small { result ≤ count * 2 ^ 48 }
    {
        let mut sum = 0;
        for t in 0..count {
            sum += self.square(row + t, column + t);
        }
        sum
    }

    /// Whether no sample lies so many steps above the low number that squares take more than 32 bits.
    #[inline]
    fn is_narrow(&self) -> bool
        ensures { result ≡ true → self.now.rows.units.width < NARROW * self.now.rows.units.step.size }
    {
        self.rows.units.width < u64::from(NARROW) * u64::from(self.rows.units.step.size)
    }

    /// The square of how far two samples of narrow series are apart at least.
    #[inline]
    fn narrow_square(&self, row: usize, column: usize) -> u32
        requires narrow { self.now.rows.units.width < NARROW * self.now.rows.units.step.size }
        requires row { row < length self.now.rows.levels.now }
        requires column { column < length self.now.columns.levels.now }
        ensures square { result ≡ square_at self.now row column }
        ensures small { result ≤ 2 ^ 26 }
    {
        let (one, other) = (self.rows.levels[row], self.columns.levels[column]);
        let slack = self.rows.units.step.slack;
        if slack == 0 {
            let gap = one.wrapping_sub(other);
            gap.wrapping_mul(gap)
        } else {
            let beyond = one.abs_diff(other).saturating_sub(slack);
            beyond * beyond
        }
    }

    /// The sum of these squares of no more samples than are compared at once.
    #[inline]
    fn narrow_squares(&self, row: usize, column: usize, count: usize) -> u32
        requires narrow { self.now.rows.units.width < NARROW * self.now.rows.units.step.size }
        requires row { row + count ≤ length self.now.rows.levels.now }
        requires column { column + count ≤ length self.now.columns.levels.now }
        requires few { count ≤ STEP }
        ensures sum { result ≡ squares_in self.now count row column }
        ensures small { result ≤ count * 2 ^ 26 }
    {
        let mut sum = 0;
        for t in 0..count {
            sum += self.narrow_square(row + t, column + t);
        }
        sum
    }

    /// The sum of the squares of no more samples than are compared at once.
    #[inline]
    fn part_squares(&self, row: usize, column: usize, count: usize) -> u64
        requires row { row + count ≤ length self.now.rows.levels.now }
        requires column { column + count ≤ length self.now.columns.levels.now }
        requires few { count ≤ STEP }
        ensures sum { result ≡ squares_in self.now count row column }
        ensures small { result ≤ count * 2 ^ 48 }
    {
        if self.is_narrow() {
            u64::from(self.narrow_squares(row, column, count))
        } else {
            self.squares(row, column, count)
        }
    }

    /// The sum of the squares behind the first `behind` samples of a row and a column, where it is below `most`. It
    /// looks no further than to the samples that take it there.
    pub(crate) fn core_within(
        &self,
        row: usize,
        column: usize,
        behind: usize,
        most: u64,
    ) -> Option<u64>
        requires row { row + self.now.plan.grid.m < length self.now.rows.levels.now }
        requires column { column + self.now.plan.grid.m < length self.now.columns.levels.now }
        requires behind { behind ≤ self.now.plan.grid.m }
        ensures found { IfSome result (λ sum. sum
            ≡ squares_in self.now (self.now.plan.grid.m - behind) (row + behind) (column + behind)) }
        ensures none { IfNone result (most
            ≤ squares_in self.now (self.now.plan.grid.m - behind) (row + behind) (column + behind)) }
    {
        let mut sum = 0;
        let mut place = behind;
        while place + STEP <= self.plan.grid.m {
            sum += self.part_squares(row + place, column + place, STEP);
            place += STEP;
            if sum >= most {
                return None;
            }
        }
        sum += self.part_squares(row + place, column + place, self.plan.grid.m - place);
        if sum >= most { None } else { Some(sum) }
    }

    /// The sum of a row and a column, from that behind their first `behind` samples.
    pub(crate) fn whole_sum(&self, row: usize, column: usize, behind: usize, core: u64) -> u64
        requires row { row + self.now.plan.grid.m < length self.now.rows.levels.now }
        requires column { column + self.now.plan.grid.m < length self.now.columns.levels.now }
        requires behind { behind ≤ self.now.plan.grid.m }
        requires core { core
            ≡ squares_in self.now (self.now.plan.grid.m - behind) (row + behind) (column + behind) }
        ensures { result ≡ squares_in self.now self.now.plan.grid.m row column }
    {
        self.squares(row, column, behind) + core
    }

    /// The sum of the next row and the next column.
    #[inline]
    pub(crate) fn next_sum(&self, row: usize, column: usize, sum: u64) -> u64
        requires row { row + self.now.plan.grid.m < length self.now.rows.levels.now }
        requires column { column + self.now.plan.grid.m < length self.now.columns.levels.now }
        requires sum { sum ≡ squares_in self.now self.now.plan.grid.m row column }
        ensures { result ≡ squares_in self.now self.now.plan.grid.m (row + 1) (column + 1) }
    {
        let enters = self.square(row + self.plan.grid.m, column + self.plan.grid.m);
        let leaves = self.square(row, column);
        sum + enters - leaves
    }

    /// The sums of successive rows and columns, from one row and its column on, whose sum is known.
    pub(crate) fn fill_sums(&self, row: usize, column: usize, sum: u64, sums: &mut [u64])
        requires rows { row + length sums.old ≤ row_windows self.now.plan.grid }
        requires columns { column + length sums.old ≤ column_windows self.now.plan.grid }
        requires sum { sum ≡ squares_in self.now self.now.plan.grid.m row column }
        ensures sums { (r : ℕ) → r < length sums.old
            → number_in sums.new r ≡ squares_in self.now self.now.plan.grid.m (row + r) (column + r) }
        ensures places { length sums.new ≡ length sums.old }
    {
        let mut sum = sum;
        for r in 0..sums.len() {
            sums[r] = sum;
            sum = self.next_sum(row + r, column + r, sum);
        }
    }
}
