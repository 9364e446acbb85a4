//! Exact sums, brought along their diagonals.

ghost use Rattle.std.specs.Prelude.{◌≡◌, ℕ, ◌+◌, ◌-◌, ◌^◌, ◌<◌, ◌≤◌, Some, IsSome, length, true};
ghost use Rattle.mp_sums.specs.Grids.{IsSumIn, distance_in};
ghost use Rattle.mp_scans.specs.Exacts.{IsExact, AreExacts};
ghost use Rattle.mp_scans.specs.declared.sizes.TheConstants.{GROUP};

use mp_sums::Grid;

/// The sum of a row and its column on a diagonal.
#[derive(Clone, Copy)]
pub struct Exact {
    pub(crate) row: usize,
    pub(crate) sum: u128,
}

/// Whether a row comes so soon behind one whose sum is known that this is brought along sooner than made anew.
#[inline]
fn is_near(exact: &Exact, row: usize, m: usize) -> bool
    ensures { result ≡ true → exact.now.row ≤ row }
{
    exact.row <= row && row - exact.row <= m / 2
}

/// Whether a row comes behind the one whose sum is known.
#[inline]
fn is_next(exact: &Exact, row: usize) -> bool
    ensures { result ≡ true → exact.now.row + 1 ≡ row }
{
    exact.row < row && row - exact.row == 1
}

/// The sum of a row and a column that lack no sample, from what is known of their diagonal.
fn sum_at(grid: &Grid, exact: &Option<Exact>, row: usize, column: usize) -> u128
    requires row { row + grid.now.m ≤ length grid.now.rows.now }
    requires column { column + grid.now.m ≤ length grid.now.columns.now }
    requires order { row ≤ column }
    requires free { IsSome (distance_in grid.now row column) }
    requires exact { IsExact grid.now (column - row) exact.now }
    ensures sum { IsSumIn grid.now row column result }
    ensures distance { (d : ℕ) → distance_in grid.now row column ≡ Some d → result ≡ d }
{
    match exact {
        Some(known) if is_next(known, row) => {
            grid.next_distance(known.row, column - 1, known.sum)
        }
        Some(known) if is_near(known, row, grid.m) => {
            let steps = row - known.row;
            grid.distance_along(known.row, column - steps, known.sum, steps)
        }
        _ => grid.free_distance(row, column),
    }
}

/// The distance of a row and a column that lack no sample, from what is known of their diagonal. It is known
/// then: mostly the next pair's is asked for next, which takes two squares from there.
#[inline]
pub fn exact_distance(grid: &Grid, exact: &mut Option<Exact>, row: usize, column: usize) -> u128
    requires row { row + grid.now.m ≤ length grid.now.rows.now }
    requires column { column + grid.now.m ≤ length grid.now.columns.now }
    requires order { row ≤ column }
    requires free { IsSome (distance_in grid.now row column) }
    requires exact { IsExact grid.now (column - row) exact.old }
    ensures exact { IsExact grid.now (column - row) exact.new }
    ensures small { result + 1 < 2 ^ 110 }
    ensures distance { (d : ℕ) → distance_in grid.now row column ≡ Some d → result ≡ d }
{
    let sum = sum_at(grid, exact, row, column);
    *exact = Some(Exact { row, sum });
    sum
}

/// The distance of a row and a column that lack no sample, on one of successive diagonals, on the first of which a
/// column starts `first` places behind its row. It stands apart, so that nothing is called where a residue tells the
/// distance.
#[inline(never)]
pub(crate) fn distance_by(
    grid: &Grid,
    first: usize,
    exacts: &mut [Option<Exact>],
    row: usize,
    column: usize,
) -> u128
    requires row { row + grid.now.m ≤ length grid.now.rows.now }
    requires column { column + grid.now.m ≤ length grid.now.columns.now }
    requires order { row + first ≤ column }
    requires free { IsSome (distance_in grid.now row column) }
    requires diagonal { column < row + first + GROUP }
    requires exacts { AreExacts grid.now first exacts.old }
    ensures exacts { AreExacts grid.now first exacts.new }
    ensures small { result + 1 < 2 ^ 110 }
    ensures distance { (d : ℕ) → distance_in grid.now row column ≡ Some d → result ≡ d }
{
    exact_distance(grid, &mut exacts[column - row - first], row, column)
}
