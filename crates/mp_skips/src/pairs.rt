//! The pairs of some rows on one diagonal.

ghost use Rattle.std.specs.Prelude.{◌≡◌, ℕ, ◌+◌, ◌-◌, ◌^◌, ◌<◌, ◌≤◌, ◌↔◌, Some, IsSome, IsTrue, true};
ghost use Rattle.mp_sums.specs.Grids.{distance_in};
ghost use Rattle.mp_sums.specs.Limits.{IsBeyond};
ghost use Rattle.mp_scans.specs.Exacts.{IsExact};
ghost use Rattle.mp_scans.specs.Offering.{only, in_block};
ghost use Rattle.mp_scans.specs.Windows.{row_windows, column_windows, FitIn, AreScannedIn};
ghost use Rattle.mp_skips.specs.Levels.{squares_in};
ghost use Rattle.mp_skips.specs.Blocks.{height};
ghost use Rattle.mp_skips.specs.Needs.{IsRowNeed, IsRowsNeed, IsColumnNeed, IsMost};

use crate::needs::{Need, square_of};
use crate::sums::Coarse;
use mp_nums::Sq;
use mp_scans::{Exact, Offers, exact_distance};
use mp_sums::Limit;

/// Whether a row and a column have a distance: no sample of either is missing.
#[inline]
pub(crate) fn are_free(coarse: &Coarse, row: usize, column: usize) -> bool
    requires row { row < row_windows coarse.now.plan.grid }
    requires column { column < column_windows coarse.now.plan.grid }
    ensures { IsTrue result ↔ IsSome (distance_in coarse.now.plan.grid row column) }
{
    coarse.rows.free[row] & coarse.columns.free[column]
}

/// Offers a row and a column at a distance to each other, where that may give one of them something.
#[inline]
fn offer_at<O: Offers>(coarse: &Coarse, row: usize, column: usize, dist: u128, into: &mut O::Into)
    requires row { row < row_windows coarse.now.plan.grid }
    requires column { column < column_windows coarse.now.plan.grid }
    requires apart { row + O.least ≤ column }
    requires dist { distance_in coarse.now.plan.grid row column ≡ Some dist }
    requires small { dist + 1 < 2 ^ 110 }
    requires fits { FitIn O.fits coarse.now.plan.grid into.old }
    ensures scanned { AreScannedIn O.is_scanned coarse.now.plan.grid (only row column) into.old into.new }
{
    let dist = Sq(dist);
    if O::may_give(into, row as u64, column as u64, dist) {
        O::offer(into, row as u64, column as u64, dist);
    }
}

/// Whether all distances from one on are beyond a limit.
#[inline]
fn is_beyond(limit: Limit, least: u128) -> bool
    ensures { result ≡ true → (dist : ℕ) → least ≤ dist → IsBeyond limit dist }
{
    match limit {
        Limit::Every => false,
        Limit::Within(most) => most.0 < least,
        Limit::Below(end) => end.0 <= least,
    }
}

/// Offers a row and a column to each other whose sum doesn't tell their distance, but that it is so great at least.
/// What is known of their diagonal tells it.
fn offer_rounded<O: Offers>(
    coarse: &Coarse,
    row: usize,
    column: usize,
    sum: u64,
    exact: &mut Option<Exact>,
    into: &mut O::Into,
)
    requires row { row < row_windows coarse.now.plan.grid }
    requires column { column < column_windows coarse.now.plan.grid }
    requires apart { row + O.least ≤ column }
    requires free { IsSome (distance_in coarse.now.plan.grid row column) }
    requires sum { sum ≡ squares_in coarse.now coarse.now.plan.grid.m row column }
    requires exact { IsExact coarse.now.plan.grid (column - row) exact.old }
    requires fits { FitIn O.fits coarse.now.plan.grid into.old }
    ensures scanned { AreScannedIn O.is_scanned coarse.now.plan.grid (only row column) into.old into.new }
    ensures exact { IsExact coarse.now.plan.grid (column - row) exact.new }
{
    let least = u128::from(sum) * square_of(&coarse.rows.units.step);
    let to_row = O::row_limit(into, row as u64, column as u64);
    let to_column = O::column_limit(into, column as u64, row as u64);
    if is_beyond(to_row, least) && is_beyond(to_column, least) {
        return;
    }
    let dist = exact_distance(&coarse.plan.grid, exact, row, column);
    offer_at::<O>(coarse, row, column, dist, into);
}

/// Offers a row and a column to each other, where no sample of either is missing.
#[inline]
pub(crate) fn offer_pair<O: Offers>(
    coarse: &Coarse,
    row: usize,
    column: usize,
    sum: u64,
    exact: &mut Option<Exact>,
    into: &mut O::Into,
)
    requires row { row < row_windows coarse.now.plan.grid }
    requires column { column < column_windows coarse.now.plan.grid }
    requires apart { row + O.least ≤ column }
    requires sum { sum ≡ squares_in coarse.now coarse.now.plan.grid.m row column }
    requires exact { IsExact coarse.now.plan.grid (column - row) exact.old }
    requires fits { FitIn O.fits coarse.now.plan.grid into.old }
    ensures scanned { AreScannedIn O.is_scanned coarse.now.plan.grid (only row column) into.old into.new }
    ensures exact { IsExact coarse.now.plan.grid (column - row) exact.new }
{
    if are_free(coarse, row, column) {
        if coarse.rows.units.step.size == 1 {
            offer_at::<O>(coarse, row, column, u128::from(sum), into);
        } else {
            offer_rounded::<O>(coarse, row, column, sum, exact, into);
        }
    }
}

/// The same, unless their sum tells that they give each other nothing.
#[inline]
fn take_pair<O: Offers>(
    coarse: &Coarse,
    row: usize,
    column: usize,
    sum: u64,
    need: &Need,
    exact: &mut Option<Exact>,
    into: &mut O::Into,
)
    requires row { row < row_windows coarse.now.plan.grid }
    requires column { column < column_windows coarse.now.plan.grid }
    requires apart { row + O.least ≤ column }
    requires sum { sum ≡ squares_in coarse.now coarse.now.plan.grid.m row column }
    requires row_need { IsRowNeed coarse.now (O.keeps_row into.old) column row need.now.need }
    requires column_need { IsColumnNeed coarse.now (O.keeps_column into.old) row column need.now.need }
    requires most { IsMost coarse.now need.now.need need.now.most }
    requires exact { IsExact coarse.now.plan.grid (column - row) exact.old }
    requires fits { FitIn O.fits coarse.now.plan.grid into.old }
    ensures scanned { AreScannedIn O.is_scanned coarse.now.plan.grid (only row column) into.old into.new }
    ensures exact { IsExact coarse.now.plan.grid (column - row) exact.new }
{
    if sum < need.most {
        offer_pair::<O>(coarse, row, column, sum, exact, into);
    }
}

/// Successive rows and their columns on one diagonal.
#[derive(Clone, Copy)]
pub(crate) struct Stretch {
    pub(crate) row: usize,
    pub(crate) column: usize,
    pub(crate) count: usize,
}

/// The most rows of a block.
const MOST_HEIGHT: usize = 64;

/// Offers successive rows and columns to each other. The sum of the first two is known, and all need no more than the
/// given number.
pub(crate) fn scan_diagonal<O: Offers>(
    coarse: &Coarse,
    stretch: &Stretch,
    sum: u64,
    need: &Need,
    into: &mut O::Into,
)
    requires rows { stretch.now.row + stretch.now.count ≤ row_windows coarse.now.plan.grid }
    requires columns { stretch.now.column + stretch.now.count ≤ column_windows coarse.now.plan.grid }
    requires few { stretch.now.count ≤ height coarse.now }
    requires apart { stretch.now.row + O.least ≤ stretch.now.column }
    requires sum { sum ≡ squares_in coarse.now coarse.now.plan.grid.m stretch.now.row stretch.now.column }
    requires rows_need { IsRowsNeed coarse.now (O.keeps_row into.old) stretch.now.column stretch.now.row
        stretch.now.count need.now.need }
    requires columns_need { (c : ℕ) → c < stretch.now.count
        → IsColumnNeed coarse.now (O.keeps_column into.old) stretch.now.row (stretch.now.column + c) need.now.need }
    requires most { IsMost coarse.now need.now.need need.now.most }
    requires fits { FitIn O.fits coarse.now.plan.grid into.old }
    ensures scanned { AreScannedIn O.is_scanned coarse.now.plan.grid
        (in_block (stretch.now.column - stretch.now.row) (stretch.now.column - stretch.now.row + 1) stretch.now.row
        (stretch.now.row + stretch.now.count)) into.old into.new }
{
    let (row, column) = (stretch.row, stretch.column);
    let mut places = [0; MOST_HEIGHT];
    let sums = &mut places[..stretch.count];
    coarse.fill_sums(row, column, sum, sums);
    let mut exact = None;
    for r in 0..stretch.count {
        take_pair::<O>(coarse, row + r, column + r, sums[r], need, &mut exact, into);
    }
}
