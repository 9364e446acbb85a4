//! The scan of a tile that passes over blocks of pairs which are told to be far apart.

ghost use Rattle.std.specs.Prelude.{◌≡◌, ℕ, ◌+◌, ◌-◌, ◌*◌, ◌<◌, ◌≤◌, max, min, length, true};
ghost use Rattle.mp_scans.specs.Offering.{in_block};
ghost use Rattle.mp_scans.specs.Windows.{row_windows, column_windows, FitIn, AreScannedIn};
ghost use Rattle.mp_scans.specs.declared.sizes.TheConstants.{GROUP, ROWS};
ghost use Rattle.mp_skips.specs.declared.sums.TheConstants.{NO_NEED};
ghost use Rattle.mp_skips.specs.Sums.{number_in};
ghost use Rattle.mp_skips.specs.Blocks.{height, squares_outside, AreApart};
ghost use Rattle.mp_skips.specs.Needs.{IsRowsNeed, IsColumnNeed, IsMost, AreGroupNeeds, AreStripNeeds};

use crate::needs::{MOST_GROUPS, Need, fill_group_needs, most_of, rows_need};
use crate::pairs::{Stretch, scan_diagonal};
use crate::sums::{Coarse, NO_NEED};
use crate::vectors::are_above;
use mp_scans::{GROUP, Offers, ROWS};
use std::simd::prelude::*;

/// How many windows the series of the rows has.
#[inline]
pub(crate) fn count_rows(coarse: &Coarse) -> usize
    ensures { result ≡ row_windows coarse.now.plan.grid }
{
    (coarse.plan.grid.rows.len() + 1).saturating_sub(coarse.plan.grid.m)
}

/// How many windows the series of the columns has.
#[inline]
pub(crate) fn count_columns(coarse: &Coarse) -> usize
    ensures { result ≡ column_windows coarse.now.plan.grid }
{
    (coarse.plan.grid.columns.len() + 1).saturating_sub(coarse.plan.grid.m)
}

/// Successive rows on some diagonals.
#[derive(Clone, Copy)]
struct Rows {
    /// How far a column starts behind its row, at least.
    first: usize,
    /// And less than this.
    end: usize,
    row: usize,
    count: usize,
}

/// Whether a sum reaches a need.
#[inline]
fn is_reached(need: u64, sum: u64) -> bool
    ensures { result ≡ true → need ≤ sum }
{
    need <= sum
}

/// Offers the pairs of some rows on the diagonal on which columns start `behind` places behind them. The samples that
/// they share may tell that they are far apart.
fn take_diagonal<O: Offers>(
    coarse: &Coarse,
    rows: &Rows,
    behind: usize,
    need: &Need,
    sum: u64,
    into: &mut O::Into,
)
    requires apart { O.least ≤ rows.now.first }
    requires behind { rows.now.first ≤ behind }
    requires count { rows.now.count ≤ height coarse.now }
    requires are_rows { rows.now.row + rows.now.count ≤ row_windows coarse.now.plan.grid }
    requires some { 1 ≤ rows.now.count }
    requires column { rows.now.row + behind < column_windows coarse.now.plan.grid }
    requires rows_need { IsRowsNeed coarse.now (O.keeps_row into.old) (rows.now.row + rows.now.first) rows.now.row
        rows.now.count need.now.need }
    requires columns_need { (c : ℕ) → c < 1 + height coarse.now
        → IsColumnNeed coarse.now (O.keeps_column into.old) rows.now.row (rows.now.row + behind + c) need.now.need }
    requires most { IsMost coarse.now need.now.need need.now.most }
    requires sum { need.now.need ≤ sum → AreApart coarse.now rows.now.row (rows.now.row + behind) 1 need.now.need }
    requires small { sum < NO_NEED }
    requires fits { FitIn O.fits coarse.now.plan.grid into.old }
    ensures scanned { AreScannedIn O.is_scanned coarse.now.plan.grid
        (in_block behind (behind + 1) rows.now.row (rows.now.row + rows.now.count)) into.old into.new }
{
    if is_reached(need.need, sum) {
        return;
    }
    let column = rows.row + behind;
    let height = 8 * coarse.rows.units.eights;
    if let Some(core) = coarse.core_within(rows.row, column, height, need.most) {
        let sum = coarse.whole_sum(rows.row, column, height, core);
        let count = rows.count.min(count_columns(coarse) - column);
        let stretch = Stretch {
            row: rows.row,
            column,
            count,
        };
        scan_diagonal::<O>(coarse, &stretch, sum, need, into);
    }
}

/// Offers the pairs of a block, as far as they are of these rows and diagonals, diagonal by diagonal. Its rows and its
/// columns need no more than the given number.
fn scan_block<O: Offers>(coarse: &Coarse, rows: &Rows, group: usize, need: u64, into: &mut O::Into)
    requires apart { O.least ≤ rows.now.first }
    requires count { rows.now.count ≤ height coarse.now }
    requires some { 1 ≤ rows.now.count }
    requires are_rows { rows.now.row + rows.now.count ≤ row_windows coarse.now.plan.grid }
    requires column { 8 * group < column_windows coarse.now.plan.grid }
    requires rows_need { IsRowsNeed coarse.now (O.keeps_row into.old) (rows.now.row + rows.now.first) rows.now.row
        rows.now.count need }
    requires columns_need { (c : ℕ) → c < 8 + height coarse.now
        → IsColumnNeed coarse.now (O.keeps_column into.old) rows.now.row (8 * group + c) need }
    requires fits { FitIn O.fits coarse.now.plan.grid into.old }
    ensures scanned { AreScannedIn O.is_scanned coarse.now.plan.grid
        (in_block (max rows.now.first (8 * group - rows.now.row)) (min rows.now.end (8 * group + 8 - rows.now.row))
        rows.now.row (rows.now.row + rows.now.count)) into.old into.new }
{
    let first = rows.first.max((8 * group).saturating_sub(rows.row));
    let end = rows.end.min((8 * group + 8).saturating_sub(rows.row));
    // on the diagonals behind these the first row is past the last column
    let stop = end.min(count_columns(coarse).saturating_sub(rows.row));
    let most = most_of(coarse, need);
    let need = Need { need, most };
    let mut sums = u64x8::splat(0);
    coarse.diagonal_sums(rows.row, 8 * group, &mut sums);
    let mut behind = first;
    while behind < stop {
        let sum = sums.as_array()[rows.row + behind - 8 * group];
        take_diagonal::<O>(coarse, rows, behind, &need, sum, into);
        behind += 1;
    }
}

/// The same, unless their coarse sum of squares tells that they are far apart.
fn take_block<O: Offers>(
    coarse: &Coarse,
    rows: &Rows,
    group: usize,
    need: u64,
    sum: u64,
    into: &mut O::Into,
)
    requires apart { O.least ≤ rows.now.first }
    requires count { rows.now.count ≤ height coarse.now }
    requires some { 1 ≤ rows.now.count }
    requires are_rows { rows.now.row + rows.now.count ≤ row_windows coarse.now.plan.grid }
    requires column { 8 * group < column_windows coarse.now.plan.grid }
    requires rows_need { IsRowsNeed coarse.now (O.keeps_row into.old) (rows.now.row + rows.now.first) rows.now.row
        rows.now.count need }
    requires columns_need { (c : ℕ) → c < 8 + height coarse.now
        → IsColumnNeed coarse.now (O.keeps_column into.old) rows.now.row (8 * group + c) need }
    requires sum { sum ≡ squares_outside coarse.now rows.now.row group coarse.now.terms }
    requires small { sum < NO_NEED }
    requires fits { FitIn O.fits coarse.now.plan.grid into.old }
    ensures scanned { AreScannedIn O.is_scanned coarse.now.plan.grid
        (in_block (max rows.now.first (8 * group - rows.now.row)) (min rows.now.end (8 * group + 8 - rows.now.row))
        rows.now.row (rows.now.row + rows.now.count)) into.old into.new }
{
    if is_reached(need, sum) {
        return;
    }
    scan_block::<O>(coarse, rows, group, need, into);
}

/// The needs of some rows, and of successive groups of columns from `base` on.
#[derive(Clone, Copy)]
struct Needs<'a> {
    rows: u64,
    base: usize,
    groups: &'a [u64],
}

/// Offers the pairs of the blocks of eight successive groups. At once they may be told to be far apart.
fn take_eight<O: Offers>(
    coarse: &Coarse,
    rows: &Rows,
    group: usize,
    needs: &Needs,
    into: &mut O::Into,
)
    requires apart { O.least ≤ rows.now.first }
    requires count { rows.now.count ≤ height coarse.now }
    requires some { 1 ≤ rows.now.count }
    requires are_rows { rows.now.row + rows.now.count ≤ row_windows coarse.now.plan.grid }
    requires columns { 8 * group + 56 < column_windows coarse.now.plan.grid }
    requires base { needs.now.base ≤ group }
    requires places { group + 8 ≤ needs.now.base + length needs.now.groups.now }
    requires needs { AreStripNeeds coarse.now (O.keeps_row into.old) (O.keeps_column into.old) rows.now.first
        rows.now.row rows.now.count needs.now.base needs.now.rows needs.now.groups.now }
    requires fits { FitIn O.fits coarse.now.plan.grid into.old }
    ensures scanned { AreScannedIn O.is_scanned coarse.now.plan.grid
        (in_block (max rows.now.first (8 * group - rows.now.row)) (min rows.now.end (8 * (group + 8) - rows.now.row))
        rows.now.row (rows.now.row + rows.now.count)) into.old into.new }
{
    let place = group - needs.base;
    let mut sums = u64x8::splat(0);
    coarse.eight_sums(rows.row, group, &mut sums);
    if are_above(&sums, &needs.rows, needs.groups, place) {
        return;
    }
    for l in 0..8 {
        let need = needs.rows.max(needs.groups[place + l]);
        take_block::<O>(coarse, rows, group + l, need, sums.as_array()[l], into);
    }
}

/// Offers the pairs of the blocks of a group, or of eight from it on, and tells which one comes next.
fn take_groups<O: Offers>(
    coarse: &Coarse,
    rows: &Rows,
    group: usize,
    needs: &Needs,
    into: &mut O::Into,
) -> usize
    requires apart { O.least ≤ rows.now.first }
    requires count { rows.now.count ≤ height coarse.now }
    requires some { 1 ≤ rows.now.count }
    requires are_rows { rows.now.row + rows.now.count ≤ row_windows coarse.now.plan.grid }
    requires column { 8 * group < column_windows coarse.now.plan.grid }
    requires base { needs.now.base ≤ group }
    requires places { group < needs.now.base + length needs.now.groups.now }
    requires needs { AreStripNeeds coarse.now (O.keeps_row into.old) (O.keeps_column into.old) rows.now.first
        rows.now.row rows.now.count needs.now.base needs.now.rows needs.now.groups.now }
    requires fits { FitIn O.fits coarse.now.plan.grid into.old }
    ensures behind { group < result }
    ensures near { result ≤ group + 8 }
    ensures scanned { AreScannedIn O.is_scanned coarse.now.plan.grid
        (in_block (max rows.now.first (8 * group - rows.now.row)) (min rows.now.end (8 * result - rows.now.row))
        rows.now.row (rows.now.row + rows.now.count)) into.old into.new }
{
    let place = group - needs.base;
    if 8 * group + 56 < count_columns(coarse) && place + 8 <= needs.groups.len() {
        take_eight::<O>(coarse, rows, group, needs, into);
        group + 8
    } else {
        let need = needs.rows.max(needs.groups[place]);
        let sum = coarse.square_sum(rows.row, group);
        take_block::<O>(coarse, rows, group, need, sum, into);
        group + 1
    }
}

/// Offers the pairs of no more rows than a block has, block by block. The needs are those of successive groups of
/// columns from `base` on.
fn scan_strip<O: Offers>(
    coarse: &Coarse,
    rows: &Rows,
    base: usize,
    needs: &[u64],
    into: &mut O::Into,
)
    requires apart { O.least ≤ rows.now.first }
    requires count { rows.now.count ≤ height coarse.now }
    requires some { 1 ≤ rows.now.count }
    requires are_rows { rows.now.row + rows.now.count ≤ row_windows coarse.now.plan.grid }
    requires within { rows.now.first ≤ column_windows coarse.now.plan.grid }
    requires base { 8 * base ≤ rows.now.row + rows.now.first }
    requires reach { rows.now.row + rows.now.end ≤ 8 * (base + length needs.now) }
    requires needs { AreGroupNeeds coarse.now (O.keeps_column into.old) rows.now.row base (length needs.now) needs.now }
    requires small { (g : ℕ) → number_in needs.now g ≤ NO_NEED }
    requires fits { FitIn O.fits coarse.now.plan.grid into.old }
    ensures scanned { AreScannedIn O.is_scanned coarse.now.plan.grid
        (in_block rows.now.first rows.now.end rows.now.row (rows.now.row + rows.now.count)) into.old into.new }
{
    let first = rows.row + rows.first;
    let need = rows_need::<O>(coarse, into, rows.row, rows.count, first);
    let needs = Needs {
        rows: need.min(NO_NEED),
        base,
        groups: needs,
    };
    let stop = (rows.row + rows.end).min(count_columns(coarse));
    let mut group = first / 8;
    while 8 * group < stop {
        group = take_groups::<O>(coarse, rows, group, &needs, into);
    }
}

/// Offers the pairs of some rows, strip by strip. The needs are those of successive groups of columns from `base` on.
fn scan_strips<O: Offers>(
    coarse: &Coarse,
    rows: &Rows,
    base: usize,
    needs: &[u64],
    into: &mut O::Into,
)
    requires apart { O.least ≤ rows.now.first }
    requires are_rows { rows.now.row + rows.now.count ≤ row_windows coarse.now.plan.grid }
    requires within { rows.now.first ≤ column_windows coarse.now.plan.grid }
    requires base { 8 * base ≤ rows.now.row + rows.now.first }
    requires reach { rows.now.row + rows.now.count + rows.now.end ≤ 8 * (base + length needs.now) }
    requires needs { AreGroupNeeds coarse.now (O.keeps_column into.old) rows.now.row base (length needs.now) needs.now }
    requires small { (g : ℕ) → number_in needs.now g ≤ NO_NEED }
    requires fits { FitIn O.fits coarse.now.plan.grid into.old }
    ensures scanned { AreScannedIn O.is_scanned coarse.now.plan.grid
        (in_block rows.now.first rows.now.end rows.now.row (rows.now.row + rows.now.count)) into.old into.new }
{
    let bottom = rows.row + rows.count;
    let mut row = rows.row;
    while row < bottom {
        let count = (bottom - row).min(8 * coarse.rows.units.eights);
        let strip = Rows {
            first: rows.first,
            end: rows.end,
            row,
            count,
        };
        scan_strip::<O>(coarse, &strip, base, needs, into);
        row += count;
    }
}

/// Offers the pairs of no more rows than there are needs for at once.
fn scan_rows<O: Offers>(coarse: &Coarse, rows: &Rows, into: &mut O::Into)
    requires apart { O.least ≤ rows.now.first }
    requires ordered { rows.now.first ≤ rows.now.end }
    requires diagonals { rows.now.end ≤ rows.now.first + GROUP }
    requires few { rows.now.count ≤ ROWS }
    requires are_rows { rows.now.row + rows.now.count ≤ row_windows coarse.now.plan.grid }
    requires within { rows.now.first ≤ column_windows coarse.now.plan.grid }
    requires fits { FitIn O.fits coarse.now.plan.grid into.old }
    ensures scanned { AreScannedIn O.is_scanned coarse.now.plan.grid
        (in_block rows.now.first rows.now.end rows.now.row (rows.now.row + rows.now.count)) into.old into.new }
{
    let base = (rows.row + rows.first) / 8;
    let groups = (rows.row + rows.count + rows.end + 7) / 8 - base;
    let mut places = [0; MOST_GROUPS];
    let needs = &mut places[..groups];
    fill_group_needs::<O>(coarse, into, base, rows.row, needs);
    scan_strips::<O>(coarse, rows, base, needs, into);
}

/// Offers the pairs of the rows from `top` on and before `bottom` on some diagonals.
fn scan_diagonals<O: Offers>(
    coarse: &Coarse,
    first: usize,
    end: usize,
    top: usize,
    bottom: usize,
    into: &mut O::Into,
)
    requires apart { O.least ≤ first }
    requires ordered { first ≤ end }
    requires diagonals { end ≤ first + GROUP }
    requires top { top ≤ bottom }
    requires bottom { bottom ≤ row_windows coarse.now.plan.grid }
    requires within { first ≤ column_windows coarse.now.plan.grid }
    requires fits { FitIn O.fits coarse.now.plan.grid into.old }
    ensures scanned { AreScannedIn O.is_scanned coarse.now.plan.grid (in_block first end top bottom) into.old into.new }
{
    let mut row = top;
    while row < bottom {
        let count = (bottom - row).min(ROWS);
        let rows = Rows {
            first,
            end,
            row,
            count,
        };
        scan_rows::<O>(coarse, &rows, into);
        row += count;
    }
}

/// Offers the pairs of the rows from `top` on and before `bottom` and the columns that start from `first` on and before
/// `end` behind them. It passes over blocks of pairs that coarse sums tell to give nothing.
pub fn scan_apart<O: Offers>(
    coarse: &Coarse,
    first: usize,
    end: usize,
    top: usize,
    bottom: usize,
    into: &mut O::Into,
)
    requires apart { O.least ≤ first }
    requires top { top ≤ bottom }
    requires bottom { bottom ≤ row_windows coarse.now.plan.grid }
    requires fits { FitIn O.fits coarse.now.plan.grid into.old }
    ensures scanned { AreScannedIn O.is_scanned coarse.now.plan.grid (in_block first end top bottom) into.old into.new }
{
    // on the diagonals behind these every row from `top` on is past the last column
    let columns = count_columns(coarse).saturating_sub(top);
    let stop = end.min(columns);
    let mut start = first;
    while start < stop {
        let width = (stop - start).min(GROUP);
        scan_diagonals::<O>(coarse, start, start + width, top, bottom, into);
        start += width;
    }
}
