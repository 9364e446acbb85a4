//! From which coarse sum on a pair gives its row or its column nothing.

ghost use Rattle.std.specs.Prelude.{◌≡◌, ℕ, ◌+◌, ◌*◌, ◌^◌, ◌<◌, ◌≤◌, length, slice_index_or, false};
ghost use Rattle.mp_defs.specs.Series.{series_of};
ghost use Rattle.mp_defs.specs.Window.{is_free};
ghost use Rattle.mp_scans.specs.Windows.{row_windows, column_windows};
ghost use Rattle.mp_skips.specs.Sums.{number_in};
ghost use Rattle.mp_skips.specs.Blocks.{Reaches, height};
ghost use Rattle.mp_skips.specs.declared.sums.TheConstants.{NO_NEED};
ghost use Rattle.mp_skips.specs.declared.needs.TheConstants.{MOST_COLUMNS, MOST_GROUPS};
ghost use Rattle.mp_skips.specs.Needs.{IsNeedOf, IsRowNeed, IsColumnNeed, IsRowsNeed, AreColumnNeeds, IsMost};
ghost use Rattle.mp_skips.specs.Needs.{AreGreatest, AreGroupNeeds};

use crate::sums::{Coarse, NO_NEED, Unit};
use mp_scans::{GROUP, Offers, ROWS};
use mp_sums::Limit;

/// The most groups of columns that the rows of a block of pairs have on its diagonals.
pub(crate) const MOST_GROUPS: usize = (ROWS + GROUP) / 8 + 1;

/// The most columns of these, with those that their blocks reach.
const MOST_COLUMNS: usize = 8 * MOST_GROUPS + 64;

/// More than a distance whose product with the samples of a sum has more than 62 bits.
const SHORT: u128 = 1 << 56;

/// More than any distance.
const MOST: u128 = 1 << 120;

/// A sum that none reaches.
const MOST_SUM: u128 = 1 << 63;

/// The square of a unit.
#[inline]
pub(crate) fn square_of(unit: &Unit) -> u128
    ensures square { result ≡ unit.now.size * unit.now.size }
    ensures some { 1 ≤ result }
    ensures small { result ≤ 2 ^ 62 }
{
    let size = u128::from(unit.size);
    size * size
}

/// The coarse sum that tells that a distance is above the given one.
#[inline]
fn need_above(coarse: &Coarse, dist: u128) -> u64
    ensures { (d : ℕ) → result < NO_NEED → Reaches coarse.now result d → dist < d }
{
    if dist < SHORT {
        let product = (8 * coarse.rows.units.eights) as u64 * dist as u64;
        (product >> (2 * coarse.rows.units.grain.shift)) + 1
    } else if dist < MOST {
        let product = (8 * coarse.rows.units.eights) as u128 * dist;
        let units = product >> (2 * coarse.rows.units.grain.shift);
        (units + 1).min(u128::from(NO_NEED)) as u64
    } else {
        NO_NEED
    }
}

/// The coarse sum that tells that a distance is the given one at least.
#[inline]
fn need_from(coarse: &Coarse, dist: u128) -> u64
    ensures { (d : ℕ) → result < NO_NEED → Reaches coarse.now result d → dist ≤ d }
{
    if dist == 0 {
        0
    } else {
        need_above(coarse, dist - 1)
    }
}

/// The coarse sum that tells that a distance is beyond a limit.
#[inline]
pub fn need_of(coarse: &Coarse, limit: Limit) -> u64
    ensures { IsNeedOf coarse.now limit result }
{
    match limit {
        Limit::Every => NO_NEED,
        Limit::Within(most) => need_above(coarse, most.0),
        Limit::Below(end) => need_from(coarse, end.0),
    }
}

/// A coarse sum of squares that tells that a pair gives nothing, and from which sum of squares in steps on pairs reach
/// it.
#[derive(Clone, Copy)]
pub(crate) struct Need {
    pub(crate) need: u64,
    pub(crate) most: u64,
}

/// From which sum of squares in steps on distances reach a need.
pub(crate) fn most_of(coarse: &Coarse, need: u64) -> u64
    ensures { IsMost coarse.now need result }
{
    if need < NO_NEED {
        let units = &coarse.rows.units;
        let grains = square_of(&units.grain);
        let steps = square_of(&units.step);
        let squares = u128::from(need) * grains / ((8 * units.eights) as u128 * steps);
        (squares + 1).min(MOST_SUM) as u64
    } else {
        1 << 63
    }
}

/// The need of a row, to which columns from `first` on are offered. Where a sample is missing it needs nothing.
#[inline]
fn row_need<O: Offers>(coarse: &Coarse, into: &O::Into, row: usize, free: bool, first: usize) -> u64
    requires free { free ≡ is_free coarse.now.plan.grid.m (series_of coarse.now.plan.grid.rows.now) row }
    ensures { IsRowNeed coarse.now (O.keeps_row into.now) first row result }
{
    if free {
        need_of(coarse, O::row_limit(into, row as u64, first as u64))
    } else {
        0
    }
}

/// The same of a column, to which rows from `first` on are offered.
#[inline]
pub(crate) fn column_need<O: Offers>(
    coarse: &Coarse,
    into: &O::Into,
    column: usize,
    free: bool,
    first: usize,
) -> u64
    requires free { column < column_windows coarse.now.plan.grid
        → free ≡ is_free coarse.now.plan.grid.m (series_of coarse.now.plan.grid.columns.now) column }
    ensures { IsColumnNeed coarse.now (O.keeps_column into.now) first column result }
{
    if free {
        need_of(coarse, O::column_limit(into, column as u64, first as u64))
    } else {
        0
    }
}

/// One need for some successive rows from `row` on.
pub(crate) fn rows_need<O: Offers>(
    coarse: &Coarse,
    into: &O::Into,
    row: usize,
    count: usize,
    first: usize,
) -> u64
    requires few { count ≤ 64 }
    requires row { row + count ≤ row_windows coarse.now.plan.grid }
    ensures { IsRowsNeed coarse.now (O.keeps_row into.now) first row count result }
{
    let mut need = 0;
    for k in 0..count {
        let free = coarse.rows.free[row + k];
        need = row_need::<O>(coarse, into, row + k, free, first).max(need);
    }
    need
}

/// The mark at a place. Past the last one there is none.
#[inline]
pub(crate) fn is_marked(marks: &[bool], place: usize) -> bool
    ensures { place < length marks.now → result ≡ slice_index_or marks.now place false }
{
    place < marks.len() && marks[place]
}

/// The needs of successive columns from `column` on.
fn fill_column_needs<O: Offers>(
    coarse: &Coarse,
    into: &O::Into,
    column: usize,
    first: usize,
    needs: &mut [u64],
)
    requires few { length needs.old ≤ MOST_COLUMNS }
    requires column { column < 2 ^ 32 }
    ensures needs { AreColumnNeeds coarse.now (O.keeps_column into.now) first column (length needs.old) needs.new }
    ensures places { length needs.new ≡ length needs.old }
{
    for k in 0..needs.len() {
        let free = is_marked(coarse.columns.free, column + k);
        needs[k] = column_need::<O>(coarse, into, column + k, free, first);
    }
}

/// The greatest of successive numbers from a place on.
fn greatest_from(numbers: &[u64], place: usize, count: usize) -> u64
    requires { place + count ≤ length numbers.now }
    ensures { (k : ℕ) → k < count → number_in numbers.now (place + k) ≤ result }
{
    let mut greatest = 0;
    for k in 0..count {
        greatest = numbers[place + k].max(greatest);
    }
    greatest
}

/// For each group of eight columns the greatest number of these and of so many more.
fn fill_greatest(numbers: &[u64], more: usize, needs: &mut [u64])
    requires few { more ≤ 64 }
    requires places { 8 * length needs.old + more ≤ length numbers.now }
    ensures greatest { AreGreatest numbers.now more (length needs.old) needs.new }
    ensures places { length needs.new ≡ length needs.old }
{
    for t in 0..needs.len() {
        needs[t] = greatest_from(numbers, 8 * t, 8 + more);
    }
}

/// Lowers needs that none reaches to the least of these.
fn lower(needs: &mut [u64])
    ensures small { (g : ℕ) → number_in needs.new g ≤ NO_NEED }
    ensures same { (g : ℕ) → number_in needs.new g < NO_NEED → number_in needs.new g ≡ number_in needs.old g }
    ensures places { length needs.new ≡ length needs.old }
{
    for g in 0..needs.len() {
        needs[g] = needs[g].min(NO_NEED);
    }
}

/// The needs of successive groups of columns, from those of their columns.
fn fill_from_columns<O: Offers>(
    coarse: &Coarse,
    into: &O::Into,
    group: usize,
    first: usize,
    columns: &mut [u64],
    needs: &mut [u64],
)
    requires few { length columns.old ≤ MOST_COLUMNS }
    requires group { group < 2 ^ 28 }
    requires places { length columns.old ≡ 8 * length needs.old + height coarse.now }
    ensures needs { AreGroupNeeds coarse.now (O.keeps_column into.now) first group (length needs.old) needs.new }
    ensures small { (g : ℕ) → number_in needs.new g ≤ NO_NEED }
    ensures places { length needs.new ≡ length needs.old }
{
    fill_column_needs::<O>(coarse, into, 8 * group, first, columns);
    fill_greatest(columns, 8 * coarse.rows.units.eights, needs);
    lower(needs);
}

/// The needs of successive groups of columns from `group` on: of each the greatest of all columns that its blocks
/// reach.
pub(crate) fn fill_group_needs<O: Offers>(
    coarse: &Coarse,
    into: &O::Into,
    group: usize,
    first: usize,
    needs: &mut [u64],
)
    requires few { length needs.old ≤ MOST_GROUPS }
    requires group { group < 2 ^ 28 }
    ensures needs { AreGroupNeeds coarse.now (O.keeps_column into.now) first group (length needs.old) needs.new }
    ensures small { (g : ℕ) → number_in needs.new g ≤ NO_NEED }
    ensures places { length needs.new ≡ length needs.old }
{
    let mut columns = [0; MOST_COLUMNS];
    let count = 8 * needs.len() + 8 * coarse.rows.units.eights;
    fill_from_columns::<O>(coarse, into, group, first, &mut columns[..count], needs);
}
