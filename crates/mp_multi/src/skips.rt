//! The scan of a tile of several channels that passes over blocks of pairs which coarse sums tell to be far apart.

ghost use Rattle.std.specs.Prelude.{◌≡◌, ℕ, ◌+◌, ◌-◌, ◌*◌, ◌%◌, ◌^◌, ◌<◌, ◌≤◌, length, max, min};
ghost use Rattle.std.specs.Prelude.{true};
ghost use Rattle.mp_scans.specs.Offering.{in_block};
ghost use Rattle.mp_scans.specs.declared.sizes.TheConstants.{GROUP, ROWS};
ghost use Rattle.mp_skips.specs.Sums.{number_in};
ghost use Rattle.mp_skips.specs.declared.sums.TheConstants.{NO_NEED};
ghost use Rattle.mp_multi.specs.Blocks.{AreScannedBy};
ghost use Rattle.mp_multi.specs.Skips.{AreFar, IsNeedOfAll, AreGroupNeeds};
ghost use Rattle.mp_multi.specs.declared.skips.TheConstants.{MOST_HEIGHT};

use crate::bounds::Level;
use crate::known::{fill_dists, fill_sums, value_at};
use crate::needs::MOST_GROUPS;
use crate::scans::offer_both;
use mp_nums::Slots;
use mp_scans::{GROUP, ROWS};
use std::simd::prelude::*;

/// Channels in coarse sums, first of more samples and then of fewer.
#[derive(Clone, Copy)]
pub(crate) struct Levels<'a> {
    pub(crate) wide: Level<'a>,
    pub(crate) narrow: Level<'a>,
    ghost same_plan: { narrow.plan ≡ wide.plan },
    ghost same_windows: { narrow.windows ≡ wide.windows },
    ghost exact: { narrow.units.step.size ≡ 1 },
    ghost low: { 8 * narrow.units.eights ≤ MOST_HEIGHT },
}

/// Successive rows on some diagonals.
#[derive(Clone, Copy)]
pub(crate) struct Rows {
    /// How far a column starts behind its row, at least.
    pub(crate) first: usize,
    /// And less than this.
    pub(crate) end: usize,
    pub(crate) row: usize,
    pub(crate) count: usize,
}

/// The most rows of a block of the narrow sums.
const MOST_HEIGHT: usize = 16;

/// Offers successive rows and columns of one diagonal to each other.
pub(crate) fn scan_diagonal<const D: usize, const N: usize>(
    level: &Level,
    row: usize,
    column: usize,
    count: usize,
    into: &mut Slots,
)
    requires exact { level.now.units.step.size ≡ 1 }
    requires channels { length level.now.coarse.now ≡ D }
    requires some { 1 ≤ count }
    requires few { count ≤ N }
    requires size { N ≤ 256 }
    requires eights { N % 8 ≡ 0 }
    requires order { row ≤ column }
    requires columns { column + count ≤ level.now.windows }
    requires windows { length into.old.items ≡ level.now.windows }
    ensures scanned { AreScannedBy level.now.plan (in_block (column - row) (column - row + 1) row (row + count))
        into.old
        into.new }
    ensures windows { length into.new.items ≡ level.now.windows }
{
    let mut dists = [[0; N]; D];
    let mut sums = [0; N];
    fill_dists::<D, N>(level, row, column, count, &mut dists);
    let told = fill_sums::<D, N>(level, &dists, count, &mut sums);
    for r in 0..count {
        let sum = if told { Some(sums[r]) } else { None };
        let value = value_at::<D, N>(level, row + r, column + r, &dists, r, sum);
        offer_both(into, (row + r) as u64, (column + r) as u64, value);
    }
}

/// Offers the pairs of a block of the narrow sums, as far as they are of these rows and diagonals, diagonal by
/// diagonal. Its rows and its columns need no more than the given number.
fn scan_block<const D: usize>(level: &Level, rows: &Rows, group: usize, need: u64, into: &mut Slots)
    requires exact { level.now.units.step.size ≡ 1 }
    requires low { 8 * level.now.units.eights ≤ MOST_HEIGHT }
    requires channels { length level.now.coarse.now ≡ D }
    requires some { 1 ≤ rows.now.count }
    requires few { rows.now.count ≤ 8 * level.now.units.eights }
    requires column { 8 * group < level.now.windows }
    requires are_rows { rows.now.row + rows.now.count ≤ level.now.windows }
    requires rows_need { IsNeedOfAll level.now.plan level.now.units into.old.items (rows.now.row + rows.now.first)
        rows.now.row rows.now.count need }
    requires columns_need { IsNeedOfAll level.now.plan level.now.units into.old.items rows.now.row (8 * group)
        (8 + 8 * level.now.units.eights) need }
    requires windows { length into.old.items ≡ level.now.windows }
    ensures scanned { AreScannedBy level.now.plan (in_block (max rows.now.first (8 * group - rows.now.row))
        (min rows.now.end (8 * group + 8 - rows.now.row)) rows.now.row (rows.now.row + rows.now.count)) into.old
        into.new }
    ensures windows { length into.new.items ≡ level.now.windows }
{
    let first = rows.first.max((8 * group).saturating_sub(rows.row));
    let end = rows.end.min((8 * group + 8).saturating_sub(rows.row));
    // on the diagonals behind these the first row is past the last column
    let stop = end.min(level.windows.saturating_sub(rows.row));
    let mut bounds = u64x8::splat(0);
    level.diagonal_bounds::<D>(rows.row, 8 * group, &mut bounds);
    let mut behind = first;
    while behind < stop {
        let bound = bounds.as_array()[rows.row + behind - 8 * group];
        take_diagonal::<D>(level, rows, behind, need, bound, into);
        behind += 1;
    }
}

/// Whether a bound reaches a need.
#[inline]
fn is_reached(need: u64, bound: u64) -> bool
    ensures { result ≡ true → need ≤ bound }
{
    need <= bound
}

/// Offers the pairs of some rows on the diagonal on which columns start `behind` places behind them, unless the bound
/// tells that they are far apart.
fn take_diagonal<const D: usize>(
    level: &Level,
    rows: &Rows,
    behind: usize,
    need: u64,
    bound: u64,
    into: &mut Slots,
)
    requires exact { level.now.units.step.size ≡ 1 }
    requires low { 8 * level.now.units.eights ≤ MOST_HEIGHT }
    requires channels { length level.now.coarse.now ≡ D }
    requires some { 1 ≤ rows.now.count }
    requires few { rows.now.count ≤ 8 * level.now.units.eights }
    requires behind { rows.now.first ≤ behind }
    requires column { rows.now.row + behind < level.now.windows }
    requires rows_need { IsNeedOfAll level.now.plan level.now.units into.old.items (rows.now.row + rows.now.first)
        rows.now.row rows.now.count need }
    requires columns_need { IsNeedOfAll level.now.plan level.now.units into.old.items rows.now.row
        (rows.now.row + behind) (1 + 8 * level.now.units.eights) need }
    requires far { need ≤ bound → AreFar level.now.plan level.now.units rows.now.row (rows.now.row + behind) 1 need }
    requires small { bound < NO_NEED }
    requires windows { length into.old.items ≡ level.now.windows }
    ensures scanned { AreScannedBy level.now.plan (in_block behind (behind + 1) rows.now.row
        (rows.now.row + rows.now.count)) into.old into.new }
    ensures windows { length into.new.items ≡ level.now.windows }
{
    if is_reached(need, bound) {
        return;
    }
    let column = rows.row + behind;
    let count = rows.count.min(level.windows - column);
    scan_diagonal::<D, MOST_HEIGHT>(level, rows.row, column, count, into);
}

/// Whether each of eight bounds reaches a need, and its own of those from a place on.
#[inline(always)]
fn are_reached(bounds: &u64x8, need: u64, needs: &[u64], place: usize) -> bool
    requires bounds { length bounds.now ≡ 8 }
    requires needs { place + 8 ≤ length needs.now }
    requires small { (t : ℕ) → t < 8 → number_in bounds.now t < NO_NEED }
    requires small_need { need ≤ NO_NEED }
    requires small_needs { (t : ℕ) → t < 8 → number_in needs.now (place + t) ≤ NO_NEED }
    ensures need { result ≡ true → (t : ℕ) → t < 8 → need ≤ number_in bounds.now t }
    ensures needs { result ≡ true → (t : ℕ) → t < 8 → number_in needs.now (place + t) ≤ number_in bounds.now t }
{
    for t in 0..8 {
        if bounds.as_array()[t] < need.max(needs[place + t]) {
            return false;
        }
    }
    true
}

/// Offers the pairs of eight blocks of the narrow sums. The needs are those of successive groups of columns from `base`
/// on.
fn scan_eight<const D: usize>(
    level: &Level,
    rows: &Rows,
    group: usize,
    base: usize,
    needs: &[u64],
    into: &mut Slots,
)
    requires exact { level.now.units.step.size ≡ 1 }
    requires low { 8 * level.now.units.eights ≤ MOST_HEIGHT }
    requires channels { length level.now.coarse.now ≡ D }
    requires some { 1 ≤ rows.now.count }
    requires few { rows.now.count ≤ 8 * level.now.units.eights }
    requires are_rows { rows.now.row + rows.now.count ≤ level.now.windows }
    requires within { rows.now.first ≤ level.now.windows }
    requires base { base ≤ group }
    requires group { group < 2 ^ 31 }
    requires places { group + 8 ≤ base + length needs.now }
    requires needs { AreGroupNeeds level.now.plan level.now.units into.old.items rows.now.row base (length needs.now)
        needs.now }
    requires windows { length into.old.items ≡ level.now.windows }
    ensures scanned { AreScannedBy level.now.plan (in_block (max rows.now.first (8 * group - rows.now.row))
        (min rows.now.end (8 * (group + 8) - rows.now.row)) rows.now.row (rows.now.row + rows.now.count)) into.old
        into.new }
    ensures windows { length into.new.items ≡ level.now.windows }
{
    let need = level.need_of_all(rows.row, rows.count, rows.row + rows.first, into);
    let place = group - base;
    let mut bounds = u64x8::splat(0);
    level.eight_bounds::<D>(rows.row, group, &mut bounds);
    if are_reached(&bounds, need, needs, place) {
        return;
    }
    for l in 0..8 {
        let own = need.max(needs[place + l]);
        take_block::<D>(level, rows, group + l, own, bounds.as_array()[l], into);
    }
}

/// Offers the pairs of a block, unless it has no column or the bound tells that they are far apart.
fn take_block<const D: usize>(
    level: &Level,
    rows: &Rows,
    group: usize,
    need: u64,
    bound: u64,
    into: &mut Slots,
)
    requires exact { level.now.units.step.size ≡ 1 }
    requires low { 8 * level.now.units.eights ≤ MOST_HEIGHT }
    requires channels { length level.now.coarse.now ≡ D }
    requires some { 1 ≤ rows.now.count }
    requires few { rows.now.count ≤ 8 * level.now.units.eights }
    requires group { group < 2 ^ 32 }
    requires are_rows { rows.now.row + rows.now.count ≤ level.now.windows }
    requires rows_need { IsNeedOfAll level.now.plan level.now.units into.old.items (rows.now.row + rows.now.first)
        rows.now.row rows.now.count need }
    requires columns_need { IsNeedOfAll level.now.plan level.now.units into.old.items rows.now.row (8 * group)
        (8 + 8 * level.now.units.eights) need }
    requires far { need ≤ bound → AreFar level.now.plan level.now.units rows.now.row (8 * group) 8 need }
    requires small { bound < NO_NEED }
    requires windows { length into.old.items ≡ level.now.windows }
    ensures scanned { AreScannedBy level.now.plan (in_block (max rows.now.first (8 * group - rows.now.row))
        (min rows.now.end (8 * group + 8 - rows.now.row)) rows.now.row (rows.now.row + rows.now.count)) into.old
        into.new }
    ensures windows { length into.new.items ≡ level.now.windows }
{
    if 8 * group >= level.windows {
        return;
    }
    if is_reached(need, bound) {
        return;
    }
    scan_block::<D>(level, rows, group, need, into);
}

/// The needs of successive groups of columns from `base` on, for the blocks of the wide sums and of the narrow ones.
#[derive(Clone, Copy)]
struct Needs<'a> {
    base: usize,
    wide: &'a [u64],
    narrow: &'a [u64],
}

/// Offers the pairs of eight blocks of the wide sums.
fn take_eight<const D: usize>(
    levels: &Levels,
    rows: &Rows,
    need: u64,
    group: usize,
    needs: &Needs,
    into: &mut Slots,
)
    requires channels { length levels.now.wide.coarse.now ≡ D }
    requires narrow_channels { length levels.now.narrow.coarse.now ≡ D }
    requires some { 1 ≤ rows.now.count }
    requires few { rows.now.count ≤ 8 * levels.now.wide.units.eights }
    requires are_rows { rows.now.row + rows.now.count ≤ levels.now.wide.windows }
    requires within { rows.now.first ≤ levels.now.wide.windows }
    requires base { needs.now.base ≤ group }
    requires group { group < 2 ^ 30 }
    requires places { group + 16 ≤ needs.now.base + length needs.now.narrow.now }
    requires wide_places { length needs.now.wide.now ≡ length needs.now.narrow.now }
    requires rows_need { IsNeedOfAll levels.now.wide.plan levels.now.wide.units into.old.items
        (rows.now.row + rows.now.first) rows.now.row rows.now.count need }
    requires small { need ≤ NO_NEED }
    requires wide { AreGroupNeeds levels.now.wide.plan levels.now.wide.units into.old.items rows.now.row needs.now.base
        (length needs.now.wide.now) needs.now.wide.now }
    requires narrow { AreGroupNeeds levels.now.narrow.plan levels.now.narrow.units into.old.items rows.now.row
        needs.now.base (length needs.now.narrow.now) needs.now.narrow.now }
    requires windows { length into.old.items ≡ levels.now.wide.windows }
    ensures scanned { AreScannedBy levels.now.wide.plan (in_block (max rows.now.first (8 * group - rows.now.row))
        (min rows.now.end (8 * (group + 8) - rows.now.row)) rows.now.row (rows.now.row + rows.now.count)) into.old
        into.new }
    ensures windows { length into.new.items ≡ levels.now.wide.windows }
{
    let place = group - needs.base;
    let mut bounds = u64x8::splat(0);
    levels.wide.eight_bounds::<D>(rows.row, group, &mut bounds);
    if are_reached(&bounds, need, needs.wide, place) {
        return;
    }
    let mut done = 0;
    let mut at = group;
    while done < rows.count {
        let count = (rows.count - done).min(levels.narrow.height());
        let part = Rows {
            first: rows.first,
            end: rows.end,
            row: rows.row + done,
            count,
        };
        scan_eight::<D>(&levels.narrow, &part, at, needs.base, needs.narrow, into);
        done += levels.narrow.height();
        at += levels.narrow.units.eights;
    }
}

/// Offers the pairs of no more rows than a block of the wide sums has, eight blocks at a time.
fn scan_strip<const D: usize>(levels: &Levels, rows: &Rows, needs: &Needs, into: &mut Slots)
    requires channels { length levels.now.wide.coarse.now ≡ D }
    requires narrow_channels { length levels.now.narrow.coarse.now ≡ D }
    requires some { 1 ≤ rows.now.count }
    requires few { rows.now.count ≤ 8 * levels.now.wide.units.eights }
    requires are_rows { rows.now.row + rows.now.count ≤ levels.now.wide.windows }
    requires within { rows.now.first ≤ levels.now.wide.windows }
    requires base { 8 * needs.now.base ≤ rows.now.row + rows.now.first }
    requires reach { rows.now.row + rows.now.end + 128 ≤ 8 * (needs.now.base + length needs.now.narrow.now) }
    requires wide_places { length needs.now.wide.now ≡ length needs.now.narrow.now }
    requires wide { AreGroupNeeds levels.now.wide.plan levels.now.wide.units into.old.items rows.now.row needs.now.base
        (length needs.now.wide.now) needs.now.wide.now }
    requires narrow { AreGroupNeeds levels.now.narrow.plan levels.now.narrow.units into.old.items rows.now.row
        needs.now.base (length needs.now.narrow.now) needs.now.narrow.now }
    requires windows { length into.old.items ≡ levels.now.wide.windows }
    ensures scanned { AreScannedBy levels.now.wide.plan (in_block rows.now.first rows.now.end rows.now.row
        (rows.now.row + rows.now.count)) into.old into.new }
    ensures windows { length into.new.items ≡ levels.now.wide.windows }
{
    let need = levels
        .wide
        .need_of_all(rows.row, rows.count, rows.row + rows.first, into);
    let stop = (rows.row + rows.end).min(levels.wide.windows);
    let mut group = (rows.row + rows.first) / 8;
    while 8 * group < stop {
        take_eight::<D>(levels, rows, need, group, needs, into);
        group += 8;
    }
}

/// Offers the pairs of some rows, strip by strip. The needs do for all of them.
fn scan_strips<const D: usize>(levels: &Levels, rows: &Rows, needs: &Needs, into: &mut Slots)
    requires channels { length levels.now.wide.coarse.now ≡ D }
    requires narrow_channels { length levels.now.narrow.coarse.now ≡ D }
    requires are_rows { rows.now.row + rows.now.count ≤ levels.now.wide.windows }
    requires within { rows.now.first ≤ levels.now.wide.windows }
    requires base { 8 * needs.now.base ≤ rows.now.row + rows.now.first }
    requires reach { rows.now.row + rows.now.count + rows.now.end + 128
        ≤ 8 * (needs.now.base + length needs.now.narrow.now) }
    requires wide_places { length needs.now.wide.now ≡ length needs.now.narrow.now }
    requires wide { AreGroupNeeds levels.now.wide.plan levels.now.wide.units into.old.items rows.now.row needs.now.base
        (length needs.now.wide.now) needs.now.wide.now }
    requires narrow { AreGroupNeeds levels.now.narrow.plan levels.now.narrow.units into.old.items rows.now.row
        needs.now.base (length needs.now.narrow.now) needs.now.narrow.now }
    requires windows { length into.old.items ≡ levels.now.wide.windows }
    ensures scanned { AreScannedBy levels.now.wide.plan (in_block rows.now.first rows.now.end rows.now.row
        (rows.now.row + rows.now.count)) into.old into.new }
    ensures windows { length into.new.items ≡ levels.now.wide.windows }
{
    let bottom = rows.row + rows.count;
    let mut row = rows.row;
    while row < bottom {
        let count = (bottom - row).min(levels.wide.height());
        let strip = Rows {
            first: rows.first,
            end: rows.end,
            row,
            count,
        };
        scan_strip::<D>(levels, &strip, needs, into);
        row += count;
    }
}

/// Offers the pairs of no more rows than there are needs for at once.
fn scan_rows<const D: usize>(levels: &Levels, rows: &Rows, into: &mut Slots)
    requires channels { length levels.now.wide.coarse.now ≡ D }
    requires narrow_channels { length levels.now.narrow.coarse.now ≡ D }
    requires some_channels { 1 ≤ D }
    requires ordered { rows.now.first ≤ rows.now.end }
    requires diagonals { rows.now.end ≤ rows.now.first + GROUP }
    requires few { rows.now.count ≤ ROWS }
    requires are_rows { rows.now.row + rows.now.count ≤ levels.now.wide.windows }
    requires within { rows.now.first ≤ levels.now.wide.windows }
    requires windows { length into.old.items ≡ levels.now.wide.windows }
    ensures scanned { AreScannedBy levels.now.wide.plan (in_block rows.now.first rows.now.end rows.now.row
        (rows.now.row + rows.now.count)) into.old into.new }
    ensures windows { length into.new.items ≡ levels.now.wide.windows }
{
    let base = (rows.row + rows.first) / 8;
    let groups = (rows.row + rows.count + rows.end + 7) / 8 - base + 16;
    let mut wide_places = [0; MOST_GROUPS];
    let mut narrow_places = [0; MOST_GROUPS];
    let wide = &mut wide_places[..groups];
    let narrow = &mut narrow_places[..groups];
    levels.wide.fill_group_needs(base, rows.row, wide, into);
    levels.narrow.fill_group_needs(base, rows.row, narrow, into);
    let needs = Needs { base, wide, narrow };
    scan_strips::<D>(levels, rows, &needs, into);
}

/// Offers the pairs of the rows from `top` on and before `bottom` on some diagonals.
fn scan_diagonals<const D: usize>(
    levels: &Levels,
    first: usize,
    end: usize,
    top: usize,
    bottom: usize,
    into: &mut Slots,
)
    requires channels { length levels.now.wide.coarse.now ≡ D }
    requires narrow_channels { length levels.now.narrow.coarse.now ≡ D }
    requires some_channels { 1 ≤ D }
    requires ordered { first ≤ end }
    requires diagonals { end ≤ first + GROUP }
    requires within { first ≤ levels.now.wide.windows }
    requires windows { length into.old.items ≡ levels.now.wide.windows }
    ensures scanned { AreScannedBy levels.now.wide.plan (in_block first end top bottom) into.old into.new }
    ensures windows { length into.new.items ≡ levels.now.wide.windows }
{
    // behind these the rows have no column on the first of the diagonals
    let stop = bottom.min(levels.wide.windows - first);
    let mut row = top;
    while row < stop {
        let count = (stop - row).min(ROWS);
        let rows = Rows {
            first,
            end,
            row,
            count,
        };
        scan_rows::<D>(levels, &rows, into);
        row += count;
    }
}

/// Offers the pairs of the rows from `top` on and before `bottom` and the columns that start from `first` on and before
/// `end` behind them. It passes over blocks of pairs that coarse sums tell to give nothing.
pub(crate) fn scan_apart<const D: usize>(
    levels: &Levels,
    first: usize,
    end: usize,
    top: usize,
    bottom: usize,
    into: &mut Slots,
)
    requires channels { length levels.now.wide.coarse.now ≡ D }
    requires narrow_channels { length levels.now.narrow.coarse.now ≡ D }
    requires some_channels { 1 ≤ D }
    requires windows { length into.old.items ≡ levels.now.wide.windows }
    ensures scanned { AreScannedBy levels.now.wide.plan (in_block first end top bottom) into.old into.new }
    ensures windows { length into.new.items ≡ levels.now.wide.windows }
{
    // on the diagonals behind these every row from `top` on is past the last column
    let stop = end.min(levels.wide.windows.saturating_sub(top));
    let mut start = first;
    while start < stop {
        let width = (stop - start).min(GROUP);
        scan_diagonals::<D>(levels, start, start + width, top, bottom, into);
        start += width;
    }
}

/// How many blocks of a tile are tried.
const TRIED: usize = 128;

/// How many of their diagonals may stay.
const STAYING: usize = 80;

fn count_near<const D: usize>(level: &Level, row: usize, group: usize, need: u64) -> usize
    requires channels { length level.now.coarse.now ≡ D }
    requires row { row < level.now.windows }
    requires few { group < 2 ^ 31 }
    requires group { 8 * group < level.now.windows }
    ensures { result ≤ 8 }
{
    let mut bounds = u64x8::splat(0);
    level.diagonal_bounds::<D>(row, 8 * group, &mut bounds);
    let mut near = 0;
    for l in 0..8 {
        if bounds.as_array()[l] < need {
            near += 1;
        }
    }
    near
}

/// How many diagonals stay of the block of a row and of the columns around another one. None do where there is no such
/// block.
fn count_staying<const D: usize>(level: &Level, row: usize, column: usize, into: &Slots) -> usize
    requires channels { length level.now.coarse.now ≡ D }
    requires some { 1 ≤ D }
    requires windows { length into.now.items ≡ level.now.windows }
    ensures { result ≤ 8 }
{
    if row >= level.windows || column >= level.windows {
        return 0;
    }
    let group = column / 8;
    let rows = level.need_of_all(row, level.height(), column, into);
    let columns = level.need_of_all(8 * group, 8 + level.height(), row, into);
    count_near::<D>(level, row, group, rows.max(columns))
}

/// Whether few diagonals stay of some blocks that are spread over a tile.
pub(crate) fn are_mostly_apart<const D: usize>(
    levels: &Levels,
    first: usize,
    end: usize,
    top: usize,
    bottom: usize,
    into: &Slots,
) -> bool
    requires channels { length levels.now.narrow.coarse.now ≡ D }
    requires some { 1 ≤ D }
    requires windows { length into.now.items ≡ levels.now.narrow.windows }
{
    let rows = bottom.saturating_sub(top) / TRIED;
    let diagonals = end.saturating_sub(first) / 8;
    let mut staying = 0;
    for n in 0..TRIED {
        let row = top.wrapping_add(rows.wrapping_mul(n));
        let behind = first.wrapping_add(diagonals.wrapping_mul(n % 8));
        staying += count_staying::<D>(&levels.narrow, row, row.wrapping_add(behind), into);
    }
    staying <= STAYING
}
