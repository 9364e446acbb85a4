//! Whether coarse sums tell of most diagonals of a tile's blocks that they are far apart.

ghost use Rattle.std.specs.Prelude.{◌+◌, ◌*◌, ◌≤◌, ◌<◌, length};
ghost use Rattle.mp_scans.specs.Offering.{in_block};
ghost use Rattle.mp_scans.specs.Windows.{row_windows, column_windows, FitIn, AreScannedIn};

use crate::needs::{column_need, is_marked, rows_need};
use crate::scans::{count_columns, scan_apart};
use crate::sums::Coarse;
use mp_scans::{Offers, scan};
use std::simd::prelude::*;

/// How many blocks of a tile are tried, of one with few rows every second, fourth or eighth of them.
const TRIED: usize = 128;

/// How many rows a tile has of which all are.
const MANY_ROWS: usize = 16_384;

/// How many diagonals of so many blocks may stay. One that stays takes as long as some dozen that are scanned with all
/// others.
const STAYING: usize = 80;

/// The need of all columns that the blocks of a group reach, to which rows from `first` on are offered.
fn group_need<O: Offers>(coarse: &Coarse, into: &O::Into, group: usize, first: usize) -> u64
    requires { group < 2_147_483_648 }
{
    let mut need = 0;
    for k in 0..8 + 8 * coarse.rows.units.eights {
        let column = 8 * group + k;
        let free = is_marked(coarse.columns.free, column);
        need = column_need::<O>(coarse, into, column, free, first).max(need);
    }
    need
}

/// How many of the diagonals of a block are not told to be far apart.
fn count_near(coarse: &Coarse, row: usize, group: usize, need: u64) -> usize
    requires row { row + coarse.now.plan.grid.m ≤ length coarse.now.plan.grid.rows.now }
    requires group { 8 * group + coarse.now.plan.grid.m ≤ length coarse.now.plan.grid.columns.now }
    ensures { result ≤ 8 }
{
    if coarse.is_quiet(row, group, need) {
        return 0;
    }
    let mut sums = u64x8::splat(0);
    coarse.diagonal_sums(row, 8 * group, &mut sums);
    let mut near = 0;
    for l in 0..8 {
        if sums.as_array()[l] < need {
            near += 1;
        }
    }
    near
}

/// How many diagonals stay of the block of a row and of the columns around the one that starts so far behind it.
fn count_staying<O: Offers>(
    coarse: &Coarse,
    row: usize,
    behind: usize,
    bottom: usize,
    into: &O::Into,
) -> usize
    requires bottom { bottom ≤ row_windows coarse.now.plan.grid }
    requires column { row + behind < column_windows coarse.now.plan.grid }
    ensures { result ≤ 8 }
{
    let height = 8 * coarse.rows.units.eights;
    if row + height > bottom {
        return 0;
    }
    let group = (row + behind) / 8;
    let rows = rows_need::<O>(coarse, into, row, height, row + behind);
    let columns = group_need::<O>(coarse, into, group, row);
    count_near(coarse, row, group, rows.max(columns))
}

/// Whether few diagonals stay of some blocks that are spread over a tile. All diagonals before `stop` have a column for
/// the first row.
fn are_mostly_apart<O: Offers>(
    coarse: &Coarse,
    first: usize,
    stop: usize,
    top: usize,
    bottom: usize,
    into: &O::Into,
) -> bool
    requires top { top ≤ bottom }
    requires bottom { bottom ≤ row_windows coarse.now.plan.grid }
    requires diagonals { first < stop }
    requires columns { top + stop ≤ column_windows coarse.now.plan.grid }
{
    let columns = count_columns(coarse);
    let every = (MANY_ROWS / (bottom - top).max(1)).clamp(1, 8);
    let mut staying = 0;
    for n in 0..TRIED {
        let row = top + (bottom - top) / TRIED * n;
        let behind = first + (stop - first) / 8 * (n / every % 8);
        if n % every == 0 && row + behind < columns {
            staying += count_staying::<O>(coarse, row, behind, bottom, into);
        }
    }
    staying * every <= STAYING
}

/// Offers the pairs of the rows from `top` on and before `bottom` and the columns that start from `first` on and before
/// `end` behind them. Where coarse sums tell of most of some blocks that they are far apart, it passes over all such
/// blocks.
pub fn scan_by_sums<O: Offers>(
    coarse: &Coarse,
    first: usize,
    end: usize,
    top: usize,
    bottom: usize,
    into: &mut O::Into,
)
    requires apart { O.least ≤ first }
    requires top { top ≤ bottom }
    requires bottom { bottom ≤ row_windows coarse.now.plan.grid }
    requires fits { FitIn O.fits coarse.now.plan.grid into.old }
    ensures scanned { AreScannedIn O.is_scanned coarse.now.plan.grid (in_block first end top bottom) into.old into.new }
{
    let stop = end.min(count_columns(coarse).saturating_sub(top));
    if first < stop && are_mostly_apart::<O>(coarse, first, stop, top, bottom, into) {
        scan_apart::<O>(coarse, first, end, top, bottom, into);
    } else {
        scan::<O>(&coarse.plan, first, end, top, bottom, into);
    }
}
