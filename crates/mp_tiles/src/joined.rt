//! The scan of a tile of two series that passes over blocks of pairs.

ghost use Rattle.std.specs.Prelude.{◌≡◌, ◌+◌, ◌-◌, ◌*◌, ◌^◌, ◌<◌, ◌≤◌, drop, length};
ghost use Rattle.mp_series.specs.declared.limits.TheConstants.{MAX_SAMPLES};
ghost use Rattle.mp_defs.specs.Series.{series_of};
ghost use Rattle.mp_defs.specs.Profile.{ab_join};
ghost use Rattle.mp_partial.specs.Values.{merged_column};
ghost use Rattle.mp_cuts.specs.Pairs.{has_pair, IsTileBetween};
ghost use Rattle.mp_cuts.specs.Cutting.{diagonals_between};
ghost use Rattle.mp_scans.specs.Windows.{row_windows, column_windows};
ghost use Rattle.mp_tiles.specs.Parts.{has_before, has_from};
ghost use Rattle.mp_tiles.specs.Ahead.{AreAhead};
ghost use Rattle.mp_tiles.specs.Plans.{IsTurned};
ghost use Rattle.mp_tiles.specs.TakenLaws.{HasTakenIn};

use crate::blocks::scan_blocks_from;
use crate::offers::{ColumnToRow, RowToColumn};
use crate::plans::rows_between;
use crate::scans::scan_rows;
use mp_cuts::Tile;
use mp_nums::{Memory, Slot, Slots};
use mp_scans::Plan;
use mp_series::MAX_SAMPLES;
use mp_skips::{Coarse, RowsFrom, Seeds, Seeking, scan_seeds};
use std::alloc::Global;

/// Offers to the rows from a group on the columns of a tile, which counts rows from there.
fn scan_later(coarse: &Coarse, from: &RowsFrom, tile: &Tile, is_tried: bool, slots: &mut [Slot])
    requires some { 8 * from.now.group ≤ row_windows coarse.now.plan.grid }
    requires m { from.now.plan.grid.m ≡ coarse.now.plan.grid.m }
    requires rows { from.now.plan.grid.rows.now ≡ drop (8 * from.now.group) coarse.now.plan.grid.rows.now }
    requires columns { from.now.plan.grid.columns.now ≡ coarse.now.plan.grid.columns.now }
    requires tile { IsTileBetween 0 (2 * MAX_SAMPLES) (row_windows from.now.plan.grid) tile.now }
    requires top { tile.now.first_row ≡ 0 }
    requires places { length slots.old ≡ row_windows from.now.plan.grid }
    ensures taken { HasTakenIn (has_pair 0 tile.now) from.now.plan.grid slots.old slots.new }
    ensures places { length slots.new ≡ length slots.old }
{
    let mut into = ColumnToRow { slots };
    scan_blocks_from::<ColumnToRow>(coarse, from, tile, is_tried, &mut into);
}

/// The tile's rows and diagonals, counted from its first row on as the windows of a series that has none before it.
fn tile_below(tile: &Tile, windows: u64) -> Tile
    requires some { tile.now.first_row < windows }
    requires later { windows ≤ tile.now.first + tile.now.first_row + 1 }
    requires ordered { tile.now.first ≤ tile.now.last }
    requires rows { tile.now.first_row ≤ tile.now.last_row }
    ensures first { result.first + (windows - 1 - tile.now.first_row) ≡ tile.now.first }
    ensures last { result.last + (windows - 1 - tile.now.first_row) ≡ tile.now.last }
    ensures first_row { result.first_row ≡ 0 }
    ensures last_row { result.last_row + tile.now.first_row ≡ tile.now.last_row }
{
    let before = windows - 1 - tile.first_row;
    Tile {
        first: tile.first - before,
        last: tile.last - before,
        first_row: 0,
        last_row: tile.last_row - tile.first_row,
    }
}

/// Offers to the tile's rows its columns. The first of these rows is the first one of a group of eight. They are
/// compared as the windows of a series that has none before them, in which no column starts before its row.
fn scan_below(coarse: &Coarse, tile: &Tile, group: usize, is_tried: bool, slots: &mut [Slot])
    requires tile { IsTileBetween 0 (diagonals_between (row_windows coarse.now.plan.grid)
        (column_windows coarse.now.plan.grid)) (row_windows coarse.now.plan.grid) tile.now }
    requires group { tile.now.first_row ≡ 8 * group }
    requires later { length slots.old ≤ tile.now.first + tile.now.first_row + 1 }
    requires places { length slots.old ≡ row_windows coarse.now.plan.grid }
    ensures taken { HasTakenIn (has_pair (length slots.old - 1) tile.now) coarse.now.plan.grid slots.old slots.new }
    ensures places { length slots.new ≡ length slots.old }
{
    let (top, windows) = (tile.first_row as usize, slots.len());
    let plan = rows_between(&coarse.plan, top, windows);
    let below = tile_below(tile, windows as u64);
    let from = RowsFrom { plan, group };
    scan_later(coarse, &from, &below, is_tried, &mut slots[top..windows]);
}

/// The first group of eight rows of the tile, or behind it, from which on no column on the tile's diagonals would start
/// before the first one.
fn first_group(tile: &Tile, windows: usize) -> usize
    requires windows { windows ≤ MAX_SAMPLES }
    requires first { tile.now.first < 2 * MAX_SAMPLES }
    requires row { tile.now.first_row < MAX_SAMPLES }
    ensures rows { tile.now.first_row ≤ 8 * result }
    ensures later { windows ≤ tile.now.first + 8 * result + 1 }
    ensures few { result < 2 ^ 32 }
{
    let row = windows.saturating_sub(tile.first as usize + 1);
    row.max(tile.first_row as usize).div_ceil(8)
}

/// Offers to the tile's rows before a group its columns.
fn scan_before(plan: &Plan, tile: &Tile, group: usize, slots: &mut [Slot])
    requires tile { IsTileBetween 0 (diagonals_between (row_windows plan.now.grid) (column_windows plan.now.grid))
        (row_windows plan.now.grid) tile.now }
    requires few { group < 2 ^ 32 }
    requires places { length slots.old ≡ row_windows plan.now.grid }
    ensures taken { HasTakenIn (has_before (8 * group) (length slots.old - 1) tile.now) plan.now.grid slots.old
        slots.new }
    ensures places { length slots.new ≡ length slots.old }
{
    let row = 8 * group as u64;
    if tile.first_row < row {
        let rows = Tile {
            first: tile.first,
            last: tile.last,
            first_row: tile.first_row,
            last_row: tile.last_row.min(row - 1),
        };
        scan_rows(plan, &rows, slots);
    }
}

/// Offers to the tile's rows from a group on its columns, in coarse sums.
fn scan_from(coarse: &Coarse, tile: &Tile, group: usize, is_tried: bool, slots: &mut [Slot])
    requires tile { IsTileBetween 0 (diagonals_between (row_windows coarse.now.plan.grid)
        (column_windows coarse.now.plan.grid)) (row_windows coarse.now.plan.grid) tile.now }
    requires few { group < 2 ^ 32 }
    requires rows { tile.now.first_row ≤ 8 * group }
    requires later { length slots.old ≤ tile.now.first + 8 * group + 1 }
    requires places { length slots.old ≡ row_windows coarse.now.plan.grid }
    ensures taken { HasTakenIn (has_from (8 * group) (length slots.old - 1) tile.now) coarse.now.plan.grid slots.old
        slots.new }
    ensures places { length slots.new ≡ length slots.old }
{
    let row = 8 * group as u64;
    if row <= tile.last_row {
        let rows = Tile {
            first: tile.first,
            last: tile.last,
            first_row: row,
            last_row: tile.last_row,
        };
        scan_below(coarse, &rows, group, is_tried, slots);
    }
}

/// Offers to the tile's rows its columns, in coarse sums. The first rows of a tile whose columns start before them are
/// left to the scan: they have no column on some of its diagonals.
fn scan_by_groups(coarse: &Coarse, tile: &Tile, is_tried: bool, slots: &mut [Slot])
    requires tile { IsTileBetween 0 (diagonals_between (row_windows coarse.now.plan.grid)
        (column_windows coarse.now.plan.grid)) (row_windows coarse.now.plan.grid) tile.now }
    requires places { length slots.old ≡ row_windows coarse.now.plan.grid }
    ensures taken { HasTakenIn (has_pair (length slots.old - 1) tile.now) coarse.now.plan.grid slots.old slots.new }
    ensures places { length slots.new ≡ length slots.old }
{
    let group = first_group(tile, slots.len());
    scan_before(&coarse.plan, tile, group, slots);
    scan_from(coarse, tile, group, is_tried, slots);
}

/// The same of all slots of the rows.
pub(crate) fn scan_join_by_sums(coarse: &Coarse, tile: &Tile, is_tried: bool, into: &mut Slots)
    requires tile { IsTileBetween 0 (diagonals_between (row_windows coarse.now.plan.grid)
        (column_windows coarse.now.plan.grid)) (row_windows coarse.now.plan.grid) tile.now }
    requires places { length into.old.items ≡ row_windows coarse.now.plan.grid }
    ensures taken { HasTakenIn (has_pair (length into.old.items - 1) tile.now) coarse.now.plan.grid into.old.items
        into.new.items }
    ensures places { length into.new.items ≡ length into.old.items }
    ensures spare { into.new.spare ≡ into.old.spare }
{
    scan_by_groups(coarse, tile, is_tried, into.as_mut_slice());
}

/// Pairs of a window of one series and one of another that are likely near: for some windows of the one, one of the
/// other's that starts no earlier, and one that starts before it.
#[derive(Drop)]
pub struct JoinSeeds {
    pub(crate) later: Seeds,
    pub(crate) earlier: Seeds,
}

impl Seeking for JoinSeeds {
    fn again(&self, alloc: Global) -> Result<JoinSeeds, Memory> {
        Ok(JoinSeeds {
            later: self.later.again(alloc)?,
            earlier: self.earlier.again(alloc)?,
        })
    }

    fn pairs(&self) -> u64 {
        self.later.pairs().saturating_add(self.earlier.pairs())
    }

    fn find(&mut self, share: u32, shares: u32) {
        self.later.find(share, shares);
        self.earlier.find(share, shares);
    }

    fn merge(&mut self, other: &JoinSeeds) {
        self.later.merge(&other.later);
        self.earlier.merge(&other.earlier);
    }
}

/// Offers to rows a share of the columns behind them that are likely near, of so many shares.
fn offer_later(coarse: &Coarse, seeds: &Seeds, share: u32, shares: u32, into: &mut ColumnToRow)
    requires share { share < shares }
    requires places { length into.old.slots.now ≡ row_windows coarse.now.plan.grid }
    ensures ahead { AreAhead coarse.now.plan.grid.m (series_of coarse.now.plan.grid.rows.now)
        (series_of coarse.now.plan.grid.columns.now) into.old.slots into.new.slots }
{
    scan_seeds::<ColumnToRow>(coarse, seeds, share, shares, 0, into);
}

/// Offers to columns a share of the rows before them that are likely near.
fn offer_earlier(coarse: &Coarse, seeds: &Seeds, share: u32, shares: u32, into: &mut RowToColumn)
    requires share { share < shares }
    requires places { length into.old.slots.now ≡ column_windows coarse.now.plan.grid }
    ensures ahead { AreAhead coarse.now.plan.grid.m (series_of coarse.now.plan.grid.columns.now)
        (series_of coarse.now.plan.grid.rows.now) into.old.slots into.new.slots }
{
    scan_seeds::<RowToColumn>(coarse, seeds, share, shares, 1, into);
}

/// Offers to rows a share of the columns behind them that are likely near. What the slots have together with those of
/// the AB-join is the same afterwards.
fn take_later(coarse: &Coarse, seeds: &Seeds, share: u32, shares: u32, slots: &mut [Slot])
    requires share { share < shares }
    requires places { length slots.old ≡ row_windows coarse.now.plan.grid }
    ensures join { merged_column slots.new (ab_join coarse.now.plan.grid.m (series_of coarse.now.plan.grid.rows.now)
        (series_of coarse.now.plan.grid.columns.now)) ≡ merged_column slots.old (ab_join coarse.now.plan.grid.m
        (series_of coarse.now.plan.grid.rows.now) (series_of coarse.now.plan.grid.columns.now)) }
    ensures places { length slots.new ≡ length slots.old }
{
    let mut into = ColumnToRow { slots };
    offer_later(coarse, seeds, share, shares, &mut into);
}

/// Offers to columns a share of the rows before them that are likely near, in the same way.
fn take_earlier(coarse: &Coarse, seeds: &Seeds, share: u32, shares: u32, slots: &mut [Slot])
    requires share { share < shares }
    requires places { length slots.old ≡ column_windows coarse.now.plan.grid }
    ensures join { merged_column slots.new (ab_join coarse.now.plan.grid.m (series_of coarse.now.plan.grid.columns.now)
        (series_of coarse.now.plan.grid.rows.now)) ≡ merged_column slots.old (ab_join coarse.now.plan.grid.m
        (series_of coarse.now.plan.grid.columns.now) (series_of coarse.now.plan.grid.rows.now)) }
    ensures places { length slots.new ≡ length slots.old }
{
    let mut into = RowToColumn { slots };
    offer_earlier(coarse, seeds, share, shares, &mut into);
}

/// Offers to rows a share of the columns that are likely near, of those that start no earlier, and of those that start
/// before them. What the slots have together with those of the AB-join is the same afterwards.
fn take_both_seeds(
    coarse: &Coarse,
    turned: &Coarse,
    seeds: &JoinSeeds,
    share: u32,
    shares: u32,
    slots: &mut [Slot],
)
    requires share { share < shares }
    requires turned { IsTurned coarse.now.plan turned.now.plan }
    requires places { length slots.old ≡ row_windows coarse.now.plan.grid }
    ensures join { merged_column slots.new (ab_join coarse.now.plan.grid.m (series_of coarse.now.plan.grid.rows.now)
        (series_of coarse.now.plan.grid.columns.now)) ≡ merged_column slots.old (ab_join coarse.now.plan.grid.m
        (series_of coarse.now.plan.grid.rows.now) (series_of coarse.now.plan.grid.columns.now)) }
    ensures places { length slots.new ≡ length slots.old }
{
    take_later(coarse, &seeds.later, share, shares, slots);
    take_earlier(turned, &seeds.earlier, share, shares, slots);
}

/// The same of all slots of the rows.
pub(crate) fn take_join_seeds(
    coarse: &Coarse,
    turned: &Coarse,
    seeds: &JoinSeeds,
    share: u32,
    shares: u32,
    into: &mut Slots,
)
    requires share { share < shares }
    requires turned { IsTurned coarse.now.plan turned.now.plan }
    requires places { length into.old.items ≡ row_windows coarse.now.plan.grid }
    ensures join { merged_column into.new.items (ab_join coarse.now.plan.grid.m
        (series_of coarse.now.plan.grid.rows.now) (series_of coarse.now.plan.grid.columns.now))
        ≡ merged_column into.old.items (ab_join coarse.now.plan.grid.m (series_of coarse.now.plan.grid.rows.now)
        (series_of coarse.now.plan.grid.columns.now)) }
    ensures places { length into.new.items ≡ length into.old.items }
    ensures spare { into.new.spare ≡ into.old.spare }
{
    take_both_seeds(coarse, turned, seeds, share, shares, into.as_mut_slice());
}
