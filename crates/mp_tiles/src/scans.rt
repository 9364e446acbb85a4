//! The scan of a tile.

ghost use Rattle.std.specs.Prelude.{◌≡◌, ◌+◌, ◌-◌, ◌*◌, ◌<◌, ◌≤◌, [], ◌∷◌, length};
ghost use Rattle.mp_defs.specs.Series.{series_of};
ghost use Rattle.mp_defs.specs.Window.{windows, excl};
ghost use Rattle.mp_defs.specs.Profile.{nearest_column};
ghost use Rattle.mp_partial.specs.Values.{HasColumns, merged_column};
ghost use Rattle.mp_partial.specs.Patching.{slots_from};
ghost use Rattle.mp_cuts.specs.Pairs.{on_its_diagonals, has_pair, IsTileBetween};
ghost use Rattle.mp_cuts.specs.Cutting.{diagonals_between};
ghost use Rattle.mp_scans.specs.Offering.{in_block};
ghost use Rattle.mp_scans.specs.Windows.{row_windows, column_windows, FitIn, AreScannedIn};
ghost use Rattle.mp_tiles.specs.Among.{profile_among};
ghost use Rattle.mp_tiles.specs.TakenLaws.{HasTakenIn};
ghost use Rattle.mp_tiles.specs.OfferingLaws.{turned};

use crate::offers::{ColumnToRow, EachInPatch, EachToOther, RowToColumn};
use crate::plans::{rows_between, transposed};
use mp_cuts::Tile;
use mp_nums::{Sample, Slot, Slots};
use mp_partial::{Patch, Profile};
use mp_scans::{Offers, Plan, scan};
use mp_series::{MAX_SAMPLES, MAX_WINDOW, MIN_WINDOW};
use mp_sums::Grid;

/// Offers the pairs of a tile of a series.
pub(crate) fn scan_tile<O: Offers>(plan: &Plan, tile: &Tile, into: &mut O::Into)
    requires apart { O.least ≤ tile.now.first }
    requires tile { IsTileBetween 1 (row_windows plan.now.grid) (row_windows plan.now.grid) tile.now }
    requires fits { FitIn O.fits plan.now.grid into.old }
    ensures scanned { AreScannedIn O.is_scanned plan.now.grid (has_pair 0 tile.now) into.old into.new }
{
    scan::<O>(
        plan,
        tile.first as usize,
        tile.last as usize + 1,
        tile.first_row as usize,
        tile.last_row as usize + 1,
        into,
    );
}

/// Merges the profile of the tile's pairs into this one: each two windows of a pair, where no sample is missing, are
/// offered to each other.
pub fn scan_own(samples: &[Sample], m: u32, tile: &Tile, into: &mut Profile)
    requires shortest { MIN_WINDOW ≤ m }
    requires longest { m ≤ MAX_WINDOW }
    requires samples { length samples.now ≤ MAX_SAMPLES }
    requires tile { IsTileBetween (excl m + 1) (windows (length samples.now) m) (windows (length samples.now) m)
        tile.now }
    requires places { length into.old.all ≡ windows (length samples.now) m }
    ensures all { into.new.all
        ≡ merged_column into.old.all (profile_among (has_pair 0 tile.now) m (series_of samples.now)).all }
    ensures left { into.new.left
        ≡ merged_column into.old.left (profile_among (has_pair 0 tile.now) m (series_of samples.now)).left }
    ensures right { into.new.right
        ≡ merged_column into.old.right (profile_among (has_pair 0 tile.now) m (series_of samples.now)).right }
    ensures places { length into.new.all ≡ length into.old.all }
    ensures is_value { HasColumns 3 (length into.new.all) (into.new.all ∷ into.new.left ∷ into.new.right ∷ []) }
    ensures room { (into.new.spare ≡ into.old.spare) × (into.new.room ≡ into.old.room) }
{
    let _windows = into.len();
    let plan = Plan::of(Grid {
        rows: samples,
        columns: samples,
        m: m as usize,
    });
    scan_tile::<EachToOther>(&plan, tile, into);
}

/// Merges what the tile's pairs give into the slots of the patch: each two windows of a pair, where no sample is
/// missing, are offered to each other, as far as the patch has them.
pub fn scan_patch(samples: &[Sample], m: u32, tile: &Tile, into: &mut Patch)
    requires shortest { MIN_WINDOW ≤ m }
    requires longest { m ≤ MAX_WINDOW }
    requires samples { length samples.now ≤ MAX_SAMPLES }
    requires tile { IsTileBetween (excl m + 1) (windows (length samples.now) m) (windows (length samples.now) m)
        tile.now }
    ensures first_row { into.new.first_row ≡ into.old.first_row }
    ensures rows { into.new.rows ≡ merged_column into.old.rows
        (slots_from (profile_among (has_pair 0 tile.now) m (series_of samples.now)).right into.old.first_row
        (length into.old.rows)) }
    ensures first_column { into.new.first_column ≡ into.old.first_column }
    ensures columns { into.new.columns ≡ merged_column into.old.columns
        (slots_from (profile_among (has_pair 0 tile.now) m (series_of samples.now)).left into.old.first_column
        (length into.old.columns)) }
{
    let plan = Plan::of(Grid {
        rows: samples,
        columns: samples,
        m: m as usize,
    });
    scan_tile::<EachInPatch>(&plan, tile, into);
}

/// Offers to rows the columns that start from `first` on and before `end` behind them.
fn scan_later(plan: &Plan, first: usize, end: usize, slots: &mut [Slot])
    requires places { length slots.old ≡ row_windows plan.now.grid }
    ensures taken { HasTakenIn (in_block first end 0 (length slots.old)) plan.now.grid slots.old slots.new }
{
    let rows = slots.len();
    let mut into = ColumnToRow { slots };
    scan::<ColumnToRow>(plan, first, end, 0, rows, &mut into);
}

/// Offers to rows the columns that start from `first` on and before `end` before them.
fn scan_earlier(plan: &Plan, first: usize, end: usize, slots: &mut [Slot])
    requires places { length slots.old ≡ row_windows plan.now.grid }
    ensures taken { HasTakenIn (turned (in_block first end 0 (column_windows plan.now.grid))) plan.now.grid slots.old
        slots.new }
{
    let columns = (plan.grid.columns.len() + 1).saturating_sub(plan.grid.m);
    let mut into = RowToColumn { slots };
    scan::<RowToColumn>(&transposed(plan), first, end, 0, columns, &mut into);
}

/// Offers to rows the columns of the tile's diagonals. The first row and the first column lie on the diagonal `origin`.
fn scan_diagonals(plan: &Plan, origin: usize, tile: &Tile, slots: &mut [Slot])
    requires origin { origin < MAX_SAMPLES }
    requires ordered { tile.now.first ≤ tile.now.last }
    requires last { tile.now.last < 2 * MAX_SAMPLES }
    requires places { length slots.old ≡ row_windows plan.now.grid }
    ensures taken { HasTakenIn (on_its_diagonals origin tile.now) plan.now.grid slots.old slots.new }
    ensures places { length slots.new ≡ length slots.old }
{
    let (first, end) = (tile.first as usize, tile.last as usize + 1);
    // on the diagonals before the origin columns start earlier than their rows
    let (near, far) = (origin + 1 - end.min(origin), origin + 1 - first.min(origin));
    scan_earlier(plan, near, far, slots);
    let (near, far) = (first.saturating_sub(origin), end.saturating_sub(origin));
    scan_later(plan, near, far, slots);
}

/// Offers to the tile's rows its columns. These rows are compared as the windows of a series that has no others, since
/// each diagonal then begins with its first row or with the first column.
pub(crate) fn scan_rows(plan: &Plan, tile: &Tile, slots: &mut [Slot])
    requires tile { IsTileBetween 0 (diagonals_between (row_windows plan.now.grid) (column_windows plan.now.grid))
        (row_windows plan.now.grid) tile.now }
    requires places { length slots.old ≡ row_windows plan.now.grid }
    ensures taken { HasTakenIn (has_pair (length slots.old - 1) tile.now) plan.now.grid slots.old slots.new }
{
    let (top, bottom) = (tile.first_row as usize, tile.last_row as usize + 1);
    let origin = slots.len() - 1 - top;
    let rows = rows_between(plan, top, bottom);
    scan_diagonals(&rows, origin, tile, &mut slots[top..bottom]);
}

/// Offers to the tile's rows its columns.
pub(crate) fn scan_join(plan: &Plan, tile: &Tile, into: &mut Slots)
    requires tile { IsTileBetween 0 (diagonals_between (row_windows plan.now.grid) (column_windows plan.now.grid))
        (row_windows plan.now.grid) tile.now }
    requires places { length into.old.items ≡ row_windows plan.now.grid }
    ensures taken { HasTakenIn (has_pair (length into.old.items - 1) tile.now) plan.now.grid into.old.items
        into.new.items }
    ensures places { length into.new.items ≡ length into.old.items }
    ensures spare { into.new.spare ≡ into.old.spare }
{
    scan_rows(plan, tile, into.as_mut_slice());
}

/// Merges what the tile's pairs give into the slots of the windows of `a`: of each pair, where no sample is missing,
/// the window of `b` is offered to that of `a`.
pub fn scan_both(a: &[Sample], b: &[Sample], m: u32, tile: &Tile, into: &mut Slots)
    requires shortest { MIN_WINDOW ≤ m }
    requires longest { m ≤ MAX_WINDOW }
    requires first { length a.now ≤ MAX_SAMPLES }
    requires second { length b.now ≤ MAX_SAMPLES }
    requires tile { IsTileBetween 0 (diagonals_between (windows (length a.now) m) (windows (length b.now) m))
        (windows (length a.now) m) tile.now }
    requires places { length into.old.items ≡ windows (length a.now) m }
    ensures items { into.new.items ≡ merged_column into.old.items
        (nearest_column (has_pair (windows (length a.now) m - 1) tile.now) m (series_of a.now) (series_of b.now)) }
    ensures places { length into.new.items ≡ length into.old.items }
    ensures spare { into.new.spare ≡ into.old.spare }
{
    let plan = Plan::between(Grid {
        rows: a,
        columns: b,
        m: m as usize,
    });
    scan_join(&plan, tile, into);
}
