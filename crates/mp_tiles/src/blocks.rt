//! The scan of a tile that passes over blocks of pairs.

ghost use Rattle.std.specs.Prelude.{◌≡◌, ◌*◌, ◌≤◌, drop};
ghost use Rattle.mp_series.specs.declared.limits.TheConstants.{MAX_SAMPLES};
ghost use Rattle.mp_cuts.specs.Pairs.{has_pair, IsTileBetween};
ghost use Rattle.mp_scans.specs.Windows.{row_windows, FitIn, AreScannedIn};

use mp_cuts::Tile;
use mp_scans::Offers;
use mp_skips::{Coarse, RowsFrom, scan_apart, scan_apart_from, scan_by_sums, scan_by_sums_from};

/// Offers the pairs of a tile of a series in coarse sums, which tell of blocks of pairs that they are far apart. Some
/// blocks may be tried first, so that it takes little longer where few are.
pub(crate) fn scan_blocks<O: Offers>(
    coarse: &Coarse,
    tile: &Tile,
    is_tried: bool,
    into: &mut O::Into,
)
    requires apart { O.least ≤ tile.now.first }
    requires tile { IsTileBetween 1 (row_windows coarse.now.plan.grid) (row_windows coarse.now.plan.grid) tile.now }
    requires fits { FitIn O.fits coarse.now.plan.grid into.old }
    ensures scanned { AreScannedIn O.is_scanned coarse.now.plan.grid (has_pair 0 tile.now) into.old into.new }
{
    let (first, end) = (tile.first as usize, tile.last as usize + 1);
    let (top, bottom) = (tile.first_row as usize, tile.last_row as usize + 1);
    if is_tried {
        scan_by_sums::<O>(coarse, first, end, top, bottom, into);
    } else {
        scan_apart::<O>(coarse, first, end, top, bottom, into);
    }
}

/// The same of a tile of the rows from a group on, which it counts from there.
pub(crate) fn scan_blocks_from<O: Offers>(
    coarse: &Coarse,
    from: &RowsFrom,
    tile: &Tile,
    is_tried: bool,
    into: &mut O::Into,
)
    requires some { 8 * from.now.group ≤ row_windows coarse.now.plan.grid }
    requires m { from.now.plan.grid.m ≡ coarse.now.plan.grid.m }
    requires rows { from.now.plan.grid.rows.now ≡ drop (8 * from.now.group) coarse.now.plan.grid.rows.now }
    requires columns { from.now.plan.grid.columns.now ≡ coarse.now.plan.grid.columns.now }
    requires apart { O.least ≤ tile.now.first }
    requires tile { IsTileBetween 0 (2 * MAX_SAMPLES) (row_windows from.now.plan.grid) tile.now }
    requires top { tile.now.first_row ≡ 0 }
    requires fits { FitIn O.fits from.now.plan.grid into.old }
    ensures scanned { AreScannedIn O.is_scanned from.now.plan.grid (has_pair 0 tile.now) into.old into.new }
{
    let (first, end) = (tile.first as usize, tile.last as usize + 1);
    let bottom = tile.last_row as usize + 1;
    if is_tried {
        scan_by_sums_from::<O>(coarse, from, first, end, bottom, into);
    } else {
        scan_apart_from::<O>(coarse, from, first, end, bottom, into);
    }
}
