//! The scan of a tile.

ghost use Rattle.std.specs.Prelude.{◌≤◌};
ghost use Rattle.mp_scans.specs.Offering.{in_block};
ghost use Rattle.mp_scans.specs.Windows.{row_windows, FitIn, AreScannedIn};
ghost use Rattle.mp_scans.specs.declared.sizes.TheConstants.{GROUP};

use crate::groups::{Group, scan_group};
use crate::offers::Offers;
use crate::plans::{Plan, count_columns};
use crate::sizes::GROUP;

/// How many diagonals of a series with itself are scanned together first. On these most pairs are offered where it is
/// smooth, since each row is nearer to its column than those before it.
const NEAREST: usize = 8;

/// How many diagonals are scanned together from one on. Of a series with itself these are as many as lie before it.
/// Near ones often have the nearest windows, so they bring limits down first; and on the same diagonals only the first
/// tie is offered to a column. The one next to the exclusion zone, a quarter of a window, is scanned alone: of all
/// those behind it that come nearer step by step, few are then near enough to be offered.
#[inline]
fn next_width(plan: &Plan, start: usize) -> usize
    ensures some { 1 ≤ result }
    ensures few { result ≤ GROUP }
{
    if !plan.is_own {
        GROUP
    } else if start <= plan.grid.m / 4 + 2 {
        1
    } else {
        start.max(NEAREST).min(GROUP)
    }
}

/// Offers the pairs of the rows from `top` on and before `bottom` and the columns that start from `first` on and before
/// `end` behind them.
pub fn scan<O: Offers>(
    plan: &Plan,
    first: usize,
    end: usize,
    top: usize,
    bottom: usize,
    into: &mut O::Into,
)
    requires apart { O.least ≤ first }
    requires top { top ≤ bottom }
    requires bottom { bottom ≤ row_windows plan.now.grid }
    requires fits { FitIn O.fits plan.now.grid into.old }
    ensures scanned { AreScannedIn O.is_scanned plan.now.grid (in_block first end top bottom) into.old into.new }
{
    // on the diagonals behind these every row from `top` on is past the last column
    let columns = count_columns(&plan.grid).saturating_sub(top);
    let stop = end.min(columns);
    let mut start = first;
    while start < stop {
        let width = (stop - start).min(next_width(plan, start));
        let group = Group {
            plan: *plan,
            first: start,
            width,
        };
        scan_group::<O>(&group, top, bottom, into);
        start += width;
    }
}
