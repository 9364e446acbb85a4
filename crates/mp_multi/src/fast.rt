//! The scan of a tile of several channels by residues.

ghost use Rattle.std.specs.Prelude.{◌≡◌, ◌+◌, ◌<◌, ◌≤◌, length, map, slice_index_or, []};
ghost use Rattle.mp_defs.specs.Series.{series_of};
ghost use Rattle.mp_defs.specs.Window.{windows, excl};
ghost use Rattle.mp_partial.specs.Values.{merged_column};
ghost use Rattle.mp_cuts.specs.Pairs.{has_pair, IsTileBetween};
ghost use Rattle.mp_scans.specs.Offering.{in_block};
ghost use Rattle.mp_multi.specs.Among.{multi_among};
ghost use Rattle.mp_multi.specs.Blocks.{AreScannedBy};
ghost use Rattle.mp_multi.specs.Conditions.{AreChannels};
ghost use Rattle.mp_multi.specs.Tiling.{window_count};

use crate::channels::Channels;
use crate::groups::{Group, scan_group};
use crate::plans::MultiPlan;
use crate::shifts::shift_for;
use crate::sizes::WIDTH;
use mp_cuts::Tile;
use mp_nums::Slots;
use mp_series::Bundle;

/// How many diagonals are scanned together first. On these most pairs are offered where channels are smooth.
const NEAREST: usize = 8;

/// Takes the pairs of the rows from `top` on and before `bottom` on the diagonals from `first` on and before `end`. As
/// many are scanned together as lie before them.
fn scan_diagonals<const D: usize>(
    plan: &MultiPlan,
    first: usize,
    end: usize,
    top: usize,
    bottom: usize,
    into: &mut Slots,
)
    requires channels { length plan.now.channels.list.now ≡ D }
    requires windows { length into.old.items ≡ window_count plan.now.channels.m plan.now.channels.list.now }
    ensures scanned { AreScannedBy plan.now (in_block first end top bottom) into.old into.new }
    ensures windows { length into.new.items ≡ window_count plan.now.channels.m plan.now.channels.list.now }
{
    let windows = into.as_slice().len();
    // on the diagonals behind these every row from `top` on is past the last column
    let stop = end.min(windows.saturating_sub(top));
    let mut start = first;
    while start < stop {
        let width = (stop - start).min(start.max(NEAREST).min(WIDTH));
        let group = Group {
            plan: *plan,
            windows,
            first: start,
            width,
        };
        scan_group::<D>(&group, top, bottom, into);
        start += width;
    }
}

/// Offers each two windows of a pair of the tile to each other, as `scan_multi`, by residues: exact values are made
/// only of pairs that these let pass. It takes no memory.
pub(crate) fn scan_fast<const D: usize>(
    channels: &Bundle,
    m: u32,
    k: u64,
    tile: &Tile,
    into: &mut Slots,
)
    requires channels { AreChannels channels.now m k }
    requires count { length channels.now ≡ D }
    requires tile { IsTileBetween (excl m + 1) (windows (length (slice_index_or channels.now 0 [])) m)
        (windows (length (slice_index_or channels.now 0 [])) m) tile.now }
    requires places { length into.old.items ≡ windows (length (slice_index_or channels.now 0 [])) m }
    ensures items { into.new.items
        ≡ merged_column into.old.items (multi_among (has_pair 0 tile.now) m k (map series_of channels.now)) }
    ensures places { length into.new.items ≡ length into.old.items }
    ensures spare { into.new.spare ≡ into.old.spare }
{
    let count = into.as_slice().len() as u64;
    let channels = Channels {
        list: channels,
        m,
        k,
    };
    let plan = MultiPlan {
        channels,
        shift: shift_for::<D>(&channels, count),
    };
    scan_diagonals::<D>(
        &plan,
        tile.first as usize,
        tile.last as usize + 1,
        tile.first_row as usize,
        tile.last_row as usize + 1,
        into,
    );
}
