//! The scan of a tile.

ghost use Rattle.std.specs.Prelude.{◌≡◌, ◌+◌, ◌<◌, length, map};
ghost use Rattle.mp_defs.specs.Series.{series_of};
ghost use Rattle.mp_defs.specs.Window.{windows, excl as zone};
ghost use Rattle.mp_cuts.specs.Pairs.{has_pair, IsTileBetween};
ghost use Rattle.mp_tiles.specs.Among.{either_way};
ghost use Rattle.mp_results.specs.Ranks.{ranks_of};
ghost use Rattle.mp_topk.specs.Ranking.{HasRanks, merged_ranks, slots_of};
ghost use Rattle.mp_topk.specs.Tiling.{among_value};

use crate::compact_ranks::CompactRanks;
use crate::offers::EachToOther;
use mp_cuts::Tile;
use mp_partial::Part;
use mp_scans::{Plan, scan};
use mp_series::excl as excl;
use mp_skips::{Coarse, Seeds, scan_by_sums, scan_seeds};

/// Merges the ranks by the tile's pairs into these: each two windows of a pair, where no sample is missing, are offered
/// to each other.
pub(crate) fn take_tile<const K: usize>(plan: &Plan, tile: &Tile, into: &mut CompactRanks<K>)
    requires same { plan.now.grid.columns.now ≡ plan.now.grid.rows.now }
    requires tile { IsTileBetween (zone plan.now.grid.m + 1)
        (windows (length plan.now.grid.rows.now) plan.now.grid.m)
        (windows (length plan.now.grid.rows.now) plan.now.grid.m) tile.now }
    requires places { length into.old.lists ≡ windows (length plan.now.grid.rows.now) plan.now.grid.m }
    ensures value { map slots_of into.new.lists ≡ merged_ranks K (map slots_of into.old.lists)
        (among_value K (either_way (has_pair 0 tile.now)) plan.now.grid.m (series_of plan.now.grid.rows.now)) }
    ensures size { length into.new.lists ≡ length into.old.lists }
    ensures is_value { HasRanks K (length into.new.lists) (map slots_of into.new.lists) }
    ensures room { into.new.spare ≡ into.old.spare }
{
    let _windows = into.size();
    scan::<EachToOther<K>>(
        plan,
        tile.first as usize,
        tile.last as usize + 1,
        tile.first_row as usize,
        tile.last_row as usize + 1,
        into,
    );
    let _same_windows = into.size();
}

/// The same in coarse sums.
pub(crate) fn take_by_sums<const K: usize>(coarse: &Coarse, tile: &Tile, into: &mut CompactRanks<K>)
    requires same { coarse.now.plan.grid.columns.now ≡ coarse.now.plan.grid.rows.now }
    requires tile { IsTileBetween (zone coarse.now.plan.grid.m + 1)
        (windows (length coarse.now.plan.grid.rows.now) coarse.now.plan.grid.m)
        (windows (length coarse.now.plan.grid.rows.now) coarse.now.plan.grid.m) tile.now }
    requires places { length into.old.lists ≡ windows (length coarse.now.plan.grid.rows.now) coarse.now.plan.grid.m }
    ensures value { map slots_of into.new.lists ≡ merged_ranks K (map slots_of into.old.lists)
        (among_value K (either_way (has_pair 0 tile.now)) coarse.now.plan.grid.m
        (series_of coarse.now.plan.grid.rows.now)) }
    ensures size { length into.new.lists ≡ length into.old.lists }
    ensures is_value { HasRanks K (length into.new.lists) (map slots_of into.new.lists) }
    ensures room { into.new.spare ≡ into.old.spare }
{
    let _windows = into.size();
    scan_by_sums::<EachToOther<K>>(
        coarse,
        tile.first as usize,
        tile.last as usize + 1,
        tile.first_row as usize,
        tile.last_row as usize + 1,
        into,
    );
    let _same_windows = into.size();
}

/// Offers a share of the pairs that are likely near to each other, of so many shares. What the ranks make with those of
/// all windows of the series is the same afterwards.
pub(crate) fn take_seeds<const K: usize>(
    coarse: &Coarse,
    seeds: &Seeds,
    share: u32,
    shares: u32,
    into: &mut CompactRanks<K>,
)
    requires share { share < shares }
    requires same { coarse.now.plan.grid.columns.now ≡ coarse.now.plan.grid.rows.now }
    requires places { length into.old.lists ≡ windows (length coarse.now.plan.grid.rows.now) coarse.now.plan.grid.m }
    ensures value { merged_ranks K (map slots_of into.new.lists)
        (map slots_of (ranks_of K coarse.now.plan.grid.m (series_of coarse.now.plan.grid.rows.now)))
        ≡ merged_ranks K (map slots_of into.old.lists)
        (map slots_of (ranks_of K coarse.now.plan.grid.m (series_of coarse.now.plan.grid.rows.now))) }
    ensures size { length into.new.lists ≡ length into.old.lists }
    ensures is_value { HasRanks K (length into.new.lists) (map slots_of into.new.lists) }
    ensures room { into.new.spare ≡ into.old.spare }
{
    let _windows = into.size();
    let first = excl(coarse.plan.rounding.m) as usize + 1;
    scan_seeds::<EachToOther<K>>(coarse, seeds, share, shares, first, into);
    let _same_windows = into.size();
}
