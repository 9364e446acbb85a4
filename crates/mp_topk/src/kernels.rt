//! The tiles of a series as the pieces of a kernel that keeps ranks.

ghost use Rattle.std.specs.Prelude.{◌≡◌, ◌≤◌, length, map};
ghost use Rattle.mp_series.specs.declared.limits.TheConstants.{MAX_SAMPLES, MAX_WINDOW, MIN_WINDOW};
ghost use Rattle.mp_defs.specs.Series.{series_of};
ghost use Rattle.mp_results.specs.Ranks.{ranks_of};
ghost use Rattle.mp_topk.specs.Ranking.{slots_of};

use crate::compact_ranks::CompactRanks;
use crate::near::NearRanks;
use crate::scans::take_tile;
use mp_cuts::{Cut, MAX_TILE, MAX_TILES, cut_own};
use mp_nums::Sample;
use mp_partial::Kernel;
use mp_scans::Plan;
use mp_series::{MAX_SAMPLES, MAX_WINDOW, MIN_WINDOW, excl, windows};
use mp_sums::Grid;
use mp_tiles::Bands;
use std::marker::Model;

/// The tiles of a series as the pieces of a kernel. The values of all tiles together are the first `K` ranks of its
/// windows.
#[derive(Drop)]
pub(crate) struct RankTiles<'a, const K: usize> {
    /// The windows, each a row and a column.
    pub(crate) plan: Plan<'a>,
    pub(crate) cut: Cut,
}

impl<'a, const K: usize> Model for RankTiles<'a, K> {
    ghost use Rattle.mp_tiles.specs.Pieces.{OwnTiling, IsOwnTiling};

    ghost Value = { OwnTiling };

    ghost view = { λ own. record { samples = own.plan.grid.rows.now; m = own.plan.grid.m; tiles = own.cut } };

    ghost invariant = { λ own. IsOwnTiling own.plan own.cut };
}

impl<'a, const K: usize> RankTiles<'a, K> {
    ghost use Rattle.mp_topk.specs.Tiling.{ranks_together};

    /// The tiles of at most `tile` diagonals of the samples' windows of length `m`. It takes no memory.
    pub(crate) fn new(samples: &'a [Sample], m: u32, tile: u32) -> RankTiles<'a, K>
        requires shortest { MIN_WINDOW ≤ m }
        requires longest { m ≤ MAX_WINDOW }
        requires samples { length samples.now ≤ MAX_SAMPLES }
        requires least { 1 ≤ tile }
        requires greatest { tile ≤ MAX_TILE }
        ensures samples { result.samples ≡ samples.now }
        ensures m { result.m ≡ m }
        ensures few { length result.tiles ≤ MAX_TILES }
        ensures together { ranks_together K result ≡ map slots_of (ranks_of K m (series_of samples.now)) }
    {
        let count = windows(samples.len() as u64, m);
        let plan = Plan::of(Grid {
            rows: samples,
            columns: samples,
            m: m as usize,
        });
        RankTiles {
            plan,
            cut: cut_own(count, excl(m), tile),
        }
    }

    /// The samples of the series.
    pub(crate) fn samples(&self) -> &'a [Sample]
        ensures is { result.now ≡ self.now.samples }
        ensures few { length result.now ≤ MAX_SAMPLES }
    {
        self.plan.grid.rows
    }

    /// The length of a window.
    pub(crate) fn window(&self) -> u32
        ensures is { result ≡ self.now.m }
        ensures least { 1 ≤ result }
    {
        self.plan.rounding.m
    }

    /// The tiles of the windows that start close together, outside the exclusion zone, in so many bands of rows. It
    /// takes no memory.
    pub(crate) fn near(&self, bands: u32) -> NearRanks<'a, K>
        requires some { 1 ≤ bands }
        ensures samples { result.samples ≡ self.now.samples }
        ensures m { result.m ≡ self.now.m }
        ensures few { length result.tiles ≤ MAX_TILES }
    {
        let windows = self.size();
        NearRanks {
            plan: self.plan,
            bands: Bands::of(windows, excl(self.plan.rounding.m), bands),
        }
    }
}

impl<'a, const K: usize> Kernel for RankTiles<'a, K> {
    ghost use Rattle.std.specs.Prelude.{length, slice_index_or};
    ghost use Rattle.mp_cuts.specs.Pairs.{has_pair, no_tile};
    ghost use Rattle.mp_tiles.specs.Among.{either_way};
    ghost use Rattle.mp_tiles.specs.Pieces.{own_size};
    ghost use Rattle.mp_topk.specs.Tiling.{rank_value};
    ghost use Rattle.mp_topk.specs.TileLaws.{value_has_ranks};

    type Out = CompactRanks<K>;

    ghost size_of = { own_size };

    ghost pieces_of = { λ own. length own.tiles };

    ghost value_of = { rank_value K };

    ghost has_values = { λ own piece _.
        value_has_ranks K (either_way (has_pair 0 (slice_index_or own.tiles piece no_tile))) own.m own.samples };

    fn size(&self) -> u64 {
        windows(self.plan.grid.rows.len() as u64, self.plan.rounding.m)
    }

    fn pieces(&self) -> u64 {
        self.cut.count()
    }

    fn run(&self, piece: u64, into: &mut CompactRanks<K>) {
        take_tile(&self.plan, &self.cut.tile(piece), into);
    }
}
