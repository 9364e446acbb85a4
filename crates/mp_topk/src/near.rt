//! The tiles of the windows that start close together, as the pieces of a kernel that keeps ranks.

ghost use Rattle.std.specs.Prelude.{◌≡◌, ◌≤◌, length, map};
ghost use Rattle.mp_defs.specs.Series.{series_of};
ghost use Rattle.mp_results.specs.Ranks.{ranks_of};
ghost use Rattle.mp_topk.specs.Ranking.{merged_ranks, slots_of};
ghost use Rattle.mp_topk.specs.Tiling.{ranks_together};

use crate::compact_ranks::CompactRanks;
use crate::kernels::RankTiles;
use crate::scans::take_tile;
use mp_cuts::{MAX_TILE, MAX_TILES, cut_own};
use mp_partial::Kernel;
use mp_scans::Plan;
use mp_series::windows;
use mp_tiles::Bands;
use std::marker::Model;

/// The tiles of the windows that start close together as the pieces of a kernel.
#[derive(Drop)]
pub(crate) struct NearRanks<'a, const K: usize> {
    /// The windows, each a row and a column.
    pub(crate) plan: Plan<'a>,
    pub(crate) bands: Bands,
}

impl<'a, const K: usize> Model for NearRanks<'a, K> {
    ghost use Rattle.mp_tiles.specs.Pieces.{OwnTiling};
    ghost use Rattle.mp_tiles.specs.Near.{IsNear, bands_of};

    ghost Value = { OwnTiling };

    ghost view = { λ near. record {
      samples = near.plan.grid.rows.now;
      m = near.plan.grid.m;
      tiles = bands_of near.bands;
    } };

    ghost invariant = { λ near. IsNear near.plan near.bands };
}

impl<'a, const K: usize> NearRanks<'a, K> {
    /// The tiles of at most `tile` diagonals of the windows that start further apart. It takes no memory.
    pub(crate) fn others(&self, tile: u32) -> RankTiles<'a, K>
        requires least { 1 ≤ tile }
        requires greatest { tile ≤ MAX_TILE }
        ensures samples { result.samples ≡ self.now.samples }
        ensures m { result.m ≡ self.now.m }
        ensures few { length result.tiles ≤ MAX_TILES }
        ensures together { merged_ranks K (ranks_together K self.now) (ranks_together K result)
            ≡ map slots_of (ranks_of K self.now.m (series_of self.now.samples)) }
    {
        RankTiles {
            plan: self.plan,
            cut: cut_own(self.size(), self.bands.last(), tile),
        }
    }
}

impl<'a, const K: usize> Kernel for NearRanks<'a, K> {
    ghost use Rattle.std.specs.Prelude.{length, slice_index_or};
    ghost use Rattle.mp_cuts.specs.Pairs.{has_pair, no_tile};
    ghost use Rattle.mp_tiles.specs.Among.{either_way};
    ghost use Rattle.mp_tiles.specs.Pieces.{own_size};
    ghost use Rattle.mp_topk.specs.Tiling.{rank_value};
    ghost use Rattle.mp_topk.specs.TileLaws.{value_has_ranks};

    type Out = CompactRanks<K>;

    ghost size_of = { own_size };

    ghost pieces_of = { λ near. length near.tiles };

    ghost value_of = { rank_value K };

    ghost has_values = { λ near piece _.
        value_has_ranks K (either_way (has_pair 0 (slice_index_or near.tiles piece no_tile))) near.m near.samples };

    fn size(&self) -> u64 {
        windows(self.plan.grid.rows.len() as u64, self.plan.rounding.m)
    }

    fn pieces(&self) -> u64 {
        self.bands.count()
    }

    fn run(&self, piece: u64, into: &mut CompactRanks<K>) {
        take_tile(&self.plan, &self.bands.tile(piece), into);
    }
}
