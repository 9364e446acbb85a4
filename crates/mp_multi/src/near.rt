//! The tiles of the windows that start close together, as the pieces of a kernel of several channels.

ghost use Rattle.std.specs.Prelude.{◌≡◌, ◌≤◌, [], ◌∷◌, length, map};
ghost use Rattle.mp_defs.specs.Series.{series_of};
ghost use Rattle.mp_results.specs.Multi.{multi_of};
ghost use Rattle.mp_partial.specs.Values.{merged_columns};
ghost use Rattle.mp_multi.specs.Tiling.{multi_together};

use crate::fast::scan_fast;
use crate::kernels::MultiTiles;
use mp_cuts::{MAX_TILE, MAX_TILES, cut_own};
use mp_nums::Slots;
use mp_partial::Kernel;
use mp_series::{Bundle, windows};
use mp_tiles::Bands;
use std::marker::Model;

/// The tiles of the windows of `D` channels that start close together as the pieces of a kernel.
#[derive(Drop)]
pub(crate) struct NearMulti<'a, const D: usize> {
    pub(crate) channels: &'a Bundle,
    pub(crate) m: u32,
    pub(crate) k: u64,
    pub(crate) bands: Bands,
}

impl<'a, const D: usize> Model for NearMulti<'a, D> {
    ghost use Rattle.mp_tiles.specs.Near.{bands_of};
    ghost use Rattle.mp_multi.specs.Tiling.{MultiTiling, IsNearTiling};

    ghost Value = { MultiTiling };

    ghost view = { λ near. record {
      channels = near.channels.now;
      m = near.m;
      k = near.k;
      tiles = bands_of near.bands;
    } };

    ghost invariant = { λ near. IsNearTiling D near.channels.now near.m near.k near.bands };
}

impl<'a, const D: usize> NearMulti<'a, D> {
    /// The tiles of at most `tile` diagonals of the windows that start further apart. It takes no memory.
    pub(crate) fn others(&self, tile: u32) -> MultiTiles<'a, D>
        requires least { 1 ≤ tile }
        requires greatest { tile ≤ MAX_TILE }
        ensures channels { result.channels ≡ self.now.channels }
        ensures m { result.m ≡ self.now.m }
        ensures few { length result.tiles ≤ MAX_TILES }
        ensures together { merged_columns (multi_together self.now) (multi_together result)
            ≡ multi_of self.now.m self.now.k (map series_of self.now.channels) ∷ [] }
    {
        MultiTiles {
            channels: self.channels,
            m: self.m,
            k: self.k,
            cut: cut_own(self.size(), self.bands.last(), tile),
        }
    }
}

impl<'a, const D: usize> Kernel for NearMulti<'a, D> {
    ghost use Rattle.std.specs.Prelude.{length, slice_index_or};
    ghost use Rattle.mp_cuts.specs.Pairs.{has_pair, no_tile};
    ghost use Rattle.mp_multi.specs.Tiling.{multi_size, multi_value};
    ghost use Rattle.mp_multi.specs.TilingLaws.{among_has_places};

    type Out = Slots;

    ghost size_of = { multi_size };

    ghost pieces_of = { λ near. length near.tiles };

    ghost value_of = { multi_value };

    ghost has_values = { λ near piece _.
        among_has_places (has_pair 0 (slice_index_or near.tiles piece no_tile)) near.m near.k near.channels };

    fn size(&self) -> u64 {
        windows(self.channels.series(0).len() as u64, self.m)
    }

    fn pieces(&self) -> u64 {
        self.bands.count()
    }

    fn run(&self, piece: u64, into: &mut Slots) {
        scan_fast::<D>(self.channels, self.m, self.k, &self.bands.tile(piece), into);
    }
}
