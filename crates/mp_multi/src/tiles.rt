//! The tiles of several channels in coarse sums, by which blocks of pairs are passed over.

ghost use Rattle.std.specs.Prelude.{◌≡◌, ◌+◌, ◌^◌, ◌<◌, ◌≤◌, [], ◌∷◌, length, map, slice_index_or};
ghost use Rattle.mp_defs.specs.Series.{series_of};
ghost use Rattle.mp_defs.specs.Window.{excl as zone};
ghost use Rattle.mp_partial.specs.Values.{merged_column, merged_columns};
ghost use Rattle.mp_cuts.specs.declared.cuts.TheConstants.{MAX_ROWS, MAX_TILES};
ghost use Rattle.mp_cuts.specs.Pairs.{has_pair, no_tile, IsTileBetween};
ghost use Rattle.mp_tiles.specs.RowParts.{IsCutInParts};
ghost use Rattle.mp_multi.specs.Among.{multi_among};
ghost use Rattle.mp_multi.specs.Sharing.{in_parts};
ghost use Rattle.mp_multi.specs.Tiling.{multi_size, multi_together, multi_whole, window_count};

use crate::kernels::MultiTiles;
use crate::mates::Search;
use crate::seeds::scan_seeds;
use crate::skips::{are_mostly_apart, scan_apart};
use crate::summed::MultiCoarse;
use mp_cuts::{MAX_ROWS, MAX_TILES, Tile};
use mp_nums::{Memory, Slots};
use mp_partial::Kernel;
use mp_tiles::parts_within;
use std::alloc::Global;
use std::marker::Model;

/// Tiles of channels in coarse sums. The values of the pieces are those of the same tiles without.
#[derive(Drop)]
pub(crate) struct SummedMulti<'a, 's, 'c, const D: usize> {
    pub(crate) tiles: MultiTiles<'a, D>,
    pub(crate) coarse: &'s MultiCoarse<'c>,
}

impl<'a, 's, 'c, const D: usize> Model for SummedMulti<'a, 's, 'c, D> {
    ghost use Rattle.mp_multi.specs.Tiling.{MultiTiling};
    ghost use Rattle.mp_multi.specs.SummedTiling.{IsSummedTiling};

    ghost Value = { MultiTiling };

    ghost view = { λ summed. summed.tiles };

    ghost invariant = { λ summed. IsSummedTiling D summed.tiles summed.coarse.now };
}

impl<'a, 's, 'c, const D: usize> SummedMulti<'a, 's, 'c, D> {
    /// Room for the pairs that are likely near, some 12 bytes for each sum of a channel that is compared. None of
    /// them is found yet.
    pub(crate) fn search(&self, alloc: Global) -> Result<Search<D>, Memory> {
        let levels = self.coarse.levels();
        Search::<D>::new(alloc, &levels.wide, self.tiles.first())
    }

    /// Offers a share of the pairs that are likely near to each other, of so many shares. With the profile of all pairs
    /// it makes what the slots made with it before. It takes no memory.
    pub(crate) fn begin(&self, search: &Search<D>, share: u32, shares: u32, into: &mut Slots)
        requires share { share < shares }
        requires places { length into.old.items ≡ window_count self.now.m self.now.channels }
        ensures whole { merged_columns (into.new.items ∷ []) (multi_whole self.now)
            ≡ merged_columns (into.old.items ∷ []) (multi_whole self.now) }
        ensures places { length into.new.items ≡ length into.old.items }
        ensures spare { into.new.spare ≡ into.old.spare }
    {
        let levels = self.coarse.levels();
        scan_seeds::<D>(
            &levels.wide,
            search,
            share,
            shares,
            self.tiles.first(),
            into,
        );
    }

    /// The number of windows.
    pub(crate) fn size(&self) -> u64
        ensures { result ≡ multi_size self.now }
    {
        self.tiles.size()
    }

    /// The number of tiles.
    pub(crate) fn count(&self) -> u64
        ensures { result ≡ length self.now.tiles }
    {
        self.tiles.pieces()
    }

    /// The tile of a number.
    pub(crate) fn tile(&self, number: u64) -> Tile
        requires { number < length self.now.tiles }
        ensures is { result ≡ slice_index_or self.now.tiles number no_tile }
        ensures between { IsTileBetween (zone self.now.m + 1) (window_count self.now.m self.now.channels)
            (window_count self.now.m self.now.channels) result }
        ensures low { result.first_row < 2 ^ 32 }
    {
        self.tiles.tile(number)
    }

    /// In how many parts the rows of a tile are cut of which so many are asked for. The parts have together what the
    /// tiles have.
    pub(crate) fn parts(&self, parts: u32) -> u64
        requires least { 1 ≤ parts }
        requires greatest { parts ≤ MAX_ROWS }
        requires few { length self.now.tiles ≤ MAX_TILES }
        ensures cut { IsCutInParts result self.now.tiles }
        ensures together { multi_together (in_parts result self.now) ≡ multi_together self.now }
    {
        parts_within(self.tiles.pieces(), u64::from(parts))
    }

    /// Offers the pairs of a tile to each other. It takes no memory.
    pub(crate) fn scan_tile(&self, tile: &Tile, into: &mut Slots)
        requires tile { IsTileBetween (zone self.now.m + 1) (window_count self.now.m self.now.channels)
            (window_count self.now.m self.now.channels) tile.now }
        requires places { length into.old.items ≡ window_count self.now.m self.now.channels }
        ensures items { into.new.items ≡ merged_column into.old.items
            (multi_among (has_pair 0 tile.now) self.now.m self.now.k (map series_of self.now.channels)) }
        ensures places { length into.new.items ≡ length into.old.items }
        ensures spare { into.new.spare ≡ into.old.spare }
    {
        let levels = self.coarse.levels();
        let (first, end) = (tile.first as usize, tile.last as usize + 1);
        let (top, bottom) = (tile.first_row as usize, tile.last_row as usize + 1);
        if are_mostly_apart::<D>(&levels, first, end, top, bottom, into) {
            scan_apart::<D>(&levels, first, end, top, bottom, into);
        } else {
            self.tiles.scan_tile(tile, into);
        }
    }
}
