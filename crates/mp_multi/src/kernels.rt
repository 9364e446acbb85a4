//! The tiles of several channels as the pieces of a kernel.

ghost use Rattle.std.specs.Prelude.{◌≡◌, ◌+◌, ◌≤◌, [], ◌∷◌, length, map, slice_index_or};
ghost use Rattle.mp_defs.specs.Series.{series_of};
ghost use Rattle.mp_defs.specs.Window.{excl as zone};
ghost use Rattle.mp_results.specs.Multi.{multi_of};
ghost use Rattle.mp_multi.specs.Conditions.{AreChannels};

use crate::channels::Channels;
use crate::entries::Entries;
use crate::fast::scan_fast;
use crate::near::NearMulti;
use crate::plans::MultiPlan;
use mp_cuts::{Cut, MAX_TILE, MAX_TILES, Tile, cut_own};
use mp_nums::{Memory, Slots};
use mp_partial::Kernel;
use mp_series::{Bundle, excl, windows};
use mp_tiles::Bands;
use std::alloc::Global;
use std::marker::Model;

/// The tiles of `D` channels as the pieces of a kernel, whose values together are the multidimensional profile.
#[derive(Drop)]
pub(crate) struct MultiTiles<'a, const D: usize> {
    pub(crate) channels: &'a Bundle,
    pub(crate) m: u32,
    pub(crate) k: u64,
    pub(crate) cut: Cut,
}

impl<'a, const D: usize> Model for MultiTiles<'a, D> {
    ghost use Rattle.mp_multi.specs.Tiling.{MultiTiling, IsMultiTiling};

    ghost Value = { MultiTiling };

    ghost view = { λ own. record { channels = own.channels.now; m = own.m; k = own.k; tiles = own.cut } };

    ghost invariant = { λ own. IsMultiTiling D
        (record { channels = own.channels.now; m = own.m; k = own.k; tiles = own.cut }) };
}

impl<'a, const D: usize> MultiTiles<'a, D> {
    ghost use Rattle.mp_cuts.specs.Cutting.{own_tiles};
    ghost use Rattle.mp_multi.specs.Tiling.{multi_together, window_count};
    ghost use Rattle.mp_multi.specs.Among.{multi_among};
    ghost use Rattle.mp_multi.specs.Sharing.{profile_of};
    ghost use Rattle.mp_partial.specs.Values.{merged_column};
    ghost use Rattle.mp_cuts.specs.Pairs.{has_pair, no_tile, IsTileBetween};
    ghost use Rattle.std.specs.Prelude.{◌+◌, ◌<◌, IfOk};

    /// The tiles of at most `tile` diagonals of the channels' windows of length `m`, of which `k` are taken together.
    /// It takes no memory.
    pub(crate) fn new(channels: &'a Bundle, m: u32, k: u64, tile: u32) -> MultiTiles<'a, D>
        requires channels { AreChannels channels.now m k }
        requires count { length channels.now ≡ D }
        requires least { 1 ≤ tile }
        requires greatest { tile ≤ MAX_TILE }
        ensures channels { result.channels ≡ channels.now }
        ensures m { result.m ≡ m }
        ensures k { result.k ≡ k }
        ensures few { length result.tiles ≤ MAX_TILES }
        ensures together { multi_together result ≡ multi_of m k (map series_of channels.now) ∷ [] }
    {
        let count = windows(channels.series(0).len() as u64, m);
        MultiTiles {
            channels,
            m,
            k,
            cut: cut_own(count, excl(m), tile),
        }
    }

    /// The plan of the channels, whose samples aren't rounded. It takes no memory.
    pub(crate) fn plan(&self) -> MultiPlan<'a>
        ensures channels { result.channels.list.now ≡ self.now.channels }
        ensures m { result.channels.m ≡ self.now.m }
        ensures k { result.channels.k ≡ self.now.k }
    {
        MultiPlan {
            channels: Channels {
                list: self.channels,
                m: self.m,
                k: self.k,
            },
            shift: 0,
        }
    }

    /// How far behind a window those start at least that it is compared with.
    pub(crate) fn first(&self) -> usize
        ensures { result ≡ zone self.now.m + 1 }
    {
        excl(self.m) as usize + 1
    }

    /// The tile of a piece.
    pub(crate) fn tile(&self, piece: u64) -> Tile
        requires { piece < length self.now.tiles }
        ensures is { result ≡ slice_index_or self.now.tiles piece no_tile }
        ensures between { IsTileBetween (zone self.now.m + 1) (window_count self.now.m self.now.channels)
            (window_count self.now.m self.now.channels) result }
    {
        self.cut.tile(piece)
    }

    /// Offers the pairs of a tile to each other. It takes no memory.
    pub(crate) fn scan_tile(&self, tile: &Tile, into: &mut Slots)
        requires tile { IsTileBetween (zone self.now.m + 1) (window_count self.now.m self.now.channels)
            (window_count self.now.m self.now.channels) tile.now }
        requires places { length into.old.items ≡ window_count self.now.m self.now.channels }
        ensures items { into.new.items ≡ merged_column into.old.items
            (multi_among (has_pair 0 tile.now) self.now.m self.now.k (map series_of self.now.channels)) }
        ensures places { length into.new.items ≡ length into.old.items }
        ensures spare { into.new.spare ≡ into.old.spare }
    {
        scan_fast::<D>(self.channels, self.m, self.k, tile, into);
    }

    /// The same channels in tiles of at most `tile` diagonals. It takes no memory.
    pub(crate) fn wide(&self, tile: u32) -> MultiTiles<'a, D>
        requires least { 1 ≤ tile }
        requires greatest { tile ≤ MAX_TILE }
        ensures channels { result.channels ≡ self.now.channels }
        ensures m { result.m ≡ self.now.m }
        ensures k { result.k ≡ self.now.k }
        ensures few { length result.tiles ≤ MAX_TILES }
        ensures together { multi_together result
            ≡ multi_of self.now.m self.now.k (map series_of self.now.channels) ∷ [] }
    {
        MultiTiles::new(self.channels, self.m, self.k, tile)
    }

    /// The entries that workers share, of which none is found yet.
    pub(crate) fn entries(&self, alloc: Global) -> Result<Entries<'a>, Memory>
        ensures { IfOk result (λ whole. whole ≡ profile_of self.now) }
    {
        Entries::new(alloc, self.channels, self.m, self.k, self.size())
    }

    /// The tiles of the windows that start close together, outside the exclusion zone, in so many bands of rows. It
    /// takes no memory.
    pub(crate) fn near(&self, bands: u32) -> NearMulti<'a, D>
        requires some { 1 ≤ bands }
        ensures channels { result.channels ≡ self.now.channels }
        ensures m { result.m ≡ self.now.m }
        ensures k { result.k ≡ self.now.k }
        ensures few { length result.tiles ≤ MAX_TILES }
    {
        let windows = self.size();
        NearMulti {
            channels: self.channels,
            m: self.m,
            k: self.k,
            bands: Bands::of(windows, excl(self.m), bands),
        }
    }
}

impl<'a, const D: usize> Kernel for MultiTiles<'a, D> {
    ghost use Rattle.std.specs.Prelude.{length, slice_index_or};
    ghost use Rattle.mp_cuts.specs.Pairs.{has_pair, no_tile};
    ghost use Rattle.mp_multi.specs.Tiling.{multi_size, multi_value};
    ghost use Rattle.mp_multi.specs.TilingLaws.{among_has_places};

    type Out = Slots;

    ghost size_of = { multi_size };

    ghost pieces_of = { λ own. length own.tiles };

    ghost value_of = { multi_value };

    ghost has_values = { λ own piece _.
        among_has_places (has_pair 0 (slice_index_or own.tiles piece no_tile)) own.m own.k own.channels };

    fn size(&self) -> u64 {
        windows(self.channels.series(0).len() as u64, self.m)
    }

    fn pieces(&self) -> u64 {
        self.cut.count()
    }

    fn run(&self, piece: u64, into: &mut Slots) {
        scan_fast::<D>(self.channels, self.m, self.k, &self.cut.tile(piece), into);
    }
}
