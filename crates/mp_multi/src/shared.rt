//! The tiles of channels, drawn by workers that share what they find.

ghost use Rattle.std.specs.Prelude.{◌≡◌, ◌+◌, ◌<◌, ◌≤◌, length, map, slice_index_or, IfSome};
ghost use Rattle.mp_defs.specs.Series.{series_of};
ghost use Rattle.mp_defs.specs.Window.{excl as zone};
ghost use Rattle.mp_partial.specs.Values.{merged_column};
ghost use Rattle.mp_partial.specs.declared.limits.TheConstants.{MAX_PIECES};
ghost use Rattle.mp_cuts.specs.Pairs.{has_pair, no_tile, IsTileBetween};
ghost use Rattle.mp_tiles.specs.RowParts.{IsCutInParts};
ghost use Rattle.mp_workers.specs.Entries.{HasMore, IsWithinColumn};
ghost use Rattle.mp_multi.specs.Among.{multi_among};
ghost use Rattle.mp_multi.specs.Sharing.{in_parts, profile_of};
ghost use Rattle.mp_multi.specs.Tiling.{multi_size, multi_together, multi_whole};

use crate::entries::Entries;
use crate::mates::Search;
use crate::tiles::SummedMulti;
use mp_cuts::Tile;
use mp_nums::Slots;
use mp_partial::MAX_PIECES;
use mp_tiles::{part_of_tile, rows_in_part};
use mp_workers::Sharing;
use std::marker::Model;

/// Parts of the rows of the tiles of channels as pieces, and the pairs of windows that are likely near. Workers that
/// draw them share what they find, where there are entries for it.
#[derive(Drop)]
pub(crate) struct SharedMulti<'a, 's, 'c, 'p, const D: usize> {
    summed: &'p SummedMulti<'a, 's, 'c, D>,
    search: &'p Search<D>,
    entries: Option<Entries<'a>>,
    parts: u64,
}

impl<'a, 's, 'c, 'p, const D: usize> Model for SharedMulti<'a, 's, 'c, 'p, D> {
    ghost use Rattle.mp_multi.specs.Tiling.{MultiTiling};
    ghost use Rattle.mp_multi.specs.Sharing.{AreShared, in_parts};

    ghost Value = { MultiTiling };

    ghost view = { λ shared. in_parts shared.parts shared.summed.now };

    ghost invariant = { λ shared. AreShared shared.parts shared.summed.now shared.entries };
}

impl<'a, 's, 'c, 'p, const D: usize> SharedMulti<'a, 's, 'c, 'p, D> {
    /// Parts of tiles that make the profile.
    pub(crate) fn of(
        summed: &'p SummedMulti<'a, 's, 'c, D>,
        search: &'p Search<D>,
        entries: Option<Entries<'a>>,
        parts: u64,
    ) -> SharedMulti<'a, 's, 'c, 'p, D>
        requires cut { IsCutInParts parts summed.now.tiles }
        requires together { multi_together (in_parts parts summed.now) ≡ multi_whole summed.now }
        requires of_channels { IfSome entries (λ whole. whole ≡ profile_of summed.now) }
        ensures is { result ≡ in_parts parts summed.now }
        ensures few { length result.tiles ≤ MAX_PIECES }
        ensures together { multi_together result ≡ multi_whole result }
    {
        SharedMulti {
            summed,
            search,
            entries,
            parts,
        }
    }

    /// The rows and the diagonals of a piece. It may have no row.
    fn tile(&self, piece: u64) -> Tile
        requires { piece < length self.now.tiles }
        ensures is { result ≡ slice_index_or self.now.tiles piece no_tile }
        ensures between { result.first_row ≤ result.last_row
            → IsTileBetween (zone self.now.m + 1) (multi_size self.now) (multi_size self.now) result }
        ensures together { multi_together self.now ≡ multi_whole self.now }
    {
        let tile = self.summed.tile(piece / self.parts);
        part_of_tile(&tile, piece % self.parts, rows_in_part(self.parts))
    }

    /// Takes what others have found for the rows and the columns of a tile.
    fn take(&self, tile: &Tile, into: &mut Slots)
        requires size { length into.old.items ≡ multi_size self.now }
        requires within { IsWithinColumn (profile_of self.now) into.old.items }
        ensures more { HasMore (profile_of self.now) into.old.items into.new.items }
        ensures spare { into.new.spare ≡ into.old.spare }
    {
        if let Some(entries) = &self.entries {
            let end = tile.last_row.saturating_add(1);
            let column = tile.first_row.saturating_add(tile.first).max(end);
            entries.take(tile.first_row, end, into);
            entries.take(column, end.saturating_add(tile.last), into);
        }
    }

    /// Tells others what was found for the rows and the columns of a tile.
    fn tell(&self, tile: &Tile, found: &Slots)
        requires size { length found.now.items ≡ multi_size self.now }
        requires within { IsWithinColumn (profile_of self.now) found.now.items }
    {
        if let Some(entries) = &self.entries {
            let end = tile.last_row.saturating_add(1);
            let column = tile.first_row.saturating_add(tile.first).max(end);
            entries.tell(tile.first_row, end, found);
            entries.tell(column, end.saturating_add(tile.last), found);
        }
    }

    /// Tells others all that was found.
    fn tell_all(&self, found: &Slots)
        requires size { length found.now.items ≡ multi_size self.now }
        requires within { IsWithinColumn (profile_of self.now) found.now.items }
    {
        if let Some(entries) = &self.entries {
            entries.tell(0, self.summed.size(), found);
        }
    }

    /// Offers the pairs of a tile to each other. It may have no row.
    fn scan(&self, tile: &Tile, into: &mut Slots)
        requires between { tile.now.first_row ≤ tile.now.last_row
            → IsTileBetween (zone self.now.m + 1) (multi_size self.now) (multi_size self.now) tile.now }
        requires size { length into.old.items ≡ multi_size self.now }
        ensures items { into.new.items ≡ merged_column into.old.items
            (multi_among (has_pair 0 tile.now) self.now.m self.now.k (map series_of self.now.channels)) }
        ensures size { length into.new.items ≡ length into.old.items }
        ensures spare { into.new.spare ≡ into.old.spare }
    {
        if tile.first_row <= tile.last_row {
            self.summed.scan_tile(tile, into);
        }
    }
}

impl<'a, 's, 'c, 'p, const D: usize> Sharing for SharedMulti<'a, 's, 'c, 'p, D> {
    ghost use Rattle.std.specs.Prelude.{length, slice_index_or};
    ghost use Rattle.mp_cuts.specs.Pairs.{has_pair, no_tile};
    ghost use Rattle.mp_multi.specs.Tiling.{multi_size, multi_value, multi_whole};
    ghost use Rattle.mp_multi.specs.TilingLaws.{among_has_places};

    type Out = Slots;

    ghost size_of = { multi_size };

    ghost pieces_of = { λ own. length own.tiles };

    ghost value_of = { multi_value };

    ghost whole = { multi_whole };

    ghost has_values = { λ own piece _.
        among_has_places (has_pair 0 (slice_index_or own.tiles piece no_tile)) own.m own.k own.channels };

    fn size(&self) -> u64 {
        self.summed.size()
    }

    fn pieces(&self) -> u64 {
        self.summed.count() * self.parts
    }

    fn begin(&self, share: u32, shares: u32, into: &mut Slots) {
        self.summed.begin(self.search, share % shares, shares, into);
        self.tell_all(into);
    }

    fn run(&self, piece: u64, into: &mut Slots) {
        let tile = self.tile(piece);
        self.take(&tile, into);
        self.scan(&tile, into);
        self.tell(&tile, into);
    }
}
