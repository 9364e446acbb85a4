//! The tiles of a series, drawn by workers that share what they find.

ghost use Rattle.std.specs.Prelude.{◌≡◌, IfSome};
ghost use Rattle.mp_tiles.specs.Pieces.{own_together, own_whole};
ghost use Rattle.mp_workers.specs.SharedTiles.{AreWithinProfile, HaveMore, series_in};

use crate::entries::Entries;
use crate::sharing::Sharing;
use mp_partial::{Kernel, Part};
use mp_skips::Seeds;
use mp_tiles::{Sides, Tile, TileParts};
use std::marker::Model;

/// Parts of the tiles of a series as pieces, and the pairs that are likely near. Workers that draw them share what they
/// find, where there are entries for it.
#[derive(Drop)]
pub(crate) struct SharedTiles<'a, 's> {
    tiles: &'a TileParts<'a>,
    seeds: &'a Seeds,
    entries: Option<Entries<'s>>,
}

impl<'a, 's> Model for SharedTiles<'a, 's> {
    ghost use Rattle.mp_tiles.specs.Pieces.{OwnTiling};
    ghost use Rattle.mp_workers.specs.SharedTiles.{AreShared};

    ghost Value = { OwnTiling };

    ghost view = { λ shared. shared.tiles.now };

    ghost invariant = { λ shared. AreShared shared.tiles.now shared.entries };
}

impl<'a, 's> SharedTiles<'a, 's> {
    /// Parts of tiles that make the profile.
    pub(crate) fn of(
        tiles: &'a TileParts<'a>,
        seeds: &'a Seeds,
        entries: Option<Entries<'s>>,
    ) -> SharedTiles<'a, 's>
        requires together { own_together tiles.now ≡ own_whole tiles.now }
        requires of_series { IfSome entries (λ e. e.series ≡ series_in tiles.now) }
        ensures { result ≡ tiles.now }
    {
        SharedTiles {
            tiles,
            seeds,
            entries,
        }
    }

    /// Takes what others have found for the rows and the columns of a tile.
    fn take(&self, tile: &Tile, into: &mut Sides)
        requires { AreWithinProfile self.now into.old }
        ensures { HaveMore self.now into.old into.new }
    {
        if let Some(entries) = &self.entries {
            let (row, column) = (tile.first_row, tile.first_row.saturating_add(tile.first));
            let end = tile.last_row.saturating_add(1);
            entries.take_right(row, end, into);
            entries.take_left(column, end.saturating_add(tile.last), into);
        }
    }

    /// Tells others what was found for the rows and the columns of a tile.
    fn tell(&self, tile: &Tile, found: &Sides)
        requires { AreWithinProfile self.now found.now }
    {
        if let Some(entries) = &self.entries {
            let (row, column) = (tile.first_row, tile.first_row.saturating_add(tile.first));
            let end = tile.last_row.saturating_add(1);
            entries.tell_right(row, end, found);
            entries.tell_left(column, end.saturating_add(tile.last), found);
        }
    }

    /// Tells others all that was found.
    fn tell_all(&self, found: &Sides)
        requires { AreWithinProfile self.now found.now }
    {
        if let Some(entries) = &self.entries {
            entries.tell_left(0, self.tiles.size(), found);
            entries.tell_right(0, self.tiles.size(), found);
        }
    }
}

impl<'a, 's> Sharing for SharedTiles<'a, 's> {
    ghost use Rattle.std.specs.Prelude.{length, slice_index_or};
    ghost use Rattle.mp_cuts.specs.Pairs.{has_pair, no_tile};
    ghost use Rattle.mp_tiles.specs.Pieces.{own_size, own_value, own_whole, sides_have_columns};

    type Out = Sides;

    ghost size_of = { own_size };

    ghost pieces_of = { λ own. length own.tiles };

    ghost value_of = { own_value };

    ghost whole = { own_whole };

    ghost has_values = { λ own piece _.
        sides_have_columns (has_pair 0 (slice_index_or own.tiles piece no_tile)) own.m own.samples };

    fn size(&self) -> u64 {
        self.tiles.size()
    }

    fn pieces(&self) -> u64 {
        self.tiles.pieces()
    }

    fn begin(&self, share: u32, shares: u32, into: &mut Sides) {
        self.tiles.begin(self.seeds, share % shares, shares, into);
        self.tell_all(into);
    }

    fn run(&self, piece: u64, into: &mut Sides) {
        // sides that tell their size have two columns of it
        let _places = into.size();
        let tile = self.tiles.tile(piece);
        self.take(&tile, into);
        self.tiles.run(piece, into);
        self.tell(&tile, into);
    }
}
