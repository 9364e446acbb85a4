//! The tiles of a series, drawn by workers that share the ranks that they find.

ghost use Rattle.std.specs.Prelude.{◌≡◌, ◌+◌, ◌≤◌, length, map, slice_index_or, IfSome};
ghost use Rattle.mp_defs.specs.Window.{excl as zone};
ghost use Rattle.mp_cuts.specs.Pairs.{no_tile, IsTileBetween};
ghost use Rattle.mp_tiles.specs.Pieces.{own_size};
ghost use Rattle.mp_topk.specs.Ranking.{HasRanks, merged_ranks, slots_of};
ghost use Rattle.mp_topk.specs.Sharing.{HasMore, IsWithin, series_in, whole_of};
ghost use Rattle.mp_topk.specs.Tiling.{rank_value, ranks_together, ranks_whole};

use crate::compact_ranks::CompactRanks;
use crate::entries::RankEntries;
use crate::scans::{take_by_sums, take_seeds};
use mp_cuts::Tile;
use mp_partial::{Kernel, Part};
use mp_skips::Seeds;
use mp_tiles::TileParts;
use mp_workers::Sharing;
use std::marker::Model;

/// Parts of the tiles of a series as pieces, and the pairs that are likely near. Workers that draw them share the ranks
/// that they find, where there are entries for it.
#[derive(Drop)]
pub(crate) struct SharedRanks<'a, 's, const K: usize> {
    tiles: &'a TileParts<'a>,
    seeds: &'a Seeds,
    entries: Option<RankEntries<'s, K>>,
}

impl<'a, 's, const K: usize> Model for SharedRanks<'a, 's, K> {
    ghost use Rattle.mp_tiles.specs.Pieces.{OwnTiling};
    ghost use Rattle.mp_topk.specs.Sharing.{AreShared};

    ghost Value = { OwnTiling };

    ghost view = { λ shared. shared.tiles.now };

    ghost invariant = { λ shared. AreShared K shared.tiles.now shared.entries };
}

impl<'a, 's, const K: usize> SharedRanks<'a, 's, K> {
    /// Parts of tiles that make the ranks of all windows.
    pub(crate) fn of(
        tiles: &'a TileParts<'a>,
        seeds: &'a Seeds,
        entries: Option<RankEntries<'s, K>>,
    ) -> SharedRanks<'a, 's, K>
        requires together { ranks_together K tiles.now ≡ ranks_whole K tiles.now }
        requires of_series { IfSome entries (λ e. e ≡ series_in tiles.now) }
        ensures { result ≡ tiles.now }
    {
        SharedRanks {
            tiles,
            seeds,
            entries,
        }
    }

    /// Takes what others have found for the rows and the columns of a tile.
    fn take(&self, tile: &Tile, into: &mut CompactRanks<K>)
        requires size { length into.old.lists ≡ own_size self.now }
        requires within { IsWithin K (whole_of K (series_in self.now)) into.old.lists }
        ensures more { HasMore K (whole_of K (series_in self.now)) into.old.lists into.new.lists }
        ensures spare { into.new.spare ≡ into.old.spare }
    {
        // ranks that tell their size are in order at each place
        let _places = into.size();
        if let Some(entries) = &self.entries {
            let count = self.tiles.size();
            let end = tile.last_row.saturating_add(1).min(count);
            let column = tile.first_row.saturating_add(tile.first).max(end);
            entries.take(tile.first_row, end, into);
            entries.take(column, end.saturating_add(tile.last).min(count), into);
        }
    }

    /// Tells others what was found for the rows and the columns of a tile.
    fn tell(&self, tile: &Tile, found: &CompactRanks<K>)
        requires { IsWithin K (whole_of K (series_in self.now)) found.now.lists }
    {
        if let Some(entries) = &self.entries {
            let count = self.tiles.size();
            let end = tile.last_row.saturating_add(1).min(count);
            let column = tile.first_row.saturating_add(tile.first).max(end);
            entries.tell(tile.first_row, end, found);
            entries.tell(column, end.saturating_add(tile.last).min(count), found);
        }
    }

    /// Tells others all that was found.
    fn tell_all(&self, found: &CompactRanks<K>)
        requires { IsWithin K (whole_of K (series_in self.now)) found.now.lists }
    {
        if let Some(entries) = &self.entries {
            entries.tell(0, self.tiles.size(), found);
        }
    }

    /// Merges the ranks by the pairs of a piece into these.
    fn take_piece(&self, piece: u64, tile: &Tile, into: &mut CompactRanks<K>)
        requires piece { tile.now ≡ slice_index_or self.now.tiles piece no_tile }
        requires between { tile.now.first_row ≤ tile.now.last_row
            → IsTileBetween (zone self.now.m + 1) (own_size self.now) (own_size self.now) tile.now }
        requires size { length into.old.lists ≡ own_size self.now }
        ensures value { map slots_of into.new.lists
            ≡ merged_ranks K (map slots_of into.old.lists) (rank_value K self.now piece) }
        ensures size { length into.new.lists ≡ length into.old.lists }
        ensures is_value { HasRanks K (length into.new.lists) (map slots_of into.new.lists) }
        ensures spare { into.new.spare ≡ into.old.spare }
    {
        let _places = into.size();
        if tile.first_row <= tile.last_row {
            take_by_sums(self.tiles.coarse(), tile, into);
        }
    }
}

impl<'a, 's, const K: usize> Sharing for SharedRanks<'a, 's, K> {
    ghost use Rattle.std.specs.Prelude.{length, slice_index_or};
    ghost use Rattle.mp_cuts.specs.Pairs.{has_pair, no_tile};
    ghost use Rattle.mp_tiles.specs.Among.{either_way};
    ghost use Rattle.mp_tiles.specs.Pieces.{own_size};
    ghost use Rattle.mp_topk.specs.Tiling.{rank_value, ranks_whole};
    ghost use Rattle.mp_topk.specs.TileLaws.{value_has_ranks};

    type Out = CompactRanks<K>;

    ghost size_of = { own_size };

    ghost pieces_of = { λ own. length own.tiles };

    ghost value_of = { rank_value K };

    ghost whole = { ranks_whole K };

    ghost has_values = { λ own piece _.
        value_has_ranks K (either_way (has_pair 0 (slice_index_or own.tiles piece no_tile))) own.m own.samples };

    fn size(&self) -> u64 {
        self.tiles.size()
    }

    fn pieces(&self) -> u64 {
        self.tiles.pieces()
    }

    fn begin(&self, share: u32, shares: u32, into: &mut CompactRanks<K>) {
        take_seeds(
            self.tiles.coarse(),
            self.seeds,
            share % shares,
            shares,
            into,
        );
        self.tell_all(into);
    }

    fn run(&self, piece: u64, into: &mut CompactRanks<K>) {
        let _places = into.size();
        let tile = self.tiles.tile(piece);
        self.take(&tile, into);
        let _same_places = into.size();
        self.take_piece(piece, &tile, into);
        self.tell(&tile, into);
    }
}
