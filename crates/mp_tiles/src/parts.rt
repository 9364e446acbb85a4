//! Parts of the rows of tiles as the pieces of a kernel.

ghost use Rattle.std.specs.Prelude.{◌≡◌, ℕ, ◌+◌, ◌*◌, ◌^◌, ◌<◌, ◌≤◌, [], ◌∷◌, length, slice_index_or, Bool};
ghost use Rattle.mp_partial.specs.Values.{HasColumns, merged_columns};
ghost use Rattle.mp_partial.specs.declared.limits.TheConstants.{MAX_PIECES};
ghost use Rattle.mp_defs.specs.Series.{series_of};
ghost use Rattle.mp_defs.specs.Window.{excl as zone};
ghost use Rattle.mp_cuts.specs.declared.cuts.TheConstants.{MAX_ROWS, MAX_TILES};
ghost use Rattle.mp_cuts.specs.Limits.{band_rows};
ghost use Rattle.mp_cuts.specs.Pairs.{has_pair, no_tile, IsTileBetween};
ghost use Rattle.mp_tiles.specs.PairLaws.{some_has};
ghost use Rattle.mp_tiles.specs.Pieces.{own_size, own_together, own_whole};
ghost use Rattle.mp_tiles.specs.RowParts.{part_height, part_of};

use crate::sides::Sides;
use crate::summed::SummedTiles;
use mp_cuts::{MAX_ROWS, MAX_TILES, Tile};
use mp_partial::{Kernel, MAX_PIECES, Part};
use mp_scans::Offers;
use mp_skips::{Coarse, Seeds};
use std::marker::Model;

/// How many rows a part has, of so many in which a tile with the most rows is cut. The last one that has some may have
/// fewer.
pub fn rows_in_part(parts: u64) -> u64
    requires { 1 ≤ parts }
    ensures is { result ≡ part_height parts }
    ensures some { 1 ≤ result }
    ensures few { result ≤ band_rows }
{
    MAX_ROWS.div_ceil(parts)
}

/// A part of the rows of a tile. It has none where they end before it.
pub fn part_of_tile(tile: &Tile, part: u64, height: u64) -> Tile
    requires rows { tile.now.first_row < 2 ^ 32 }
    requires part { part < band_rows }
    requires some { 1 ≤ height }
    requires few { height ≤ band_rows }
    ensures { result ≡ part_of height tile.now part }
{
    let top = tile.first_row + part * height;
    Tile {
        first: tile.first,
        last: tile.last,
        first_row: top,
        last_row: tile.last_row.min(top + height - 1),
    }
}

/// The tiles of a series in coarse sums, the rows of each cut into parts. The parts of a tile follow each other, so
/// that workers that draw one after another stand at different rows.
#[derive(Drop)]
pub struct TileParts<'a> {
    tiles: SummedTiles<'a>,
    parts: u64,
}

impl<'a> Model for TileParts<'a> {
    ghost use Rattle.mp_tiles.specs.Pieces.{OwnTiling};
    ghost use Rattle.mp_tiles.specs.RowParts.{IsCutInParts, parts_of};

    ghost Value = { OwnTiling };

    ghost view = { λ own. record {
      samples = own.tiles.samples;
      m = own.tiles.m;
      tiles = parts_of own.parts own.tiles.tiles;
    } };

    ghost invariant = { λ own. IsCutInParts own.parts own.tiles.tiles };
}

/// In how many parts tiles are cut of which so many are asked for: in one where there would be too many pieces.
pub fn parts_within(tiles: u64, parts: u64) -> u64
    requires few { tiles ≤ MAX_PIECES }
    requires least { 1 ≤ parts }
    ensures some { 1 ≤ result }
    ensures within { result ≤ parts }
    ensures pieces { tiles * result ≤ MAX_PIECES }
{
    if tiles <= MAX_PIECES / parts {
        parts
    } else {
        1
    }
}

impl<'a> SummedTiles<'a> {
    /// The same tiles in parts. A tile with the most rows is cut into so many, unless there would be too many pieces:
    /// then each tile is one. It takes no memory.
    pub fn in_parts(self, parts: u32) -> TileParts<'a>
        requires least { 1 ≤ parts }
        requires greatest { parts ≤ MAX_ROWS }
        requires few { length self.tiles ≤ MAX_TILES }
        ensures samples { result.samples ≡ self.entry.samples }
        ensures m { result.m ≡ self.entry.m }
        ensures few { length result.tiles ≤ MAX_PIECES }
        ensures together { own_together result ≡ own_together self.entry }
        ensures pairs { (i j : ℕ) → some_has 0 result.tiles i j ≡ some_has 0 self.entry.tiles i j }
    {
        let parts = parts_within(self.count(), u64::from(parts));
        TileParts { tiles: self, parts }
    }
}

impl<'a> TileParts<'a> {
    /// The rows and the diagonals of a piece. It may have no row.
    pub fn tile(&self, piece: u64) -> Tile
        requires { piece < length self.now.tiles }
        ensures is { result ≡ slice_index_or self.now.tiles piece no_tile }
        ensures between { result.first_row ≤ result.last_row
            → IsTileBetween (zone self.now.m + 1) (own_size self.now) (own_size self.now) result }
    {
        let tile = self.tiles.tile(piece / self.parts);
        part_of_tile(&tile, piece % self.parts, rows_in_part(self.parts))
    }

    /// The coarse sums of the series.
    pub fn coarse(&self) -> &Coarse<'a>
        ensures samples { result.now.plan.grid.rows.now ≡ self.now.samples }
        ensures m { result.now.plan.grid.m ≡ self.now.m }
        ensures same { result.now.plan.grid.columns.now ≡ result.now.plan.grid.rows.now }
    {
        self.tiles.coarse()
    }

    /// The length of a window.
    pub fn window(&self) -> u32
        ensures { result ≡ self.now.m }
    {
        self.tiles.window()
    }

    /// Offers the windows of each pair of a piece to each other. It takes no memory.
    pub fn offer<O: Offers>(&self, piece: u64, into: &mut O::Into)
        requires piece { piece < length self.now.tiles }
        requires least { O.least ≤ 1 }
        requires fits { O.fits self.now.m (series_of self.now.samples) (series_of self.now.samples) into.old }
        ensures { O.is_scanned self.now.m (series_of self.now.samples) (series_of self.now.samples)
            (has_pair 0 (slice_index_or self.now.tiles piece no_tile)) into.old into.new }
    {
        let part = self.tile(piece);
        if part.first_row <= part.last_row {
            self.tiles.offer::<O>(&part, into);
        }
    }

    /// Offers the windows of each pair of a share of those that are likely near to each other, of so many shares. It
    /// takes no memory.
    pub fn offer_seeds<O: Offers>(&self, seeds: &Seeds, share: u32, shares: u32, into: &mut O::Into)
        requires share { share < shares }
        requires least { O.least ≤ 1 }
        requires fits { O.fits self.now.m (series_of self.now.samples) (series_of self.now.samples) into.old }
        ensures fits { O.fits self.now.m (series_of self.now.samples) (series_of self.now.samples) into.new }
        ensures some { (pairs : ℕ → ℕ → Bool) × O.is_scanned self.now.m (series_of self.now.samples)
            (series_of self.now.samples) pairs into.old into.new }
    {
        self.tiles.offer_seeds::<O>(seeds, share, shares, into);
    }

    /// Offers a share of the pairs that are likely near to each other, as tiles do that aren't cut. It takes no memory.
    pub fn begin(&self, seeds: &Seeds, share: u32, shares: u32, into: &mut Sides)
        requires share { share < shares }
        requires size { length into.old.left ≡ own_size self.now }
        ensures whole { merged_columns (into.new.left ∷ into.new.right ∷ []) (own_whole self.now)
            ≡ merged_columns (into.old.left ∷ into.old.right ∷ []) (own_whole self.now) }
        ensures size { length into.new.left ≡ length into.old.left }
        ensures is_value { HasColumns 2 (length into.new.left) (into.new.left ∷ into.new.right ∷ []) }
        ensures room { into.new.room ≡ into.old.room }
    {
        self.tiles.begin(seeds, share, shares, into);
    }
}

impl<'a> Kernel for TileParts<'a> {
    ghost use Rattle.std.specs.Prelude.{length, slice_index_or};
    ghost use Rattle.mp_cuts.specs.Pairs.{has_pair, no_tile};
    ghost use Rattle.mp_tiles.specs.Pieces.{own_size, own_value, sides_have_columns};

    type Out = Sides;

    ghost size_of = { own_size };

    ghost pieces_of = { λ own. length own.tiles };

    ghost value_of = { own_value };

    ghost has_values = { λ own piece _.
        sides_have_columns (has_pair 0 (slice_index_or own.tiles piece no_tile)) own.m own.samples };

    fn size(&self) -> u64 {
        self.tiles.size()
    }

    fn pieces(&self) -> u64 {
        self.tiles.pieces() * self.parts
    }

    fn run(&self, piece: u64, into: &mut Sides) {
        // sides that tell their size have two columns of it
        let _places = into.size();
        let part = self.tile(piece);
        if part.first_row <= part.last_row {
            self.tiles.run_tile(&part, into);
        }
    }
}
