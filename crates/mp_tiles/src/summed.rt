//! The tiles of a series as the pieces of a kernel that passes over blocks of pairs by coarse sums.

ghost use Rattle.std.specs.Prelude.{◌≡◌, ℕ, ◌+◌, ◌*◌, ◌<◌, ◌≤◌, [], ◌∷◌, All, length, slice_index_or, IfOk, IfSome, Bool};
ghost use Rattle.mp_series.specs.declared.limits.TheConstants.{MAX_SAMPLES};
ghost use Rattle.mp_defs.specs.Series.{series_of};
ghost use Rattle.mp_defs.specs.Window.{excl as zone};
ghost use Rattle.mp_partial.specs.Values.{HasColumns, merged_columns};
ghost use Rattle.mp_cuts.specs.declared.cuts.TheConstants.{MAX_TILE};
ghost use Rattle.mp_cuts.specs.Limits.{band_rows};
ghost use Rattle.mp_cuts.specs.Pairs.{has_pair, no_tile, IsTileBetween};
ghost use Rattle.mp_tiles.specs.Among.{profile_among};
ghost use Rattle.mp_tiles.specs.Pieces.{own_size, own_together, own_whole, sides_value};

use crate::blocks::scan_blocks;
use crate::kernels::OwnTiles;
use crate::sides::Sides;
use mp_cuts::{Cut, Tile};
use mp_nums::Memory;
use mp_partial::{Kernel, Part};
use mp_scans::Offers;
use mp_series::{excl, windows};
use mp_skips::{Coarse, Seeds, Summed, scan_seeds};
use std::alloc::Global;
use std::marker::Model;

/// How many diagonals a tile is to have at least that is scanned in coarse sums: the limits of a row and of a column
/// are looked up once for each. A tile of a long series has twice as many.
pub const SUMMED_TILE: u32 = 1_024;

/// How many windows a long series has at least.
const LONG_SERIES: u64 = 32_768;

/// How many windows a series has at least whose coarse sums are made.
const LEAST_WINDOWS: u64 = 4_096;

/// How many samples a window has at least for which they are.
pub(crate) const LEAST_SAMPLES: usize = 16;

/// How many diagonals a tile of so many windows is to have at least that is scanned in coarse sums.
pub fn summed_tile(windows: u64) -> u32
    ensures some { 1 ≤ result }
    ensures few { result ≤ MAX_TILE }
{
    if windows < LONG_SERIES {
        SUMMED_TILE
    } else {
        2 * SUMMED_TILE
    }
}

/// How many times eight samples a coarse sum has, for windows of so many.
pub(crate) fn eights_for(m: usize) -> usize
    requires { 16 ≤ m }
    ensures some { 1 ≤ result }
    ensures few { result ≤ 8 }
    ensures wide { 8 * result ≤ m }
{
    if m < 64 {
        1
    } else if m < 256 {
        2
    } else {
        4
    }
}

/// The tiles of a series as the pieces of a kernel that passes over blocks of pairs by coarse sums. The values of the
/// pieces are those of the same tiles without.
#[derive(Drop)]
pub struct SummedTiles<'a> {
    coarse: Coarse<'a>,
    cut: Cut,
    /// Whether some blocks of each tile are tried first.
    is_tried: bool,
}

impl<'a> Model for SummedTiles<'a> {
    ghost use Rattle.mp_tiles.specs.Pieces.{OwnTiling, IsOwnTiling};

    ghost Value = { OwnTiling };

    ghost view = { λ own. record {
      samples = own.coarse.plan.grid.rows.now;
      m = own.coarse.plan.grid.m;
      tiles = own.cut;
    } };

    ghost invariant = { λ own. IsOwnTiling own.coarse.plan own.cut };
}

impl<'a> OwnTiles<'a> {
    /// The coarse sums of the series, in some 10 bytes for each sample. None where they wouldn't pay, as where there
    /// are few windows.
    pub fn sums(&self, alloc: Global) -> Result<Option<Summed<'a>>, Memory>
        ensures samples { IfOk result (λ found. IfSome found (λ sums. sums.plan.grid.rows.now ≡ self.now.samples)) }
        ensures m { IfOk result (λ found. IfSome found (λ sums. sums.plan.grid.m ≡ self.now.m)) }
    {
        if self.size() < LEAST_WINDOWS || self.plan.grid.m < LEAST_SAMPLES {
            return Ok(None);
        }
        Ok(Some(self.sums_of(alloc, eights_for(self.plan.grid.m))?))
    }

    /// The coarse sums of the series, of `8 * eights` samples each.
    pub fn sums_of(&self, alloc: Global, eights: usize) -> Result<Summed<'a>, Memory>
        requires some { 1 ≤ eights }
        requires few { eights ≤ 8 }
        requires wide { 8 * eights ≤ self.now.m }
        ensures samples { IfOk result (λ sums. sums.plan.grid.rows.now ≡ self.now.samples) }
        ensures m { IfOk result (λ sums. sums.plan.grid.m ≡ self.now.m) }
    {
        Summed::of(alloc, &self.plan, eights)
    }

    /// The same tiles in coarse sums. It takes no memory.
    pub fn by_sums<'b>(self, sums: &'b Summed) -> SummedTiles<'b>
        requires samples { sums.now.plan.grid.rows.now ≡ self.samples }
        requires m { sums.now.plan.grid.m ≡ self.m }
        ensures samples { result.samples ≡ self.entry.samples }
        ensures m { result.m ≡ self.entry.m }
        ensures tiles { result.tiles ≡ self.entry.tiles }
    {
        let OwnTiles { plan: _, cut } = self;
        SummedTiles {
            coarse: sums.coarse(),
            cut,
            is_tried: true,
        }
    }
}

impl<'a> SummedTiles<'a> {
    /// Room for the pairs of windows that are likely near, some 4 bytes for a window at most. None of them is found
    /// yet.
    pub fn seeds(&self, alloc: Global) -> Result<Seeds, Memory> {
        Seeds::of(
            alloc,
            &self.coarse,
            excl(self.coarse.plan.rounding.m) as usize + 1,
        )
    }

    /// Offers a share of the pairs that are likely near to each other, of so many shares. With the values of all tiles
    /// of the series it makes what these make without, and where they begin with it more pairs can be passed over. It
    /// takes no memory.
    pub fn begin(&self, seeds: &Seeds, share: u32, shares: u32, into: &mut Sides)
        requires share { share < shares }
        requires size { length into.old.left ≡ own_size self.now }
        ensures whole { merged_columns (into.new.left ∷ into.new.right ∷ []) (own_whole self.now)
            ≡ merged_columns (into.old.left ∷ into.old.right ∷ []) (own_whole self.now) }
        ensures size { length into.new.left ≡ length into.old.left }
        ensures is_value { HasColumns 2 (length into.new.left) (into.new.left ∷ into.new.right ∷ []) }
        ensures room { into.new.room ≡ into.old.room }
    {
        into.take_seeds(&self.coarse, seeds, share, shares);
    }

    /// The coarse sums of the series.
    pub(crate) fn coarse(&self) -> &Coarse<'a>
        ensures samples { result.now.plan.grid.rows.now ≡ self.now.samples }
        ensures m { result.now.plan.grid.m ≡ self.now.m }
        ensures same { result.now.plan.grid.columns.now ≡ result.now.plan.grid.rows.now }
    {
        &self.coarse
    }

    /// The number of tiles. None of them has more rows than a band.
    pub(crate) fn count(&self) -> u64
        ensures is { result ≡ length self.now.tiles }
        ensures low { All (λ tile. tile.last_row < tile.first_row + band_rows) self.now.tiles }
    {
        self.cut.count()
    }

    /// The tile of a piece.
    pub(crate) fn tile(&self, piece: u64) -> Tile
        requires { piece < length self.now.tiles }
        ensures is { result ≡ slice_index_or self.now.tiles piece no_tile }
        ensures between { IsTileBetween (zone self.now.m + 1) (own_size self.now) (own_size self.now) result }
        ensures few { result.last_row < MAX_SAMPLES }
    {
        self.cut.tile(piece)
    }

    /// Merges what the pairs of a tile give into what there is already. It takes no memory.
    pub(crate) fn run_tile(&self, tile: &Tile, into: &mut Sides)
        requires tile { IsTileBetween (zone self.now.m + 1) (own_size self.now) (own_size self.now) tile.now }
        requires size { length into.old.left ≡ own_size self.now }
        ensures value { into.new.left ∷ into.new.right ∷ []
            ≡ merged_columns (into.old.left ∷ into.old.right ∷ [])
            (sides_value (profile_among (has_pair 0 tile.now) self.now.m (series_of self.now.samples))) }
        ensures size { length into.new.left ≡ length into.old.left }
        ensures is_value { HasColumns 2 (length into.new.left) (into.new.left ∷ into.new.right ∷ []) }
        ensures room { into.new.room ≡ into.old.room }
    {
        into.take_by_sums(&self.coarse, tile, self.is_tried);
    }

    /// The length of a window.
    pub(crate) fn window(&self) -> u32
        ensures { result ≡ self.now.m }
    {
        self.coarse.plan.rounding.m
    }

    /// Offers the windows of each pair of a tile to each other. It takes no memory.
    pub(crate) fn offer<O: Offers>(&self, tile: &Tile, into: &mut O::Into)
        requires least { O.least ≤ 1 }
        requires tile { IsTileBetween (zone self.now.m + 1) (own_size self.now) (own_size self.now) tile.now }
        requires fits { O.fits self.now.m (series_of self.now.samples) (series_of self.now.samples) into.old }
        ensures { O.is_scanned self.now.m (series_of self.now.samples) (series_of self.now.samples)
            (has_pair 0 tile.now) into.old into.new }
    {
        scan_blocks::<O>(&self.coarse, tile, self.is_tried, into);
    }

    /// Offers the windows of each pair of a share of those that are likely near to each other, of so many shares. It
    /// takes no memory.
    pub(crate) fn offer_seeds<O: Offers>(
        &self,
        seeds: &Seeds,
        share: u32,
        shares: u32,
        into: &mut O::Into,
    )
        requires share { share < shares }
        requires least { O.least ≤ 1 }
        requires fits { O.fits self.now.m (series_of self.now.samples) (series_of self.now.samples) into.old }
        ensures fits { O.fits self.now.m (series_of self.now.samples) (series_of self.now.samples) into.new }
        ensures some { (pairs : ℕ → ℕ → Bool) × O.is_scanned self.now.m (series_of self.now.samples)
            (series_of self.now.samples) pairs into.old into.new }
    {
        let first = excl(self.coarse.plan.rounding.m) as usize + 1;
        scan_seeds::<O>(&self.coarse, seeds, share, shares, first, into);
    }

    /// Merges the values of all tiles into what there is already, one after another. It takes no memory.
    pub fn run_all(&self, into: &mut Sides)
        requires size { length into.old.left ≡ own_size self.now }
        requires is_value { HasColumns 2 (own_size self.now) (into.old.left ∷ into.old.right ∷ []) }
        ensures value { into.new.left ∷ into.new.right ∷ []
            ≡ merged_columns (into.old.left ∷ into.old.right ∷ []) (own_together self.now) }
        ensures size { length into.new.left ≡ own_size self.now }
    {
        for piece in 0..self.pieces() {
            self.run(piece, into);
        }
    }

    /// The same tiles, where no blocks are tried before a tile is scanned in coarse sums.
    pub fn untried(self) -> SummedTiles<'a>
        ensures { result ≡ self.entry }
    {
        SummedTiles {
            is_tried: false,
            ..self
        }
    }
}

impl<'a> Kernel for SummedTiles<'a> {
    ghost use Rattle.std.specs.Prelude.{length, slice_index_or};
    ghost use Rattle.mp_cuts.specs.Pairs.{has_pair, no_tile};
    ghost use Rattle.mp_tiles.specs.Pieces.{own_size, own_value, sides_have_columns};

    type Out = Sides;

    ghost size_of = { own_size };

    ghost pieces_of = { λ own. length own.tiles };

    ghost value_of = { own_value };

    ghost has_values = { λ own piece _.
        sides_have_columns (has_pair 0 (slice_index_or own.tiles piece no_tile)) own.m own.samples };

    fn size(&self) -> u64 {
        windows(
            self.coarse.plan.grid.rows.len() as u64,
            self.coarse.plan.rounding.m,
        )
    }

    fn pieces(&self) -> u64 {
        self.cut.count()
    }

    fn run(&self, piece: u64, into: &mut Sides) {
        self.run_tile(&self.tile(piece), into);
    }
}
