//! The tiles of the windows that start close together, as the pieces of a kernel.

ghost use Rattle.std.specs.Prelude.{◌≡◌, ◌+◌, ◌<◌, ◌≤◌, length};
ghost use Rattle.std.specs.Int.{div_ceil};
ghost use Rattle.mp_series.specs.declared.limits.TheConstants.{MAX_SAMPLES, MAX_WINDOW};
ghost use Rattle.mp_defs.specs.Series.{series_of};
ghost use Rattle.mp_defs.specs.Profile.{matrix_profile};
ghost use Rattle.mp_partial.specs.Values.{merged_columns};
ghost use Rattle.mp_tiles.specs.Near.{IsBands, band_at, bands_of};
ghost use Rattle.mp_tiles.specs.Pieces.{own_together, sides_value};

use crate::kernels::OwnTiles;
use crate::sides::Sides;
use mp_cuts::{MAX_ROWS, MAX_TILE, MAX_TILES, Tile, cut_own};
use mp_partial::Kernel;
use mp_scans::Plan;
use mp_series::windows;
use std::marker::Model;

/// How many diagonals there are for each one that has near windows. In measured series these have most of what lowers
/// limits for the others.
const DIAGONALS_FOR_A_NEAR_ONE: u64 = 16;

/// The least number of diagonals that have near windows.
const LEAST_NEAR: u64 = 256;

/// The greatest number of these. Of a long series the others are passed over sooner than they are scanned.
const MOST_NEAR: u64 = 1_024;

/// The rows of some diagonals, band by band. The last band may have fewer.
#[derive(Clone, Copy)]
pub struct Bands {
    first: u64,
    last: u64,
    rows: u64,
    height: u64,
}

impl Bands {
    /// The first diagonals of so many windows outside a zone, in so many bands, or more where these were too high.
    pub fn of(windows: u64, excl: u64, bands: u32) -> Bands
        requires few { windows ≤ MAX_SAMPLES }
        requires zone { excl ≤ MAX_WINDOW }
        requires some { 1 ≤ bands }
        ensures { IsBands (excl + 1) windows result }
    {
        let first = excl + 1;
        let rows = windows.saturating_sub(first);
        let near = (rows / DIAGONALS_FOR_A_NEAR_ONE).clamp(LEAST_NEAR, MOST_NEAR);
        Bands {
            first,
            last: first + rows.clamp(1, near) - 1,
            rows,
            height: rows.div_ceil(u64::from(bands)).clamp(1, MAX_ROWS),
        }
    }

    /// The last of the diagonals.
    pub fn last(&self) -> u64
        ensures { result ≡ self.now.last }
    {
        self.last
    }

    /// The number of bands.
    pub fn count(&self) -> u64
        requires { 0 < self.now.height }
        ensures { result ≡ div_ceil self.now.rows self.now.height }
    {
        self.rows.div_ceil(self.height)
    }

    /// The tile of a band.
    pub fn tile(&self, band: u64) -> Tile
        requires few { self.now.rows ≤ MAX_SAMPLES }
        requires low { self.now.height ≤ MAX_ROWS }
        requires high { 0 < self.now.height }
        requires band { band < div_ceil self.now.rows self.now.height }
        ensures { result ≡ band_at self.now band }
    {
        let top = band * self.height;
        Tile {
            first: self.first,
            last: self.last,
            first_row: top,
            last_row: (top + self.height).min(self.rows) - 1,
        }
    }
}

/// The tiles of the windows that start close together as the pieces of a kernel.
#[derive(Drop)]
pub struct NearTiles<'a> {
    /// The windows, each a row and a column.
    pub(crate) plan: Plan<'a>,
    pub(crate) bands: Bands,
}

impl<'a> Model for NearTiles<'a> {
    ghost use Rattle.mp_tiles.specs.Pieces.{OwnTiling};
    ghost use Rattle.mp_tiles.specs.Near.{IsNear, bands_of};

    ghost Value = { OwnTiling };

    ghost view = { λ near. record {
      samples = near.plan.grid.rows.now;
      m = near.plan.grid.m;
      tiles = bands_of near.bands;
    } };

    ghost invariant = { λ near. IsNear near.plan near.bands };
}

impl<'a> NearTiles<'a> {
    /// The tiles of at most `tile` diagonals of the windows that start further apart. It takes no memory.
    pub fn others(&self, tile: u32) -> OwnTiles<'a>
        requires least { 1 ≤ tile }
        requires greatest { tile ≤ MAX_TILE }
        ensures samples { result.samples ≡ self.now.samples }
        ensures m { result.m ≡ self.now.m }
        ensures few { length result.tiles ≤ MAX_TILES }
        ensures together { merged_columns (own_together self.now) (own_together result)
            ≡ sides_value (matrix_profile self.now.m (series_of self.now.samples)) }
    {
        OwnTiles {
            plan: self.plan,
            cut: cut_own(self.size(), self.bands.last, tile),
        }
    }
}

impl<'a> Kernel for NearTiles<'a> {
    ghost use Rattle.std.specs.Prelude.{length, slice_index_or};
    ghost use Rattle.mp_cuts.specs.Pairs.{has_pair, no_tile};
    ghost use Rattle.mp_tiles.specs.Pieces.{own_size, own_value, sides_have_columns};

    type Out = Sides;

    ghost size_of = { own_size };

    ghost pieces_of = { λ near. length near.tiles };

    ghost value_of = { own_value };

    ghost has_values = { λ near piece _.
        sides_have_columns (has_pair 0 (slice_index_or near.tiles piece no_tile)) near.m near.samples };

    fn size(&self) -> u64 {
        windows(self.plan.grid.rows.len() as u64, self.plan.rounding.m)
    }

    fn pieces(&self) -> u64 {
        self.bands.count()
    }

    fn run(&self, piece: u64, into: &mut Sides) {
        into.take_tile(&self.plan, &self.bands.tile(piece));
    }
}
