//! Tiles, and how pairs of windows are cut into them.

ghost use Rattle.std.specs.Prelude.{◌≡◌, ℕ, ◌+◌, ◌-◌, ◌*◌, ◌<◌, ◌≤◌, All, count_by, nat_lt, if◌then◌else◌, length, map};
ghost use Rattle.std.specs.Prelude.{slice_get, Some};
ghost use Rattle.std.specs.List.{range_with_len};
ghost use Rattle.mp_cuts.specs.Pairs.{has_pair, IsTileBetween};
ghost use Rattle.mp_cuts.specs.Tight.{IsTight};
ghost use Rattle.mp_cuts.specs.Cutting.{own_tiles, both_tiles, diagonals_between};
ghost use Rattle.mp_cuts.specs.Cutting.{bands_of, tile_at, tiles_in, IsRegion};

use mp_series::MAX_SAMPLES;
use std::marker::Model;

/// The most diagonals in a tile.
pub const MAX_TILE: u32 = 65_536;

/// The most rows in a tile, and how many a band has.
pub const MAX_ROWS: u64 = 65_536;

/// The most tiles in a cut.
pub const MAX_TILES: u64 = 2_097_152;

/// Some rows of successive diagonals: those from the first to the last of each. The row of a pair is its first window.
///
/// In a series, diagonal `d` holds the pairs of the windows that start at `i` and at `i + d`. From one series with `w`
/// windows to another, it holds the pairs of the windows that start at `i` in the one and at `i + d - (w - 1)` in the
/// other. In both cases `i` is the row.
#[derive(Clone, Copy, Debug, PartialEq, Eq)]
pub struct Tile {
    pub first: u64,
    pub last: u64,
    pub first_row: u64,
    pub last_row: u64,
}

/// Tiles, band by band of rows, and in a band in rising order of their diagonals.
#[derive(Debug, Drop)]
pub struct Cut {
    region: Region,
}

/// The pairs that are cut: those on the diagonals from `first` on and before `end` whose rows come before `rows`.
/// Windows that start equally far lie on the diagonal `origin`. A chunk has `width` diagonals, and the last one may
/// have fewer.
#[derive(Clone, Copy, Debug)]
struct Region {
    first: u64,
    end: u64,
    origin: u64,
    rows: u64,
    width: u64,
}

/// Successive chunks of diagonals.
#[derive(Clone, Copy)]
struct Chunks {
    first: u64,
    count: u64,
}

impl Model for Cut {
    ghost use Rattle.std.specs.Prelude.{List};
    ghost use Rattle.mp_cuts.specs.declared.cuts.Tile.{Tile};
    ghost use Rattle.mp_cuts.specs.Cutting.{tiles_of, IsRegion};

    ghost Value = { List Tile };

    ghost view = { λ cut. tiles_of cut.region };

    ghost invariant = { λ cut. IsRegion cut.region };
}

/// Cuts the pairs of the `w` windows of a series that start further apart than `excl`: their diagonals, counted from
/// the first one, in chunks of `tile`, of which the last may have fewer, and the rows of each chunk at the multiples of
/// `MAX_ROWS`.
pub fn cut_own(w: u64, excl: u64, tile: u32) -> Cut
    requires windows { w ≤ MAX_SAMPLES }
    requires least { 1 ≤ tile }
    requires greatest { tile ≤ MAX_TILE }
    ensures tiles { result ≡ own_tiles w excl tile }
    ensures each { All (IsTileBetween (excl + 1) w w) result }
    ensures tight { All (IsTight 0 w) result }
    ensures pairs { (i j : ℕ) → j < w
        → count_by (λ t. has_pair 0 t i j) result ≡ (if nat_lt (i + excl) j then 1 else 0) }
    ensures few { length result ≤ MAX_TILES }
{
    Cut {
        region: Region {
            first: excl.saturating_add(1),
            end: w,
            origin: 0,
            rows: w,
            width: u64::from(tile),
        },
    }
}

/// Cuts all pairs of the `wa` windows of one series and the `wb` windows of another: their diagonals, from the one
/// with the last window of the first series and the first window of the second on, in chunks of `tile`, of which the
/// last may have fewer, and the rows of each chunk, which are windows of the first series, at the multiples of
/// `MAX_ROWS`.
pub fn cut_both(wa: u64, wb: u64, tile: u32) -> Cut
    requires first { wa ≤ MAX_SAMPLES }
    requires second { wb ≤ MAX_SAMPLES }
    requires least { 1 ≤ tile }
    requires greatest { tile ≤ MAX_TILE }
    ensures tiles { result ≡ both_tiles wa wb tile }
    ensures each { All (IsTileBetween 0 (diagonals_between wa wb) wa) result }
    ensures tight { All (IsTight (wa - 1) (diagonals_between wa wb)) result }
    ensures pairs { (i j : ℕ) → i < wa → j < wb → count_by (λ t. has_pair (wa - 1) t i j) result ≡ 1 }
    ensures few { length result ≤ MAX_TILES }
{
    Cut {
        region: Region {
            first: 0,
            end: diagonals(wa, wb),
            origin: wa.saturating_sub(1),
            rows: wa,
            width: u64::from(tile),
        },
    }
}

/// How many diagonals the pairs of windows of two series have.
fn diagonals(wa: u64, wb: u64) -> u64
    requires first { wa ≤ MAX_SAMPLES }
    requires second { wb ≤ MAX_SAMPLES }
    ensures { result ≡ diagonals_between wa wb }
{
    if wa == 0 || wb == 0 { 0 } else { wa + wb - 1 }
}

impl Region {
    /// The number of bands.
    fn bands(&self) -> u64
        ensures { result ≡ bands_of self.now }
    {
        self.rows.div_ceil(MAX_ROWS)
    }

    /// The chunks that have rows in a band. They follow each other, since the rows of a diagonal and of the next one
    /// overlap or touch.
    fn chunks_in(&self, band: u64) -> Chunks
        requires region { IsRegion self.now }
        requires band { band < bands_of self.now }
        ensures tiles { tiles_in self.now band
            ≡ map (tile_at self.now band) (range_with_len result.first result.count) }
        ensures each { (k : ℕ) → k < result.count
            → self.now.first + (result.first + k) * self.now.width < self.now.end }
    {
        let top = band * MAX_ROWS;
        // the first of these diagonals have no row before the band's end, the last ones none behind its top
        let first = (self.origin + 1).saturating_sub(top + MAX_ROWS);
        let end = self.end.saturating_sub(top);
        let from = first.saturating_sub(self.first) / self.width;
        let to = end.saturating_sub(self.first).div_ceil(self.width);
        Chunks {
            first: from,
            count: to.saturating_sub(from),
        }
    }

    /// What a chunk has in a band.
    fn tile(&self, band: u64, chunk: u64) -> Tile
        requires region { IsRegion self.now }
        requires band { band < bands_of self.now }
        requires chunk { self.now.first + chunk * self.now.width < self.now.end }
        ensures { result ≡ tile_at self.now band chunk }
    {
        let first = self.first + chunk * self.width;
        let last = (first + self.width).min(self.end) - 1;
        let top = band * MAX_ROWS;
        Tile {
            first,
            last,
            first_row: self.origin.saturating_sub(last).max(top),
            last_row: self.rows.min(self.end - first).min(top + MAX_ROWS) - 1,
        }
    }
}

impl Cut {
    /// The number of tiles.
    pub fn count(&self) -> u64
        ensures { result ≡ length self.now }
    {
        let mut count = 0;
        for band in 0..self.region.bands() {
            count += self.region.chunks_in(band).count;
        }
        count
    }

    /// Tile `k`, counted from 0.
    pub fn tile(&self, k: u64) -> Tile
        requires { k < length self.now }
        ensures { slice_get self.now k ≡ Some result }
    {
        let (mut band, mut place) = (0, k);
        let mut chunks = self.region.chunks_in(band);
        while chunks.count <= place {
            place -= chunks.count;
            band += 1;
            chunks = self.region.chunks_in(band);
        }
        self.region.tile(band, chunks.first + place)
    }
}
