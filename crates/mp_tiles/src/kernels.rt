//! The tiles of a series as the pieces of a kernel, and the profile that they make.

ghost use Rattle.std.specs.Prelude.{◌≡◌, ◌≤◌, [], ◌∷◌, length, IfOk};
ghost use Rattle.mp_series.specs.declared.limits.TheConstants.{MAX_SAMPLES, MAX_WINDOW, MIN_WINDOW};
ghost use Rattle.mp_defs.specs.Series.{series_of};
ghost use Rattle.mp_defs.specs.Window.{windows as windows_in, excl as zone};
ghost use Rattle.mp_defs.specs.Profile.{matrix_profile};
ghost use Rattle.mp_tiles.specs.Pieces.{own_together, sides_value};

use crate::near::{Bands, NearTiles};
use crate::sides::Sides;
use crate::summed::summed_tile;
use mp_cuts::{Cut, MAX_TILE, MAX_TILES, cut_own};
use mp_nums::{Memory, Sample};
use mp_partial::{Kernel, Part, Profile, run_in_order};
use mp_scans::Plan;
use mp_series::{MAX_SAMPLES, MAX_WINDOW, MIN_WINDOW, excl, windows};
use mp_skips::Seeking;
use mp_sums::Grid;
use std::alloc::Global;
use std::marker::Model;

/// The tiles of a series as the pieces of a kernel. The values of all tiles together are both sides of the matrix
/// profile.
#[derive(Drop)]
pub struct OwnTiles<'a> {
    /// The windows, each a row and a column.
    pub(crate) plan: Plan<'a>,
    pub(crate) cut: Cut,
}

impl<'a> Model for OwnTiles<'a> {
    ghost use Rattle.mp_tiles.specs.Pieces.{OwnTiling, IsOwnTiling};

    ghost Value = { OwnTiling };

    ghost view = { λ own. record { samples = own.plan.grid.rows.now; m = own.plan.grid.m; tiles = own.cut } };

    ghost invariant = { λ own. IsOwnTiling own.plan own.cut };
}

impl<'a> OwnTiles<'a> {
    ghost use Rattle.mp_cuts.specs.Cutting.{own_tiles};
    ghost use Rattle.mp_tiles.specs.Pieces.{own_together};

    /// The tiles of at most `tile` diagonals of the samples' windows of length `m`. It takes no memory.
    pub fn new(samples: &'a [Sample], m: u32, tile: u32) -> OwnTiles<'a>
        requires shortest { MIN_WINDOW ≤ m }
        requires longest { m ≤ MAX_WINDOW }
        requires samples { length samples.now ≤ MAX_SAMPLES }
        requires least { 1 ≤ tile }
        requires greatest { tile ≤ MAX_TILE }
        ensures samples { result.samples ≡ samples.now }
        ensures m { result.m ≡ m }
        ensures tiles { result.tiles ≡ own_tiles (windows_in (length samples.now) m) (zone m) tile }
        ensures few { length result.tiles ≤ MAX_TILES }
        ensures together { own_together result ≡ sides_value (matrix_profile m (series_of samples.now)) }
    {
        let count = windows(samples.len() as u64, m);
        let plan = Plan::of(Grid {
            rows: samples,
            columns: samples,
            m: m as usize,
        });
        OwnTiles {
            plan,
            cut: cut_own(count, excl(m), tile),
        }
    }

    /// The samples of the series.
    pub fn samples(&self) -> &'a [Sample]
        ensures is { result.now ≡ self.now.samples }
        ensures few { length result.now ≤ MAX_SAMPLES }
    {
        self.plan.grid.rows
    }

    /// The length of a window.
    pub fn window(&self) -> u32
        ensures is { result ≡ self.now.m }
        ensures least { 1 ≤ result }
    {
        self.plan.rounding.m
    }

    /// The tiles of the same windows of at most `tile` diagonals. It takes no memory.
    pub fn wide(&self, tile: u32) -> OwnTiles<'a>
        requires least { 1 ≤ tile }
        requires greatest { tile ≤ MAX_TILE }
        ensures samples { result.samples ≡ self.now.samples }
        ensures m { result.m ≡ self.now.m }
        ensures few { length result.tiles ≤ MAX_TILES }
        ensures together { own_together result
            ≡ sides_value (matrix_profile self.now.m (series_of self.now.samples)) }
    {
        OwnTiles {
            plan: self.plan,
            cut: cut_own(self.size(), excl(self.plan.rounding.m), tile),
        }
    }

    /// The tiles of the windows that start close together, outside the exclusion zone, in so many bands of rows. It
    /// takes no memory.
    pub fn near(&self, bands: u32) -> NearTiles<'a>
        requires some { 1 ≤ bands }
        ensures samples { result.samples ≡ self.now.samples }
        ensures m { result.m ≡ self.now.m }
        ensures few { length result.tiles ≤ MAX_TILES }
    {
        let windows = self.size();
        NearTiles {
            plan: self.plan,
            bands: Bands::of(windows, excl(self.plan.rounding.m), bands),
        }
    }
}

impl<'a> Kernel for OwnTiles<'a> {
    ghost use Rattle.std.specs.Prelude.{length, slice_index_or};
    ghost use Rattle.mp_cuts.specs.Pairs.{has_pair, no_tile};
    ghost use Rattle.mp_tiles.specs.Pieces.{own_size, own_value, sides_have_columns};

    type Out = Sides;

    ghost size_of = { own_size };

    ghost pieces_of = { λ own. length own.tiles };

    ghost value_of = { own_value };

    ghost has_values = { λ own piece _.
        sides_have_columns (has_pair 0 (slice_index_or own.tiles piece no_tile)) own.m own.samples };

    fn size(&self) -> u64 {
        windows(self.plan.grid.rows.len() as u64, self.plan.rounding.m)
    }

    fn pieces(&self) -> u64 {
        self.cut.count()
    }

    fn run(&self, piece: u64, into: &mut Sides) {
        into.take_tile(&self.plan, &self.cut.tile(piece));
    }
}

/// Both sides of the matrix profile, one tile after another.
fn sides_in_order(alloc: Global, samples: &[Sample], m: u32, tile: u32) -> Result<Sides, Memory>
    requires shortest { MIN_WINDOW ≤ m }
    requires longest { m ≤ MAX_WINDOW }
    requires samples { length samples.now ≤ MAX_SAMPLES }
    requires least { 1 ≤ tile }
    requires greatest { tile ≤ MAX_TILE }
    ensures value { IfOk result (λ sides. sides.left ∷ sides.right ∷ []
        ≡ sides_value (matrix_profile m (series_of samples.now))) }
    ensures size { IfOk result (λ sides. length sides.left ≡ windows_in (length samples.now) m) }
{
    let tiles = OwnTiles::new(samples, m, tile);
    match tiles.sums(alloc)? {
        Some(sums) => {
            let wide = tiles.wide(tile.max(summed_tile(tiles.size())));
            let pieces = wide.by_sums(&sums);
            let mut seeds = pieces.seeds(alloc)?;
            seeds.find(0, 1);
            let mut sides = Sides::unit(alloc, pieces.size())?;
            pieces.begin(&seeds, 0, 1, &mut sides);
            pieces.run_all(&mut sides);
            Ok(sides)
        }
        None => run_in_order(alloc, &tiles),
    }
}

/// The matrix profile of the samples at window length `m`, computed in tiles of at most `tile` diagonals, one after
/// another. Where blocks of pairs are passed over by coarse sums, a tile may have `summed_tile` diagonals.
pub fn profile(alloc: Global, samples: &[Sample], m: u32, tile: u32) -> Result<Profile, Memory>
    requires shortest { MIN_WINDOW ≤ m }
    requires longest { m ≤ MAX_WINDOW }
    requires samples { length samples.now ≤ MAX_SAMPLES }
    requires least { 1 ≤ tile }
    requires greatest { tile ≤ MAX_TILE }
    ensures all { IfOk result (λ p. p.all ≡ (matrix_profile m (series_of samples.now)).all) }
    ensures left { IfOk result (λ p. p.left ≡ (matrix_profile m (series_of samples.now)).left) }
    ensures right { IfOk result (λ p. p.right ≡ (matrix_profile m (series_of samples.now)).right) }
{
    let room = Profile::with_capacity(alloc, windows(samples.len() as u64, m))?;
    Ok(sides_in_order(alloc, samples, m, tile)?.profile(room))
}
