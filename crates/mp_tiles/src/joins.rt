//! The tiles of two series as the pieces of a kernel, and the AB-join that they make.

ghost use Rattle.std.specs.Prelude.{◌≡◌, ◌≤◌, length, IfOk};
ghost use Rattle.mp_series.specs.declared.limits.TheConstants.{MAX_SAMPLES, MAX_WINDOW, MIN_WINDOW};
ghost use Rattle.mp_defs.specs.Series.{series_of};
ghost use Rattle.mp_defs.specs.Profile.{ab_join};

use crate::scans::scan_join;
use crate::summed::summed_tile;
use mp_cuts::{Cut, MAX_TILE, MAX_TILES, cut_both};
use mp_nums::{Memory, Sample, Slots};
use mp_partial::{Kernel, Part, run_in_order};
use mp_scans::Plan;
use mp_series::{MAX_SAMPLES, MAX_WINDOW, MIN_WINDOW, windows};
use mp_skips::Seeking;
use mp_sums::Grid;
use std::alloc::Global;
use std::marker::Model;

/// The tiles of two series as the pieces of a kernel, whose values together are the AB-join.
#[derive(Drop)]
pub struct JoinTiles<'a> {
    /// The windows of the one series as rows, and those of the other as columns.
    pub(crate) plan: Plan<'a>,
    pub(crate) cut: Cut,
}

impl<'a> Model for JoinTiles<'a> {
    ghost use Rattle.mp_tiles.specs.Pieces.{JoinTiling, IsJoinTiling};

    ghost Value = { JoinTiling };

    ghost view = { λ join. record {
      a = join.plan.grid.rows.now;
      b = join.plan.grid.columns.now;
      m = join.plan.grid.m;
      tiles = join.cut;
    } };

    ghost invariant = { λ join. IsJoinTiling join.plan join.cut };
}

impl<'a> JoinTiles<'a> {
    ghost use Rattle.std.specs.Prelude.{[], ◌∷◌};
    ghost use Rattle.mp_defs.specs.Window.{windows as windows_in};
    ghost use Rattle.mp_cuts.specs.Cutting.{both_tiles};
    ghost use Rattle.mp_tiles.specs.Pieces.{join_together};

    /// The tiles of at most `tile` diagonals of both series' windows of length `m`. They may be the same series. It
    /// takes no memory.
    pub fn new(a: &'a [Sample], b: &'a [Sample], m: u32, tile: u32) -> JoinTiles<'a>
        requires shortest { MIN_WINDOW ≤ m }
        requires longest { m ≤ MAX_WINDOW }
        requires first { length a.now ≤ MAX_SAMPLES }
        requires second { length b.now ≤ MAX_SAMPLES }
        requires least { 1 ≤ tile }
        requires greatest { tile ≤ MAX_TILE }
        ensures a { result.a ≡ a.now }
        ensures b { result.b ≡ b.now }
        ensures m { result.m ≡ m }
        ensures tiles { result.tiles ≡ both_tiles (windows_in (length a.now) m) (windows_in (length b.now) m) tile }
        ensures few { length result.tiles ≤ MAX_TILES }
        ensures together { join_together result ≡ ab_join m (series_of a.now) (series_of b.now) ∷ [] }
    {
        let (first, second) = (windows(a.len() as u64, m), windows(b.len() as u64, m));
        let plan = Plan::between(Grid {
            rows: a,
            columns: b,
            m: m as usize,
        });
        JoinTiles {
            plan,
            cut: cut_both(first, second, tile),
        }
    }

    /// The tiles of the same windows of at most `tile` diagonals. It takes no memory.
    pub fn wide(&self, tile: u32) -> JoinTiles<'a>
        requires least { 1 ≤ tile }
        requires greatest { tile ≤ MAX_TILE }
        ensures a { result.a ≡ self.now.a }
        ensures b { result.b ≡ self.now.b }
        ensures m { result.m ≡ self.now.m }
        ensures few { length result.tiles ≤ MAX_TILES }
        ensures together { join_together result
            ≡ ab_join self.now.m (series_of self.now.a) (series_of self.now.b) ∷ [] }
    {
        let second = windows(self.plan.grid.columns.len() as u64, self.plan.rounding.m);
        JoinTiles {
            plan: self.plan,
            cut: cut_both(self.size(), second, tile),
        }
    }
}

impl<'a> Kernel for JoinTiles<'a> {
    ghost use Rattle.std.specs.Prelude.{◌-◌, length, slice_index_or};
    ghost use Rattle.mp_cuts.specs.Pairs.{has_pair, no_tile};
    ghost use Rattle.mp_tiles.specs.Pieces.{join_size, join_value, column_has_places};

    type Out = Slots;

    ghost size_of = { join_size };

    ghost pieces_of = { λ join. length join.tiles };

    ghost value_of = { join_value };

    ghost has_values = { λ join piece _.
        column_has_places (has_pair (join_size join - 1) (slice_index_or join.tiles piece no_tile)) join.m join.a
        join.b };

    fn size(&self) -> u64 {
        windows(self.plan.grid.rows.len() as u64, self.plan.rounding.m)
    }

    fn pieces(&self) -> u64 {
        self.cut.count()
    }

    fn run(&self, piece: u64, into: &mut Slots) {
        scan_join(&self.plan, &self.cut.tile(piece), into);
    }
}

/// The AB-join at window length `m`: for each window of `a` its nearest window in `b`, without an exclusion zone. It is
/// computed in tiles of at most `tile` diagonals, one after another. Where blocks of pairs are passed over by coarse
/// sums, a tile may have `summed_tile` diagonals.
pub fn join(alloc: Global, a: &[Sample], b: &[Sample], m: u32, tile: u32) -> Result<Slots, Memory>
    requires shortest { MIN_WINDOW ≤ m }
    requires longest { m ≤ MAX_WINDOW }
    requires first { length a.now ≤ MAX_SAMPLES }
    requires second { length b.now ≤ MAX_SAMPLES }
    requires least { 1 ≤ tile }
    requires greatest { tile ≤ MAX_TILE }
    ensures { IfOk result (λ slots. slots.items ≡ ab_join m (series_of a.now) (series_of b.now)) }
{
    let tiles = JoinTiles::new(a, b, m, tile);
    match tiles.sums(alloc)? {
        Some(sums) => {
            let wide = tiles.wide(tile.max(summed_tile(tiles.size())));
            let pieces = wide.by_sums(&sums);
            let mut seeds = pieces.seeds(alloc)?;
            seeds.find(0, 1);
            let mut slots = Slots::unit(alloc, pieces.size())?;
            pieces.begin(&seeds, 0, 1, &mut slots);
            pieces.run_all(&mut slots);
            Ok(slots)
        }
        None => run_in_order(alloc, &tiles),
    }
}
