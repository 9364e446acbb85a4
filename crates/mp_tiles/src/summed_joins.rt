//! The tiles of two series as the pieces of a kernel that passes over blocks of pairs by coarse sums.

ghost use Rattle.std.specs.Prelude.{◌≡◌, ◌*◌, ◌<◌, ◌≤◌, [], ◌∷◌, length, IfOk, IfSome};
ghost use Rattle.mp_partial.specs.Values.{HasColumns, merged_columns};
ghost use Rattle.mp_tiles.specs.Pieces.{join_size, join_together, join_whole};

use crate::joined::{JoinSeeds, scan_join_by_sums, take_join_seeds};
use crate::joins::JoinTiles;
use crate::plans::transposed;
use crate::summed::{LEAST_SAMPLES, eights_for};
use mp_cuts::Cut;
use mp_nums::{Memory, Slots};
use mp_partial::Kernel;
use mp_series::windows;
use mp_skips::{Coarse, Seeds, SummedBoth};
use std::alloc::Global;
use std::marker::Model;

/// How many windows each of two series has at least whose coarse sums are made.
const LEAST_WINDOWS: u64 = 1_024;

/// The tiles of two series as the pieces of a kernel that passes over blocks of pairs by coarse sums. The values of the
/// pieces are those of the same tiles without.
#[derive(Drop)]
pub struct SummedJoin<'a> {
    coarse: Coarse<'a>,
    /// The same with rows as columns.
    turned: Coarse<'a>,
    cut: Cut,
    /// Whether some blocks of each tile are tried first.
    is_tried: bool,
}

impl<'a> Model for SummedJoin<'a> {
    ghost use Rattle.mp_tiles.specs.Plans.{IsTurned};
    ghost use Rattle.mp_tiles.specs.Pieces.{JoinTiling, IsJoinTiling};

    ghost Value = { JoinTiling };

    ghost view = { λ join. record {
      a = join.coarse.plan.grid.rows.now;
      b = join.coarse.plan.grid.columns.now;
      m = join.coarse.plan.grid.m;
      tiles = join.cut;
    } };

    ghost invariant = { λ join. IsJoinTiling join.coarse.plan join.cut × IsTurned join.coarse.plan join.turned.plan };
}

impl<'a> JoinTiles<'a> {
    /// The coarse sums of both series, in some 10 bytes for each sample. None where they wouldn't pay, as where one of
    /// them has few windows.
    pub fn sums(&self, alloc: Global) -> Result<Option<SummedBoth<'a>>, Memory>
        ensures a { IfOk result (λ found. IfSome found (λ sums. sums.plan.grid.rows.now ≡ self.now.a)) }
        ensures b { IfOk result (λ found. IfSome found (λ sums. sums.plan.grid.columns.now ≡ self.now.b)) }
        ensures m { IfOk result (λ found. IfSome found (λ sums. sums.plan.grid.m ≡ self.now.m)) }
    {
        let columns = windows(self.plan.grid.columns.len() as u64, self.plan.rounding.m);
        if self.size().min(columns) < LEAST_WINDOWS || self.plan.grid.m < LEAST_SAMPLES {
            return Ok(None);
        }
        Ok(Some(self.sums_of(alloc, eights_for(self.plan.grid.m))?))
    }

    /// The coarse sums of both series, of `8 * eights` samples each.
    pub fn sums_of(&self, alloc: Global, eights: usize) -> Result<SummedBoth<'a>, Memory>
        requires some { 1 ≤ eights }
        requires few { eights ≤ 8 }
        requires wide { 8 * eights ≤ self.now.m }
        ensures a { IfOk result (λ sums. sums.plan.grid.rows.now ≡ self.now.a) }
        ensures b { IfOk result (λ sums. sums.plan.grid.columns.now ≡ self.now.b) }
        ensures m { IfOk result (λ sums. sums.plan.grid.m ≡ self.now.m) }
    {
        SummedBoth::of(alloc, &self.plan, eights)
    }

    /// The same tiles in coarse sums. It takes no memory.
    pub fn by_sums<'b>(self, sums: &'b SummedBoth) -> SummedJoin<'b>
        requires a { sums.now.plan.grid.rows.now ≡ self.a }
        requires b { sums.now.plan.grid.columns.now ≡ self.b }
        requires m { sums.now.plan.grid.m ≡ self.m }
        ensures a { result.a ≡ self.entry.a }
        ensures b { result.b ≡ self.entry.b }
        ensures m { result.m ≡ self.entry.m }
        ensures tiles { result.tiles ≡ self.entry.tiles }
    {
        let JoinTiles { plan: _, cut } = self;
        SummedJoin {
            coarse: sums.coarse(),
            turned: sums.turned(&transposed(&sums.plan)),
            cut,
            is_tried: true,
        }
    }
}

impl<'a> SummedJoin<'a> {
    /// Room for the pairs of windows that are likely near, some 4 bytes for a window at most. None of them is found
    /// yet.
    pub fn seeds(&self, alloc: Global) -> Result<JoinSeeds, Memory> {
        Ok(JoinSeeds {
            later: Seeds::of_rows(alloc, &self.coarse, 0)?,
            earlier: Seeds::of_columns(alloc, &self.turned, 1)?,
        })
    }

    /// Offers windows of `a` a share of those of `b` that are likely near, of so many shares. With the values of all
    /// tiles it makes what these make without, and where they begin with it more pairs can be passed over. It takes no
    /// memory.
    pub fn begin(&self, seeds: &JoinSeeds, share: u32, shares: u32, into: &mut Slots)
        requires share { share < shares }
        requires size { length into.old.items ≡ join_size self.now }
        ensures whole { merged_columns (into.new.items ∷ []) (join_whole self.now)
            ≡ merged_columns (into.old.items ∷ []) (join_whole self.now) }
        ensures size { length into.new.items ≡ length into.old.items }
        ensures is_value { HasColumns 1 (length into.new.items) (into.new.items ∷ []) }
        ensures spare { into.new.spare ≡ into.old.spare }
    {
        take_join_seeds(&self.coarse, &self.turned, seeds, share, shares, into);
    }

    /// Merges the values of all tiles into what there is already, one after another. It takes no memory.
    pub fn run_all(&self, into: &mut Slots)
        requires size { length into.old.items ≡ join_size self.now }
        ensures value { into.new.items ∷ [] ≡ merged_columns (into.old.items ∷ []) (join_together self.now) }
        ensures size { length into.new.items ≡ join_size self.now }
    {
        for piece in 0..self.pieces() {
            self.run(piece, into);
        }
    }

    /// The same tiles, where no blocks are tried before a tile is scanned in coarse sums.
    pub fn untried(self) -> SummedJoin<'a>
        ensures { result ≡ self.entry }
    {
        SummedJoin {
            is_tried: false,
            ..self
        }
    }
}

impl<'a> Kernel for SummedJoin<'a> {
    ghost use Rattle.std.specs.Prelude.{◌-◌, length, slice_index_or};
    ghost use Rattle.mp_cuts.specs.Pairs.{has_pair, no_tile};
    ghost use Rattle.mp_tiles.specs.Pieces.{join_size, join_value, column_has_places};

    type Out = Slots;

    ghost size_of = { join_size };

    ghost pieces_of = { λ join. length join.tiles };

    ghost value_of = { join_value };

    ghost has_values = { λ join piece _.
        column_has_places (has_pair (join_size join - 1) (slice_index_or join.tiles piece no_tile)) join.m join.a
        join.b };

    fn size(&self) -> u64 {
        windows(
            self.coarse.plan.grid.rows.len() as u64,
            self.coarse.plan.rounding.m,
        )
    }

    fn pieces(&self) -> u64 {
        self.cut.count()
    }

    fn run(&self, piece: u64, into: &mut Slots) {
        scan_join_by_sums(&self.coarse, &self.cut.tile(piece), self.is_tried, into);
    }
}
