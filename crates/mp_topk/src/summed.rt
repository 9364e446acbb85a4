//! The tiles of a series in coarse sums, for ranks.

ghost use Rattle.std.specs.Prelude.{◌≡◌, ◌≤◌, length, IfOk, IfSome};
ghost use Rattle.mp_series.specs.declared.limits.TheConstants.{MAX_WINDOW, MIN_WINDOW};
ghost use Rattle.mp_defs.specs.Window.{windows as windows_in, excl as zone};
ghost use Rattle.mp_cuts.specs.declared.cuts.TheConstants.{MAX_TILE, MAX_TILES};
ghost use Rattle.mp_cuts.specs.Cutting.{own_tiles};
ghost use Rattle.mp_topk.specs.Sharing.{series_in};

use crate::entries::RankEntries;
use crate::kernels::RankTiles;
use mp_nums::Memory;
use mp_skips::Summed;
use mp_tiles::{MAX_TILE, MAX_TILES, OwnTiles};
use std::alloc::Global;

impl<'a, const K: usize> RankTiles<'a, K> {
    /// The coarse sums of the series, as the profile's tiles take them. None where they wouldn't pay.
    pub(crate) fn sums(&self, alloc: Global) -> Result<Option<Summed<'a>>, Memory>
        requires shortest { MIN_WINDOW ≤ self.now.m }
        requires longest { self.now.m ≤ MAX_WINDOW }
        ensures samples { IfOk result (λ found. IfSome found (λ sums. sums.plan.grid.rows.now ≡ self.now.samples)) }
        ensures m { IfOk result (λ found. IfSome found (λ sums. sums.plan.grid.m ≡ self.now.m)) }
    {
        OwnTiles::new(self.plan.grid.rows, self.plan.rounding.m, 1).sums(alloc)
    }

    /// The tiles of the same windows of at most `tile` diagonals, as those of a profile. It takes no memory.
    pub(crate) fn own(&self, tile: u32) -> OwnTiles<'a>
        requires shortest { MIN_WINDOW ≤ self.now.m }
        requires longest { self.now.m ≤ MAX_WINDOW }
        requires least { 1 ≤ tile }
        requires greatest { tile ≤ MAX_TILE }
        ensures samples { result.samples ≡ self.now.samples }
        ensures m { result.m ≡ self.now.m }
        ensures tiles { result.tiles ≡ own_tiles (windows_in (length self.now.samples) self.now.m) (zone self.now.m)
            tile }
        ensures few { length result.tiles ≤ MAX_TILES }
    {
        OwnTiles::new(self.plan.grid.rows, self.plan.rounding.m, tile)
    }

    /// The entries that several workers share. One worker shares with nobody.
    pub(crate) fn entries_for(
        &self,
        alloc: Global,
        workers: u32,
    ) -> Result<Option<RankEntries<'a, K>>, Memory>
        ensures { IfOk result (λ made. IfSome made (λ e. e ≡ series_in self.now)) }
    {
        if workers == 1 {
            return Ok(None);
        }
        Ok(Some(RankEntries::new(alloc, self.samples(), self.window())?))
    }
}
