//! The limits of a block's rows and columns, as residues.

ghost use Rattle.std.specs.Prelude.{◌≡◌, ℕ, ◌+◌, ◌<◌, ◌≤◌, length, slice_index_or, map, None, FitsSigned};
ghost use Rattle.std.specs.Int.{w32};
ghost use Rattle.mp_defs.specs.Series.{series_of};
ghost use Rattle.mp_sums.specs.Residues.{item};
ghost use Rattle.mp_scans.specs.Limiting.{first_on};
ghost use Rattle.mp_scans.specs.declared.sizes.TheConstants.{ROWS};
ghost use Rattle.mp_multi.specs.Lanes.{IsSlotLimit};
ghost use Rattle.mp_multi.specs.Blocks.{IsLimitIn, AreRowLimits, AreColumnLimits};
ghost use Rattle.mp_multi.specs.declared.sizes.TheConstants.{WIDE};

use crate::blocks::Block;
use crate::plans::MultiPlan;
use mp_nums::Slots;
use mp_scans::limit_of;
use mp_sums::NEVER;

/// The limit of a window: others from `first` on whose lane is above it give the window nothing.
#[inline]
pub(crate) fn window_limit(plan: &MultiPlan, window: usize, first: usize, into: &Slots) -> i32
    requires window { window < length into.now.items }
    ensures { IsSlotLimit plan.now.channels.m plan.now.channels.k plan.now.shift
        (map series_of plan.now.channels.list.now) (slice_index_or into.now.items window None) window first result }
{
    let limit = limit_of(&into.as_slice()[window], first as u64);
    plan.together().residue_limit(limit)
}

/// The limits of all rows.
pub(crate) fn fill_row_limits(block: &Block, limits: &mut [i32], into: &Slots)
    requires places { length limits.old ≡ ROWS }
    requires windows { length into.now.items ≡ block.now.windows }
    ensures limits { AreRowLimits block.now limits.new into.now.items }
{
    for p in 0..block.rows {
        limits[p] = window_limit(&block.plan, block.row + p, block.column + p, into);
    }
}

/// The limit of a column to which rows from one on are still offered, and the least number where it isn't a window.
#[inline]
fn column_limit(block: &Block, first: usize, c: usize, into: &Slots) -> i32
    requires windows { length into.now.items ≡ block.now.windows }
    requires column { c < WIDE }
    requires first { first ≤ c + 1 }
    ensures fits { FitsSigned w32 result }
    ensures limit { block.now.column + c < block.now.windows
        → IsLimitIn block.now into.now.items (block.now.column + c) (block.now.row + first) result }
{
    if block.column + c < block.windows {
        window_limit(&block.plan, block.column + c, block.row + first, into)
    } else {
        NEVER
    }
}

/// The limits of all columns, to which rows are offered on the block's first diagonals, as many as `width` says.
pub(crate) fn fill_column_limits(block: &Block, width: usize, limits: &mut [i32], into: &Slots)
    requires places { length limits.old ≡ WIDE }
    requires windows { length into.now.items ≡ block.now.windows }
    ensures limits { AreColumnLimits block.now (first_on width) limits.new into.now.items }
{
    for c in 0..limits.len() {
        let first = (c + 1).saturating_sub(width);
        limits[c] = column_limit(block, first, c, into);
    }
}
