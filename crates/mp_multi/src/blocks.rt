//! Some rows and some columns of several channels, by the changes of which residues run.

ghost use Rattle.std.specs.Prelude.{◌≡◌, ◌+◌, ◌^◌, ◌<◌, ◌≤◌, length};
ghost use Rattle.mp_scans.specs.declared.sizes.TheConstants.{ROWS};
ghost use Rattle.mp_multi.specs.declared.sizes.TheConstants.{WIDTH};
ghost use Rattle.mp_multi.specs.Moving.{AreMoved};
ghost use Rattle.mp_multi.specs.Tiling.{window_count};

use crate::moves::Moves;
use crate::plans::MultiPlan;
use crate::sizes::{WIDE, WIDTH};
use mp_scans::ROWS;

/// Some rows and some columns of the channels. The first row is the window at `row`, and the first column the one at
/// `column`. Pairs of them are scanned on as many successive diagonals as `width` says, of which the first has both.
#[derive(Clone, Copy)]
pub(crate) struct Block<'a> {
    pub(crate) plan: MultiPlan<'a>,
    pub(crate) row: usize,
    pub(crate) column: usize,
    pub(crate) width: usize,
    /// How many rows there are.
    pub(crate) rows: usize,
    /// How many windows the channels have.
    pub(crate) windows: usize,
    pub(crate) moves: &'a [Moves],
    ghost channels: { length moves.now ≡ length plan.channels.list.now },
    ghost some_rows: { 1 ≤ rows },
    ghost few_rows: { rows ≤ ROWS },
    ghost few_diagonals: { width ≤ WIDTH },
    ghost order: { row ≤ column },
    ghost column_place: { column < 2 ^ 31 },
    ghost all_windows: { windows ≡ window_count plan.channels.m plan.channels.list.now },
    ghost are_rows: { row + rows ≤ windows },
    ghost changes: { AreMoved plan.channels.m plan.shift plan.channels.list.now row column moves.now },
}

/// Successive diagonals of a block, of which some are scanned, and the residues of thirty-two are run. On the first of
/// them a row has the column that comes `offset` places later.
#[derive(Clone, Copy)]
pub(crate) struct Strip<'a> {
    pub(crate) block: Block<'a>,
    pub(crate) offset: usize,
    /// How many diagonals are scanned.
    pub(crate) width: usize,
    /// How many rows are scanned: those that have a column on the first of the diagonals.
    pub(crate) end: usize,
    ghost narrow: { width ≤ 32 },
    ghost diagonals: { offset + 32 ≤ WIDTH },
    ghost rows: { end ≤ block.rows },
    ghost are_columns: { 1 ≤ end → block.column + offset + end ≤ block.windows },
}

/// A row and a column, both counted from a block's first, and their lane.
#[derive(Clone, Copy)]
pub(crate) struct Pair {
    pub(crate) row: usize,
    pub(crate) column: usize,
    pub(crate) lane: i32,
}

/// What is known as the pairs of a group are offered.
#[derive(Clone, Copy)]
pub(crate) struct Known {
    /// The limits of a block's rows.
    pub(crate) rows: [i32; ROWS],
    /// Those of its columns.
    pub(crate) columns: [i32; WIDE],
    /// Of each diagonal the row of which something is kept, or none.
    pub(crate) kept: [Option<usize>; WIDTH],
}
