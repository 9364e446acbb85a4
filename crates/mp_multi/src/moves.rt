//! What comes in and what goes where the windows of several channels move on.

ghost use Rattle.std.specs.Prelude.{◌≡◌, ◌+◌, ◌^◌, ◌<◌, ◌≤◌, length};
ghost use Rattle.mp_scans.specs.declared.sizes.TheConstants.{ROWS};
ghost use Rattle.mp_multi.specs.declared.sizes.TheConstants.{WIDE};
ghost use Rattle.mp_multi.specs.Moving.{IsMoved, AreMoved, channel_numbers};

use crate::plans::MultiPlan;
use crate::sizes::WIDE;
use mp_scans::{COLUMNS, ROWS, SHORT, fill_windows};

/// What comes in and what goes where the windows of a channel move on by one: as rows and as columns, their differences
/// and their sums.
#[derive(Clone, Copy)]
pub(crate) struct Moves {
    pub(crate) row_differences: [i32; ROWS],
    pub(crate) row_sums: [i32; ROWS],
    pub(crate) column_differences: [i32; WIDE],
    pub(crate) column_sums: [i32; WIDE],
}

/// No moves.
pub(crate) const NO_MOVES: Moves = Moves {
    row_differences: [0; ROWS],
    row_sums: [0; ROWS],
    column_differences: [0; WIDE],
    column_sums: [0; WIDE],
};

/// The moves of a channel's rows from one on, and of its columns from one on.
fn fill_channel(
    plan: &MultiPlan,
    n: usize,
    row: usize,
    column: usize,
    numbers: &mut [i32],
    moves: &mut Moves,
)
    requires channel { n < length plan.now.channels.list.now }
    requires row { row < 2 ^ 31 }
    requires column { column < 2 ^ 31 }
    requires room { COLUMNS + SHORT ≤ length numbers.old }
    ensures { IsMoved plan.now.channels.m (channel_numbers plan.now.shift plan.now.channels.list.now n) row column
        moves.new }
{
    let rounding = plan.rounding();
    let channel = plan.channels.list.series(n as u64);
    fill_windows(
        &rounding,
        channel,
        row,
        numbers,
        &mut moves.row_differences,
        &mut moves.row_sums,
    );
    fill_windows(
        &rounding,
        channel,
        column,
        numbers,
        &mut moves.column_differences,
        &mut moves.column_sums,
    );
}

/// The same of each channel.
pub(crate) fn fill_moves(plan: &MultiPlan, row: usize, column: usize, moves: &mut [Moves])
    requires channels { length moves.old ≡ length plan.now.channels.list.now }
    requires row { row < 2 ^ 31 }
    requires column { column < 2 ^ 31 }
    ensures moved { AreMoved plan.now.channels.m plan.now.shift plan.now.channels.list.now row column moves.new }
    ensures places { length moves.new ≡ length moves.old }
{
    let mut numbers = [0; COLUMNS + SHORT];
    for n in 0..moves.len() {
        fill_channel(plan, n, row, column, &mut numbers, &mut moves[n]);
    }
}
