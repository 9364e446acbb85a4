//! Groups of diagonals of several channels, block by block.

ghost use Rattle.std.specs.Prelude.{◌≡◌, ◌+◌, ◌-◌, ◌*◌, ◌^◌, ◌<◌, ◌≤◌, length, map, min};
ghost use Rattle.std.specs.Int.{div_ceil};
ghost use Rattle.mp_defs.specs.Series.{series_of};
ghost use Rattle.mp_scans.specs.Limiting.{first_on};
ghost use Rattle.mp_scans.specs.Offering.{in_block};
ghost use Rattle.mp_scans.specs.declared.sizes.TheConstants.{ROWS};
ghost use Rattle.mp_multi.specs.Lanes.{AreChannelResidues};
ghost use Rattle.mp_multi.specs.Blocks.{AreKeptIn, AreLimits, AreScannedIn, AreScannedBy, AreStripsAt, AreFit};
ghost use Rattle.mp_multi.specs.Exacts.{AreKept};
ghost use Rattle.mp_multi.specs.Tiling.{window_count};
ghost use Rattle.mp_multi.specs.declared.sizes.TheConstants.{STRIPS, WIDE, WIDTH};

use crate::blocks::{Block, Known, Strip};
use crate::moves::{Moves, NO_MOVES, fill_moves};
use crate::plans::MultiPlan;
use crate::running::Running;
use crate::sides::{fill_column_limits, fill_row_limits};
use crate::sizes::{STRIPS, WIDE, WIDTH};
use crate::strips::scan_strip;
use mp_nums::Slots;
use mp_scans::{LANES, ROWS, start_residues};
use mp_sums::NEVER;

/// Successive diagonals of the channels, from `first` on.
#[derive(Clone, Copy)]
pub(crate) struct Group<'a> {
    pub(crate) plan: MultiPlan<'a>,
    /// How many windows the channels have.
    pub(crate) windows: usize,
    pub(crate) first: usize,
    /// How many there are.
    pub(crate) width: usize,
    ghost few: { width ≤ WIDTH },
    ghost all_windows: { windows ≡ window_count plan.channels.m plan.channels.list.now },
}

/// Successive rows of a group, from `row` on.
#[derive(Clone, Copy)]
struct Rows<'a> {
    group: Group<'a>,
    row: usize,
    /// How many there are.
    count: usize,
    ghost some: { 1 ≤ count },
    ghost few: { count ≤ ROWS },
    ghost are_rows: { row + group.first + count ≤ group.windows },
}

/// The residues of a window and of thirty-two others in each channel.
fn start_strip(plan: &MultiPlan, row: usize, column: usize, residues: &mut [[i32; LANES]])
    requires channels { length residues.old ≡ length plan.now.channels.list.now }
    requires row { row < 2 ^ 31 }
    requires column { column < 2 ^ 31 }
    ensures { column < window_count plan.now.channels.m plan.now.channels.list.now
        → AreChannelResidues plan.now.channels.m plan.now.shift (map series_of plan.now.channels.list.now) row column
        residues.new }
{
    for n in 0..residues.len() {
        let channel = plan.plan(n);
        start_residues(&channel, row, column, &mut residues[n]);
    }
}

/// The same of a row and of the strips of a group's diagonals.
fn start_strips<const D: usize>(group: &Group, row: usize, places: &mut [[[i32; LANES]; D]])
    requires channels { length group.now.plan.channels.list.now ≡ D }
    requires row { row + group.now.first < 2 ^ 30 }
    requires places { length places.old ≡ STRIPS }
    ensures residues { AreStripsAt group.now.plan group.now.windows (div_ceil group.now.width 32) row
        (row + group.now.first) places.new }
    ensures places { length places.new ≡ STRIPS }
{
    for s in 0..group.width.div_ceil(LANES) {
        start_strip(
            &group.plan,
            row,
            row + group.first + s * LANES,
            &mut places[s],
        );
    }
}

/// Takes the pairs of a block, strip by strip. The last strip has a column's first rows, and so comes first: a later
/// row of the same value gives the column nothing.
fn scan_block<const D: usize>(
    block: &Block,
    known: &mut Known,
    running: &mut [[Running; D]],
    places: &mut [[[i32; LANES]; D]],
    into: &mut Slots,
)
    requires channels { length block.now.moves.now ≡ D }
    requires windows { length into.old.items ≡ block.now.windows }
    requires places { length places.old ≡ STRIPS }
    requires limits { AreLimits block.now (first_on (div_ceil block.now.width 32 * 32)) known.old into.old.items }
    requires kept { AreKeptIn block.now known.old.kept running.old }
    requires residues { AreStripsAt block.now.plan block.now.windows (div_ceil block.now.width 32) block.now.row
        block.now.column places.old }
    ensures scanned { AreScannedIn block.now (in_block (block.now.column - block.now.row)
        (block.now.column - block.now.row + block.now.width) block.now.row (block.now.row + block.now.rows)) into.old
        into.new }
    ensures windows { length into.new.items ≡ block.now.windows }
    ensures kept { AreKeptIn block.now known.new.kept running.new }
    ensures residues { AreStripsAt block.now.plan block.now.windows (div_ceil block.now.width 32)
        (block.now.row + block.now.rows) (block.now.column + block.now.rows) places.new }
    ensures fit { AreFit known.new }
    ensures places { length places.new ≡ STRIPS }
{
    let mut strips = block.width.div_ceil(LANES);
    while strips > 0 {
        strips -= 1;
        let offset = strips * LANES;
        let left = block.windows.saturating_sub(block.column + offset);
        let width = (block.width - offset).min(LANES);
        let end = block.rows.min(left);
        let strip = Strip {
            block: *block,
            offset,
            width,
            end,
        };
        scan_strip::<D>(&strip, known, running, &mut places[strips], into);
    }
}

/// Takes the pairs of some rows on the diagonals of their group.
fn scan_rows<const D: usize>(
    rows: &Rows,
    moves: &mut [Moves],
    known: &mut Known,
    running: &mut [[Running; D]],
    places: &mut [[[i32; LANES]; D]],
    into: &mut Slots,
)
    requires channels { length rows.now.group.plan.channels.list.now ≡ D }
    requires moves { length moves.old ≡ D }
    requires windows { length into.old.items ≡ rows.now.group.windows }
    requires places { length places.old ≡ STRIPS }
    requires limits { AreFit known.old }
    requires kept { AreKept rows.now.group.plan.channels.m rows.now.group.plan.channels.list.now rows.now.group.first
        known.old.kept running.old }
    requires residues { AreStripsAt rows.now.group.plan rows.now.group.windows (div_ceil rows.now.group.width 32)
        rows.now.row (rows.now.row + rows.now.group.first) places.old }
    ensures scanned { AreScannedBy rows.now.group.plan (in_block rows.now.group.first
        (rows.now.group.first + rows.now.group.width) rows.now.row (rows.now.row + rows.now.count)) into.old into.new }
    ensures windows { length into.new.items ≡ rows.now.group.windows }
    ensures kept { AreKept rows.now.group.plan.channels.m rows.now.group.plan.channels.list.now rows.now.group.first
        known.new.kept running.new }
    ensures residues { AreStripsAt rows.now.group.plan rows.now.group.windows (div_ceil rows.now.group.width 32)
        (rows.now.row + rows.now.count) (rows.now.row + rows.now.group.first + rows.now.count) places.new }
    ensures fit { AreFit known.new }
    ensures places { length places.new ≡ STRIPS }
    ensures moves { length moves.new ≡ D }
{
    let Rows { group, row, count } = *rows;
    let column = row + group.first;
    fill_moves(&group.plan, row, column, moves);
    let block = Block {
        plan: group.plan,
        row,
        column,
        width: group.width,
        rows: count,
        windows: group.windows,
        moves,
    };
    fill_row_limits(&block, &mut known.rows, into);
    let width = group.width.div_ceil(LANES) * LANES;
    fill_column_limits(&block, width, &mut known.columns, into);
    scan_block::<D>(&block, known, running, places, into);
}

/// Takes the pairs of the rows from `top` on and before `bottom` on the diagonals of a group.
pub(crate) fn scan_group<const D: usize>(group: &Group, top: usize, bottom: usize, into: &mut Slots)
    requires channels { length group.now.plan.channels.list.now ≡ D }
    requires windows { length into.old.items ≡ group.now.windows }
    requires within { top + group.now.first < group.now.windows }
    ensures scanned { AreScannedBy group.now.plan (in_block group.now.first (group.now.first + group.now.width) top
        bottom) into.old into.new }
    ensures windows { length into.new.items ≡ group.now.windows }
{
    let mut places = [[[0; LANES]; D]; STRIPS];
    start_strips::<D>(group, top, &mut places);
    let mut moves = [NO_MOVES; D];
    let mut known = Known {
        rows: [NEVER; ROWS],
        columns: [NEVER; WIDE],
        kept: [None; WIDTH],
    };
    let mut running = [[Running::none(); D]; WIDTH];
    let end = bottom.min(group.windows - group.first);
    let mut row = top;
    while row < end {
        let count = (end - row).min(ROWS);
        let rows = Rows {
            group: *group,
            row,
            count,
        };
        scan_rows::<D>(
            &rows,
            &mut moves,
            &mut known,
            &mut running,
            &mut places,
            into,
        );
        row += count;
    }
}
