//! Groups of diagonals, block by block.

ghost use Rattle.std.specs.Prelude.{◌≡◌, ◌+◌, ◌-◌, ◌*◌, ◌^◌, ◌<◌, ◌≤◌, length};
ghost use Rattle.std.specs.Int.{div_ceil};
ghost use Rattle.mp_scans.specs.Blocks.{AreStripResidues};
ghost use Rattle.mp_scans.specs.Exacts.{AreExacts, AreExactsIn};
ghost use Rattle.mp_scans.specs.Limiting.{IsKnown, first_on};
ghost use Rattle.mp_scans.specs.Offering.{in_block};
ghost use Rattle.mp_scans.specs.Windows.{row_windows, column_windows, FitIn, AreScannedIn};
ghost use Rattle.mp_scans.specs.declared.sizes.TheConstants.{COLUMNS, GROUP, ROWS};

use crate::blocks::{Block, Changes, Known, Strip};
use crate::firsts::{fill_windows, start_residues};
use crate::limits::{fill_column_limits, fill_row_limits};
use crate::marks::mark_free;
use crate::offers::Offers;
use crate::plans::{Plan, count_columns};
use crate::sizes::{COLUMNS, GROUP, MARKS, ROOM, ROWS};
use crate::strips::scan_strip;
use crate::vectors::LANES;
use mp_sums::NEVER;

/// Successive diagonals of two series, from `first` on.
#[derive(Clone, Copy)]
pub(crate) struct Group<'a> {
    pub(crate) plan: Plan<'a>,
    pub(crate) first: usize,
    /// How many there are.
    pub(crate) width: usize,
    ghost some: { 1 ≤ width },
    ghost few: { width ≤ GROUP },
}

/// Successive rows of a group, from `row` on.
#[derive(Clone, Copy)]
struct Rows<'a> {
    group: Group<'a>,
    row: usize,
    /// How many there are.
    count: usize,
    ghost some: { 1 ≤ count },
    ghost few: { count ≤ ROWS },
    ghost are_rows: { row + count ≤ row_windows group.plan.grid },
    ghost column: { row + group.first < 2 ^ 31 },
}

/// Takes the pairs of a block, strip by strip. The last strip has a column's first rows, and so comes first: a later
/// row at the same distance gives the column nothing.
fn scan_block<O: Offers>(block: &Block, residues: &mut [i32], known: &mut Known, into: &mut O::Into)
    requires strips { length residues.old ≡ div_ceil block.now.width 32 * 32 }
    requires apart { block.now.row + O.least ≤ block.now.column }
    requires residues { AreStripResidues block.now.grid block.now.rounding.shift block.now.row block.now.column
        residues.old }
    requires known { IsKnown O.fits O.keeps_row O.keeps_column block.now (first_on (div_ceil block.now.width 32 * 32))
        known.old into.old }
    ensures exacts { AreExactsIn block.now known.new.exacts }
    ensures scanned { AreScannedIn O.is_scanned block.now.grid (in_block (block.now.column - block.now.row)
        (block.now.column - block.now.row + block.now.width) block.now.row
        (block.now.row + length block.now.rows.differences.now)) into.old into.new }
    ensures residues { AreStripResidues block.now.grid block.now.rounding.shift
        (block.now.row + length block.now.rows.differences.now)
        (block.now.column + length block.now.rows.differences.now) residues.new }
    ensures places { length residues.new ≡ length residues.old }
{
    let columns = count_columns(&block.grid);
    let mut strips = block.width.div_ceil(LANES);
    while strips > 0 {
        strips -= 1;
        let offset = strips * LANES;
        let left = columns.saturating_sub(block.column + offset);
        let width = (block.width - offset).min(LANES);
        let end = block.rows.differences.len().min(left);
        let strip = Strip {
            block: *block,
            offset,
            width,
            end,
        };
        scan_strip::<O>(&strip, residues, known, into);
    }
}

/// Takes the pairs of some rows on the diagonals of their group.
fn scan_rows<O: Offers>(
    rows: &Rows,
    room: &mut [i32; ROOM],
    marks: &mut [bool; MARKS],
    residues: &mut [i32],
    known: &mut Known,
    into: &mut O::Into,
)
    requires strips { length residues.old ≡ div_ceil rows.now.group.width 32 * 32 }
    requires apart { O.least ≤ rows.now.group.first }
    requires residues { AreStripResidues rows.now.group.plan.grid rows.now.group.plan.rounding.shift rows.now.row
        (rows.now.row + rows.now.group.first) residues.old }
    requires exacts { AreExacts rows.now.group.plan.grid rows.now.group.first known.old.exacts }
    requires fits { FitIn O.fits rows.now.group.plan.grid into.old }
    ensures exacts { AreExacts rows.now.group.plan.grid rows.now.group.first known.new.exacts }
    ensures scanned { AreScannedIn O.is_scanned rows.now.group.plan.grid
        (in_block rows.now.group.first (rows.now.group.first + rows.now.group.width) rows.now.row
        (rows.now.row + rows.now.count)) into.old into.new }
    ensures residues { AreStripResidues rows.now.group.plan.grid rows.now.group.plan.rounding.shift
        (rows.now.row + rows.now.count) (rows.now.row + rows.now.group.first + rows.now.count) residues.new }
    ensures places { length residues.new ≡ length residues.old }
{
    let Rows { group, row, count } = *rows;
    let (grid, rounding) = (group.plan.grid, group.plan.rounding);
    let column = row + group.first;
    let columns = count + group.width.div_ceil(LANES) * LANES - 1;
    let (row_differences, room) = room[..].split_at_mut(ROWS);
    let (row_sums, room) = room.split_at_mut(ROWS);
    let (column_differences, room) = room.split_at_mut(COLUMNS);
    let (column_sums, numbers) = room.split_at_mut(COLUMNS);
    let (free_rows, free_columns) = marks[..].split_at_mut(ROWS);
    fill_windows(
        &rounding,
        grid.rows,
        row,
        numbers,
        &mut row_differences[..count],
        &mut row_sums[..count],
    );
    fill_windows(
        &rounding,
        grid.columns,
        column,
        numbers,
        &mut column_differences[..columns],
        &mut column_sums[..columns],
    );
    mark_free(grid.rows, grid.m, row, &mut free_rows[..count]);
    mark_free(grid.columns, grid.m, column, &mut free_columns[..columns]);
    let block = Block {
        grid,
        rounding,
        is_exact: group.plan.is_exact,
        row,
        column,
        width: group.width,
        rows: Changes {
            differences: &row_differences[..count],
            sums: &row_sums[..count],
        },
        columns: Changes {
            differences: &column_differences[..columns],
            sums: &column_sums[..columns],
        },
        free_rows: &free_rows[..count],
        free_columns: &free_columns[..columns],
    };
    fill_row_limits::<O>(&block, &mut known.rows, into);
    fill_column_limits::<O>(
        &block,
        group.width.div_ceil(LANES) * LANES,
        &mut known.columns,
        into,
    );
    scan_block::<O>(&block, residues, known, into);
}

/// Takes the pairs of the rows from `top` on and before `bottom` on the diagonals of a group. Each strip of these has
/// thirty-two places for residues.
pub(crate) fn scan_group<O: Offers>(group: &Group, top: usize, bottom: usize, into: &mut O::Into)
    requires top { top ≤ bottom }
    requires bottom { bottom ≤ row_windows group.now.plan.grid }
    requires within { top + group.now.first ≤ column_windows group.now.plan.grid }
    requires apart { O.least ≤ group.now.first }
    requires fits { FitIn O.fits group.now.plan.grid into.old }
    ensures scanned { AreScannedIn O.is_scanned group.now.plan.grid
        (in_block group.now.first (group.now.first + group.now.width) top bottom) into.old into.new }
{
    let mut places = [0; GROUP];
    let residues = &mut places[..group.width.div_ceil(LANES) * LANES];
    start_residues(&group.plan, top, top + group.first, residues);
    let columns = count_columns(&group.plan.grid);
    let end = bottom.min(columns - group.first);
    let (mut room, mut marks) = ([0; ROOM], [false; MARKS]);
    let mut known = Known {
        rows: [NEVER; ROWS],
        columns: [NEVER; COLUMNS],
        exacts: [None; GROUP],
    };
    let mut row = top;
    while row < end {
        let count = (end - row).min(ROWS);
        let rows = Rows {
            group: *group,
            row,
            count,
        };
        scan_rows::<O>(&rows, &mut room, &mut marks, residues, &mut known, into);
        row += count;
    }
}
