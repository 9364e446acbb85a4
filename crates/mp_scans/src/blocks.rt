//! Some rows and some columns of two series, by the changes of which residues run.

ghost use Rattle.std.specs.Prelude.{◌≡◌, ◌+◌, ◌*◌, ◌^◌, ◌<◌, ◌≤◌, length, true};
ghost use Rattle.std.specs.Int.{div_ceil};
ghost use Rattle.mp_series.specs.declared.limits.TheConstants.{MAX_SAMPLES};
ghost use Rattle.mp_defs.specs.Series.{series_of};
ghost use Rattle.mp_sums.specs.Grids.{row_numbers, column_numbers};
ghost use Rattle.mp_sums.specs.Rounding.{rounded};
ghost use Rattle.mp_sums.specs.Residues.{AreChanges};
ghost use Rattle.mp_scans.specs.Free.{AreFree};
ghost use Rattle.mp_scans.specs.Distances.{AreDistances};
ghost use Rattle.mp_scans.specs.Windows.{row_windows, column_windows};
ghost use Rattle.mp_scans.specs.declared.sizes.TheConstants.{ROWS, COLUMNS, GROUP};

use crate::exacts::Exact;
use crate::sizes::{COLUMNS, GROUP, ROWS};
use mp_sums::{Grid, Rounding};
use std::simd::prelude::*;

/// What comes in and what goes where successive windows move on by one: their differences, and their sums.
#[derive(Clone, Copy)]
pub(crate) struct Changes<'a> {
    pub(crate) differences: &'a [i32],
    pub(crate) sums: &'a [i32],
}

/// Some rows and some columns of a grid. The first row is the window at `row`, and the first column the one at
/// `column`. Pairs of them are scanned on as many successive diagonals as `width` says, of which the first has both.
#[derive(Clone, Copy)]
pub(crate) struct Block<'a> {
    pub(crate) grid: Grid<'a>,
    pub(crate) rounding: Rounding,
    /// Whether residues tell distances.
    pub(crate) is_exact: bool,
    pub(crate) row: usize,
    pub(crate) column: usize,
    pub(crate) width: usize,
    pub(crate) rows: Changes<'a>,
    pub(crate) columns: Changes<'a>,
    /// Whether no sample of a row is missing.
    pub(crate) free_rows: &'a [bool],
    /// The same of the columns.
    pub(crate) free_columns: &'a [bool],
    ghost some_samples: { 1 ≤ grid.m },
    ghost some_rows: { 1 ≤ length rows.differences.now },
    ghost few_rows: { length rows.differences.now ≤ ROWS },
    ghost few_diagonals: { width ≤ GROUP },
    ghost few_columns: { length columns.differences.now ≤ COLUMNS },
    ghost few_samples: { length grid.columns.now ≤ MAX_SAMPLES },
    ghost order: { row ≤ column },
    ghost column_place: { column < 2 ^ 31 },
    ghost are_rows: { row + length rows.differences.now ≤ row_windows grid },
    ghost wide: { length rows.differences.now + div_ceil width 32 * 32 ≤ length columns.differences.now + 1 },
    ghost same_length: { rounding.m ≡ grid.m },
    ghost exact: { is_exact ≡ true → AreDistances grid rounding.shift },
    ghost row_changes: { AreChanges grid.m (rounded rounding.shift (row_numbers grid)) row rows.differences.now
        rows.sums.now },
    ghost column_changes: { AreChanges grid.m (rounded rounding.shift (column_numbers grid)) column
        columns.differences.now columns.sums.now },
    ghost row_marks: { AreFree grid.m (series_of grid.rows.now) row free_rows.now },
    ghost column_marks: { AreFree grid.m (series_of grid.columns.now) column free_columns.now },
    ghost row_places: { length free_rows.now ≡ length rows.differences.now },
    ghost column_places: { length free_columns.now ≡ length columns.differences.now },
}

/// Successive diagonals of a block, of which some are scanned, and the residues of thirty-two are run. On the first of
/// them a row has the column that comes `offset` places later.
#[derive(Clone, Copy)]
pub(crate) struct Strip<'a> {
    pub(crate) block: Block<'a>,
    pub(crate) offset: usize,
    /// How many diagonals are scanned.
    pub(crate) width: usize,
    /// How many rows are scanned: those that have a column on the first of the diagonals.
    pub(crate) end: usize,
    ghost some_diagonals: { 1 ≤ width },
    ghost narrow: { width ≤ 32 },
    ghost diagonals: { offset + 32 ≤ GROUP },
    ghost rows: { end ≤ length block.rows.differences.now },
    ghost columns: { end + offset + 31 ≤ length block.columns.differences.now },
    ghost are_columns: { 1 ≤ end → block.column + offset + end ≤ column_windows block.grid },
}

/// A row and a column, both counted from a block's first, and their residue.
#[derive(Clone, Copy)]
pub(crate) struct Pair {
    pub(crate) row: usize,
    pub(crate) column: usize,
    pub(crate) residue: i32,
}

/// A row, counted from a block's first, and the residues of it and of thirty-two columns, of which the first are
/// scanned.
#[derive(Clone, Copy)]
pub(crate) struct Row<'a> {
    pub(crate) place: usize,
    /// How many columns are scanned.
    pub(crate) width: usize,
    pub(crate) residues: &'a i32x32,
    ghost some_columns: { 1 ≤ width },
    ghost narrow: { width ≤ 32 },
}

/// What is known as the pairs of a group are offered.
#[derive(Clone, Copy)]
pub(crate) struct Known {
    /// The limits of a block's rows.
    pub(crate) rows: [i32; ROWS],
    /// Those of its columns.
    pub(crate) columns: [i32; COLUMNS],
    /// Of each diagonal a sum, or none.
    pub(crate) exacts: [Option<Exact>; GROUP],
}
