//! The residues with which a group of diagonals starts, and the changes by which they run on.

ghost use Rattle.std.specs.Prelude.{◌≡◌, ◌+◌, ◌^◌, ◌<◌, ◌≤◌, min, length};
ghost use Rattle.mp_defs.specs.Series.{series_of};
ghost use Rattle.mp_sums.specs.Sums.{numbers_of};
ghost use Rattle.mp_sums.specs.Grids.{row_numbers, column_numbers};
ghost use Rattle.mp_sums.specs.Rounding.{rounded};
ghost use Rattle.mp_sums.specs.Residues.{AreChanges};
ghost use Rattle.mp_sums.specs.Rows.{AreResidues};
ghost use Rattle.mp_scans.specs.Blocks.{AreStripResidues};
ghost use Rattle.mp_scans.specs.declared.sizes.TheConstants.{COLUMNS, GROUP, SHORT, TAKEN};

use crate::plans::Plan;
use crate::sizes::{COLUMNS, GROUP, SHORT, TAKEN};
use mp_nums::Sample;
use mp_sums::{Rounding, add_numbers, clear_residues, fill_changes};

/// What comes in and what goes where windows of few samples move on by one, from numbers that are taken once.
fn fill_short(
    rounding: &Rounding,
    samples: &[Sample],
    start: usize,
    numbers: &mut [i32],
    differences: &mut [i32],
    sums: &mut [i32],
)
    requires short { rounding.now.m ≤ SHORT }
    requires room { COLUMNS + SHORT ≤ length numbers.old }
    requires start { start < 2 ^ 31 }
    requires few { length differences.old ≤ COLUMNS }
    requires sums { length sums.old ≡ length differences.old }
    ensures changes { AreChanges rounding.now.m (rounded rounding.now.shift (numbers_of (series_of samples.now))) start
        differences.new sums.new }
    ensures places { length differences.new ≡ length differences.old }
{
    let (count, m) = (differences.len(), rounding.m as usize);
    let filled = &mut numbers[..count + m];
    rounding.fill(samples, start, filled);
    let numbers = &filled[..];
    fill_changes(&numbers[..count], &numbers[m..], differences, sums);
}

/// The same of windows of any length.
fn fill_long(
    rounding: &Rounding,
    samples: &[Sample],
    start: usize,
    differences: &mut [i32],
    sums: &mut [i32],
)
    requires start { start < 2 ^ 31 }
    requires few { length differences.old ≤ COLUMNS }
    requires sums { length sums.old ≡ length differences.old }
    ensures changes { AreChanges rounding.now.m (rounded rounding.now.shift (numbers_of (series_of samples.now))) start
        differences.new sums.new }
    ensures places { length differences.new ≡ length differences.old }
{
    let (mut leaves, mut enters) = ([0; COLUMNS], [0; COLUMNS]);
    let leaves = &mut leaves[..differences.len()];
    let enters = &mut enters[..differences.len()];
    rounding.fill(samples, start, leaves);
    rounding.fill(samples, start + rounding.m as usize, enters);
    fill_changes(leaves, enters, differences, sums);
}

/// What comes in and what goes where the windows from `start` on move on by one.
pub fn fill_windows(
    rounding: &Rounding,
    samples: &[Sample],
    start: usize,
    numbers: &mut [i32],
    differences: &mut [i32],
    sums: &mut [i32],
)
    requires room { COLUMNS + SHORT ≤ length numbers.old }
    requires start { start < 2 ^ 31 }
    requires few { length differences.old ≤ COLUMNS }
    requires sums { length sums.old ≡ length differences.old }
    ensures changes { AreChanges rounding.now.m (rounded rounding.now.shift (numbers_of (series_of samples.now))) start
        differences.new sums.new }
    ensures places { length differences.new ≡ length differences.old }
{
    if rounding.m as usize <= SHORT {
        fill_short(rounding, samples, start, numbers, differences, sums);
    } else {
        fill_long(rounding, samples, start, differences, sums);
    }
}

/// Takes up to `TAKEN` samples behind the first `taken` of each window into residues, and tells how many are taken
/// then.
fn add_samples(plan: &Plan, row: usize, column: usize, taken: usize, residues: &mut [i32]) -> usize
    requires row { row < 2 ^ 31 }
    requires column { column < 2 ^ 31 }
    requires few { length residues.old ≤ GROUP }
    requires within { taken < plan.now.grid.m }
    requires residues { AreResidues taken (rounded plan.now.rounding.shift (row_numbers plan.now.grid)) row
        (rounded plan.now.rounding.shift (column_numbers plan.now.grid)) column residues.old }
    ensures taken { result ≡ min (taken + TAKEN) plan.now.grid.m }
    ensures residues { AreResidues result (rounded plan.now.rounding.shift (row_numbers plan.now.grid)) row
        (rounded plan.now.rounding.shift (column_numbers plan.now.grid)) column residues.new }
    ensures places { length residues.new ≡ length residues.old }
{
    let (mut rows, mut columns) = ([0; TAKEN], [0; TAKEN + GROUP]);
    let count = (plan.grid.m - taken).min(TAKEN);
    let rows = &mut rows[..count];
    let columns = &mut columns[..count + residues.len()];
    plan.rounding.fill(plan.grid.rows, row + taken, rows);
    plan.rounding
        .fill(plan.grid.columns, column + taken, columns);
    add_numbers(rows, columns, residues);
    taken + count
}

/// The first residues of a row and of the columns from one on.
pub fn start_residues(plan: &Plan, row: usize, column: usize, residues: &mut [i32])
    requires row { row < 2 ^ 31 }
    requires column { column < 2 ^ 31 }
    requires few { length residues.old ≤ GROUP }
    ensures residues { AreStripResidues plan.now.grid plan.now.rounding.shift row column residues.new }
    ensures places { length residues.new ≡ length residues.old }
{
    clear_residues(residues);
    let mut taken = 0;
    while taken < plan.grid.m {
        taken = add_samples(plan, row, column, taken, residues);
    }
}
