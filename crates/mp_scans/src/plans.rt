//! What is scanned.

ghost use Rattle.std.specs.Prelude.{◌≡◌, ◌≤◌, length, true};
ghost use Rattle.mp_series.specs.declared.limits.TheConstants.{MAX_SAMPLES};
ghost use Rattle.mp_scans.specs.Distances.{AreDistances, MayBeDistances};
ghost use Rattle.mp_scans.specs.Windows.{column_windows};

use crate::shifts::shift_for;
use mp_sums::{Grid, Rounding};

/// Two series whose windows are compared, and how their samples are rounded. Any rounding finds the same windows.
#[derive(Clone, Copy)]
pub struct Plan<'a> {
    pub grid: Grid<'a>,
    pub rounding: Rounding,
    /// Whether a residue tells the distance of its row and its column. Else that is computed from their samples.
    pub is_exact: bool,
    /// Whether the columns are windows of the rows' own series. Near ones are much alike then, and bring limits down
    /// first.
    pub is_own: bool,
    pub ghost some_samples: { 1 ≤ grid.m },
    pub ghost same_length: { rounding.m ≡ grid.m },
    pub ghost few_rows: { length grid.rows.now ≤ MAX_SAMPLES },
    pub ghost few_columns: { length grid.columns.now ≤ MAX_SAMPLES },
    pub ghost exact: { is_exact ≡ true → AreDistances grid rounding.shift },
}

/// How many bits a distance has at most that a residue tells.
const RESIDUE_BITS: u32 = 31;

/// Whether residues tell distances, at this shift.
fn are_distances(grid: &Grid, shift: u32) -> bool
    ensures tell { result ≡ true → AreDistances grid.now shift }
    ensures wherever { MayBeDistances grid.now shift → result ≡ true }
{
    shift == 0 && grid.distances_fit(RESIDUE_BITS)
}

/// A rounding of two series at which few pairs pass.
fn rounding_for(grid: &Grid) -> Rounding
    ensures { result.m ≡ grid.now.m }
{
    Rounding {
        m: grid.m as u32,
        shift: shift_for(grid),
    }
}

impl<'a> Plan<'a> {
    /// The plan for a series with itself, by a rounding at which few pairs pass.
    pub fn of(grid: Grid<'a>) -> Plan<'a>
        requires some_samples { 1 ≤ grid.m }
        requires few_rows { length grid.rows.now ≤ MAX_SAMPLES }
        requires few_columns { length grid.columns.now ≤ MAX_SAMPLES }
        ensures grid { result.grid ≡ grid.entry }
        ensures exact { MayBeDistances grid.entry result.rounding.shift → result.is_exact ≡ true }
    {
        Plan::by(grid, rounding_for(&grid), true)
    }

    /// The same for two series.
    pub fn between(grid: Grid<'a>) -> Plan<'a>
        requires some_samples { 1 ≤ grid.m }
        requires few_rows { length grid.rows.now ≤ MAX_SAMPLES }
        requires few_columns { length grid.columns.now ≤ MAX_SAMPLES }
        ensures grid { result.grid ≡ grid.entry }
        ensures exact { MayBeDistances grid.entry result.rounding.shift → result.is_exact ≡ true }
    {
        Plan::by(grid, rounding_for(&grid), false)
    }

    /// The plan by this rounding.
    pub fn by(grid: Grid<'a>, rounding: Rounding, is_own: bool) -> Plan<'a>
        requires some_samples { 1 ≤ grid.m }
        requires same_length { rounding.m ≡ grid.m }
        requires few_rows { length grid.rows.now ≤ MAX_SAMPLES }
        requires few_columns { length grid.columns.now ≤ MAX_SAMPLES }
        ensures grid { result.grid ≡ grid.entry }
        ensures rounding { result.rounding ≡ rounding }
        ensures exact { MayBeDistances grid.entry rounding.shift → result.is_exact ≡ true }
    {
        let is_exact = are_distances(&grid, rounding.shift);
        Plan {
            grid,
            rounding,
            is_exact,
            is_own,
        }
    }
}

/// How many windows the series of the columns has.
#[inline]
pub(crate) fn count_columns(grid: &Grid) -> usize
    ensures { result ≡ column_windows grid.now }
{
    (grid.columns.len() + 1).saturating_sub(grid.m)
}
