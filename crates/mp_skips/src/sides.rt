//! The rows of two series in coarse sums from a group of eight on.

ghost use Rattle.std.specs.Prelude.{◌≡◌, ◌*◌, ◌≤◌, length, drop};
ghost use Rattle.mp_scans.specs.Offering.{in_block};
ghost use Rattle.mp_scans.specs.Windows.{row_windows, FitIn, AreScannedIn};

use crate::scans::scan_apart;
use crate::sums::{Coarse, Side};
use crate::trials::scan_by_sums;
use mp_scans::{Offers, Plan};

impl<'a> Side<'a> {
    /// The same series once more.
    pub(crate) fn copy(&self) -> Side<'a>
        ensures samples { result.samples.now ≡ self.now.samples.now }
        ensures m { result.m ≡ self.now.m }
        ensures units { result.units ≡ self.now.units }
    {
        Side {
            samples: self.samples,
            m: self.m,
            units: self.units,
            levels: self.levels,
            floors: self.floors,
            least: self.least,
            greatest: self.greatest,
            free: self.free,
        }
    }

    /// The series from a group of eight samples on.
    fn from_group(&self, group: usize) -> Side<'a>
        requires samples { 8 * group ≤ length self.now.samples.now }
        requires windows { 8 * group ≤ length self.now.free.now }
        ensures samples { result.samples.now ≡ drop (8 * group) self.now.samples.now }
        ensures m { result.m ≡ self.now.m }
        ensures units { result.units ≡ self.now.units }
    {
        let place = 8 * group;
        Side {
            samples: &self.samples[place..],
            m: self.m,
            units: self.units,
            levels: &self.levels[place..],
            floors: &self.floors[place..],
            least: &self.least[group..],
            greatest: &self.greatest[group..],
            free: &self.free[place..],
        }
    }
}

/// The rows of two series from a group of eight on, as the windows of a series that has no others before them.
#[derive(Clone, Copy)]
pub struct RowsFrom<'a> {
    pub plan: Plan<'a>,
    pub group: usize,
}

impl<'a> Coarse<'a> {
    /// The same with the rows from a group of eight on alone, whose plan is given.
    fn rows_from(&self, plan: &Plan<'a>, group: usize) -> Coarse<'a>
        requires some { 8 * group ≤ row_windows self.now.plan.grid }
        requires m { plan.now.grid.m ≡ self.now.plan.grid.m }
        requires rows { plan.now.grid.rows.now ≡ drop (8 * group) self.now.plan.grid.rows.now }
        requires columns { plan.now.grid.columns.now ≡ self.now.plan.grid.columns.now }
        ensures { result.plan ≡ plan.now }
    {
        Coarse {
            plan: *plan,
            rows: self.rows.from_group(group),
            columns: self.columns.copy(),
            terms: self.terms,
        }
    }
}

/// Offers the pairs of the rows from a group on and before `bottom`, counted from there, as `scan_by_sums` does.
pub fn scan_by_sums_from<O: Offers>(
    coarse: &Coarse,
    from: &RowsFrom,
    first: usize,
    end: usize,
    bottom: usize,
    into: &mut O::Into,
)
    requires some { 8 * from.now.group ≤ row_windows coarse.now.plan.grid }
    requires m { from.now.plan.grid.m ≡ coarse.now.plan.grid.m }
    requires rows { from.now.plan.grid.rows.now ≡ drop (8 * from.now.group) coarse.now.plan.grid.rows.now }
    requires columns { from.now.plan.grid.columns.now ≡ coarse.now.plan.grid.columns.now }
    requires apart { O.least ≤ first }
    requires bottom { bottom ≤ row_windows from.now.plan.grid }
    requires fits { FitIn O.fits from.now.plan.grid into.old }
    ensures scanned { AreScannedIn O.is_scanned from.now.plan.grid (in_block first end 0 bottom) into.old into.new }
{
    let rows = coarse.rows_from(&from.plan, from.group);
    scan_by_sums::<O>(&rows, first, end, 0, bottom, into);
}

/// The same as `scan_apart` does.
pub fn scan_apart_from<O: Offers>(
    coarse: &Coarse,
    from: &RowsFrom,
    first: usize,
    end: usize,
    bottom: usize,
    into: &mut O::Into,
)
    requires some { 8 * from.now.group ≤ row_windows coarse.now.plan.grid }
    requires m { from.now.plan.grid.m ≡ coarse.now.plan.grid.m }
    requires rows { from.now.plan.grid.rows.now ≡ drop (8 * from.now.group) coarse.now.plan.grid.rows.now }
    requires columns { from.now.plan.grid.columns.now ≡ coarse.now.plan.grid.columns.now }
    requires apart { O.least ≤ first }
    requires bottom { bottom ≤ row_windows from.now.plan.grid }
    requires fits { FitIn O.fits from.now.plan.grid into.old }
    ensures scanned { AreScannedIn O.is_scanned from.now.plan.grid (in_block first end 0 bottom) into.old into.new }
{
    let rows = coarse.rows_from(&from.plan, from.group);
    scan_apart::<O>(&rows, first, end, 0, bottom, into);
}
