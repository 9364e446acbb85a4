//! A series with itself, or two series, in coarse sums, and the memory that these take.

ghost use Rattle.std.specs.Prelude.{◌≡◌, ◌+◌, ◌*◌, ◌^◌, ◌<◌, ◌≤◌, length, List, IfOk};
ghost use Rattle.mp_nums.specs.declared.samples.Sample.{Sample};
ghost use Rattle.mp_series.specs.declared.limits.TheConstants.{MAX_SAMPLES};
ghost use Rattle.mp_defs.specs.Series.{series_of};
ghost use Rattle.mp_sums.specs.Ranges.{AreSamplesWithin};
ghost use Rattle.mp_skips.specs.Fills.{AreLevels};
ghost use Rattle.mp_skips.specs.Lists.{AreLists};

use crate::fills::{fill_lists, unit_for};
use crate::sums::{Coarse, Side, Units};
use mp_nums::{Memory, Sample};
use mp_scans::{Plan, mark_free};
use mp_sums::{Range, number_of, sample_at};
use std::alloc::Global;

/// The least range that the numbers of a series lie in.
fn range_of(samples: &[Sample]) -> Range
    ensures { AreSamplesWithin result samples.now }
{
    let first = number_of(sample_at(samples, 0));
    Range::at(first).with_samples(samples)
}

/// How far a range reaches.
fn width_of(range: &Range) -> u64
    ensures small { result < 2 ^ 49 }
    ensures levels { (samples : List Sample) → AreSamplesWithin range.now samples
        → AreLevels range.now.least result (series_of samples) }
{
    range.greatest.get().abs_diff(range.least.get())
}

/// The units of series whose samples lie in a range, in sums of `8 * eights` samples.
pub fn units_for(range: &Range, eights: usize) -> Units
    requires some { 1 ≤ eights }
    requires few { eights ≤ 8 }
    ensures levels { (samples : List Sample) → AreSamplesWithin range.now samples
        → AreLevels result.low result.width (series_of samples) }
    ensures eights { result.eights ≡ eights }
{
    let width = width_of(range);
    Units {
        low: range.least,
        width,
        eights,
        step: unit_for(width),
        grain: unit_for(8 * eights as u64 * width),
    }
}

/// How many sums a window has behind its first one.
fn terms_of(m: usize, count: usize) -> usize
    requires some { 1 ≤ count }
    requires wide { count ≤ m }
    ensures { (result + 1) * count ≤ m }
{
    m / count - 1
}

/// A series in coarse sums, and the memory that these take: some 10 bytes for each sample.
#[derive(Drop)]
struct Lists<'a> {
    samples: &'a [Sample],
    m: usize,
    units: Units,
    levels: Vec<u32>,
    floors: Vec<u32>,
    least: Vec<u32>,
    greatest: Vec<u32>,
    free: Vec<bool>,
    ghost lists: { AreLists units.low units.width (8 * units.eights) units.step.size units.grain.size m samples.now
        levels.items floors.items least.items greatest.items free.items },
}

/// The coarse sums of a series in these units.
fn sum_up<'a>(
    alloc: Global,
    samples: &'a [Sample],
    m: usize,
    units: &Units,
) -> Result<Lists<'a>, Memory>
    requires few { length samples.now ≤ MAX_SAMPLES }
    requires some { 1 ≤ m }
    requires short { m < 2 ^ 32 }
    requires levels { AreLevels units.now.low units.now.width (series_of samples.now) }
    ensures samples { IfOk result (λ lists. lists.samples.now ≡ samples.now) }
    ensures m { IfOk result (λ lists. lists.m ≡ m) }
    ensures units { IfOk result (λ lists. lists.units ≡ units.now) }
{
    let groups = samples.len() / 8 + 1;
    let mut levels = vec![in alloc; 0; 8 * groups]?;
    let mut floors = vec![in alloc; 0; 8 * groups]?;
    let mut least = vec![in alloc; 0; groups]?;
    let mut greatest = vec![in alloc; 0; groups]?;
    let mut free = vec![in alloc; false; 8 * groups]?;
    fill_lists(
        samples,
        units,
        levels.as_mut_slice(),
        floors.as_mut_slice(),
        least.as_mut_slice(),
        greatest.as_mut_slice(),
    );
    mark_free(samples, m, 0, free.as_mut_slice());
    Ok(Lists {
        samples,
        m,
        units: *units,
        levels,
        floors,
        least,
        greatest,
        free,
    })
}

impl<'a> Lists<'a> {
    /// The series as rows, or as columns.
    fn side(&self) -> Side<'_>
        ensures samples { result.samples.now ≡ self.now.samples.now }
        ensures m { result.m ≡ self.now.m }
        ensures units { result.units ≡ self.now.units }
    {
        Side {
            samples: self.samples,
            m: self.m,
            units: self.units,
            levels: self.levels.as_slice(),
            floors: self.floors.as_slice(),
            least: self.least.as_slice(),
            greatest: self.greatest.as_slice(),
            free: self.free.as_slice(),
        }
    }
}

/// The series of a plan in coarse sums, by both sides.
fn coarse_of<'a>(plan: &Plan<'a>, rows: &Side<'a>, columns: &Side<'a>) -> Coarse<'a>
    requires rows { rows.now.samples.now ≡ plan.now.grid.rows.now }
    requires columns { columns.now.samples.now ≡ plan.now.grid.columns.now }
    requires row_length { rows.now.m ≡ plan.now.grid.m }
    requires column_length { columns.now.m ≡ plan.now.grid.m }
    requires units { columns.now.units ≡ rows.now.units }
    requires wide { 8 * rows.now.units.eights ≤ plan.now.grid.m }
    ensures plan { result.plan ≡ plan.now }
    ensures units { result.rows.units ≡ rows.now.units }
{
    Coarse {
        plan: *plan,
        rows: rows.copy(),
        columns: columns.copy(),
        terms: terms_of(plan.grid.m, 8 * rows.units.eights),
    }
}

/// A series with itself in coarse sums, and the memory that these take: some 10 bytes for each sample.
#[derive(Drop)]
pub struct Summed<'a> {
    pub plan: Plan<'a>,
    pub units: Units,
    lists: Lists<'a>,
    ghost same_units: { lists.units ≡ units },
    ghost own: { plan.grid.columns.now ≡ plan.grid.rows.now },
    ghost samples: { lists.samples.now ≡ plan.grid.rows.now },
    ghost length: { lists.m ≡ plan.grid.m },
    ghost wide: { 8 * lists.units.eights ≤ plan.grid.m },
}

impl<'a> Summed<'a> {
    /// The coarse sums of a plan's series, of `8 * eights` samples each.
    pub fn of(alloc: Global, plan: &Plan<'a>, eights: usize) -> Result<Summed<'a>, Memory>
        requires own { plan.now.grid.columns.now ≡ plan.now.grid.rows.now }
        requires some { 1 ≤ eights }
        requires few { eights ≤ 8 }
        requires wide { 8 * eights ≤ plan.now.grid.m }
        ensures plan { IfOk result (λ summed. summed.plan ≡ plan.now) }
    {
        let units = units_for(&range_of(plan.grid.rows), eights);
        Summed::in_units(alloc, plan, &units)
    }

    /// The coarse sums of a plan's series in these units.
    pub fn in_units(alloc: Global, plan: &Plan<'a>, units: &Units) -> Result<Summed<'a>, Memory>
        requires own { plan.now.grid.columns.now ≡ plan.now.grid.rows.now }
        requires levels { AreLevels units.now.low units.now.width (series_of plan.now.grid.rows.now) }
        requires wide { 8 * units.now.eights ≤ plan.now.grid.m }
        ensures plan { IfOk result (λ summed. summed.plan ≡ plan.now) }
        ensures units { IfOk result (λ summed. summed.units ≡ units.now) }
    {
        let lists = sum_up(alloc, plan.grid.rows, plan.grid.m, units)?;
        Ok(Summed {
            plan: *plan,
            units: *units,
            lists,
        })
    }

    /// The series with itself in coarse sums.
    pub fn coarse(&self) -> Coarse<'_>
        ensures plan { result.plan ≡ self.now.plan }
        ensures units { result.rows.units ≡ self.now.units }
    {
        coarse_of(&self.plan, &self.lists.side(), &self.lists.side())
    }
}

/// Two series in coarse sums, and the memory that these take: some 10 bytes for each sample of both.
#[derive(Drop)]
pub struct SummedBoth<'a> {
    pub plan: Plan<'a>,
    rows: Lists<'a>,
    columns: Lists<'a>,
    ghost row_samples: { rows.samples.now ≡ plan.grid.rows.now },
    ghost column_samples: { columns.samples.now ≡ plan.grid.columns.now },
    ghost row_length: { rows.m ≡ plan.grid.m },
    ghost column_length: { columns.m ≡ plan.grid.m },
    ghost same_units: { columns.units ≡ rows.units },
    ghost wide: { 8 * rows.units.eights ≤ plan.grid.m },
}

impl<'a> SummedBoth<'a> {
    /// The coarse sums of a plan's two series, of `8 * eights` samples each. Both are rounded alike.
    pub fn of(alloc: Global, plan: &Plan<'a>, eights: usize) -> Result<SummedBoth<'a>, Memory>
        requires some { 1 ≤ eights }
        requires few { eights ≤ 8 }
        requires wide { 8 * eights ≤ plan.now.grid.m }
        ensures plan { IfOk result (λ summed. summed.plan ≡ plan.now) }
    {
        let (rows, columns, m) = (plan.grid.rows, plan.grid.columns, plan.grid.m);
        let range = range_of(rows).with_samples(columns);
        let units = units_for(&range, eights);
        Ok(SummedBoth {
            plan: *plan,
            rows: sum_up(alloc, rows, m, &units)?,
            columns: sum_up(alloc, columns, m, &units)?,
        })
    }

    /// Both series in coarse sums.
    pub fn coarse(&self) -> Coarse<'_>
        ensures { result.plan ≡ self.now.plan }
    {
        coarse_of(&self.plan, &self.rows.side(), &self.columns.side())
    }

    /// The columns as rows, and the rows as columns, whose plan is given.
    pub fn turned<'b>(&'b self, plan: &Plan<'b>) -> Coarse<'b>
        requires m { plan.now.grid.m ≡ self.now.plan.grid.m }
        requires rows { plan.now.grid.rows.now ≡ self.now.plan.grid.columns.now }
        requires columns { plan.now.grid.columns.now ≡ self.now.plan.grid.rows.now }
        ensures { result.plan ≡ plan.now }
    {
        coarse_of(plan, &self.columns.side(), &self.rows.side())
    }
}
