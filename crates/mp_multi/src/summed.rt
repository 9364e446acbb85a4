//! Several channels in coarse sums, and the memory that these take.

ghost use Rattle.std.specs.Prelude.{◌≡◌, ℕ, ◌*◌, ◌^◌, ◌<◌, ◌≤◌, [], length, slice_index_or, IfOk, IfSome};
ghost use Rattle.mp_defs.specs.Series.{series_of};
ghost use Rattle.mp_sums.specs.Ranges.{AreSamplesWithin};
ghost use Rattle.mp_skips.specs.Fills.{AreLevels};
ghost use Rattle.mp_multi.specs.Skips.{AreCoarse, AreSummed};
ghost use Rattle.mp_multi.specs.Tiling.{window_count};
ghost use Rattle.mp_multi.specs.declared.skips.TheConstants.{MOST_HEIGHT};
ghost use Rattle.mp_multi.specs.declared.summed.TheConstants.{LEAST_SAMPLES};

use crate::bounds::Level;
use crate::plans::MultiPlan;
use crate::skips::Levels;
use mp_nums::Memory;
use mp_series::Bundle;
use mp_skips::{Coarse, Summed, Units, units_for};
use mp_sums::{Range, number_of, sample_at};
use std::alloc::Global;
use std::thread::{Threads, join};

/// How many windows channels have at least whose coarse sums are made.
const LEAST_WINDOWS: u64 = 4_096;

/// How many samples a window has at least for which they are.
const LEAST_SAMPLES: u32 = 16;

/// How many times eight samples the wide sums of windows of so many samples have, and the narrow ones.
fn eights_for(m: u32) -> (usize, usize)
    requires { LEAST_SAMPLES ≤ m }
    ensures some { 1 ≤ result.0 }
    ensures few { result.0 ≤ 8 }
    ensures wide { 8 * result.0 ≤ m }
    ensures some_narrow { 1 ≤ result.1 }
    ensures narrow { result.1 ≤ 2 }
    ensures order { result.1 ≤ result.0 }
{
    if m < 64 {
        (1, 1)
    } else if m < 256 {
        (2, 1)
    } else {
        (4, 2)
    }
}

/// The least range that has the numbers of all channels.
fn range_of(channels: &Bundle) -> Range
    requires some { 1 ≤ length channels.now }
    ensures { (c : ℕ) → c < length channels.now
        → AreSamplesWithin result (slice_index_or channels.now c []) }
{
    let first = number_of(sample_at(channels.series(0), 0));
    let mut range = Range::at(first);
    for c in 0..channels.count() {
        range = range.with_samples(channels.series(c));
    }
    range
}

/// The coarse sums of each channel in these units.
fn sum_up<'a>(alloc: Global, plan: &MultiPlan<'a>, units: &Units) -> Result<Vec<Summed<'a>>, Memory>
    requires wide { 8 * units.now.eights ≤ plan.now.channels.m }
    requires levels { (c : ℕ) → c < length plan.now.channels.list.now
        → AreLevels units.now.low units.now.width (series_of (slice_index_or plan.now.channels.list.now c [])) }
    ensures { IfOk result (λ sums. AreSummed plan.now.channels.m plan.now.channels.list.now units.now sums.items) }
{
    let mut sums = Vec::new(alloc);
    for c in 0..plan.channels.list.count() {
        sums.push(Summed::in_units(alloc, &plan.plan(c as usize), units)?)?;
    }
    Ok(sums)
}

/// Channels, and in which units their wide coarse sums are and the narrow ones. No sample is rounded in them.
#[derive(Clone, Copy)]
pub(crate) struct MultiUnits<'a> {
    plan: MultiPlan<'a>,
    wide: Units,
    narrow: Units,
    ghost wide_fits: { 8 * wide.eights ≤ plan.channels.m },
    ghost narrow_fits: { 8 * narrow.eights ≤ plan.channels.m },
    ghost wide_levels: { (c : ℕ) → c < length plan.channels.list.now
        → AreLevels wide.low wide.width (series_of (slice_index_or plan.channels.list.now c [])) },
    ghost narrow_levels: { (c : ℕ) → c < length plan.channels.list.now
        → AreLevels narrow.low narrow.width (series_of (slice_index_or plan.channels.list.now c [])) },
    ghost exact: { narrow.step.size ≡ 1 },
    ghost wide_exact: { wide.step.size ≡ 1 },
    ghost low: { narrow.eights ≤ 2 },
}

impl<'a> MultiUnits<'a> {
    /// The units of the channels. None where coarse sums wouldn't pay: where there are few windows, and where samples
    /// would be rounded.
    pub(crate) fn of(plan: &MultiPlan<'a>, windows: u64) -> Option<MultiUnits<'a>>
        ensures plan { IfSome result (λ units. units.plan ≡ plan.now) }
    {
        if windows < LEAST_WINDOWS || plan.channels.m < LEAST_SAMPLES {
            return None;
        }
        let range = range_of(plan.channels.list);
        let (wide, narrow) = eights_for(plan.channels.m);
        let wide = units_for(&range, wide);
        let narrow = units_for(&range, narrow);
        if wide.step.size > 1 || narrow.step.size > 1 {
            return None;
        }
        Some(MultiUnits {
            plan: *plan,
            wide,
            narrow,
        })
    }
}

/// The wide coarse sums of each channel, and the narrow ones. Where there are several workers, the ones are made while
/// the others are.
fn sum_up_both<'a, R: Threads + Sync>(
    rt: &R,
    alloc: Global,
    units: &MultiUnits<'a>,
    workers: u32,
) -> Result<(Vec<Summed<'a>>, Vec<Summed<'a>>), Memory>
    ensures wide { IfOk result (λ both. AreSummed units.now.plan.channels.m units.now.plan.channels.list.now
        units.now.wide both.0.items) }
    ensures narrow { IfOk result (λ both. AreSummed units.now.plan.channels.m units.now.plan.channels.list.now
        units.now.narrow both.1.items) }
{
    if workers == 1 {
        return Ok((
            sum_up(alloc, &units.plan, &units.wide)?,
            sum_up(alloc, &units.plan, &units.narrow)?,
        ));
    }
    let front = move || -> Result<Vec<Summed>, Memory>
        ensures { IfOk result (λ sums. AreSummed units.entry.now.plan.channels.m
            units.entry.now.plan.channels.list.now units.entry.now.wide sums.items) }
    { sum_up(alloc, &units.plan, &units.wide) };
    let back = move || -> Result<Vec<Summed>, Memory>
        ensures { IfOk result (λ sums. AreSummed units.entry.now.plan.channels.m
            units.entry.now.plan.channels.list.now units.entry.now.narrow sums.items) }
    { sum_up(alloc, &units.plan, &units.narrow) };
    let (wide, narrow) = join(rt, front, back);
    Ok((wide?, narrow?))
}

/// Channels in wide coarse sums and in narrow ones, and the memory that these take: some 20 bytes for each sample.
#[derive(Drop)]
pub(crate) struct MultiSums<'a> {
    plan: MultiPlan<'a>,
    wide_units: Units,
    narrow_units: Units,
    wide: Vec<Summed<'a>>,
    narrow: Vec<Summed<'a>>,
    ghost are_wide: { AreSummed plan.channels.m plan.channels.list.now wide_units wide.items },
    ghost are_narrow: { AreSummed plan.channels.m plan.channels.list.now narrow_units narrow.items },
    ghost exact: { narrow_units.step.size ≡ 1 },
    ghost wide_exact: { wide_units.step.size ≡ 1 },
    ghost low: { narrow_units.eights ≤ 2 },
}

impl<'a> MultiSums<'a> {
    /// The coarse sums of the channels, made by several workers where there are some.
    pub(crate) fn of<R: Threads + Sync>(
        rt: &R,
        alloc: Global,
        units: &MultiUnits<'a>,
        workers: u32,
    ) -> Result<MultiSums<'a>, Memory>
        ensures plan { IfOk result (λ sums. sums.plan ≡ units.now.plan) }
    {
        let (wide, narrow) = sum_up_both(rt, alloc, units, workers)?;
        Ok(MultiSums {
            plan: units.plan,
            wide_units: units.wide,
            narrow_units: units.narrow,
            wide,
            narrow,
        })
    }

    /// The same channels as rows and as columns, in some 300 bytes for each.
    pub(crate) fn coarse(&self, alloc: Global, windows: usize) -> Result<MultiCoarse<'_>, Memory>
        requires windows { windows ≡ window_count self.now.plan.channels.m self.now.plan.channels.list.now }
        requires few { windows < 2 ^ 30 }
        ensures plan { IfOk result (λ coarse. coarse.plan ≡ self.now.plan) }
    {
        Ok(MultiCoarse {
            plan: self.plan,
            windows,
            wide_units: self.wide_units,
            narrow_units: self.narrow_units,
            wide: coarse_of(alloc, &self.plan, &self.wide_units, self.wide.as_slice())?,
            narrow: coarse_of(
                alloc,
                &self.plan,
                &self.narrow_units,
                self.narrow.as_slice(),
            )?,
        })
    }
}

/// Each channel as rows and as columns.
fn coarse_of<'a>(
    alloc: Global,
    plan: &MultiPlan,
    units: &Units,
    sums: &'a [Summed],
) -> Result<Vec<Coarse<'a>>, Memory>
    requires some { 1 ≤ length sums.now }
    requires sums { AreSummed plan.now.channels.m plan.now.channels.list.now units.now sums.now }
    ensures { IfOk result (λ list. AreCoarse plan.now.channels.m plan.now.channels.list.now units.now list.items) }
{
    let mut list = vec![in alloc; sums[0].coarse(); sums.len()]?;
    for c in 0..sums.len() {
        list[c] = sums[c].coarse();
    }
    Ok(list)
}

/// Channels in coarse sums, each as rows and as columns.
#[derive(Drop)]
pub(crate) struct MultiCoarse<'a> {
    plan: MultiPlan<'a>,
    windows: usize,
    wide_units: Units,
    narrow_units: Units,
    wide: Vec<Coarse<'a>>,
    narrow: Vec<Coarse<'a>>,
    ghost few_windows: { windows < 2 ^ 30 },
    ghost all_windows: { windows ≡ window_count plan.channels.m plan.channels.list.now },
    ghost are_wide: { AreCoarse plan.channels.m plan.channels.list.now wide_units wide.items },
    ghost are_narrow: { AreCoarse plan.channels.m plan.channels.list.now narrow_units narrow.items },
    ghost exact: { narrow_units.step.size ≡ 1 },
    ghost wide_exact: { wide_units.step.size ≡ 1 },
    ghost low: { 8 * narrow_units.eights ≤ MOST_HEIGHT },
}

impl<'a> MultiCoarse<'a> {
    /// Both kinds of sums.
    pub(crate) fn levels(&self) -> Levels<'_>
        ensures plan { result.wide.plan ≡ self.now.plan }
        ensures windows { result.wide.windows ≡ self.now.windows }
        ensures exact { result.wide.units.step.size ≡ 1 }
    {
        Levels {
            wide: Level {
                plan: self.plan,
                units: self.wide_units,
                coarse: self.wide.as_slice(),
                windows: self.windows,
            },
            narrow: Level {
                plan: self.plan,
                units: self.narrow_units,
                coarse: self.narrow.as_slice(),
                windows: self.windows,
            },
        }
    }
}
