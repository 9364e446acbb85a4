//! The coarse sums of two series.

ghost use Rattle.std.specs.Prelude.{◌≡◌, ℕ, ◌+◌, ◌*◌, ◌^◌, ◌<◌, ◌≤◌, length, List, ℤ};
ghost use Rattle.mp_nums.specs.declared.samples.Sample.{Sample};
ghost use Rattle.mp_defs.specs.Series.{reading_of, series_of};
ghost use Rattle.mp_skips.specs.Totals.{sum_from, raised, level};
ghost use Rattle.mp_skips.specs.Bounds.{IsFloor};
ghost use Rattle.mp_skips.specs.Sums.{number_in, AreNumbers, AreFloors, AreGroups};
ghost use Rattle.mp_skips.specs.Slack.{IsSlack};
ghost use Rattle.mp_skips.specs.Fills.{AreLevels, AreFilled};
ghost use Rattle.mp_skips.specs.declared.sums.TheConstants.{MOST_GRAINS};

use crate::sums::{MOST_GRAINS, Unit, Units};
use mp_nums::{Sample, Whole};
use mp_sums::sample_at;

/// How far a sample lies above the low number. A missing one counts as 0.
#[inline]
fn level_of(sample: Sample, low: Whole) -> u64
    ensures { result ≡ raised low (reading_of sample) }
{
    match sample {
        Sample::Value(number) => number.get().abs_diff(low.get()),
        Sample::Missing => 0,
    }
}

/// The same of the sample at a place. Each past the last counts as 0.
#[inline]
fn level_at(samples: &[Sample], low: Whole, place: usize) -> u64
    ensures { result ≡ level low (series_of samples.now) place }
{
    level_of(sample_at(samples, place), low)
}

/// The sum of the first samples above the low number.
fn first_sum(samples: &[Sample], low: Whole, count: usize, range: u64) -> u64
    requires levels { AreLevels low range (series_of samples.now) }
    requires few { count ≤ 64 }
    requires range { range < 2 ^ 50 }
    ensures { result ≡ sum_from (level low (series_of samples.now)) count 0 }
{
    let mut sum = 0;
    for t in 0..count {
        sum += level_at(samples, low, t);
    }
    sum
}

/// The sum from the next place on, from that from a place on.
#[inline]
fn next_sum(samples: &[Sample], low: Whole, count: usize, range: u64, place: usize, sum: u64) -> u64
    requires levels { AreLevels low range (series_of samples.now) }
    requires some { 1 ≤ count }
    requires few { count ≤ 64 }
    requires range { range < 2 ^ 50 }
    requires place { place < 2 ^ 62 }
    requires sum { sum ≡ sum_from (level low (series_of samples.now)) count place }
    ensures { result ≡ sum_from (level low (series_of samples.now)) count (place + 1) }
{
    let enters = level_at(samples, low, place + count);
    let leaves = level_at(samples, low, place);
    sum + enters - leaves
}

/// How many whole units a number has.
#[inline]
fn floor_of(number: u64, unit: u32) -> u32
    requires some { 1 ≤ unit }
    requires fits { number < MOST_GRAINS * unit }
    ensures floor { IsFloor unit number result }
    ensures small { result < MOST_GRAINS }
{
    (number / u64::from(unit)) as u32
}

/// Fills in the sums of `count` samples from each place on, in grains.
fn fill_floors(
    samples: &[Sample],
    low: Whole,
    count: usize,
    range: u64,
    grain: u32,
    floors: &mut [u32],
)
    requires levels { AreLevels low range (series_of samples.now) }
    requires some { 1 ≤ count }
    requires few { count ≤ 64 }
    requires places { length floors.old < 2 ^ 62 }
    requires range { range < 2 ^ 50 }
    requires some_grain { 1 ≤ grain }
    requires fits { count * range < MOST_GRAINS * grain }
    ensures floors { AreFloors low count grain (series_of samples.now) floors.new (length floors.old) }
    ensures small { (p : ℕ) → number_in floors.new p < MOST_GRAINS }
    ensures places { length floors.new ≡ length floors.old }
{
    let mut sum = first_sum(samples, low, count, range);
    for p in 0..floors.len() {
        floors[p] = floor_of(sum, grain);
        sum = next_sum(samples, low, count, range, p, sum);
    }
}

/// The least of eight numbers.
fn least_of(numbers: &[u32], place: usize) -> u32
    requires { place + 8 ≤ length numbers.now }
    ensures { (u : ℕ) → u < 8 → result ≤ number_in numbers.now (place + u) }
{
    let mut least = u32::MAX;
    for u in 0..8 {
        least = least.min(numbers[place + u]);
    }
    least
}

/// The greatest of eight numbers.
fn greatest_of(numbers: &[u32], place: usize) -> u32
    requires place { place + 8 ≤ length numbers.now }
    requires small { (p : ℕ) → number_in numbers.now p < MOST_GRAINS }
    ensures greatest { (u : ℕ) → u < 8 → number_in numbers.now (place + u) ≤ result }
    ensures small { result < MOST_GRAINS }
{
    let mut greatest = 0;
    for u in 0..8 {
        greatest = greatest.max(numbers[place + u]);
    }
    greatest
}

/// Fills in how many steps each sample lies above the low number.
fn fill_levels(samples: &[Sample], low: Whole, range: u64, step: u32, levels: &mut [u32])
    requires levels { AreLevels low range (series_of samples.now) }
    requires some { 1 ≤ step }
    requires range { range < MOST_GRAINS * step }
    requires places { length samples.now ≤ length levels.old }
    ensures levels { AreNumbers low step (series_of samples.now) levels.new }
    ensures small { (p : ℕ) → number_in levels.new p < MOST_GRAINS }
    ensures places { length levels.new ≡ length levels.old }
{
    for p in 0..levels.len() {
        levels[p] = floor_of(level_at(samples, low, p), step);
    }
}

/// Fills in from which number of grains on the sums from each eight places lie, and up to which. Where they are rounded
/// down, a grain more is left on both sides.
fn fill_groups(floors: &[u32], slack: u32, least: &mut [u32], greatest: &mut [u32])
    requires places { 8 * length least.old ≤ length floors.now }
    requires same { length greatest.old ≡ length least.old }
    requires slack { slack ≤ 1 }
    requires small { (p : ℕ) → number_in floors.now p < MOST_GRAINS }
    ensures groups { (low : ℤ) (s grain : ℕ) (samples : List Sample) → IsSlack grain slack
        → AreFloors low s grain (series_of samples) floors.now (length floors.now)
        → AreGroups low s grain (series_of samples) least.new greatest.new (length least.old) }
    ensures small { (g : ℕ) → number_in greatest.new g ≤ MOST_GRAINS }
    ensures places { length least.new ≡ length least.old }
    ensures same { length greatest.new ≡ length greatest.old }
{
    for g in 0..least.len() {
        let lower = least_of(floors, 8 * g);
        let upper = greatest_of(floors, 8 * g);
        least[g] = lower.saturating_sub(slack);
        greatest[g] = upper + slack;
    }
}

/// How many units are left for what rounding takes.
fn slack_of(unit: u32) -> u32
    ensures few { result ≤ 1 }
    ensures slack { IsSlack unit result }
    ensures exact { unit ≡ 1 → result ≡ 0 }
{
    if unit > 1 { 1 } else { 0 }
}

/// The least unit in which numbers fit that are no greater than the given one.
pub(crate) fn unit_for(most: u64) -> Unit
    requires { most < 2 ^ 55 }
    ensures { most < MOST_GRAINS * result.size }
{
    let shift = u64::BITS - (most / u64::from(MOST_GRAINS)).leading_zeros();
    let size = 1 << shift;
    Unit {
        shift,
        size,
        slack: slack_of(size),
    }
}

/// Fills in the lists of a series. Each group of eight floors has its least and its greatest one.
pub(crate) fn fill_lists(
    samples: &[Sample],
    units: &Units,
    levels: &mut [u32],
    floors: &mut [u32],
    least: &mut [u32],
    greatest: &mut [u32],
)
    requires levels { AreLevels units.now.low units.now.width (series_of samples.now) }
    requires level_places { length samples.now < length levels.old }
    requires floor_places { length samples.now < length floors.old }
    requires few_places { length floors.old < 2 ^ 62 }
    requires groups { length floors.old ≡ 8 * length least.old }
    requires same_groups { length greatest.old ≡ length least.old }
    ensures lists { AreFilled units.now.low units.now.width (8 * units.now.eights) units.now.step.size
        units.now.grain.size samples.now levels.new floors.new least.new greatest.new }
    ensures level_places { length levels.new ≡ length levels.old }
    ensures floor_places { length floors.new ≡ length floors.old }
    ensures groups { length least.new ≡ length least.old }
    ensures same_groups { length greatest.new ≡ length greatest.old }
{
    let count = 8 * units.eights;
    let (step, grain) = (units.step, units.grain);
    fill_levels(samples, units.low, units.width, step.size, levels);
    fill_floors(samples, units.low, count, units.width, grain.size, floors);
    fill_groups(floors, grain.slack, least, greatest);
}
