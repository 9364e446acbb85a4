//! Samples that look like chance.

ghost use Rattle.std.specs.Prelude.{◌≤◌};
ghost use Rattle.mp_series.specs.declared.limits.TheConstants.{MAX_WINDOW, MIN_WINDOW};

use mp_anytime::Anytime;
use mp_nums::{Memory, Sample, Whole};
use mp_series::Samples;
use std::alloc::Global;
use std::test::Fail;

/// The next state of what draws them.
fn after(state: u64) -> u64 {
    state
        .wrapping_mul(6_364_136_223_846_793_005)
        .wrapping_add(1_442_695_040_888_963_407)
}

/// The sample of a number of 48 bits. One of more is missing.
pub(crate) fn sample(number: i64) -> Sample {
    match Whole::new(number) {
        Some(whole) => Sample::Value(whole),
        None => Sample::Missing,
    }
}

/// Samples of these numbers.
pub(crate) fn samples(alloc: Global, numbers: &[i64]) -> Result<Vec<Sample>, Memory> {
    let mut samples = Vec::new(alloc);
    for number in numbers {
        samples.push(sample(*number))?;
    }
    Ok(samples)
}

/// The series at a window length, with no diagonal covered.
pub(crate) fn lazy(alloc: Global, series: &[Sample], m: u32) -> Result<Anytime, Fail>
    requires shortest { MIN_WINDOW ≤ m }
    requires longest { m ≤ MAX_WINDOW }
{
    let samples = Samples::of(alloc, series)?;
    Ok(Anytime::from(alloc, samples, m)?)
}

/// Samples of few numbers, so that many distances are equal. One in ten is missing.
pub(crate) fn sample_of(number: u64, unit: i64) -> Sample {
    match number {
        0 => Sample::Missing,
        1..=3 => sample(unit.wrapping_neg()),
        4..=6 => sample(unit),
        _ => sample(0),
    }
}

/// So many samples of few numbers, so that many distances are equal, of which one in eight is missing.
pub(crate) fn drawn(
    alloc: Global,
    count: u64,
    unit: i64,
    seed: u64,
) -> Result<Vec<Sample>, Memory> {
    let mut samples = Vec::new(alloc);
    let mut state = seed;
    for _ in 0..count {
        state = after(state);
        samples.push(match state >> 61 {
            0 => Sample::Missing,
            1 | 2 => sample(unit.wrapping_neg()),
            3 | 4 => sample(unit),
            _ => sample(0),
        })?;
    }
    Ok(samples)
}

/// So many numbers below 16.
pub(crate) fn numbers(alloc: Global, count: u64, seed: u64) -> Result<Vec<u64>, Memory> {
    let mut numbers = Vec::new(alloc);
    let mut state = seed;
    for _ in 0..count {
        state = after(state);
        numbers.push(state >> 60)?;
    }
    Ok(numbers)
}

/// So many samples that go up and down by chance, in steps of a unit. One in 97 is missing.
pub(crate) fn walked(
    alloc: Global,
    count: u64,
    unit: i64,
    seed: u64,
) -> Result<Vec<Sample>, Memory> {
    let mut samples = Vec::new(alloc);
    let (mut state, mut level): (u64, i64) = (seed, 0);
    for place in 0..count {
        state = after(state);
        level = level.wrapping_add((state >> 60) as i64).wrapping_sub(7);
        samples.push(if place % 97 == 95 {
            Sample::Missing
        } else {
            sample(level.wrapping_mul(unit))
        })?;
    }
    Ok(samples)
}
