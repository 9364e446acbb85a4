//! Samples that look like chance.

use mp_nums::{Memory, Sample, Whole};
use std::alloc::Global;

/// The sample of a number of 48 bits. One of more is missing.
fn sample(number: i64) -> Sample {
    match Whole::new(number) {
        Some(whole) => Sample::Value(whole),
        None => Sample::Missing,
    }
}

/// Samples of few numbers, so that many distances are equal, of which about one in eight is missing.
pub(crate) fn ties(alloc: Global, count: u64, unit: i64, seed: u64) -> Result<Vec<Sample>, Memory> {
    let mut samples = Vec::new(alloc);
    let mut state = seed;
    for _ in 0..count {
        state = state
            .wrapping_mul(6_364_136_223_846_793_005)
            .wrapping_add(1_442_695_040_888_963_407);
        samples.push(match state >> 61 {
            0 => Sample::Missing,
            1 | 2 => sample(unit.wrapping_neg()),
            3 | 4 => sample(unit),
            _ => sample(0),
        })?;
    }
    Ok(samples)
}

/// Waves, in which near windows are alike, with a little noise and few missing samples.
pub(crate) fn waves(alloc: Global, count: u64) -> Result<Vec<Sample>, Memory> {
    let mut samples = Vec::new(alloc);
    let mut state = count;
    for k in 0..count {
        state = state
            .wrapping_mul(6_364_136_223_846_793_005)
            .wrapping_add(1_442_695_040_888_963_407);
        let rising = (k % 37).min(k / 5 % 29);
        samples.push(match k % 1_000 {
            999 => Sample::Missing,
            _ => sample((rising * 64 + (state >> 59)) as i64),
        })?;
    }
    Ok(samples)
}

/// The same number so many times.
pub(crate) fn alike(alloc: Global, count: u64, number: i64) -> Result<Vec<Sample>, Memory> {
    let mut samples = Vec::new(alloc);
    for _ in 0..count {
        samples.push(sample(number))?;
    }
    Ok(samples)
}
