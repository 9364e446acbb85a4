//! Channels for tests.

ghost use Rattle.std.specs.Prelude.{◌≡◌, All, IfOk, length, vec_len};

use mp_nums::{Memory, Sample, Whole};
use mp_series::Bundle;
use std::alloc::Global;

/// The sample of a number of 48 bits. One of more is missing.
fn sample(number: i64) -> Sample {
    match Whole::new(number) {
        Some(whole) => Sample::Value(whole),
        None => Sample::Missing,
    }
}

/// So many times 1 2 3 1 2 3.
fn times(alloc: Global, factor: u32) -> Result<Vec<Sample>, Memory>
    ensures { IfOk result (λ samples. vec_len samples ≡ 6) }
{
    let mut samples = Vec::new(alloc);
    for k in 0..6_u32 {
        samples.push(sample(i64::from(factor) * i64::from(k % 3 + 1)))?;
    }
    Ok(samples)
}

/// Samples of few numbers, so that many distances are equal, of which about one in eight is missing.
fn ties(alloc: Global, count: u64, unit: i64, seed: u64) -> Result<Vec<Sample>, Memory>
    ensures { IfOk result (λ samples. vec_len samples ≡ count) }
{
    let mut samples = Vec::new(alloc);
    let mut state = seed;
    for _ in 0..count {
        state = state
            .wrapping_mul(6_364_136_223_846_793_005)
            .wrapping_add(1_442_695_040_888_963_407);
        samples.push(match state >> 61 {
            0 => Sample::Missing,
            1 | 2 => sample(unit.wrapping_neg()),
            3 | 4 => sample(unit),
            _ => sample(0),
        })?;
    }
    Ok(samples)
}

/// A walk by steps of at most one, so that some stretches lie near others and most don't. It stays as it is for long
/// from time to time, and about one sample in 400 is missing.
fn walk(alloc: Global, count: u64, seed: u64) -> Result<Vec<Sample>, Memory>
    ensures { IfOk result (λ samples. vec_len samples ≡ count) }
{
    let mut samples = Vec::new(alloc);
    let mut state = seed;
    let mut level: i64 = 0;
    for place in 0..count {
        state = state
            .wrapping_mul(6_364_136_223_846_793_005)
            .wrapping_add(1_442_695_040_888_963_407);
        level = match state >> 62 {
            _ if place % 1_000 < 150 => level,
            0 => level.saturating_sub(1),
            1 => level.saturating_add(1),
            _ => level,
        };
        samples.push(if (state >> 40) % 400 == 0 {
            Sample::Missing
        } else {
            sample(level)
        })?;
    }
    Ok(samples)
}

/// So many channels: 1 2 3 1 2 3, twice that, and so on.
pub(crate) fn multiples(alloc: Global, count: u32) -> Result<Bundle, Memory>
    ensures { IfOk result (λ list. (length list ≡ count) × All (λ channel. length channel ≡ 6) list) }
{
    let mut list = Bundle::new(alloc);
    for c in 0..count {
        list.add(times(alloc, c + 1)?.as_slice())?;
    }
    Ok(list)
}

/// So many channels of so many samples of few numbers.
pub(crate) fn tied(
    alloc: Global,
    count: u64,
    samples: u64,
    unit: i64,
    seed: u64,
) -> Result<Bundle, Memory>
    ensures { IfOk result (λ list. (length list ≡ count) × All (λ channel. length channel ≡ samples) list) }
{
    let mut list = Bundle::new(alloc);
    for c in 0..count {
        let channel = ties(alloc, samples, unit, seed.wrapping_mul(8).wrapping_add(c))?;
        list.add(channel.as_slice())?;
    }
    Ok(list)
}

/// So many channels of so many samples of walks.
pub(crate) fn walks(alloc: Global, count: u64, samples: u64, seed: u64) -> Result<Bundle, Memory>
    ensures { IfOk result (λ list. (length list ≡ count) × All (λ channel. length channel ≡ samples) list) }
{
    let mut list = Bundle::new(alloc);
    for c in 0..count {
        let channel = walk(alloc, samples, seed.wrapping_mul(8).wrapping_add(c))?;
        list.add(channel.as_slice())?;
    }
    Ok(list)
}
