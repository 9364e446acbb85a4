//! Series in which windows are often equally far apart, or numbers lie as far apart as can be.

ghost use Rattle.std.specs.Prelude.{◌≡◌, length, IfOk, vec_len};

use mp_nums::{Memory, Sample, Whole};
use std::alloc::Global;

/// The sample of a number of 48 bits. One of more is missing.
pub(crate) fn sample(number: i64) -> Sample {
    match Whole::new(number) {
        Some(whole) => Sample::Value(whole),
        None => Sample::Missing,
    }
}

/// The samples of these numbers, where `None` stands for a missing one.
pub(crate) fn samples(alloc: Global, numbers: &[Option<i64>]) -> Result<Vec<Sample>, Memory>
    ensures { IfOk result (λ samples. vec_len samples ≡ length numbers.now) }
{
    let mut samples = Vec::new(alloc);
    for number in numbers {
        samples.push(match number {
            Some(number) => sample(*number),
            None => Sample::Missing,
        })?;
    }
    Ok(samples)
}

/// A series of few numbers, so that many distances are equal, in which about one sample in eight is missing.
pub(crate) fn ties(alloc: Global, count: u64, seed: u64) -> Result<Vec<Sample>, Memory>
    ensures { IfOk result (λ samples. vec_len samples ≡ count) }
{
    let mut samples = Vec::new(alloc);
    let mut state = seed;
    for _ in 0..count {
        state = state
            .wrapping_mul(6_364_136_223_846_793_005)
            .wrapping_add(1_442_695_040_888_963_407);
        samples.push(match state >> 61 {
            0 => Sample::Missing,
            1 | 2 => sample(-1),
            3 | 4 => sample(2),
            _ => sample(0),
        })?;
    }
    Ok(samples)
}

/// A series of the least number, the greatest, and one in the middle, in which some samples are missing: the first and
/// the last of sixteen, of 1,024, and others.
pub(crate) fn spread(alloc: Global, count: u64, low: i64, high: i64) -> Result<Vec<Sample>, Memory>
    ensures { IfOk result (λ samples. vec_len samples ≡ count) }
{
    let mut samples = Vec::new(alloc);
    let mut state = count;
    for k in 0..count {
        state = state
            .wrapping_mul(6_364_136_223_846_793_005)
            .wrapping_add(1_442_695_040_888_963_407);
        let is_missing = [15, 16, 300, 1_023, 1_024, 1_025].contains(&k);
        samples.push(match state >> 62 {
            _ if is_missing => Sample::Missing,
            0 => sample(low),
            1 => sample(high),
            _ => sample(low / 2 + high / 2),
        })?;
    }
    Ok(samples)
}

/// A series of waves, in which near windows are alike, of numbers of so many bits, the lowest of which are random.
pub(crate) fn waves(alloc: Global, count: u64, bits: u32) -> Result<Vec<Sample>, Memory>
    ensures { IfOk result (λ samples. vec_len samples ≡ count) }
{
    let mut samples = Vec::new(alloc);
    let mut state = count;
    for k in 0..count {
        state = state
            .wrapping_mul(6_364_136_223_846_793_005)
            .wrapping_add(1_442_695_040_888_963_407);
        let rising = (k % 37).min(k / 5 % 29);
        let number = (rising * 4_398_046_511_104 + (state >> 22)) >> 47_u32.saturating_sub(bits);
        samples.push(sample((number % 140_737_488_355_328) as i64))?;
    }
    Ok(samples)
}
