//! Samples that look like chance, and what is expected of slots.

use mp_nums::{Memory, Sample, Slot, Whole};
use std::alloc::{AllocError, Global};
use std::process::Abort;

/// The sample of a number of 48 bits. One of more is missing.
pub(crate) fn sample(number: i64) -> Sample {
    match Whole::new(number) {
        Some(whole) => Sample::Value(whole),
        None => Sample::Missing,
    }
}

/// The samples of these numbers.
pub(crate) fn samples_of(alloc: Global, numbers: &[i64]) -> Result<Vec<Sample>, AllocError> {
    numbers.iter().map(|number| sample(*number)).collect(alloc)
}

/// Samples of the numbers, of which each is one of eight, so that distances are often equal. `None` stands for a
/// missing one.
pub(crate) fn drawn(
    alloc: Global,
    choices: &[Option<i64>; 8],
    count: u64,
    seed: u64,
) -> Result<Vec<Sample>, Memory> {
    let mut samples = Vec::new(alloc);
    let mut state = seed;
    for _ in 0..count {
        state = state
            .wrapping_mul(6_364_136_223_846_793_005)
            .wrapping_add(1_442_695_040_888_963_407);
        samples.push(match choices[(state >> 61) as usize] {
            Some(number) => sample(number),
            None => Sample::Missing,
        })?;
    }
    Ok(samples)
}

/// Numbers of which some are equal.
pub(crate) const TIED: [Option<i64>; 8] = [
    None,
    Some(-1),
    Some(-1),
    Some(2),
    Some(2),
    Some(0),
    Some(0),
    Some(0),
];

/// Numbers of the whole range of 48 bits.
pub(crate) const WIDEST: [Option<i64>; 8] = [
    None,
    Some(-140_737_488_355_328),
    Some(140_737_488_355_327),
    Some(98_765_432_109_876),
    Some(-1),
    Some(0),
    Some(0),
    Some(2),
];

/// Expects slots with these distances and starts.
pub(crate) fn expect_slots(rt: &impl Abort, slots: &[Slot], expected: &[Option<(u128, u64)>]) {
    assert_eq!(rt; slots.len(), expected.len());
    for (slot, pair) in slots.iter().zip(expected) {
        assert_eq!(rt; slot.map(|near| (near.dist.0, near.index)), *pair);
    }
}
