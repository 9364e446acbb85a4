//! Samples of plain numbers, in which `None` stands for a missing one.

ghost use Rattle.std.specs.Prelude.{◌≡◌, length, vec_len, IfOk};

use mp_nums::{Sample, Whole};
use std::alloc::{AllocError, Global};

/// The sample of a number of 32 bits.
pub(crate) fn sample(number: Option<i32>) -> Sample {
    match number {
        Some(number) => Sample::Value(Whole::from(number)),
        None => Sample::Missing,
    }
}

/// The samples of these numbers.
pub(crate) fn samples(alloc: Global, numbers: &[Option<i32>]) -> Result<Vec<Sample>, AllocError>
    ensures { IfOk result (λ samples. vec_len samples ≡ length numbers.now) }
{
    numbers.iter().map(|number| sample(*number)).collect(alloc)
}

/// The least number of 48 bits.
pub(crate) const LEAST: i64 = -140_737_488_355_328;

/// The greatest number of 48 bits.
pub(crate) const GREATEST: i64 = 140_737_488_355_327;

/// The sample of a number of 48 bits. One of more is missing.
fn wide_sample(number: i64) -> Sample {
    match Whole::new(number) {
        Some(whole) => Sample::Value(whole),
        None => Sample::Missing,
    }
}

/// The samples of these numbers.
pub(crate) fn wide_samples(alloc: Global, numbers: &[i64]) -> Result<Vec<Sample>, AllocError>
    ensures { IfOk result (λ samples. vec_len samples ≡ length numbers.now) }
{
    numbers
        .iter()
        .map(|number| wide_sample(*number))
        .collect(alloc)
}
