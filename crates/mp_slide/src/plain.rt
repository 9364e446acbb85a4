//! Samples in plain numbers.

ghost use Rattle.std.specs.Prelude.{◌≡◌, IfOk};
ghost use Rattle.mp_defs.specs.Series.{reading_of, series_of};
ghost use Rattle.mp_slide.specs.Plain.{gap, AreGaps, plain_numbers};

use mp_nums::{Sample, Whole};
use mp_sums::number_of;
use std::alloc::{AllocError, Global};

/// The samples as plain numbers, with 0 in place of the missing ones. No window with a missing sample is compared.
pub(crate) fn numbers_of(alloc: Global, samples: &[Sample]) -> Result<Vec<Whole>, AllocError>
    ensures { IfOk result (λ numbers. numbers.items ≡ plain_numbers samples.now) }
{
    samples
        .iter()
        .map(|sample| number_of(*sample))
        .collect(alloc)
}

/// 1 for a missing sample.
#[inline]
fn gap(sample: &Sample) -> usize
    ensures { result ≡ gap (reading_of sample.now) }
{
    match sample {
        Sample::Value(_) => 0,
        Sample::Missing => 1,
    }
}

/// How many samples are missing before each place, and before the end.
pub(crate) fn gaps_of(alloc: Global, samples: &[Sample]) -> Result<Vec<usize>, AllocError>
    ensures { IfOk result (λ gaps. AreGaps (series_of samples.now) gaps.items) }
{
    let mut gaps = Vec::with_capacity(alloc, samples.len() + 1)?;
    let mut count = 0;
    for sample in samples {
        gaps.push(count)?;
        count += gap(sample);
    }
    gaps.push(count)?;
    Ok(gaps)
}
