//! The series whose centre is found.

ghost use Rattle.std.specs.Prelude.{◌≡◌, ◌≤◌, length, All, IfOk};
ghost use Rattle.mp_series.specs.declared.limits.TheConstants.{MAX_SAMPLES};

use anyhow::{Result, ensure};
use mp_nums::Sample;
use mp_series::{Bundle, MAX_SAMPLES};
use std::alloc::Global;

/// So many series of one length, one behind another in the samples.
pub fn list_of(alloc: Global, samples: &[Sample], count: u64) -> Result<Bundle>
    requires some { 1 ≤ count }
    requires few { count ≤ 64 }
    ensures count { IfOk result (λ list. length list ≡ count) }
    ensures samples { IfOk result (λ list. All (λ series. length series ≤ MAX_SAMPLES) list) }
{
    let length = samples.len() / count as usize;
    ensure!(length as u64 <= MAX_SAMPLES, "{length} samples");
    let mut list = Bundle::new(alloc);
    let mut rest = samples;
    for _ in 0..count {
        let (series, others) = rest.split_at(length.min(rest.len()));
        list.add(series)?;
        rest = others;
    }
    Ok(list)
}
