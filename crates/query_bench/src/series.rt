//! What is searched.

ghost use Rattle.std.specs.Prelude.{◌≡◌, IfOk, vec_len};

use mp_nums::{Near, Sample, Slot, Sq, Whole};
use std::alloc::{AllocError, Global};

/// So many samples from 0 to 65,535 without a pattern. Some are missing, all behind the longest window.
pub fn noise(alloc: Global, count: u64) -> Result<Vec<Sample>, AllocError>
    ensures { IfOk result (λ samples. vec_len samples ≡ count) }
{
    (0..count).map(sample).collect(alloc)
}

fn sample(k: u64) -> Sample {
    if k % 30_011 == 30_010 {
        Sample::Missing
    } else {
        Sample::Value(Whole::from((mixed(k) % 65_536) as i32))
    }
}

/// Entries for so many windows, and some windows without one.
pub fn entries(alloc: Global, count: u64) -> Result<Vec<Slot>, AllocError> {
    (0..count).map(entry).collect(alloc)
}

fn entry(k: u64) -> Slot {
    if k % 1_000 == 999 {
        return None;
    }
    Some(Near {
        dist: Sq(u128::from(mixed(k) % 1_000_000)),
        index: mixed(k) % 1_000,
    })
}

/// A number that looks as if it had nothing to do with `k`.
fn mixed(k: u64) -> u64 {
    k.wrapping_mul(6_364_136_223_846_793_005) >> 33
}
