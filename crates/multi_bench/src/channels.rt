//! The channels of the input.

ghost use Rattle.std.specs.Prelude.{◌≡◌, All, IfOk, length, vec_len};

use mp_nums::{Memory, Sample};
use mp_series::Bundle;
use std::alloc::Global;

/// So many samples from a place on, missing ones past the last.
fn samples_from(
    alloc: Global,
    samples: &[Sample],
    first: u64,
    count: u64,
) -> Result<Vec<Sample>, Memory>
    ensures { IfOk result (λ part. vec_len part ≡ count) }
{
    let mut part = Vec::new(alloc);
    for k in 0..count {
        let place = first.wrapping_add(k) as usize;
        part.push(if place < samples.len() {
            samples[place]
        } else {
            Sample::Missing
        })?;
    }
    Ok(part)
}

/// Channels of so many samples each, which stand one after another.
pub(crate) fn channels_of(
    alloc: Global,
    samples: &[Sample],
    channels: u64,
    count: u64,
) -> Result<Bundle, Memory>
    ensures { IfOk result (λ list. (length list ≡ channels) × All (λ channel. length channel ≡ count) list) }
{
    let mut list = Bundle::new(alloc);
    for c in 0..channels {
        let channel = samples_from(alloc, samples, c.wrapping_mul(count), count)?;
        list.add(channel.as_slice())?;
    }
    Ok(list)
}
