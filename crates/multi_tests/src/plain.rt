//! The multidimensional profile by the plain double loop.

use mp_nums::{Memory, Near, Slot, Sq, nearer};
use mp_plain::distance;
use mp_series::{Bundle, allowed};
use std::alloc::Global;
use std::process::Abort;

/// The distances of two windows of 3 samples, in the channels that have one.
fn distances(
    rt: &impl Abort,
    alloc: Global,
    channels: &Bundle,
    i: u64,
    j: u64,
) -> Result<Vec<u128>, Memory> {
    let mut distances = Vec::new(alloc);
    for c in 0..channels.count() {
        let channel = channels.series(c);
        let count = channel.len() as u64;
        assert!(rt; i < count && count - i >= 3 && j < count && count - j >= 3);
        if let Some(dist) = distance(channel, i, channel, j, 3) {
            distances.push(dist.0)?;
        }
    }
    Ok(distances)
}

/// The sum of the `k` least distances of two windows.
fn value(
    rt: &impl Abort,
    alloc: Global,
    channels: &Bundle,
    k: usize,
    i: u64,
    j: u64,
) -> Result<Option<Sq>, Memory> {
    let mut distances = distances(rt, alloc, channels, i, j)?;
    distances.sort_unstable();
    if distances.len() < k {
        return Ok(None);
    }
    let mut sum: u128 = 0;
    for dist in &distances.as_slice()[..k] {
        sum = sum.wrapping_add(*dist);
    }
    Ok(Some(Sq(sum)))
}

/// The entry of one of so many windows.
pub(crate) fn entry(
    rt: &impl Abort,
    alloc: Global,
    channels: &Bundle,
    k: usize,
    i: u64,
    windows: u64,
) -> Result<Slot, Memory> {
    let mut least = None;
    for index in 0..windows {
        if allowed(i, index, 3) {
            if let Some(dist) = value(rt, alloc, channels, k, i, index)? {
                least = nearer(least, Some(Near { dist, index }));
            }
        }
    }
    Ok(least)
}
