//! All windows that may be compared with one, in order.

ghost use Rattle.std.specs.Prelude.{◌+◌, ◌≤◌, length};

use mp_nums::{Memory, Near, Sample};
use mp_plain::distance;
use mp_series::{allowed, windows};
use std::alloc::Global;

/// The windows outside the exclusion zone of window `i` that have a distance to it, by distance and then by start.
pub(crate) fn ordered(
    alloc: Global,
    samples: &[Sample],
    m: u32,
    i: u64,
) -> Result<Vec<Near>, Memory>
    requires shortest { 1 ≤ m }
    requires window { i + m ≤ length samples.now }
{
    let mut nears = Vec::new(alloc);
    for j in 0..windows(samples.len() as u64, m) {
        if allowed(i, j, m) {
            if let Some(dist) = distance(samples, i, samples, j, m) {
                nears.push(Near { dist, index: j })?;
            }
        }
    }
    nears.sort()?;
    Ok(nears)
}
