//! The AB-join of two series.

ghost use Rattle.std.specs.Prelude.{◌≡◌, ◌+◌, ◌≤◌, length, IfOk};
ghost use Rattle.mp_defs.specs.Series.{series_of};
ghost use Rattle.mp_defs.specs.Profile.{join_entry, ab_join};

use crate::distances::distance;
use crate::profiles::{offer, slots};
use mp_nums::{Memory, Near, Sample, Slot, Slots};
use mp_series::{MAX_SAMPLES, MAX_WINDOW, MIN_WINDOW, windows};
use std::alloc::Global;

/// The window of `b` that is nearest to window `i` of `a`, by comparing it with every one.
fn nearest(a: &[Sample], i: u64, b: &[Sample], m: u32) -> Slot
    requires shortest { 1 ≤ m }
    requires window { i + m ≤ length a.now }
    ensures { result ≡ join_entry m (series_of a.now) (series_of b.now) i }
{
    let mut best = None;
    for j in 0..windows(b.len() as u64, m) {
        if let Some(dist) = distance(a, i, b, j, m) {
            offer(&mut best, Near { dist, index: j });
        }
    }
    best
}

/// The AB-join at window length `m`: for each window of `a` its nearest window in `b`, without an exclusion zone, by
/// comparing every window of the one with every window of the other.
pub fn join(alloc: Global, a: &[Sample], b: &[Sample], m: u32) -> Result<Slots, Memory>
    requires shortest { MIN_WINDOW ≤ m }
    requires longest { m ≤ MAX_WINDOW }
    requires first { length a.now ≤ MAX_SAMPLES }
    requires second { length b.now ≤ MAX_SAMPLES }
    ensures { IfOk result (λ slots. slots.items ≡ ab_join m (series_of a.now) (series_of b.now)) }
{
    let count = windows(a.len() as u64, m);
    let mut joined = slots(alloc, count)?;
    for i in 0..count {
        joined.push(nearest(a, i, b, m))?;
    }
    Ok(joined)
}
