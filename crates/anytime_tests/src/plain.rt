//! The definitions step by step: which diagonal is covered next, and which windows on covered diagonals are nearest.

ghost use Rattle.std.specs.Prelude.{◌+◌, ◌≤◌, length};

use mp_nums::{Near, Sample, Slot, Sq};
use mp_plain::distance;
use mp_series::{allowed, excl};

/// The number whose 18 binary digits are those of a diagonal's number in the opposite order.
fn reversal(diagonal: u64) -> u64 {
    diagonal.reverse_bits() >> 46
}

/// The one of a diagonal and of another that has the lesser reversal.
fn sooner(diagonal: Option<u64>, other: u64) -> u64 {
    match diagonal {
        Some(first) if reversal(first) < reversal(other) => first,
        _ => other,
    }
}

/// Whether a diagonal is marked as covered.
fn is_covered(covered: &[bool], diagonal: u64) -> bool {
    covered.get(diagonal as usize) == Some(&true)
}

/// Of the diagonals of so many windows that aren't covered the one with the least reversal.
pub(crate) fn next(m: u32, windows: u64, covered: &[bool]) -> Option<u64> {
    let mut next = None;
    for diagonal in excl(m) + 1..windows {
        if !is_covered(covered, diagonal) {
            next = Some(sooner(next, diagonal));
        }
    }
    next
}

/// The nearer of a window and of a later one, the earlier where both are as near.
fn nearer(earlier: Slot, dist: Sq, index: u64) -> Slot {
    match earlier {
        Some(near) if near.dist <= dist => earlier,
        _ => Some(Near { dist, index }),
    }
}

/// Of the windows from a first one on and before an end the nearest one outside the exclusion zone of window `i` on a
/// covered diagonal.
pub(crate) fn nearest(
    samples: &[Sample],
    m: u32,
    covered: &[bool],
    i: u64,
    first: u64,
    end: u64,
) -> Slot
    requires shortest { 1 ≤ m }
    requires window { i + m ≤ length samples.now }
    requires end { end + m ≤ length samples.now + 1 }
{
    let mut slot = None;
    for j in first..end {
        if allowed(i, j, m) && is_covered(covered, i.abs_diff(j)) {
            if let Some(dist) = distance(samples, i, samples, j, m) {
                slot = nearer(slot, dist, j);
            }
        }
    }
    slot
}
