//! The profile of the windows that lie in the last samples of a series.

ghost use Rattle.std.specs.Prelude.{◌≡◌, ◌+◌, ◌<◌, ◌≤◌, ◌^◌, length, IfOk};
ghost use Rattle.mp_defs.specs.Series.{series_of};
ghost use Rattle.mp_defs.specs.Profile.{entry, left_entry, right_entry};
ghost use Rattle.mp_defs.specs.Band.{is_allowed_in, live_column};

use crate::distances::distance;
use crate::profiles::{Columns, Row, slots};
use mp_nums::{Memory, Near, Sample};
use mp_series::{MAX_WINDOW, MIN_WINDOW, allowed, windows};
use std::alloc::Global;

/// Whether window `j` may be compared with window `i`: it lies outside the exclusion zone, and both lie in some `keep`
/// samples.
fn is_compared(i: u64, j: u64, m: u32, keep: u64) -> bool
    requires shortest { 1 ≤ m }
    ensures { result ≡ is_allowed_in keep m i j }
{
    allowed(i, j, m) && i.abs_diff(j) <= keep.saturating_sub(u64::from(m))
}

/// The row of window `i`, by comparing it with every window.
fn row_of(samples: &[Sample], m: u32, keep: u64, i: u64) -> Row
    requires shortest { 1 ≤ m }
    requires window { i + m ≤ length samples.now }
    ensures all { result.all ≡ entry (is_allowed_in keep m) m (series_of samples.now) i }
    ensures left { result.left ≡ left_entry (is_allowed_in keep m) m (series_of samples.now) i }
    ensures right { result.right ≡ right_entry (is_allowed_in keep m) m (series_of samples.now) i }
{
    let mut row = Row {
        all: None,
        left: None,
        right: None,
    };
    for j in 0..windows(samples.len() as u64, m) {
        if is_compared(i, j, m, keep) {
            if let Some(dist) = distance(samples, i, samples, j, m) {
                row.offer(i, Near { dist, index: j });
            }
        }
    }
    row
}

/// The columns of the windows that lie in the last `keep` samples, each compared with every window of the series that
/// lies in some `keep` samples with it.
pub fn kept_profile(alloc: Global, samples: &[Sample], m: u32, keep: u64) -> Result<Columns, Memory>
    requires shortest { MIN_WINDOW ≤ m }
    requires longest { m ≤ MAX_WINDOW }
    requires kept { m ≤ keep }
    requires samples { length samples.now < 2 ^ 63 }
    ensures all { IfOk result (λ c. c.all.items
        ≡ live_column (entry (is_allowed_in keep m) m (series_of samples.now)) keep m (length samples.now)) }
    ensures left { IfOk result (λ c. c.left.items
        ≡ live_column (left_entry (is_allowed_in keep m) m (series_of samples.now)) keep m (length samples.now)) }
    ensures right { IfOk result (λ c. c.right.items
        ≡ live_column (right_entry (is_allowed_in keep m) m (series_of samples.now)) keep m (length samples.now)) }
{
    let count = samples.len() as u64;
    let first = count.saturating_sub(keep);
    let live = windows(count, m).saturating_sub(first);
    let mut columns = Columns {
        all: slots(alloc, live)?,
        left: slots(alloc, live)?,
        right: slots(alloc, live)?,
    };
    for place in 0..live {
        let row = row_of(samples, m, keep, first + place);
        columns.all.push(row.all)?;
        columns.left.push(row.left)?;
        columns.right.push(row.right)?;
    }
    Ok(columns)
}
