//! The matrix profile of a series.

ghost use Rattle.std.specs.Prelude.{◌≡◌, ◌≢◌, ◌+◌, ◌<◌, ◌≤◌, nat_lt, if◌then◌else◌, length, IfOk, Some, []};
ghost use Rattle.mp_nums.specs.Near.{nearer_of};
ghost use Rattle.mp_defs.specs.Series.{series_of};
ghost use Rattle.mp_defs.specs.Window.{is_allowed};
ghost use Rattle.mp_defs.specs.Profile.{entry, left_entry, right_entry, matrix_profile};

use crate::distances::distance;
use mp_nums::{Items, Memory, Near, Sample, Slot, Slots};
use mp_series::{MAX_SAMPLES, MAX_WINDOW, MIN_WINDOW, allowed, windows};
use std::alloc::Global;

/// A matrix profile: for each window, by its start, the nearest window outside its exclusion zone, the nearest of
/// those that start earlier, and the nearest of those that start later.
#[derive(Debug, Drop)]
pub struct Columns {
    pub all: Slots,
    pub left: Slots,
    pub right: Slots,
}

/// What the columns have at one window.
#[derive(Clone, Copy)]
pub(crate) struct Row {
    pub(crate) all: Slot,
    pub(crate) left: Slot,
    pub(crate) right: Slot,
}

/// Keeps the nearer of the two.
pub(crate) fn offer(best: &mut Slot, found: Near)
    ensures { best.new ≡ nearer_of best.old (Some found) }
{
    let is_nearer = match *best {
        Some(near) => found < near,
        None => true,
    };
    if is_nearer {
        *best = Some(found);
    }
}

impl Row {
    /// The row of window `i`, by comparing it with every window.
    fn of(samples: &[Sample], m: u32, i: u64) -> Row
        requires shortest { 1 ≤ m }
        requires window { i + m ≤ length samples.now }
        ensures all { result.all ≡ entry (is_allowed m) m (series_of samples.now) i }
        ensures left { result.left ≡ left_entry (is_allowed m) m (series_of samples.now) i }
        ensures right { result.right ≡ right_entry (is_allowed m) m (series_of samples.now) i }
    {
        let mut row = Row {
            all: None,
            left: None,
            right: None,
        };
        for j in 0..windows(samples.len() as u64, m) {
            if allowed(i, j, m) {
                if let Some(dist) = distance(samples, i, samples, j, m) {
                    row.offer(i, Near { dist, index: j });
                }
            }
        }
        row
    }

    /// Offers a window to the row of window `i`.
    pub(crate) fn offer(&mut self, i: u64, found: Near)
        requires { found.index ≢ i }
        ensures all { self.new.all ≡ nearer_of self.old.all (Some found) }
        ensures left { self.new.left
            ≡ (if nat_lt found.index i then nearer_of self.old.left (Some found) else self.old.left) }
        ensures right { self.new.right
            ≡ (if nat_lt i found.index then nearer_of self.old.right (Some found) else self.old.right) }
    {
        offer(&mut self.all, found);
        if found.index < i {
            offer(&mut self.left, found);
        } else {
            offer(&mut self.right, found);
        }
    }
}

/// The empty list, with room for `count` slots.
pub(crate) fn slots(alloc: Global, count: u64) -> Result<Slots, Memory>
    ensures items { IfOk result (λ slots. slots.items ≡ []) }
    ensures spare { IfOk result (λ slots. count ≤ slots.spare) }
{
    let mut slots = Items::new(alloc);
    slots.reserve(count)?;
    Ok(slots)
}

/// The matrix profile of the samples at window length `m`, by comparing every window with every other.
pub fn profile(alloc: Global, samples: &[Sample], m: u32) -> Result<Columns, Memory>
    requires shortest { MIN_WINDOW ≤ m }
    requires longest { m ≤ MAX_WINDOW }
    requires samples { length samples.now ≤ MAX_SAMPLES }
    ensures all { IfOk result (λ c. c.all.items ≡ (matrix_profile m (series_of samples.now)).all) }
    ensures left { IfOk result (λ c. c.left.items ≡ (matrix_profile m (series_of samples.now)).left) }
    ensures right { IfOk result (λ c. c.right.items ≡ (matrix_profile m (series_of samples.now)).right) }
{
    let count = windows(samples.len() as u64, m);
    let mut columns = Columns {
        all: slots(alloc, count)?,
        left: slots(alloc, count)?,
        right: slots(alloc, count)?,
    };
    for i in 0..count {
        let row = Row::of(samples, m, i);
        columns.all.push(row.all)?;
        columns.left.push(row.left)?;
        columns.right.push(row.right)?;
    }
    Ok(columns)
}
