//! The columns of a profile, filled side by side.

ghost use Rattle.std.specs.Prelude.{◌≡◌, ◌≤◌, [], length};
ghost use Rattle.std.specs.Thread.{IsSync};
ghost use Rattle.mp_partial.specs.Values.{merged_column};

use crate::aside::run_aside;
use mp_nums::Slots;
use mp_partial::{Part, Profile};
use mp_tiles::Sides;
use std::thread::{Threads, join_mut};

/// From how many windows on each column is filled by a worker of its own. Fewer take less time than the start of one.
const WINDOWS_FOR_A_WORKER: u64 = 8_192;

/// How many columns a profile has.
const COLUMNS: u32 = 3;

/// Whether each column of so many windows is filled by a worker of its own, where there are so many workers.
pub(crate) fn are_side_by_side(windows: u64, workers: u32) -> bool {
    COLUMNS <= workers && WINDOWS_FOR_A_WORKER <= windows
}

/// Fills the column of the right in a thread of its own.
fn fill_right<R: Threads>(rt: &R, sides: &Sides, right: &mut Slots)
    requires no_right { right.old.items ≡ [] }
    requires spare { length sides.now.left ≤ right.old.spare }
    ensures { right.new.items ≡ sides.now.right }
{
    let mut own = ||
        requires { (right.now.items ≡ []) × (length sides.now.left ≤ right.now.spare) }
        ensures { right.exit.now.items ≡ sides.entry.now.right }
    { sides.put_right(right) };
    run_aside(rt, &mut own);
}

/// Fills the columns of the left and of the right side by side.
fn fill_sides<R: Threads + Sync>(rt: &R, sides: &Sides, left: &mut Slots, right: &mut Slots)
    requires no_left { left.old.items ≡ [] }
    requires no_right { right.old.items ≡ [] }
    requires left_spare { length sides.now.left ≤ left.old.spare }
    requires right_spare { length sides.now.left ≤ right.old.spare }
    ensures left { left.new.items ≡ sides.now.left }
    ensures right { right.new.items ≡ sides.now.right }
{
    let mut front = ||
        requires { (left.now.items ≡ []) × (length sides.now.left ≤ left.now.spare) }
        ensures { left.exit.now.items ≡ sides.entry.now.left }
    { sides.put_left(left) };
    let mut back = ||
        requires { (right.now.items ≡ []) × (length sides.now.left ≤ right.now.spare) }
        ensures { right.exit.now.items ≡ sides.entry.now.right }
    { fill_right(rt, sides, right) };
    join_mut(rt, &mut front, &mut back);
}

/// Fills all three columns side by side.
fn fill_columns<R: Threads + Sync>(
    rt: &R,
    sides: &Sides,
    all: &mut Slots,
    left: &mut Slots,
    right: &mut Slots,
)
    requires no_window { all.old.items ≡ [] }
    requires no_left { left.old.items ≡ [] }
    requires no_right { right.old.items ≡ [] }
    requires spare { length sides.now.left ≤ all.old.spare }
    requires left_spare { length sides.now.left ≤ left.old.spare }
    requires right_spare { length sides.now.left ≤ right.old.spare }
    ensures all { all.new.items ≡ merged_column sides.now.left sides.now.right }
    ensures left { left.new.items ≡ sides.now.left }
    ensures right { right.new.items ≡ sides.now.right }
{
    let mut front = ||
        requires { (all.now.items ≡ []) × (length sides.now.left ≤ all.now.spare) }
        ensures { all.exit.now.items ≡ merged_column sides.entry.now.left sides.entry.now.right }
    { sides.put_nearer(all) };
    let mut back = ||
        requires { IsSync R.row × (left.now.items ≡ []) × (right.now.items ≡ [])
            × (length sides.now.left ≤ left.now.spare) × (length sides.now.left ≤ right.now.spare) }
        ensures { (left.exit.now.items ≡ sides.entry.now.left) × (right.exit.now.items ≡ sides.entry.now.right) }
    { fill_sides(rt, sides, left, right) };
    join_mut(rt, &mut front, &mut back);
}

/// The profile of both sides, in the room of a profile of no windows. Where there are workers enough, each column is
/// filled by one of its own: most of the time goes into memory that is used for the first time. It takes no memory.
pub(crate) fn profile_of<R: Threads + Sync>(
    rt: &R,
    sides: &Sides,
    workers: u32,
    room: Profile,
) -> Profile
    requires no_window { room.all ≡ [] }
    requires no_left { room.left ≡ [] }
    requires no_right { room.right ≡ [] }
    requires spare { length sides.now.left ≤ room.spare }
    ensures all { result.all ≡ merged_column sides.now.left sides.now.right }
    ensures left { result.left ≡ sides.now.left }
    ensures right { result.right ≡ sides.now.right }
{
    if !are_side_by_side(sides.size(), workers) {
        return sides.profile(room);
    }
    let (mut all, mut left, mut right) = room.into_columns();
    fill_columns(rt, sides, &mut all, &mut left, &mut right);
    Profile::of(all, left, right)
}
