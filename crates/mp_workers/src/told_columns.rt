//! The columns of a profile whose windows are all told of.

ghost use Rattle.std.specs.Prelude.{◌≡◌, ◌≤◌, []};
ghost use Rattle.std.specs.Thread.{IsSync};
ghost use Rattle.mp_partial.specs.Values.{merged_column};
ghost use Rattle.mp_workers.specs.Entries.{count_of, left_of, right_of};
ghost use Rattle.mp_workers.specs.Tellers.{IsHold, IsWholeTold};

use crate::aside::run_aside;
use crate::columns::are_side_by_side;
use crate::entries::Entries;
use crate::holds::Hold;
use mp_nums::Slots;
use mp_partial::Profile;
use std::thread::{Threads, join_mut};

/// Fills the column of the right in a thread of its own.
fn fill_right<R: Threads>(rt: &R, entries: &Entries, hold: &mut Hold, right: &mut Slots)
    requires hold { IsHold entries.now hold.old }
    requires whole { IsWholeTold entries.now.series hold.old.told }
    requires no_window { right.old.items ≡ [] }
    requires spare { count_of entries.now.series ≤ right.old.spare }
    ensures { right.new.items ≡ right_of entries.now.series }
{
    let mut own = ||
        requires { IsHold entries.now hold.now × IsWholeTold entries.now.series hold.now.told
            × (right.now.items ≡ []) × (count_of entries.now.series ≤ right.now.spare) }
        ensures { right.exit.now.items ≡ right_of entries.entry.now.series }
    { entries.put_right(hold, right) };
    run_aside(rt, &mut own);
}

/// Fills the columns of the left and of the right side by side.
fn fill_sides<R: Threads + Sync>(
    rt: &R,
    entries: &Entries,
    hold: &mut Hold,
    other: &mut Hold,
    left: &mut Slots,
    right: &mut Slots,
)
    requires hold { IsHold entries.now hold.old }
    requires whole { IsWholeTold entries.now.series hold.old.told }
    requires other { IsHold entries.now other.old }
    requires other_whole { IsWholeTold entries.now.series other.old.told }
    requires no_left { left.old.items ≡ [] }
    requires no_right { right.old.items ≡ [] }
    requires left_spare { count_of entries.now.series ≤ left.old.spare }
    requires right_spare { count_of entries.now.series ≤ right.old.spare }
    ensures left { left.new.items ≡ left_of entries.now.series }
    ensures right { right.new.items ≡ right_of entries.now.series }
{
    let mut front = ||
        requires { IsHold entries.now hold.now × IsWholeTold entries.now.series hold.now.told
            × (left.now.items ≡ []) × (count_of entries.now.series ≤ left.now.spare) }
        ensures { left.exit.now.items ≡ left_of entries.entry.now.series }
    { entries.put_left(hold, left) };
    let mut back = ||
        requires { IsHold entries.now other.now × IsWholeTold entries.now.series other.now.told
            × (right.now.items ≡ []) × (count_of entries.now.series ≤ right.now.spare) }
        ensures { right.exit.now.items ≡ right_of entries.entry.now.series }
    { fill_right(rt, entries, other, right) };
    join_mut(rt, &mut front, &mut back);
}

/// Fills all three columns side by side.
fn fill_columns<R: Threads + Sync>(
    rt: &R,
    entries: &Entries,
    hold: &mut Hold,
    all: &mut Slots,
    left: &mut Slots,
    right: &mut Slots,
)
    requires some { 1 ≤ count_of entries.now.series }
    requires hold { IsHold entries.now hold.old }
    requires whole { IsWholeTold entries.now.series hold.old.told }
    requires no_window { all.old.items ≡ [] }
    requires no_left { left.old.items ≡ [] }
    requires no_right { right.old.items ≡ [] }
    requires spare { count_of entries.now.series ≤ all.old.spare }
    requires left_spare { count_of entries.now.series ≤ left.old.spare }
    requires right_spare { count_of entries.now.series ≤ right.old.spare }
    ensures all { all.new.items ≡ merged_column (left_of entries.now.series) (right_of entries.now.series) }
    ensures left { left.new.items ≡ left_of entries.now.series }
    ensures right { right.new.items ≡ right_of entries.now.series }
{
    let mut other = entries.split(hold);
    let mut third = entries.split(hold);
    let mut front = ||
        requires { IsHold entries.now hold.now × IsWholeTold entries.now.series hold.now.told
            × (all.now.items ≡ []) × (count_of entries.now.series ≤ all.now.spare) }
        ensures { all.exit.now.items
            ≡ merged_column (left_of entries.entry.now.series) (right_of entries.entry.now.series) }
    { entries.put_nearer(hold, all) };
    let mut back = ||
        requires { IsSync R.row × IsHold entries.now other × IsWholeTold entries.now.series other.told
            × IsHold entries.now third × IsWholeTold entries.now.series third.told
            × (left.now.items ≡ []) × (right.now.items ≡ [])
            × (count_of entries.now.series ≤ left.now.spare) × (count_of entries.now.series ≤ right.now.spare) }
        ensures { (left.exit.now.items ≡ left_of entries.entry.now.series)
            × (right.exit.now.items ≡ right_of entries.entry.now.series) }
    { fill_sides(rt, entries, &mut other, &mut third, left, right) };
    join_mut(rt, &mut front, &mut back);
}

/// The profile all of whose windows are told of, in the room of a profile of no windows. Where there are workers
/// enough, each column is filled by one of its own. It takes no memory.
pub(crate) fn profile_told<R: Threads + Sync>(
    rt: &R,
    entries: &Entries,
    mut hold: Hold,
    workers: u32,
    room: Profile,
) -> Profile
    requires some { 1 ≤ count_of entries.now.series }
    requires hold { IsHold entries.now hold }
    requires whole { IsWholeTold entries.now.series hold.told }
    requires no_window { room.all ≡ [] }
    requires no_left { room.left ≡ [] }
    requires no_right { room.right ≡ [] }
    requires spare { count_of entries.now.series ≤ room.spare }
    ensures all { result.all ≡ merged_column (left_of entries.now.series) (right_of entries.now.series) }
    ensures left { result.left ≡ left_of entries.now.series }
    ensures right { result.right ≡ right_of entries.now.series }
{
    let (mut all, mut left, mut right) = room.into_columns();
    if are_side_by_side(entries.len(), workers) {
        fill_columns(rt, entries, &mut hold, &mut all, &mut left, &mut right);
    } else {
        entries.put_nearer(&mut hold, &mut all);
        entries.put_left(&mut hold, &mut left);
        entries.put_right(&mut hold, &mut right);
    }
    Profile::of(all, left, right)
}
