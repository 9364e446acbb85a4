//! One column: for each place its nearest window, or none.

ghost use Rattle.std.specs.Prelude.{◌≡◌, ◌+◌, ◌<◌, ◌≤◌, false, length, replicate, IfOk, Some, None};
ghost use Rattle.mp_nums.specs.Near.{nearer_of};
ghost use Rattle.mp_partial.specs.Values.{empty_column, merged_column, offered};
ghost use Rattle.mp_partial.specs.Patching.{slots_from, placed, IsCovered};

use mp_nums::{Items, Memory, Near, Slot, Slots, Sq, nearer};
use std::alloc::Global;

/// A column in which nothing was found.
pub(crate) fn empty(alloc: Global, size: u64) -> Result<Slots, Memory>
    ensures { IfOk result (λ column. column.items ≡ empty_column size) }
{
    Ok(Items::from(vec![in alloc; None; size as usize]?))
}

fn clear_each(slots: &mut [Slot])
    ensures { slots.new ≡ empty_column (length slots.old) }
{
    for slot in slots.iter_mut() {
        *slot = None;
    }
}

/// Forgets what was found.
pub(crate) fn clear(column: &mut Slots)
    ensures items { column.new.items ≡ empty_column (length column.old.items) }
    ensures spare { column.new.spare ≡ column.old.spare }
{
    clear_each(column.as_mut_slice());
}

fn merge_each(slots: &mut [Slot], others: &[Slot])
    requires { length others.now ≡ length slots.old }
    ensures { slots.new ≡ merged_column slots.old others.now }
{
    for i in 0..slots.len() {
        slots[i] = nearer(slots[i], others[i]);
    }
}

/// Takes over what the other column has found.
pub(crate) fn merge(column: &mut Slots, other: &Slots)
    requires { length other.now.items ≡ length column.old.items }
    ensures items { column.new.items ≡ merged_column column.old.items other.now.items }
    ensures places { length column.new.items ≡ length column.old.items }
    ensures spare { column.new.spare ≡ column.old.spare }
{
    merge_each(column.as_mut_slice(), other.as_slice());
}

/// So many slots from a place on.
pub(crate) fn part(column: &Slots, first: u64, count: u64) -> &[Slot]
    requires { first + count ≤ length column.now.items }
    ensures slots { result.now ≡ slots_from column.now.items first count }
    ensures places { length result.now ≡ count }
{
    let first = first as usize;
    &column.as_slice()[first..first + count as usize]
}

/// Takes over what was found on one side into this side and into both. Most is nearer to neither, and one look tells.
pub(crate) fn merge_side(side: &mut Slots, both: &mut Slots, first: u64, slots: &[Slot])
    requires within { first + length slots.now ≤ length side.old.items }
    requires both { length both.old.items ≡ length side.old.items }
    requires covered { IsCovered side.old.items both.old.items }
    ensures side { side.new.items
        ≡ merged_column side.old.items (placed (length side.old.items) first slots.now) }
    ensures both { both.new.items
        ≡ merged_column both.old.items (placed (length side.old.items) first slots.now) }
    ensures side_spare { side.new.spare ≡ side.old.spare }
    ensures both_spare { both.new.spare ≡ both.old.spare }
{
    merge_from(
        side.as_mut_slice(),
        both.as_mut_slice(),
        first as usize,
        slots,
    );
}

fn merge_from(side: &mut [Slot], both: &mut [Slot], first: usize, slots: &[Slot])
    requires within { first + length slots.now ≤ length side.old }
    requires both { length both.old ≡ length side.old }
    requires covered { IsCovered side.old both.old }
    ensures side { side.new ≡ merged_column side.old (placed (length side.old) first slots.now) }
    ensures both { both.new ≡ merged_column both.old (placed (length side.old) first slots.now) }
{
    for k in 0..slots.len() {
        merge_slot(&mut side[first + k], &mut both[first + k], &slots[k]);
    }
}

#[inline]
fn merge_slot(side: &mut Slot, both: &mut Slot, found: &Slot)
    requires covered { nearer_of side.old found.now ≡ side.old → nearer_of both.old found.now ≡ both.old }
    ensures side { side.new ≡ nearer_of side.old found.now }
    ensures both { both.new ≡ nearer_of both.old found.now }
{
    if let Some(near) = *found {
        if offer_slot(side, near) {
            offer_slot(both, near);
        }
    }
}

/// Keeps the nearer of the two, and tells whether `found` was taken.
#[inline]
pub(crate) fn offer_slot(slot: &mut Slot, found: Near) -> bool
    ensures offered { slot.new ≡ nearer_of slot.old (Some found) }
    ensures kept { result ≡ false → slot.new ≡ slot.old }
{
    let taken = match *slot {
        // most windows are farther, which their distance alone tells
        Some(near) => found.dist <= near.dist && found < near,
        None => true,
    };
    if taken {
        *slot = Some(found);
    }
    taken
}

#[inline]
fn offer(column: &mut Slots, place: u64, found: Near) -> bool
    requires { place < length column.old.items }
    ensures offered { column.new.items ≡ offered column.old.items place found }
    ensures kept { result ≡ false → column.new.items ≡ column.old.items }
    ensures spare { column.new.spare ≡ column.old.spare }
{
    offer_slot(&mut column.as_mut_slice()[place as usize], found)
}

/// Window `j` is found at this distance from window `i`: the slot at place `i` keeps the nearer of it and of what was
/// found before.
#[inline]
pub fn offer_at(slots: &mut Slots, i: u64, j: u64, dist: Sq)
    requires { i < length slots.old.items }
    ensures offered { slots.new.items ≡ offered slots.old.items i (record { dist = dist; index = j }) }
    ensures spare { slots.new.spare ≡ slots.old.spare }
{
    offer(slots, i, Near { dist, index: j });
}

/// Offers what was found on one side to this side and to both. Most is nearer to neither, and one look tells.
#[inline]
pub(crate) fn offer_on_side(side: &mut Slots, both: &mut Slots, place: u64, found: Near)
    requires side { place < length side.old.items }
    requires both { place < length both.old.items }
    requires covered { offered side.old.items place found ≡ side.old.items
        → offered both.old.items place found ≡ both.old.items }
    ensures side { side.new.items ≡ offered side.old.items place found }
    ensures both { both.new.items ≡ offered both.old.items place found }
    ensures side_spare { side.new.spare ≡ side.old.spare }
    ensures both_spare { both.new.spare ≡ both.old.spare }
{
    if offer(side, place, found) {
        offer(both, place, found);
    }
}
