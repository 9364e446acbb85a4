//! The offer of two windows to each other.

ghost use Rattle.std.specs.Prelude.{◌≡◌, ◌<◌, length, true, false, IfSome};
ghost use Rattle.mp_partial.specs.Values.{merged_column, offered};
ghost use Rattle.mp_scans.specs.Slots.{Covers};
ghost use Rattle.mp_tiles.specs.Scanning.{taken};
ghost use Rattle.mp_anytime.specs.Offers.{ChangesAt};
ghost use Rattle.mp_anytime.specs.Scanning.{AreEarlier, AreLater, IsPairTaken};

use mp_nums::{Slot, Sq};
use mp_partial::Profile;
use mp_tiles::Compact;

/// Offers window `i` and a later window `j` to each other.
#[inline]
pub(crate) fn offer_both(into: &mut Profile, i: u64, j: u64, dist: Sq)
    requires order { i < j }
    requires within { j < length into.old.all }
    ensures all { into.new.all ≡ offered (offered into.old.all i (record { dist = dist; index = j })) j
        (record { dist = dist; index = i }) }
    ensures left { into.new.left ≡ offered into.old.left j (record { dist = dist; index = i }) }
    ensures right { into.new.right ≡ offered into.old.right i (record { dist = dist; index = j }) }
    ensures spare { into.new.spare ≡ into.old.spare }
    ensures room { into.new.room ≡ into.old.room }
{
    into.offer(i, j, dist);
    into.offer(j, i, dist);
}

/// Whether window `index` at a distance may be nearer than what stands in a slot.
#[inline]
fn may_take(slot: Slot, index: u64, dist: Sq) -> bool
    ensures { result ≡ false → Covers slot index dist.0 }
{
    match slot {
        Some(near) => dist < near.dist || (dist == near.dist && index < near.index),
        None => true,
    }
}

/// The same, unless neither of them gives the other something: all entries are looked at only where a side takes one.
#[inline]
fn offer_nearer(into: &mut Profile, i: u64, j: u64, dist: Sq)
    requires order { i < j }
    requires within { j < length into.old.all }
    ensures taken { IsPairTaken i j true dist.0 into.old into.new }
    ensures right { ChangesAt i into.old.right into.new.right }
{
    let _windows = into.len();
    let _entries = into.all();
    let right = into.right()[i as usize];
    let left = into.left()[j as usize];
    let is_nearer = may_take(right, j, dist) | may_take(left, i, dist);
    if is_nearer {
        offer_both(into, i, j, dist);
    }
}

/// The same, where no sample of them is missing.
#[inline]
pub(crate) fn offer_pair(into: &mut Profile, i: u64, j: u64, both_free: bool, dist: Sq)
    requires order { i < j }
    requires within { j < length into.old.all }
    ensures taken { IsPairTaken i j both_free dist.0 into.old into.new }
    ensures right { ChangesAt i into.old.right into.new.right }
{
    if both_free {
        offer_nearer(into, i, j, dist);
    }
}

/// Offers a window an earlier one, where there is one.
#[inline]
pub(crate) fn offer_left(into: &mut Profile, place: u64, slot: Slot)
    requires within { place < length into.old.all }
    requires earlier { IfSome slot (λ near. near.index < place) }
    ensures left { into.new.left ≡ taken into.old.left place slot }
    ensures right { into.new.right ≡ into.old.right }
    ensures spare { into.new.spare ≡ into.old.spare }
    ensures places { length into.new.all ≡ length into.old.all }
{
    if let Some(near) = slot {
        into.offer(place, near.index, near.dist);
    }
}

/// Offers a window a later one, where there is one.
#[inline]
pub(crate) fn offer_right(into: &mut Profile, place: u64, slot: Slot)
    requires within { place < length into.old.all }
    requires later { IfSome slot (λ near. (place < near.index) × (near.index < length into.old.all)) }
    ensures right { into.new.right ≡ taken into.old.right place slot }
    ensures left { into.new.left ≡ into.old.left }
    ensures spare { into.new.spare ≡ into.old.spare }
    ensures places { length into.new.all ≡ length into.old.all }
{
    if let Some(near) = slot {
        into.offer(place, near.index, near.dist);
    }
}

/// Offers each window an earlier one, where a slot has one for it.
pub(crate) fn offer_earlier(into: &mut Profile, slots: &[Compact])
    requires places { length slots.now ≡ length into.old.all }
    requires earlier { AreEarlier slots.now }
    ensures left { into.new.left ≡ merged_column into.old.left slots.now }
    ensures right { into.new.right ≡ into.old.right }
    ensures spare { into.new.spare ≡ into.old.spare }
    ensures places { length into.new.all ≡ length into.old.all }
{
    let _windows = into.len();
    for place in 0..slots.len() {
        offer_left(into, place as u64, slots[place].slot());
    }
}

/// Offers each window a later one, where a slot has one for it.
pub(crate) fn offer_later(into: &mut Profile, slots: &[Compact])
    requires places { length slots.now ≡ length into.old.all }
    requires later { AreLater (length into.old.all) slots.now }
    ensures right { into.new.right ≡ merged_column into.old.right slots.now }
    ensures left { into.new.left ≡ into.old.left }
    ensures spare { into.new.spare ≡ into.old.spare }
    ensures places { length into.new.all ≡ length into.old.all }
{
    let _windows = into.len();
    for place in 0..slots.len() {
        offer_right(into, place as u64, slots[place].slot());
    }
}
