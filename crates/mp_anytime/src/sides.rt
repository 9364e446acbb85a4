//! The nearest windows on one side, in one number each, and the bounds of residues that they keep to.

ghost use Rattle.std.specs.Prelude.{◌≡◌, ℕ, ◌+◌, ◌<◌, ◌≤◌, length, replicate, slice_set, true};
ghost use Rattle.std.specs.Prelude.{IfOk, Some, ◌≤ℤ◌};
ghost use Rattle.mp_sums.specs.declared.residues.TheConstants.{ALWAYS};
ghost use Rattle.mp_sums.specs.Residues.{item};
ghost use Rattle.mp_partial.specs.Values.{empty_column, merged_column, offered};
ghost use Rattle.mp_tiles.specs.Scanning.{taken};
ghost use Rattle.mp_anytime.specs.Bounds.{AreBounds, IsBound, IsSmall, has_number, numbered, numbered_slots};

use crate::bounds::Bounds;
use crate::rounded::BLOCK;
use mp_nums::{Memory, Near, Slot, Sq};
use mp_series::MAX_SAMPLES;
use mp_sums::{ALWAYS, Limit, Rounding};
use mp_tiles::Compact;
use std::alloc::Global;
use std::marker::Model;

/// Distances below it have numbers.
const LARGEST_DISTANCE: u128 = (1 << 110) - 1;

/// For each window the nearest one that was found on a side, or none, and a bound of residues: where a pair has a
/// greater one, it gives the window nothing.
#[derive(Debug, Drop)]
pub(crate) struct Side {
    slots: Vec<Compact>,
    bounds: Bounds,
}

impl Model for Side {
    ghost use Rattle.std.specs.Prelude.{◌≡◌, length, vec_capacity};
    ghost use Rattle.mp_anytime.specs.Bounds.{OneSided};

    ghost Value = { OneSided };

    ghost view = { λ side. record {
      slots = side.slots.items;
      bounds = side.bounds;
      room = vec_capacity side.slots;
    } };

    ghost invariant = { λ side. length side.bounds ≡ length side.slots.items };
}

/// The greatest residue of windows at a distance.
#[inline]
pub(crate) fn bound_of(rounding: &Rounding, dist: Sq) -> i32
    ensures { (index : ℕ) → IsBound rounding.now.m rounding.now.shift
        (Some (record { dist = dist; index = index })) result }
{
    rounding.residue_limit(Limit::Within(dist))
}

/// Whether a window and its distance have a number together, as those of all windows of a series have.
#[inline]
fn is_small(near: Near) -> bool
    ensures test { result ≡ has_number near }
    ensures small { result ≡ true → IsSmall near }
{
    (near.index < MAX_SAMPLES) & (near.dist.0 < LARGEST_DISTANCE)
}

/// Takes a slot, if it is nearer than what stands at a place.
#[inline]
fn take_at(slots: &mut [Compact], place: usize, slot: Compact)
    requires { place < length slots.old }
    ensures { slots.new ≡ taken slots.old place slot }
{
    if slot.comes_before(&slots[place]) {
        slots[place] = slot;
    }
}

/// Keeps the nearer window at each place.
fn merge_slots(slots: &mut [Compact], others: &[Compact])
    requires { length others.now ≡ length slots.old }
    ensures { slots.new ≡ merged_column slots.old others.now }
{
    for place in 0..slots.len() {
        take_at(slots, place, others[place]);
    }
}

/// Puts the other slots in place of these.
fn copy_slots(slots: &mut [Compact], others: &[Compact])
    requires { length others.now ≡ length slots.old }
    ensures { slots.new ≡ others.now }
{
    for place in 0..slots.len() {
        slots[place] = others[place];
    }
}

/// Forgets what was found.
fn clear_slots(slots: &mut [Compact])
    ensures { slots.new ≡ empty_column (length slots.old) }
{
    for place in 0..slots.len() {
        slots[place] = Compact::none();
    }
}

impl Side {
    /// So many windows for which none was found.
    pub(crate) fn none_found(alloc: Global, count: u64) -> Result<Side, Memory>
        ensures slots { IfOk result (λ side. side.slots ≡ empty_column count) }
        ensures bounds { IfOk result (λ side. side.bounds ≡ replicate count ALWAYS) }
    {
        Ok(Side {
            slots: vec![in alloc; Compact::none(); count as usize]?,
            bounds: Bounds::none_exceeded(alloc, count)?,
        })
    }

    /// How many windows there are.
    pub(crate) fn len(&self) -> usize
        ensures { result ≡ length self.now.slots }
    {
        self.slots.len()
    }

    /// What was found for each window.
    pub(crate) fn slots(&self) -> &[Compact]
        ensures { result.now ≡ self.now.slots }
    {
        self.slots.as_slice()
    }

    /// The bound of a window.
    #[inline]
    pub(crate) fn bound_at(&self, place: usize) -> i32
        requires { place < length self.now.slots }
        ensures { result ≡ item self.now.bounds place }
    {
        self.bounds.at(place)
    }

    /// A number that none of the bounds of a block's windows exceeds, from a place on.
    #[inline]
    pub(crate) fn greatest_from(&self, place: usize) -> i32
        requires { place + BLOCK ≤ length self.now.slots }
        ensures { (k : ℕ) → k < BLOCK → item self.now.bounds (place + k) ≤ℤ result }
    {
        self.bounds.greatest_from(place)
    }

    /// Finds the greatest bounds around some successive windows anew, since these may be lower now.
    pub(crate) fn refresh_from(&mut self, place: usize)
        requires { place + BLOCK ≤ length self.old.slots }
        ensures { self.new ≡ self.old }
    {
        self.bounds.refresh_from(place);
    }

    /// Finds all greatest bounds anew.
    pub(crate) fn refresh(&mut self)
        ensures { self.new ≡ self.old }
    {
        self.bounds.refresh();
    }

    /// Has no residue exceed the bounds.
    pub(crate) fn forget_bounds(&mut self)
        ensures slots { self.new.slots ≡ self.old.slots }
        ensures bounds { self.new.bounds ≡ replicate (length self.old.slots) ALWAYS }
        ensures room { self.new.room ≡ self.old.room }
    {
        self.bounds.clear();
    }

    /// Puts a window at a place, and its bound.
    #[inline]
    fn put(&mut self, place: usize, slot: Compact, bound: i32)
        requires { place < length self.old.slots }
        ensures slots { self.new.slots ≡ slice_set self.old.slots place slot }
        ensures bounds { self.new.bounds ≡ slice_set self.old.bounds place bound }
        ensures room { self.new.room ≡ self.old.room }
    {
        self.slots.as_mut_slice()[place] = slot;
        self.bounds.set(place, bound);
    }

    /// Offers a window to the one at a place, with the bound of its distance.
    #[inline]
    pub(crate) fn offer(&mut self, place: usize, near: Near, bound: i32)
        requires place { place < length self.old.slots }
        requires small { IsSmall near }
        ensures slots { self.new.slots ≡ offered self.old.slots place near }
        ensures bounds { (m shift : ℕ) → IsBound m shift (Some near) bound
            → AreBounds m shift self.old.slots self.old.bounds → AreBounds m shift self.new.slots self.new.bounds }
        ensures room { self.new.room ≡ self.old.room }
    {
        let found = Compact::of(near);
        if found.comes_before(&self.slots.as_slice()[place]) {
            self.put(place, found, bound);
        }
    }

    /// The same with what stands in a slot, where that has a number.
    #[inline]
    fn offer_slot(&mut self, rounding: &Rounding, place: usize, slot: &Slot)
        requires place { place < length self.old.slots }
        requires bounds { AreBounds rounding.now.m rounding.now.shift self.old.slots self.old.bounds }
        ensures slots { self.new.slots ≡ taken self.old.slots place (numbered has_number slot.now) }
        ensures bounds { AreBounds rounding.now.m rounding.now.shift self.new.slots self.new.bounds }
        ensures room { self.new.room ≡ self.old.room }
    {
        if let Some(near) = slot {
            if is_small(*near) {
                self.offer(place, *near, bound_of(rounding, near.dist));
            }
        }
    }

    /// Keeps the nearer window at each place, of those that were found and those of a column.
    pub(crate) fn offer_column(&mut self, rounding: &Rounding, column: &[Slot])
        requires places { length column.now ≡ length self.old.slots }
        requires bounds { AreBounds rounding.now.m rounding.now.shift self.old.slots self.old.bounds }
        ensures slots { self.new.slots ≡ merged_column self.old.slots (numbered_slots has_number column.now) }
        ensures bounds { AreBounds rounding.now.m rounding.now.shift self.new.slots self.new.bounds }
        ensures room { self.new.room ≡ self.old.room }
    {
        for place in 0..column.len() {
            self.offer_slot(rounding, place, &column[place]);
        }
    }

    /// Keeps the nearer window at each place.
    pub(crate) fn merge(&mut self, other: &Side)
        requires { length other.now.slots ≡ length self.old.slots }
        ensures slots { self.new.slots ≡ merged_column self.old.slots other.now.slots }
        ensures bounds { self.new.bounds ≡ self.old.bounds }
        ensures places { length self.new.slots ≡ length self.old.slots }
        ensures room { self.new.room ≡ self.old.room }
    {
        merge_slots(self.slots.as_mut_slice(), other.slots.as_slice());
    }

    /// Has what the other one has, in place of what it had.
    pub(crate) fn copy_from(&mut self, other: &Side)
        requires { length other.now.slots ≡ length self.old.slots }
        ensures slots { self.new.slots ≡ other.now.slots }
        ensures bounds { self.new.bounds ≡ other.now.bounds }
        ensures room { self.new.room ≡ self.old.room }
    {
        copy_slots(self.slots.as_mut_slice(), other.slots.as_slice());
        self.bounds.copy_from(&other.bounds);
    }

    /// Forgets what was found.
    pub(crate) fn clear(&mut self)
        ensures slots { self.new.slots ≡ empty_column (length self.old.slots) }
        ensures bounds { self.new.bounds ≡ replicate (length self.old.slots) ALWAYS }
        ensures room { self.new.room ≡ self.old.room }
    {
        clear_slots(self.slots.as_mut_slice());
        self.bounds.clear();
    }
}
