//! The nearest windows on one side, and what residues tell of them.

ghost use Rattle.std.specs.Prelude.{◌≡◌, ℕ, ◌+◌, ◌^◌, ◌<◌, ◌≤◌, [], length, slice_index_or, IfOk, None, true, false};
ghost use Rattle.std.specs.Prelude.{FitsSigned, replicate, vec_capacity};
ghost use Rattle.std.specs.Int.{w32};
ghost use Rattle.mp_series.specs.declared.limits.TheConstants.{MAX_SAMPLES};
ghost use Rattle.mp_sums.specs.Limits.{IsBeyond};
ghost use Rattle.mp_sums.specs.declared.residues.TheConstants.{ALWAYS};
ghost use Rattle.mp_sums.specs.Residues.{item};
ghost use Rattle.mp_scans.specs.Firsts.{first_at};
ghost use Rattle.mp_scans.specs.Offering.{TellsNothing};
ghost use Rattle.mp_scans.specs.Slots.{Covers};
ghost use Rattle.mp_partial.specs.Values.{empty_column, merged_column, offered};
ghost use Rattle.mp_tiles.specs.Compact.{AreBounds, IsWordOf, slot_bound, slot_of_word};
ghost use Rattle.mp_tiles.specs.Scanning.{taken};

use crate::compact::{Compact, fill_with_copies, fill_with_none, slot_at};
use mp_nums::{Memory, Near, Slot, Slots};
use mp_scans::{Firsts, limit_of};
use mp_sums::{ALWAYS, Limit, NEVER, Rounding, ZERO};
use std::alloc::Global;
use std::marker::Model;

/// By what residues are rounded before any are asked for. Where nothing was found every rounding has the same bounds.
const NO_ROUNDING: Rounding = Rounding { m: 1, shift: 0 };

/// For each window the nearest one that was found, or none.
#[derive(Debug, Drop)]
pub(crate) struct Column {
    slots: Vec<Compact>,
    /// For each the greatest residue of windows as near as the one that was found. The scan asks for it at every
    /// block, and it changes seldom.
    bounds: Vec<i32>,
    /// How samples are rounded of which these are residues.
    rounding: Rounding,
}

impl Model for Column {
    ghost use Rattle.std.specs.Prelude.{◌+◌, vec_capacity};
    ghost use Rattle.mp_tiles.specs.Compact.{AreBounds};
    ghost use Rattle.mp_tiles.specs.Sides.{Stored};

    ghost Value = { Stored };

    ghost view = { λ column. record {
      slots = column.slots.items;
      room = vec_capacity column.slots + vec_capacity column.bounds;
    } };

    ghost invariant = { λ column.
        AreBounds column.rounding.m column.rounding.shift column.slots.items column.bounds.items };
}

/// Room for a column: memory that was taken, and that nothing was written to.
#[derive(Debug, Drop)]
pub(crate) struct Room {
    places: u64,
    slots: Vec<Compact>,
    bounds: Vec<i32>,
}

impl Model for Room {
    ghost use Rattle.std.specs.Prelude.{◌≡◌, ◌+◌, ◌≤◌, [], vec_capacity};
    ghost use Rattle.mp_tiles.specs.Sides.{Unfilled};

    ghost Value = { Unfilled };

    ghost view = { λ room. record {
      places = room.places;
      room = vec_capacity room.slots + vec_capacity room.bounds;
    } };

    ghost invariant = { λ room. (room.slots.items ≡ []) × (room.bounds.items ≡ [])
        × (room.places ≤ vec_capacity room.slots) × (room.places ≤ vec_capacity room.bounds) };
}

impl Room {
    /// Room for so many windows.
    pub(crate) fn with_capacity(alloc: Global, places: u64) -> Result<Room, Memory>
        ensures { IfOk result (λ room. room.places ≡ places) }
    {
        Ok(Room {
            places,
            slots: Vec::with_capacity(alloc, places as usize)?,
            bounds: Vec::with_capacity(alloc, places as usize)?,
        })
    }

    /// For how many windows it is.
    pub(crate) fn places(&self) -> u64
        ensures { result ≡ self.now.places }
    {
        self.places
    }

    /// The column of these windows, with none found for any. It takes no memory.
    pub(crate) fn fill(self) -> Column
        ensures slots { result.slots ≡ empty_column self.places }
        ensures room { result.room ≡ self.room }
    {
        let (mut slots, mut bounds) = (self.slots, self.bounds);
        fill_with_none(&mut slots, self.places);
        always_within(&mut bounds, self.places);
        Column {
            slots,
            bounds,
            rounding: NO_ROUNDING,
        }
    }

    /// The column of these windows that has what was found by another one. It takes no memory.
    pub(crate) fn fill_from(self, other: &Column) -> Column
        requires { length other.now.slots ≡ self.places }
        ensures slots { result.slots ≡ other.now.slots }
        ensures room { result.room ≡ self.room }
    {
        let (mut slots, mut bounds) = (self.slots, self.bounds);
        fill_with_copies(&mut slots, other.slots.as_slice());
        copy_bounds(&mut bounds, other.bounds.as_slice());
        Column {
            slots,
            bounds,
            rounding: other.rounding,
        }
    }
}

/// Puts the bound of no window at each of so many places of a list that has room for them. It takes no memory.
fn always_within(bounds: &mut Vec<i32>, places: u64)
    requires no_place { bounds.old.items ≡ [] }
    requires room { places ≤ vec_capacity bounds.old }
    ensures bounds { bounds.new.items ≡ replicate places ALWAYS }
    ensures room { vec_capacity bounds.new ≡ vec_capacity bounds.old }
{
    for _ in 0..places {
        bounds.push_reserved(ALWAYS);
    }
}

/// Puts the same bounds into a list of none that has room for them. It takes no memory.
fn copy_bounds(bounds: &mut Vec<i32>, others: &[i32])
    requires no_place { bounds.old.items ≡ [] }
    requires room { length others.now ≤ vec_capacity bounds.old }
    ensures bounds { bounds.new.items ≡ others.now }
    ensures room { vec_capacity bounds.new ≡ vec_capacity bounds.old }
{
    for k in 0..others.len() {
        bounds.push_reserved(others[k]);
    }
}

/// The greatest residue of windows as near as what stands in a slot.
#[inline]
fn bound_of(rounding: &Rounding, slot: Slot) -> i32
    ensures { result ≡ slot_bound rounding.now.m rounding.now.shift slot }
{
    match slot {
        Some(near) => rounding.residue_limit(Limit::Within(near.dist)),
        None => ALWAYS,
    }
}

/// The same for windows from `first` on that are nearer than it, from that for those as near.
#[inline]
fn bound_from(rounding: &Rounding, slot: Slot, within: i32, first: u64) -> i32
    requires { within ≡ slot_bound rounding.now.m rounding.now.shift slot }
    ensures { TellsNothing rounding.now.m rounding.now.shift first (Covers slot) result }
{
    match slot {
        Some(near) if near.index <= first => rounding.limit_before(near.dist, within),
        _ => within,
    }
}

/// The same for the window at a place, of slots that have these bounds.
#[inline]
fn bound_at(rounding: &Rounding, slots: &[Compact], bounds: &[i32], place: usize, first: u64) -> i32
    requires place { place < length slots.now }
    requires bounds { AreBounds rounding.now.m rounding.now.shift slots.now bounds.now }
    ensures { TellsNothing rounding.now.m rounding.now.shift first (Covers (slice_index_or slots.now place None))
        result }
{
    let within = bounds[place];
    if is_apart(rounding, within) {
        within
    } else {
        bound_from(rounding, slot_at(slots, place), within, first)
    }
}

/// The same for successive windows of which no sample is missing.
fn fill_alike(
    rounding: &Rounding,
    slots: &[Compact],
    within: &[i32],
    firsts: Firsts,
    free: &[bool],
    bounds: &mut [i32],
)
    requires slots { length free.now ≤ length slots.now }
    requires places { length free.now ≤ length bounds.old }
    requires first { firsts.first + length free.now < 2 ^ 63 }
    requires within { AreBounds rounding.now.m rounding.now.shift slots.now within.now }
    ensures bounds { (k : ℕ) → k < length free.now → slice_index_or free.now k false ≡ true
        → TellsNothing rounding.now.m rounding.now.shift (first_at firsts k)
        (Covers (slice_index_or slots.now k None)) (item bounds.new k) }
    ensures fit { (k : ℕ) → k < length free.now → FitsSigned w32 (item bounds.new k) }
    ensures places { length bounds.new ≡ length bounds.old }
{
    for k in 0..free.len() {
        bounds[k] = if free[k] {
            bound_at(rounding, slots, within, k, firsts.at(k))
        } else {
            NEVER
        };
    }
}

/// Takes a slot and its bound, if it is nearer than what stands at a place.
#[inline]
fn take_at(slots: &mut [Compact], bounds: &mut [i32], place: usize, slot: &Compact, bound: i32)
    requires place { place < length slots.old }
    requires places { length bounds.old ≡ length slots.old }
    ensures slots { slots.new ≡ taken slots.old place slot.now }
    ensures bounds { (m shift : ℕ) → AreBounds m shift slots.old bounds.old
        → bound ≡ slot_bound m shift slot.now → AreBounds m shift slots.new bounds.new }
{
    if slot.comes_before(&slots[place]) {
        slots[place] = slot.copy();
        bounds[place] = bound;
    }
}

/// Keeps the nearer window at each place, and its bound, where those of both are by one rounding.
fn merge_alike(slots: &mut [Compact], bounds: &mut [i32], others: &[Compact], other_bounds: &[i32])
    requires places { length bounds.old ≡ length slots.old }
    requires others { length others.now ≡ length slots.old }
    requires other_bounds { length other_bounds.now ≡ length slots.old }
    ensures slots { slots.new ≡ merged_column slots.old others.now }
    ensures bounds { (m shift : ℕ) → AreBounds m shift slots.old bounds.old
        → AreBounds m shift others.now other_bounds.now → AreBounds m shift slots.new bounds.new }
{
    for k in 0..slots.len() {
        take_at(slots, bounds, k, &others[k], other_bounds[k]);
    }
}

/// Puts the other slots in place of these.
fn copy_slots(slots: &mut [Compact], others: &[Compact])
    requires { length others.now ≡ length slots.old }
    ensures { slots.new ≡ others.now }
{
    for k in 0..slots.len() {
        slots[k] = others[k].copy();
    }
}

/// Whether two roundings are the same.
#[inline]
fn are_alike(one: &Rounding, other: &Rounding) -> bool
    ensures m { result ≡ true → one.now.m ≡ other.now.m }
    ensures shift { result ≡ true → one.now.shift ≡ other.now.shift }
{
    one.m == other.m && one.shift == other.shift
}

/// Whether a residue tells at once that windows don't lie at distance 0. Then equal distances are few, and what was
/// found need not be looked at.
#[inline]
fn is_apart(rounding: &Rounding, within: i32) -> bool {
    i64::from(within) > i64::from(ZERO) + 2 * i64::from(rounding.m) + 1
}

impl Column {
    ghost use Rattle.std.specs.Prelude.{slice_set, false};

    /// The column of no windows. It takes no memory.
    pub(crate) fn new(alloc: Global) -> Column
        ensures slots { result.slots ≡ [] }
        ensures room { result.room ≡ 0 }
    {
        Column {
            slots: Vec::new(alloc),
            bounds: Vec::new(alloc),
            rounding: NO_ROUNDING,
        }
    }

    /// The number of windows.
    #[inline]
    pub(crate) fn len(&self) -> usize
        ensures { result ≡ length self.now.slots }
    {
        self.slots.len()
    }

    /// What was found for a window.
    #[inline]
    pub(crate) fn slot(&self, place: usize) -> Slot
        requires { place < length self.now.slots }
        ensures { result ≡ slice_index_or self.now.slots place None }
    {
        slot_at(self.slots.as_slice(), place)
    }

    /// Has residues be those of samples rounded so.
    pub(crate) fn round_by(&mut self, rounding: &Rounding)
        ensures slots { self.new.slots ≡ self.old.slots }
        ensures room { self.new.room ≡ self.old.room }
    {
        if are_alike(&self.rounding, rounding) {
            return;
        }
        for k in 0..self.slots.len() {
            let bound = bound_of(rounding, slot_at(self.slots.as_slice(), k));
            self.bounds.as_mut_slice()[k] = bound;
        }
        self.rounding = *rounding;
    }

    /// Puts a slot at a place.
    #[inline]
    fn set(&mut self, place: usize, slot: Compact)
        requires { place < length self.old.slots }
        ensures slots { self.new.slots ≡ slice_set self.old.slots place slot }
        ensures room { self.new.room ≡ self.old.room }
    {
        let bound = bound_of(&self.rounding, slot.slot());
        self.bounds.as_mut_slice()[place] = bound;
        self.slots.as_mut_slice()[place] = slot;
    }

    /// Takes a slot, if it is nearer than what stands at a place.
    #[inline]
    fn take(&mut self, place: usize, slot: Compact)
        requires { place < length self.old.slots }
        ensures slots { self.new.slots ≡ taken self.old.slots place slot }
        ensures room { self.new.room ≡ self.old.room }
    {
        if slot.comes_before(&self.slots.as_slice()[place]) {
            self.set(place, slot);
        }
    }

    /// Takes the slot that a word tells, if it is nearer than what stands at a place.
    #[inline]
    pub(crate) fn take_word(&mut self, place: usize, word: u64)
        requires { place < length self.old.slots }
        ensures slots { self.new.slots ≡ taken self.old.slots place (slot_of_word word) }
        ensures room { self.new.room ≡ self.old.room }
    {
        if self.slots.as_slice()[place].may_take(word) {
            self.take(place, Compact::of_word(word));
        }
    }

    /// What stands at a place in a word.
    #[inline]
    pub(crate) fn word(&self, place: usize) -> u64
        requires { place < length self.now.slots }
        ensures { IsWordOf (slice_index_or self.now.slots place None) result }
    {
        self.slots.as_slice()[place].word()
    }

    /// A window is found for the one at a place.
    #[inline]
    pub(crate) fn offer(&mut self, place: usize, near: Near)
        requires place { place < length self.old.slots }
        requires start { near.index < MAX_SAMPLES }
        requires small { near.dist.0 + 1 < 2 ^ 110 }
        ensures slots { self.new.slots ≡ offered self.old.slots place near }
        ensures room { self.new.room ≡ self.old.room }
    {
        self.take(place, Compact::of(near));
    }

    /// Whether a window is nearer than what was found for the one at a place.
    #[inline]
    pub(crate) fn may_take(&self, place: usize, near: Near) -> bool
        requires place { place < length self.now.slots }
        requires start { near.index < MAX_SAMPLES }
        requires small { near.dist.0 + 1 < 2 ^ 110 }
        ensures { result ≡ false → Covers (slice_index_or self.now.slots place None) near.index near.dist.0 }
    {
        Compact::of(near).comes_before(&self.slots.as_slice()[place])
    }

    /// Forgets what was found.
    pub(crate) fn clear(&mut self)
        ensures slots { self.new.slots ≡ empty_column (length self.old.slots) }
        ensures room { self.new.room ≡ self.old.room }
    {
        for k in 0..self.len() {
            self.set(k, Compact::none());
        }
    }

    /// Has what was found by another one, in place of what it had.
    pub(crate) fn copy_from(&mut self, other: &Column)
        requires { length other.now.slots ≡ length self.old.slots }
        ensures slots { self.new.slots ≡ other.now.slots }
        ensures room { self.new.room ≡ self.old.room }
    {
        copy_slots(self.slots.as_mut_slice(), other.slots.as_slice());
        self.bounds
            .as_mut_slice()
            .copy_from_slice(other.bounds.as_slice());
        self.rounding = other.rounding;
    }

    /// Keeps the nearer window at each place.
    pub(crate) fn merge(&mut self, other: &Column)
        requires { length other.now.slots ≡ length self.old.slots }
        ensures column { self.new.slots ≡ merged_column self.old.slots other.now.slots }
        ensures places { length self.new.slots ≡ length self.old.slots }
        ensures room { self.new.room ≡ self.old.room }
    {
        if are_alike(&self.rounding, &other.rounding) {
            merge_alike(
                self.slots.as_mut_slice(),
                self.bounds.as_mut_slice(),
                other.slots.as_slice(),
                other.bounds.as_slice(),
            );
        } else {
            self.merge_each(other);
        }
    }

    /// The same, whatever both are rounded by.
    fn merge_each(&mut self, other: &Column)
        requires { length other.now.slots ≡ length self.old.slots }
        ensures column { self.new.slots ≡ merged_column self.old.slots other.now.slots }
        ensures places { length self.new.slots ≡ length self.old.slots }
        ensures room { self.new.room ≡ self.old.room }
    {
        for k in 0..self.len() {
            self.take(k, other.slots.as_slice()[k].copy());
        }
    }

    /// Puts what was found for each window into a column of none, which has room for it. It takes no memory.
    pub(crate) fn put(&self, slots: &mut Slots)
        requires no_window { slots.old.items ≡ [] }
        requires spare { length self.now.slots ≤ slots.old.spare }
        ensures { slots.new.items ≡ self.now.slots }
    {
        for k in 0..self.len() {
            slots.push(self.slot(k)).unwrap();
        }
    }

    /// The limit of what was found for a window, to windows from `first` on. Past the last place every distance passes.
    #[inline]
    pub(crate) fn limit(&self, place: u64, first: u64) -> Limit
        ensures { (index dist : ℕ) → first ≤ index → IsBeyond result dist
            → Covers (slice_index_or self.now.slots place None) index dist }
    {
        let place = place as usize;
        if place < self.len() {
            limit_of(&self.slot(place), first)
        } else {
            Limit::Every
        }
    }

    /// A residue of pairs by a rounding, such that windows from `first` on with a greater one give a window nothing.
    #[inline]
    pub(crate) fn bound(&self, rounding: &Rounding, place: u64, first: u64) -> i32
        ensures { TellsNothing rounding.now.m rounding.now.shift first
            (Covers (slice_index_or self.now.slots place None)) result }
    {
        let at = place as usize;
        if at < self.slots.len() && are_alike(&self.rounding, rounding) {
            let within = self.bounds.as_slice()[at];
            if is_apart(rounding, within) {
                within
            } else {
                bound_from(rounding, slot_at(self.slots.as_slice(), at), within, first)
            }
        } else {
            rounding.residue_limit(self.limit(place, first))
        }
    }

    /// Such residues for successive windows of which no sample is missing.
    pub(crate) fn fill_bounds(
        &self,
        rounding: &Rounding,
        place: u64,
        firsts: Firsts,
        free: &[bool],
        bounds: &mut [i32],
    )
        requires places { length free.now ≤ length bounds.old }
        requires place { place + length free.now < 2 ^ 63 }
        requires first { firsts.first + length free.now < 2 ^ 63 }
        ensures bounds { (k : ℕ) → k < length free.now → slice_index_or free.now k false ≡ true
            → TellsNothing rounding.now.m rounding.now.shift (first_at firsts k)
            (Covers (slice_index_or self.now.slots (place + k) None)) (item bounds.new k) }
        ensures fit { (k : ℕ) → k < length free.now → FitsSigned w32 (item bounds.new k) }
        ensures places { length bounds.new ≡ length bounds.old }
    {
        let at = place as usize;
        let end = at + free.len();
        if end <= self.slots.len() && are_alike(&self.rounding, rounding) {
            let (slots, within) = (self.slots.as_slice(), self.bounds.as_slice());
            fill_alike(
                rounding,
                &slots[at..end],
                &within[at..end],
                firsts,
                free,
                bounds,
            );
        } else {
            self.fill_each(rounding, place, firsts, free, bounds);
        }
    }

    /// The same, window by window.
    fn fill_each(
        &self,
        rounding: &Rounding,
        place: u64,
        firsts: Firsts,
        free: &[bool],
        bounds: &mut [i32],
    )
        requires places { length free.now ≤ length bounds.old }
        requires place { place + length free.now < 2 ^ 63 }
        requires first { firsts.first + length free.now < 2 ^ 63 }
        ensures bounds { (k : ℕ) → k < length free.now → slice_index_or free.now k false ≡ true
            → TellsNothing rounding.now.m rounding.now.shift (first_at firsts k)
            (Covers (slice_index_or self.now.slots (place + k) None)) (item bounds.new k) }
        ensures fit { (k : ℕ) → k < length free.now → FitsSigned w32 (item bounds.new k) }
        ensures places { length bounds.new ≡ length bounds.old }
    {
        for k in 0..free.len() {
            bounds[k] = if free[k] {
                self.bound(rounding, place + k as u64, firsts.at(k))
            } else {
                NEVER
            };
        }
    }
}
