//! The nearest windows on one side, where residues tell the distances.

ghost use Rattle.std.specs.Prelude.{◌≡◌, ℕ, ◌+◌, ◌<◌, ◌≤◌, length, slice_index_or, None, IfOk, ℤ, ◌<ℤ◌, false};
ghost use Rattle.mp_series.specs.declared.limits.TheConstants.{MAX_SAMPLES};
ghost use Rattle.mp_partial.specs.Values.{empty_column, merged_column};
ghost use Rattle.mp_sums.specs.Residues.{item, residue as residue_by};
ghost use Rattle.mp_tiles.specs.Scanning.{taken};
ghost use Rattle.mp_anytime.specs.Bounds.{IsQuiet, has_residue as has_residue_by, numbered, numbered_slots};
ghost use Rattle.mp_anytime.specs.Told.{AreTold, lanes_by, lanes_taken, slot_by};

use crate::bounds::Bounds;
use crate::rounded::BLOCK;
use mp_nums::{Memory, Near, Slot, Sq};
use mp_series::MAX_SAMPLES;
use mp_sums::ZERO;
use std::alloc::Global;
use std::marker::Model;

/// The sum that the greatest residue would tell, which no pair has.
const NOTHING: u32 = 4_294_967_294;

/// Distances below it have residues.
const LEAST_FAR: u128 = 1 << 31;

/// For each window the nearest one that was found on a side, or none: the residue of its distance, and where it
/// starts. A window takes 8 bytes.
#[derive(Debug, Drop)]
pub(crate) struct ResidueSide {
    residues: Bounds,
    starts: Vec<u32>,
}

impl Model for ResidueSide {
    ghost use Rattle.std.specs.Prelude.{◌≡◌, length};
    ghost use Rattle.mp_partial.specs.Values.{Column};
    ghost use Rattle.mp_anytime.specs.Told.{AreTold, slots_by};

    ghost Value = { Column };

    ghost view = { λ side. slots_by side.residues side.starts.items };

    ghost invariant = { λ side. (length side.starts.items ≡ length side.residues) × AreTold side.residues };
}

/// What a residue tells of the window that starts there.
#[inline]
fn slot_of(residue: i32, start: u32) -> Slot
    ensures { result ≡ slot_by residue start }
{
    let sum = residue.abs_diff(ZERO);
    if sum == NOTHING {
        None
    } else {
        Some(Near {
            dist: Sq(u128::from(sum)),
            index: u64::from(start),
        })
    }
}

/// Whether a window's distance has a residue, as those of all windows of the series have.
#[inline]
fn has_residue(near: Near) -> bool
    ensures { result ≡ has_residue_by near }
{
    (near.index < MAX_SAMPLES) & (near.dist.0 < LEAST_FAR)
}

/// The residue of a distance.
#[inline]
fn residue_of(dist: Sq) -> i32
    requires { dist.0 < LEAST_FAR }
    ensures { result ≡ residue_by dist.0 }
{
    (dist.0 as i64 - 2_147_483_647) as i32
}

/// Where a place's window starts.
#[inline]
fn start_at(starts: &[u32], place: usize) -> u32
    requires { place < length starts.now }
    ensures { result ≡ slice_index_or starts.now place 0 }
{
    starts[place]
}

/// Puts other starts in place of these.
fn copy_starts(starts: &mut [u32], others: &[u32])
    requires { length others.now ≡ length starts.old }
    ensures { starts.new ≡ others.now }
{
    for place in 0..starts.len() {
        starts[place] = others[place];
    }
}

impl ResidueSide {
    /// So many windows for which none was found.
    pub(crate) fn none_found(alloc: Global, count: u64) -> Result<ResidueSide, Memory>
        ensures { IfOk result (λ side. side ≡ empty_column count) }
    {
        Ok(ResidueSide {
            residues: Bounds::none_exceeded(alloc, count)?,
            starts: vec![in alloc; 0; count as usize]?,
        })
    }

    /// How many windows there are.
    pub(crate) fn len(&self) -> usize
        ensures { result ≡ length self.now }
    {
        self.starts.as_slice().len()
    }

    /// What was found for a window.
    #[inline]
    pub(crate) fn slot(&self, place: usize) -> Slot
        requires { place < length self.now }
        ensures { result ≡ slice_index_or self.now place None }
    {
        slot_of(
            self.residues.at(place),
            start_at(self.starts.as_slice(), place),
        )
    }

    /// A residue above which pairs give none of a block's windows something, from a place on.
    #[inline]
    pub(crate) fn greatest_from(&self, place: usize) -> i32
        requires { place + BLOCK ≤ length self.now }
        ensures { (m k : ℕ) (r : ℤ) → k < BLOCK → result <ℤ r
            → IsQuiet m 0 (slice_index_or self.now (place + k) None) r }
    {
        self.residues.greatest_from(place)
    }

    /// Whether pairs of these residues may give one of successive windows something, from a place on.
    #[inline]
    pub(crate) fn may_take(&self, place: usize, residues: &[i32]) -> bool
        requires { place + length residues.now ≤ length self.now }
        ensures { result ≡ false → (m k : ℕ) → k < length residues.now
            → IsQuiet m 0 (slice_index_or self.now (place + k) None) (item residues.now k) }
    {
        self.residues.are_reached_from(place, residues)
    }

    /// Offers windows that start one behind another to successive places, by the residues of the pairs.
    #[inline]
    pub(crate) fn take_lanes(&mut self, place: usize, residues: &[i32], first: u32)
        requires places { place + length residues.now ≤ length self.old }
        requires few { first + length residues.now ≤ MAX_SAMPLES }
        requires told { AreTold residues.now }
        ensures slots { self.new ≡ lanes_taken self.old place (lanes_by residues.now first) (length residues.now) }
    {
        self.residues
            .take_lanes(self.starts.as_mut_slice(), place, residues, first);
    }

    /// Finds the greatest residues around some successive windows anew, since these may be lower now.
    pub(crate) fn refresh_from(&mut self, place: usize)
        requires { place + BLOCK ≤ length self.old }
        ensures { self.new ≡ self.old }
    {
        self.residues.refresh_from(place);
    }

    /// Finds all greatest residues anew.
    pub(crate) fn refresh(&mut self)
        ensures { self.new ≡ self.old }
    {
        self.residues.refresh();
    }

    /// Offers what stands in a slot to a place, where its distance has a residue.
    #[inline]
    fn offer_slot(&mut self, place: usize, slot: &Slot)
        requires { place < length self.old }
        ensures { self.new ≡ taken self.old place (numbered has_residue_by slot.now) }
    {
        if let Some(near) = slot {
            if has_residue(*near) {
                self.take_lanes(place, &[residue_of(near.dist)], near.index as u32);
            }
        }
    }

    /// Keeps the nearer window at each place, of those that were found and those of a column.
    pub(crate) fn offer_column(&mut self, column: &[Slot])
        requires { length column.now ≡ length self.old }
        ensures { self.new ≡ merged_column self.old (numbered_slots has_residue_by column.now) }
    {
        for place in 0..column.len() {
            self.offer_slot(place, &column[place]);
        }
    }

    /// Keeps the nearer window at each place.
    pub(crate) fn merge(&mut self, other: &ResidueSide)
        requires { length other.now ≡ length self.old }
        ensures { self.new ≡ merged_column self.old other.now }
    {
        self.residues.take_others(
            self.starts.as_mut_slice(),
            &other.residues,
            other.starts.as_slice(),
        );
        self.residues.refresh();
    }

    /// Has what the other one has, in place of what it had.
    pub(crate) fn copy_from(&mut self, other: &ResidueSide)
        requires { length other.now ≡ length self.old }
        ensures { self.new ≡ other.now }
    {
        self.residues.copy_from(&other.residues);
        copy_starts(self.starts.as_mut_slice(), other.starts.as_slice());
    }

    /// Forgets what was found.
    pub(crate) fn clear(&mut self)
        ensures { self.new ≡ empty_column (length self.old) }
    {
        self.residues.clear();
    }
}
