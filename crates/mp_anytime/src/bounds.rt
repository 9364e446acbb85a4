//! Bounds of residues, and the greatest of successive ones.

ghost use Rattle.std.specs.Prelude.{◌≡◌, ℕ, ◌+◌, ◌*◌, ◌<◌, ◌≤◌, length, slice_set, IfOk};
ghost use Rattle.std.specs.Prelude.{List, ℤ, ◌≤ℤ◌, ◌<ℤ◌, ◌⊎◌, true, false};
ghost use Rattle.std.specs.Prelude.{replicate};
ghost use Rattle.mp_sums.specs.declared.residues.TheConstants.{ALWAYS};
ghost use Rattle.mp_sums.specs.Residues.{item};
ghost use Rattle.mp_series.specs.declared.limits.TheConstants.{MAX_SAMPLES};
ghost use Rattle.mp_partial.specs.Values.{merged_column};
ghost use Rattle.mp_tiles.specs.Scanning.{taken};
ghost use Rattle.mp_anytime.specs.Bounds.{AreGreatest};
ghost use Rattle.mp_anytime.specs.Told.{AreLower, AreTold, IsTold, lanes_by, lanes_taken, slot_by, slots_by};

use crate::rounded::BLOCK;
use mp_nums::Memory;
use mp_series::MAX_SAMPLES;
use mp_sums::{ALWAYS, NEVER};
use std::alloc::Global;
use std::marker::Model;

/// A bound of residues for each window. For each block of successive windows a number is known that none of their
/// bounds exceeds.
#[derive(Debug, Drop)]
pub(crate) struct Bounds {
    windows: Vec<i32>,
    blocks: Vec<i32>,
}

impl Model for Bounds {
    ghost Value = { List ℤ };

    ghost view = { λ bounds. bounds.windows.items };

    ghost invariant = { λ bounds. AreGreatest bounds.windows.items bounds.blocks.items };
}

/// The greatest of some bounds.
fn greatest_of(bounds: &[i32]) -> i32
    ensures { (k : ℕ) → k < length bounds.now → item bounds.now k ≤ℤ result }
{
    let mut greatest = NEVER;
    for k in 0..bounds.len() {
        greatest = bounds[k].max(greatest);
    }
    greatest
}

/// Puts a bound in place of another.
#[inline]
fn put(windows: &mut [i32], blocks: &mut [i32], place: usize, bound: i32)
    requires greatest { AreGreatest windows.old blocks.old }
    requires place { place < length windows.old }
    ensures greatest { AreGreatest windows.new blocks.new }
    ensures windows { windows.new ≡ slice_set windows.old place bound }
{
    windows[place] = bound;
    blocks[place / BLOCK] = bound.max(blocks[place / BLOCK]);
}

/// Finds the greatest bound of a block anew.
fn find_greatest(windows: &[i32], blocks: &mut [i32], block: usize)
    requires greatest { AreGreatest windows.now blocks.old }
    requires block { BLOCK * block < length windows.now }
    ensures { AreGreatest windows.now blocks.new }
{
    let first = BLOCK * block;
    blocks[block] = if first + BLOCK <= windows.len() {
        greatest_of(&windows[first..first + BLOCK])
    } else {
        greatest_of(&windows[first..windows.len()])
    };
}

/// Whether a window comes before the nearest one so far: its residue is less, or the same and it starts earlier.
#[inline]
fn comes_before(residue: i32, start: u32, nearest: i32, known: u32) -> bool
    ensures before { result ≡ true → (residue <ℤ nearest) ⊎ ((residue ≡ nearest) × (start < known)) }
    ensures behind { result ≡ false → (nearest <ℤ residue) ⊎ ((nearest ≡ residue) × (known ≤ start)) }
{
    (residue < nearest) | ((residue == nearest) & (start < known))
}

/// Whether one of some residues is at most the bound at its place.
fn are_reached(bounds: &[i32], residues: &[i32]) -> bool
    requires { length bounds.now ≡ length residues.now }
    ensures { result ≡ false → (k : ℕ) → k < length residues.now → item bounds.now k <ℤ item residues.now k }
{
    let mut some = false;
    for k in 0..residues.len() {
        some = (residues[k] <= bounds[k]) | some;
    }
    some
}

/// Takes a window and its residue, if it comes before the nearest one at a place.
#[inline]
fn take_at(windows: &mut [i32], starts: &mut [u32], place: usize, residue: i32, start: u32)
    requires window { place < length windows.old }
    requires same { length starts.old ≡ length windows.old }
    requires told { AreTold windows.old }
    requires residue { IsTold residue }
    ensures slots { slots_by windows.new starts.new
        ≡ taken (slots_by windows.old starts.old) place (slot_by residue start) }
    ensures told { AreTold windows.new }
    ensures lower { AreLower windows.old windows.new }
    ensures starts { length starts.new ≡ length starts.old }
{
    let (nearest, known) = (windows[place], starts[place]);
    let comes = comes_before(residue, start, nearest, known);
    windows[place] = if comes { residue } else { nearest };
    starts[place] = if comes { start } else { known };
}

/// Takes windows that start one behind another at successive places.
#[inline]
fn take_lanes(windows: &mut [i32], starts: &mut [u32], place: usize, residues: &[i32], first: u32)
    requires windows { place + length residues.now ≤ length windows.old }
    requires starts { length starts.old ≡ length windows.old }
    requires few { first + length residues.now ≤ MAX_SAMPLES }
    requires told { AreTold windows.old }
    requires residues { AreTold residues.now }
    ensures slots { slots_by windows.new starts.new ≡ lanes_taken (slots_by windows.old starts.old) place
        (lanes_by residues.now first) (length residues.now) }
    ensures told { AreTold windows.new }
    ensures lower { AreLower windows.old windows.new }
    ensures starts { length starts.new ≡ length starts.old }
{
    for k in 0..residues.len() {
        take_at(windows, starts, place + k, residues[k], first + k as u32);
    }
}

/// Takes the others' windows, each at its place.
fn take_others(windows: &mut [i32], starts: &mut [u32], others: &[i32], other_starts: &[u32])
    requires starts { length starts.old ≡ length windows.old }
    requires others { length others.now ≡ length windows.old }
    requires other_starts { length other_starts.now ≡ length windows.old }
    requires told { AreTold windows.old }
    requires others_told { AreTold others.now }
    ensures slots { slots_by windows.new starts.new
        ≡ merged_column (slots_by windows.old starts.old) (slots_by others.now other_starts.now) }
    ensures told { AreTold windows.new }
    ensures lower { AreLower windows.old windows.new }
    ensures starts { length starts.new ≡ length starts.old }
{
    for place in 0..others.len() {
        take_at(windows, starts, place, others[place], other_starts[place]);
    }
}

impl Bounds {
    /// Bounds of so many windows that no residue exceeds.
    pub(crate) fn none_exceeded(alloc: Global, count: u64) -> Result<Bounds, Memory>
        ensures { IfOk result (λ bounds. bounds ≡ replicate count ALWAYS) }
    {
        let blocks = count as usize / BLOCK + 1;
        Ok(Bounds {
            windows: vec![in alloc; ALWAYS; count as usize]?,
            blocks: vec![in alloc; ALWAYS; blocks]?,
        })
    }

    /// How many windows there are.
    fn len(&self) -> usize
        ensures { result ≡ length self.now }
    {
        self.windows.len()
    }

    /// The bound of a window.
    #[inline]
    pub(crate) fn at(&self, place: usize) -> i32
        requires { place < length self.now }
        ensures { result ≡ item self.now place }
    {
        self.windows.as_slice()[place]
    }

    /// A number that none of the bounds of a block's windows exceeds, from a place on.
    #[inline]
    pub(crate) fn greatest_from(&self, place: usize) -> i32
        requires { place + BLOCK ≤ length self.now }
        ensures { (k : ℕ) → k < BLOCK → item self.now (place + k) ≤ℤ result }
    {
        let blocks = self.blocks.as_slice();
        blocks[place / BLOCK].max(blocks[(place + BLOCK - 1) / BLOCK])
    }

    /// Whether one of some residues is at most the bound of its window, from a place on.
    #[inline]
    pub(crate) fn are_reached_from(&self, place: usize, residues: &[i32]) -> bool
        requires { place + length residues.now ≤ length self.now }
        ensures { result ≡ false → (k : ℕ) → k < length residues.now
            → item self.now (place + k) <ℤ item residues.now k }
    {
        let windows = self.windows.as_slice();
        are_reached(&windows[place..place + residues.len()], residues)
    }

    /// Puts a bound in place of another.
    #[inline]
    pub(crate) fn set(&mut self, place: usize, bound: i32)
        requires { place < length self.old }
        ensures { self.new ≡ slice_set self.old place bound }
    {
        put(
            self.windows.as_mut_slice(),
            self.blocks.as_mut_slice(),
            place,
            bound,
        );
    }

    /// Finds the greatest bounds around some successive windows anew, since these may be lower now.
    pub(crate) fn refresh_from(&mut self, place: usize)
        requires { place + BLOCK ≤ length self.old }
        ensures { self.new ≡ self.old }
    {
        let (windows, blocks) = (self.windows.as_slice(), self.blocks.as_mut_slice());
        let (first, last) = (place / BLOCK, (place + BLOCK - 1) / BLOCK);
        find_greatest(windows, blocks, first);
        if first < last {
            find_greatest(windows, blocks, last);
        }
    }

    /// The same of all windows.
    pub(crate) fn refresh(&mut self)
        ensures { self.new ≡ self.old }
    {
        let (windows, blocks) = (self.windows.as_slice(), self.blocks.as_mut_slice());
        for block in 0..windows.len() / BLOCK {
            find_greatest(windows, blocks, block);
        }
    }

    /// Has the other bounds, in place of its own.
    pub(crate) fn copy_from(&mut self, other: &Bounds)
        requires { length other.now ≡ length self.old }
        ensures { self.new ≡ other.now }
    {
        for place in 0..self.len() {
            self.set(place, other.at(place));
        }
        self.refresh();
    }

    /// Has no residue exceed the bounds.
    pub(crate) fn clear(&mut self)
        ensures { self.new ≡ replicate (length self.old) ALWAYS }
    {
        for place in 0..self.len() {
            self.set(place, ALWAYS);
        }
    }

    /// Takes windows that start one behind another at successive places, where the bounds are the residues of the
    /// nearest ones.
    #[inline]
    pub(crate) fn take_lanes(
        &mut self,
        starts: &mut [u32],
        place: usize,
        residues: &[i32],
        first: u32,
    )
        requires windows { place + length residues.now ≤ length self.old }
        requires starts { length starts.old ≡ length self.old }
        requires few { first + length residues.now ≤ MAX_SAMPLES }
        requires told { AreTold self.old }
        requires residues { AreTold residues.now }
        ensures slots { slots_by self.new starts.new ≡ lanes_taken (slots_by self.old starts.old) place
            (lanes_by residues.now first) (length residues.now) }
        ensures told { AreTold self.new }
        ensures places { length self.new ≡ length self.old }
        ensures starts { length starts.new ≡ length starts.old }
    {
        take_lanes(self.windows.as_mut_slice(), starts, place, residues, first);
    }

    /// The same with the others' windows, each at its place.
    pub(crate) fn take_others(&mut self, starts: &mut [u32], other: &Bounds, other_starts: &[u32])
        requires starts { length starts.old ≡ length self.old }
        requires others { length other.now ≡ length self.old }
        requires other_starts { length other_starts.now ≡ length self.old }
        requires told { AreTold self.old }
        requires others_told { AreTold other.now }
        ensures slots { slots_by self.new starts.new
            ≡ merged_column (slots_by self.old starts.old) (slots_by other.now other_starts.now) }
        ensures told { AreTold self.new }
        ensures places { length self.new ≡ length self.old }
        ensures starts { length starts.new ≡ length starts.old }
    {
        take_others(
            self.windows.as_mut_slice(),
            starts,
            other.windows.as_slice(),
            other_starts,
        );
    }
}
