//! What was found along some diagonals of a series whose residues tell the distances.

ghost use Rattle.std.specs.Prelude.{◌≡◌, ℕ, ◌+◌, ◌<◌, ◌≤◌, length, false};
ghost use Rattle.std.specs.Prelude.{slice_index_or, None};
ghost use Rattle.mp_sums.specs.Residues.{item, residue as residue_of};
ghost use Rattle.mp_partial.specs.Values.{HasColumns, empty_columns, merged_column, merged_columns};
ghost use Rattle.mp_partial.specs.MergeLaws.{columns_merge};
ghost use Rattle.mp_tiles.specs.Scanning.{HasPlaces, IsScanned};
ghost use Rattle.mp_anytime.specs.Scanning.{AreEarlier, AreLater, is_pair_from, starts_behind};
ghost use Rattle.mp_anytime.specs.Rounded.{core_in, series_in, whole_in};
ghost use Rattle.mp_anytime.specs.Bounds.{AreTaken, IsQuiet, columns_of, has_residue, kept_sides};
ghost use Rattle.mp_anytime.specs.Told.{bounded_by};
ghost use Rattle.mp_anytime.specs.Narrow.{HaveFree};

use crate::narrow::Narrow;
use crate::pairs::{offer_left, offer_right};
use crate::residue_sides::ResidueSide;
use crate::rounded::BLOCK;
use mp_nums::Memory;
use mp_partial::{Part, Profile};
use mp_sums::passes;
use std::alloc::Global;
use std::marker::Model;

/// A block of a diagonal: its first row, and the residue of its core, where so many rows are left.
#[derive(Clone, Copy)]
struct Core {
    row: usize,
    residue: i32,
}

impl Core {
    /// The next block of a stretch that ends there.
    #[inline]
    fn next(self, narrow: &Narrow, offset: usize, end: usize) -> Core
        requires within { end + offset ≤ length narrow.now.free.now }
        requires there { self.row + BLOCK ≤ end }
        requires residue { self.residue ≡ residue_of (core_in narrow.now.plan self.row (self.row + offset)) }
        ensures next { result.row ≡ self.row + BLOCK }
        ensures residue { result.row + BLOCK ≤ end
            → result.residue ≡ residue_of (core_in narrow.now.plan result.row (result.row + offset)) }
    {
        let row = self.row + BLOCK;
        let residue = if row + BLOCK <= end {
            narrow.next_core(self.row, offset, self.residue)
        } else {
            self.residue
        };
        Core { row, residue }
    }
}

/// What was found on both sides of each window among the pairs on some diagonals, where residues tell the distances.
/// Whole blocks of pairs are taken at once. A window takes 16 bytes.
#[derive(Debug, Drop)]
pub(crate) struct ResidueFound {
    /// Of each window, as a column, the nearest of those that start earlier.
    left: ResidueSide,
    /// Of each window, as a row, the nearest of those that start later.
    right: ResidueSide,
}

impl Model for ResidueFound {
    ghost use Rattle.std.specs.Prelude.{◌≡◌, length};
    ghost use Rattle.mp_partial.specs.Profiled.{Profiled};
    ghost use Rattle.mp_anytime.specs.Bounds.{both_sides};

    ghost Value = { Profiled };

    ghost view = { λ found. both_sides found.left found.right 0 };

    ghost invariant = { λ found. length found.right ≡ length found.left };
}

/// Offers each window an earlier one, where a side has one for it.
fn offer_earlier(into: &mut Profile, side: &ResidueSide)
    requires places { length side.now ≡ length into.old.all }
    requires earlier { AreEarlier side.now }
    ensures left { into.new.left ≡ merged_column into.old.left side.now }
    ensures right { into.new.right ≡ into.old.right }
    ensures spare { into.new.spare ≡ into.old.spare }
    ensures places { length into.new.all ≡ length into.old.all }
{
    let _windows = into.len();
    for place in 0..side.len() {
        offer_left(into, place as u64, side.slot(place));
    }
}

/// Offers each window a later one, where a side has one for it.
fn offer_later(into: &mut Profile, side: &ResidueSide)
    requires places { length side.now ≡ length into.old.all }
    requires later { AreLater (length into.old.all) side.now }
    ensures right { into.new.right ≡ merged_column into.old.right side.now }
    ensures left { into.new.left ≡ into.old.left }
    ensures spare { into.new.spare ≡ into.old.spare }
    ensures places { length into.new.all ≡ length into.old.all }
{
    let _windows = into.len();
    for place in 0..side.len() {
        offer_right(into, place as u64, side.slot(place));
    }
}

impl ResidueFound {
    /// How many windows there are.
    fn windows(&self) -> usize
        ensures left { result ≡ length self.now.left }
        ensures lesser { self.now.all ≡ merged_column self.now.left self.now.right }
    {
        self.left.len()
    }

    /// Takes successive pairs of a diagonal, which have these residues and lack no sample.
    #[inline]
    fn take_residues(&mut self, narrow: &Narrow, row: usize, offset: usize, residues: &[i32])
        requires apart { 1 ≤ offset }
        requires within { row + offset + length residues.now ≤ length narrow.now.free.now }
        requires free { HaveFree narrow.now.free.now offset row (row + length residues.now) }
        requires residues { (k : ℕ) → k < length residues.now
            → item residues.now k ≡ residue_of (whole_in narrow.now.plan (row + k) (row + k + offset)) }
        requires places { HasPlaces (length narrow.now.free.now) self.old }
        ensures { AreTaken narrow.now.plan (is_pair_from offset row (row + length residues.now))
            (bounded_by narrow.now.plan self.old) (bounded_by narrow.now.plan self.new) }
    {
        let _windows = self.left.len();
        self.right.take_lanes(row, residues, (row + offset) as u32);
        self.left.take_lanes(row + offset, residues, row as u32);
    }

    /// Finds the greatest residues of a block's rows and columns anew, since these may be lower now.
    fn refresh(&mut self, row: usize, column: usize)
        requires row { row + BLOCK ≤ length self.old.right }
        requires column { column + BLOCK ≤ length self.old.left }
        ensures { self.new ≡ self.old }
    {
        self.right.refresh_from(row);
        self.left.refresh_from(column);
    }

    /// Whether one of a block's pairs may give something, which have these residues.
    #[inline]
    fn may_give_some(&self, row: usize, column: usize, residues: &[i32]) -> bool
        requires places { length residues.now ≡ BLOCK }
        requires row { row + BLOCK ≤ length self.now.right }
        requires column { column + BLOCK ≤ length self.now.left }
        ensures rows { result ≡ false → (m k : ℕ) → k < BLOCK
            → IsQuiet m 0 (slice_index_or self.now.right (row + k) None) (item residues.now k) }
        ensures columns { result ≡ false → (m k : ℕ) → k < BLOCK
            → IsQuiet m 0 (slice_index_or self.now.left (column + k) None) (item residues.now k) }
        ensures lesser { self.now.all ≡ merged_column self.now.left self.now.right }
    {
        self.right.may_take(row, residues) | self.left.may_take(column, residues)
    }

    /// Takes the pairs of a block, which lack no sample.
    fn take_block(&mut self, narrow: &Narrow, offset: usize, core: Core)
        requires apart { 1 ≤ offset }
        requires within { core.row + offset + BLOCK ≤ length narrow.now.free.now }
        requires free { HaveFree narrow.now.free.now offset core.row (core.row + BLOCK) }
        requires residue { core.residue ≡ residue_of (core_in narrow.now.plan core.row (core.row + offset)) }
        requires places { HasPlaces (length narrow.now.free.now) self.old }
        ensures { AreTaken narrow.now.plan (is_pair_from offset core.row (core.row + BLOCK))
            (bounded_by narrow.now.plan self.old) (bounded_by narrow.now.plan self.new) }
    {
        let Core { row, residue } = core;
        let mut residues = [0; BLOCK];
        let whole = narrow.whole_of(row, offset, residue);
        narrow.fill_residues(row, offset, whole, &mut residues);
        if self.may_give_some(row, row + offset, &residues) {
            self.take_residues(narrow, row, offset, &residues);
            self.refresh(row, row + offset);
        }
    }

    /// Whether the pairs of successive rows and columns may give something, of which each has a core of this residue.
    #[inline]
    fn may_give(&self, row: usize, column: usize, residue: i32) -> bool
        requires row { row + BLOCK ≤ length self.now.right }
        requires column { column + BLOCK ≤ length self.now.left }
        ensures rows { result ≡ false → (m k : ℕ) → k < BLOCK
            → IsQuiet m 0 (slice_index_or self.now.right (row + k) None) residue }
        ensures columns { result ≡ false → (m k : ℕ) → k < BLOCK
            → IsQuiet m 0 (slice_index_or self.now.left (column + k) None) residue }
        ensures lesser { self.now.all ≡ merged_column self.now.left self.now.right }
    {
        passes(
            residue,
            self.right.greatest_from(row),
            self.left.greatest_from(column),
        )
    }

    /// The first block of a stretch from one on whose pairs may give something, or where the stretch has no block more.
    /// Few numbers are needed for that, so that this is a short loop.
    #[inline]
    fn next_near(&self, narrow: &Narrow, offset: usize, end: usize, from: Core) -> Core
        requires apart { 1 ≤ offset }
        requires within { end + offset ≤ length narrow.now.free.now }
        requires order { from.row ≤ end }
        requires residue { from.row + BLOCK ≤ end
            → from.residue ≡ residue_of (core_in narrow.now.plan from.row (from.row + offset)) }
        requires places { HasPlaces (length narrow.now.free.now) self.now }
        ensures behind { from.row ≤ result.row }
        ensures within { result.row ≤ end }
        ensures residue { result.row + BLOCK ≤ end
            → result.residue ≡ residue_of (core_in narrow.now.plan result.row (result.row + offset)) }
        ensures passed { AreTaken narrow.now.plan (is_pair_from offset from.row result.row)
            (bounded_by narrow.now.plan self.now) (bounded_by narrow.now.plan self.now) }
    {
        let mut near = from;
        while near.row + BLOCK <= end {
            if self.may_give(near.row, near.row + offset, near.residue) {
                break;
            }
            near = near.next(narrow, offset, end);
        }
        near
    }

    /// Takes the pairs of as many blocks as a stretch has, which lacks no sample. The result is the row behind them.
    fn take_blocks(&mut self, narrow: &Narrow, row: usize, offset: usize, end: usize) -> usize
        requires apart { 1 ≤ offset }
        requires some { row < end }
        requires within { end + offset ≤ length narrow.now.free.now }
        requires free { HaveFree narrow.now.free.now offset row end }
        requires places { HasPlaces (length narrow.now.free.now) self.old }
        ensures behind { row ≤ result }
        ensures within { result ≤ end }
        ensures rest { end < result + BLOCK }
        ensures taken { AreTaken narrow.now.plan (is_pair_from offset row result)
            (bounded_by narrow.now.plan self.old) (bounded_by narrow.now.plan self.new) }
    {
        let first = Core {
            row,
            residue: narrow.core(row, offset),
        };
        let mut near = self.next_near(narrow, offset, end, first);
        while near.row + BLOCK <= end {
            self.take_block(narrow, offset, near);
            near = self.next_near(narrow, offset, end, near.next(narrow, offset, end));
        }
        near.row
    }

    /// Takes the pairs of a stretch that its blocks leave, all together.
    fn take_rest(&mut self, narrow: &Narrow, row: usize, offset: usize, end: usize)
        requires apart { 1 ≤ offset }
        requires order { row ≤ end }
        requires few { end < row + BLOCK }
        requires within { end + offset ≤ length narrow.now.free.now }
        requires free { HaveFree narrow.now.free.now offset row end }
        requires places { HasPlaces (length narrow.now.free.now) self.old }
        ensures { AreTaken narrow.now.plan (is_pair_from offset row end)
            (bounded_by narrow.now.plan self.old) (bounded_by narrow.now.plan self.new) }
    {
        if row < end {
            let mut residues = [0; BLOCK];
            narrow.fill_residues(row, offset, narrow.whole(row, offset), &mut residues);
            self.take_residues(narrow, row, offset, &residues[..end - row]);
        }
    }

    /// Takes the pairs of a stretch that lacks no sample.
    fn take_stretch(&mut self, narrow: &Narrow, row: usize, offset: usize, end: usize)
        requires apart { 1 ≤ offset }
        requires some { row < end }
        requires within { end + offset ≤ length narrow.now.free.now }
        requires free { HaveFree narrow.now.free.now offset row end }
        requires places { HasPlaces (length narrow.now.free.now) self.old }
        ensures { AreTaken narrow.now.plan (is_pair_from offset row end)
            (bounded_by narrow.now.plan self.old) (bounded_by narrow.now.plan self.new) }
    {
        let rest = self.take_blocks(narrow, row, offset, end);
        self.take_rest(narrow, rest, offset, end);
    }

    /// Takes the pairs of windows that start so far apart, stretch by stretch: pairs that lack a sample give nothing.
    pub(crate) fn take_along(&mut self, narrow: &Narrow, offset: usize)
        requires apart { 1 ≤ offset }
        requires within { offset < length narrow.now.free.now }
        requires places { HasPlaces (length narrow.now.free.now) self.old }
        ensures { IsScanned (starts_behind offset) narrow.now.plan.grid.m (series_in narrow.now.plan) self.old
            self.new }
    {
        let end = narrow.free.len() - offset;
        let mut row = 0;
        while row < end {
            let _windows = self.windows();
            let turn = narrow.turn(row, offset);
            if narrow.are_free(row, offset) {
                self.take_stretch(narrow, row, offset, turn);
            }
            row = turn;
        }
    }

    /// Merges both sides of a profile of the same windows into what was found, as far as their distances have residues.
    pub(crate) fn take_profile(&mut self, profile: &Profile)
        requires places { length profile.now.all ≡ length self.old.all }
        ensures value { columns_of self.new
            ≡ merged_columns (columns_of self.old) (columns_of (kept_sides has_residue profile.now)) }
        ensures places { length self.new.all ≡ length self.old.all }
        ensures is_value { HasColumns 3 (length self.new.all) (columns_of self.new) }
        ensures room { self.new.room ≡ self.old.room }
    {
        let _windows = profile.len();
        self.right.offer_column(profile.right());
        self.left.offer_column(profile.left());
        self.right.refresh();
        self.left.refresh();
    }

    /// Merges what was found into a profile of the same windows.
    pub(crate) fn put_into(&self, profile: &mut Profile)
        requires places { length profile.old.all ≡ length self.now.left }
        requires left { AreEarlier self.now.left }
        requires right { AreLater (length profile.old.all) self.now.right }
        ensures left { profile.new.left ≡ merged_column profile.old.left self.now.left }
        ensures right { profile.new.right ≡ merged_column profile.old.right self.now.right }
        ensures spare { profile.new.spare ≡ profile.old.spare }
    {
        offer_earlier(profile, &self.left);
        offer_later(profile, &self.right);
    }
}

impl Part for ResidueFound {
    ghost value = { columns_of };

    ghost size_of = { λ found. length found.all };

    ghost room_of = { λ found. found.room };

    ghost is_value = { HasColumns 3 };

    ghost unit_of = { empty_columns 3 };

    ghost merged = { merged_columns };

    ghost laws = { columns_merge 3 };

    fn unit(alloc: Global, size: u64) -> Result<Self, Memory> {
        Ok(ResidueFound {
            left: ResidueSide::none_found(alloc, size)?,
            right: ResidueSide::none_found(alloc, size)?,
        })
    }

    fn size(&self) -> u64 {
        self.left.len() as u64
    }

    fn clear(&mut self) {
        self.left.clear();
        self.right.clear();
    }

    fn merge(&mut self, other: &Self) {
        self.left.merge(&other.left);
        self.right.merge(&other.right);
    }

    fn take_over(&mut self, other: &Self) {
        self.left.copy_from(&other.left);
        self.right.copy_from(&other.right);
    }
}
