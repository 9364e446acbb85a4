//! What was found along some diagonals, and which residues tell that nothing more is.

ghost use Rattle.std.specs.Prelude.{◌≡◌, ℕ, ◌+◌, ◌-◌, ◌*◌, ◌^◌, ◌<◌, ◌≤◌, ◌<ℤ◌};
ghost use Rattle.std.specs.Prelude.{[], ◌∷◌, length};
ghost use Rattle.std.specs.Prelude.{slice_index_or, None, true, false, ℤ};
ghost use Rattle.std.specs.Int.{bit_at};
ghost use Rattle.mp_sums.specs.Residues.{item, residue as residue_of};
ghost use Rattle.mp_partial.specs.Values.{HasColumns, empty_columns, merged_column, merged_columns};
ghost use Rattle.mp_partial.specs.MergeLaws.{columns_merge};
ghost use Rattle.mp_scans.specs.Offering.{only};
ghost use Rattle.mp_tiles.specs.Scanning.{HasPlaces, IsScanned};
ghost use Rattle.mp_anytime.specs.Scanning.{AreEarlier, AreLater, IsPairTaken, is_pair_from, starts_behind};
ghost use Rattle.mp_anytime.specs.Rounded.{core_in, series_in, whole_in};
ghost use Rattle.mp_anytime.specs.Bounds.{AreTaken, IsFor, IsQuiet, columns_of, has_number, kept_sides};
ghost use Rattle.mp_scans.specs.Exacts.{IsExact};
ghost use Rattle.mp_scans.specs.Lanes.{AreLanes};
ghost use Rattle.mp_series.specs.declared.limits.TheConstants.{MAX_SAMPLES};

use crate::pairs::{offer_earlier, offer_later};
use crate::rounded::{BLOCK, Rounded};
use crate::sides::{Side, bound_of};
use mp_nums::{Memory, Near, Sq};
use mp_partial::{Part, Profile};
use mp_scans::{Exact, lanes_above, load, next_clear};
use mp_sums::{NEVER, Rounding, passes};
use std::alloc::Global;
use std::marker::Model;
use std::simd::prelude::*;

/// By what samples are rounded before any are. Where nothing was found all bounds are the same.
const NO_ROUNDING: Rounding = Rounding { m: 1, shift: 0 };

/// What was found on both sides of each window among the pairs on some diagonals. Of residues it is known of each
/// window up to which ones a later window may be nearer than the nearest one so far, and an earlier one. A window
/// takes 40 bytes.
#[derive(Debug, Drop)]
pub(crate) struct Found {
    /// Of each window, as a column, the nearest of those that start earlier.
    left: Side,
    /// Of each window, as a row, the nearest of those that start later.
    right: Side,
    /// How samples are rounded of whose residues the bounds are.
    rounding: Rounding,
}

impl Model for Found {
    ghost use Rattle.std.specs.Prelude.{◌≡◌, ◌+◌, length};
    ghost use Rattle.mp_anytime.specs.Bounds.{AreBounds, Bounded, both_sides};

    ghost Value = { Bounded };

    ghost view = { λ found. record {
      profile = both_sides found.left.slots found.right.slots (found.left.room + found.right.room);
      m = found.rounding.m;
      shift = found.rounding.shift;
    } };

    ghost invariant = { λ found. AreBounds found.rounding.m found.rounding.shift found.right.slots found.right.bounds
        × AreBounds found.rounding.m found.rounding.shift found.left.slots found.left.bounds
        × (length found.right.slots ≡ length found.left.slots) };
}

/// Whether samples are rounded alike.
fn are_alike(one: &Rounding, other: &Rounding) -> bool
    ensures m { result ≡ true → one.now.m ≡ other.now.m }
    ensures shift { result ≡ true → one.now.shift ≡ other.now.shift }
{
    one.m == other.m && one.shift == other.shift
}

/// Whether two bounds are below a residue.
#[inline]
fn are_below(one: i32, other: i32, residue: i32) -> bool
    ensures one { result ≡ true → one <ℤ residue }
    ensures other { result ≡ true → other <ℤ residue }
{
    (one < residue) & (other < residue)
}

/// A bit for each residue of a block, set where it is above its limit.
fn bits_above(residues: &[i32], limits: &[i32]) -> u64
    requires residues { AreLanes residues.now }
    requires limits { AreLanes limits.now }
    ensures above { (k : ℕ) → k < BLOCK → bit_at result k ≡ 1 → item limits.now k <ℤ item residues.now k }
    ensures small { result < 2 ^ BLOCK }
{
    let mut lanes = i32x32::splat(0);
    load(&mut lanes, residues, 0);
    lanes_above(&lanes, &NEVER, limits)
}

impl Found {
    /// Has residues be those of samples rounded so.
    fn round_by(&mut self, rounding: &Rounding)
        ensures profile { self.new.profile ≡ self.old.profile }
        ensures m { self.new.m ≡ rounding.now.m }
        ensures shift { self.new.shift ≡ rounding.now.shift }
    {
        if are_alike(&self.rounding, rounding) {
            return;
        }
        self.right.forget_bounds();
        self.left.forget_bounds();
        self.rounding = *rounding;
    }

    /// Whether the pairs of successive rows and columns give nothing, of which each has a core of this residue.
    #[inline]
    fn is_quiet(&self, row: usize, column: usize, residue: i32) -> bool
        requires row { row + BLOCK ≤ length self.now.profile.right }
        requires column { column + BLOCK ≤ length self.now.profile.left }
        ensures rows { result ≡ true → (k : ℕ) → k < BLOCK → IsQuiet self.now.m self.now.shift
            (slice_index_or self.now.profile.right (row + k) None) residue }
        ensures columns { result ≡ true → (k : ℕ) → k < BLOCK → IsQuiet self.now.m self.now.shift
            (slice_index_or self.now.profile.left (column + k) None) residue }
        ensures lesser { self.now.profile.all ≡ merged_column self.now.profile.left self.now.profile.right }
    {
        let rows = self.right.greatest_from(row);
        let columns = self.left.greatest_from(column);
        are_below(rows, columns, residue)
    }

    /// Whether a row and a column of this residue may give each other something.
    #[inline]
    fn may_give(&self, row: usize, column: usize, residue: i32) -> bool
        requires row { row < length self.now.profile.right }
        requires column { column < length self.now.profile.left }
        ensures row { result ≡ false → IsQuiet self.now.m self.now.shift
            (slice_index_or self.now.profile.right row None) residue }
        ensures column { result ≡ false → IsQuiet self.now.m self.now.shift
            (slice_index_or self.now.profile.left column None) residue }
        ensures lesser { self.now.profile.all ≡ merged_column self.now.profile.left self.now.profile.right }
    {
        passes(
            residue,
            self.right.bound_at(row),
            self.left.bound_at(column),
        )
    }

    /// Offers a row and a later column at a distance to each other.
    #[inline]
    fn offer(&mut self, row: usize, column: usize, dist: u128)
        requires order { row < column }
        requires within { column < length self.old.profile.all }
        requires left { length self.old.profile.left ≡ length self.old.profile.all }
        requires right { length self.old.profile.right ≡ length self.old.profile.all }
        requires starts { column < MAX_SAMPLES }
        requires small { dist + 1 < 2 ^ 110 }
        ensures profile { IsPairTaken row column true dist self.old.profile self.new.profile }
        ensures m { self.new.m ≡ self.old.m }
        ensures shift { self.new.shift ≡ self.old.shift }
    {
        let dist = Sq(dist);
        let later = Near {
            dist,
            index: column as u64,
        };
        let earlier = Near {
            dist,
            index: row as u64,
        };
        let bound = bound_of(&self.rounding, dist);
        self.right.offer(row, later, bound);
        self.left.offer(column, earlier, bound);
    }

    /// Offers a row and a later column to each other, which have this residue, where no sample of them is missing.
    fn offer_free(
        &mut self,
        rounded: &Rounded,
        row: usize,
        column: usize,
        residue: i32,
        exact: &mut Option<Exact>,
    )
        requires order { row < column }
        requires within { column < length rounded.now.free.now }
        requires residue { residue ≡ residue_of (whole_in rounded.now.plan row column) }
        requires for_these { IsFor rounded.now.plan self.old }
        requires exact { IsExact rounded.now.plan.grid (column - row) exact.old }
        ensures taken { AreTaken rounded.now.plan (only row column) self.old self.new }
        ensures exact { IsExact rounded.now.plan.grid (column - row) exact.new }
    {
        if rounded.free[row] & rounded.free[column] {
            let dist = rounded.distance(row, column, residue, exact);
            self.offer(row, column, dist);
        }
    }

    /// The same, unless the residue tells that it gives them nothing.
    #[inline]
    fn take_pair(
        &mut self,
        rounded: &Rounded,
        row: usize,
        column: usize,
        residue: i32,
        exact: &mut Option<Exact>,
    )
        requires order { row < column }
        requires within { column < length rounded.now.free.now }
        requires residue { residue ≡ residue_of (whole_in rounded.now.plan row column) }
        requires for_these { IsFor rounded.now.plan self.old }
        requires exact { IsExact rounded.now.plan.grid (column - row) exact.old }
        ensures taken { AreTaken rounded.now.plan (only row column) self.old self.new }
        ensures exact { IsExact rounded.now.plan.grid (column - row) exact.new }
    {
        if self.may_give(row, column, residue) {
            self.offer_free(rounded, row, column, residue, exact);
        }
    }

    /// Takes so many successive pairs of a diagonal, one by one.
    fn take_pairs(&mut self, rounded: &Rounded, row: usize, offset: usize, count: usize)
        requires apart { 1 ≤ offset }
        requires some { 1 ≤ count }
        requires within { row + offset + count ≤ length rounded.now.free.now }
        requires for_these { IsFor rounded.now.plan self.old }
        ensures { AreTaken rounded.now.plan (is_pair_from offset row (row + count)) self.old self.new }
    {
        let mut residue = rounded.whole(row, offset);
        let mut exact = None;
        for k in 0..count {
            self.take_pair(rounded, row + k, row + k + offset, residue, &mut exact);
            residue = rounded.next_whole(row + k, offset, residue);
        }
    }

    /// For each pair of a block the greater one of both bounds.
    fn fill_limits(&self, row: usize, column: usize, limits: &mut [i32])
        requires places { length limits.old ≡ BLOCK }
        requires row { row + BLOCK ≤ length self.now.profile.right }
        requires column { column + BLOCK ≤ length self.now.profile.left }
        ensures lanes { AreLanes limits.new }
        ensures rows { (k : ℕ) (r : ℤ) → k < BLOCK → item limits.new k <ℤ r → IsQuiet self.now.m self.now.shift
            (slice_index_or self.now.profile.right (row + k) None) r }
        ensures columns { (k : ℕ) (r : ℤ) → k < BLOCK → item limits.new k <ℤ r → IsQuiet self.now.m self.now.shift
            (slice_index_or self.now.profile.left (column + k) None) r }
        ensures lesser { self.now.profile.all ≡ merged_column self.now.profile.left self.now.profile.right }
    {
        let _windows = self.left.len();
        for k in 0..limits.len() {
            limits[k] = self
                .right
                .bound_at(row + k)
                .max(self.left.bound_at(column + k));
        }
    }

    /// Takes the pairs of a block one by one, but for those whose residues tell that they give nothing.
    fn take_each(&mut self, rounded: &Rounded, row: usize, offset: usize, residues: &[i32])
        requires apart { 1 ≤ offset }
        requires within { row + offset + BLOCK ≤ length rounded.now.free.now }
        requires places { length residues.now ≡ BLOCK }
        requires residues { (k : ℕ) → k < BLOCK
            → item residues.now k ≡ residue_of (whole_in rounded.now.plan (row + k) (row + k + offset)) }
        requires for_these { IsFor rounded.now.plan self.old }
        ensures { AreTaken rounded.now.plan (is_pair_from offset row (row + BLOCK)) self.old self.new }
    {
        let mut limits = [0; BLOCK];
        self.fill_limits(row, row + offset, &mut limits);
        let quiet = bits_above(residues, &limits);
        let mut exact = None;
        let mut k = next_clear(quiet, 0, BLOCK);
        while k < BLOCK {
            self.offer_free(rounded, row + k, row + k + offset, residues[k], &mut exact);
            k = next_clear(quiet, k + 1, BLOCK);
        }
    }

    /// Finds the greatest bounds of a block's rows and columns anew, since these may be lower now.
    fn refresh(&mut self, row: usize, column: usize)
        requires row { row + BLOCK ≤ length self.old.profile.right }
        requires column { column + BLOCK ≤ length self.old.profile.left }
        ensures { self.new ≡ self.old }
    {
        self.right.refresh_from(row);
        self.left.refresh_from(column);
    }

    /// Takes the pairs of a block, unless the residue of its core tells that none of them gives something.
    fn take_block(&mut self, rounded: &Rounded, row: usize, offset: usize, residue: i32)
        requires apart { 1 ≤ offset }
        requires within { row + offset + BLOCK ≤ length rounded.now.free.now }
        requires residue { residue ≡ residue_of (core_in rounded.now.plan row (row + offset)) }
        requires for_these { IsFor rounded.now.plan self.old }
        ensures { AreTaken rounded.now.plan (is_pair_from offset row (row + BLOCK)) self.old self.new }
    {
        if self.is_quiet(row, row + offset, residue) {
            return;
        }
        let mut residues = [0; BLOCK];
        rounded.fill_residues(row, offset, residue, &mut residues);
        self.take_each(rounded, row, offset, &residues);
        self.refresh(row, row + offset);
    }

    /// Takes the pairs of as many blocks as a diagonal has.
    fn take_blocks(&mut self, rounded: &Rounded, offset: usize, blocks: usize)
        requires apart { 1 ≤ offset }
        requires behind { offset < length rounded.now.free.now }
        requires within { BLOCK * blocks + offset ≤ length rounded.now.free.now }
        requires for_these { IsFor rounded.now.plan self.old }
        ensures { AreTaken rounded.now.plan (is_pair_from offset 0 (BLOCK * blocks)) self.old self.new }
    {
        let mut residue = rounded.first_core(offset);
        for block in 0..blocks {
            let row = BLOCK * block;
            self.take_block(rounded, row, offset, residue);
            residue = rounded.next_core(row, offset, residue);
        }
    }

    /// Takes the pairs of a diagonal from a row on.
    fn take_rest(&mut self, rounded: &Rounded, row: usize, offset: usize)
        requires apart { 1 ≤ offset }
        requires within { row + offset ≤ length rounded.now.free.now }
        requires for_these { IsFor rounded.now.plan self.old }
        ensures { AreTaken rounded.now.plan (is_pair_from offset row (length rounded.now.free.now - offset)) self.old
            self.new }
    {
        let end = rounded.free.len() - offset;
        if row < end {
            self.take_pairs(rounded, row, offset, end - row);
        }
    }

    /// Takes the pairs of windows that start so far apart.
    pub(crate) fn take_along(&mut self, rounded: &Rounded, offset: usize)
        requires apart { 1 ≤ offset }
        requires within { offset < length rounded.now.free.now }
        requires places { HasPlaces (length rounded.now.free.now) self.old.profile }
        ensures { IsScanned (starts_behind offset) rounded.now.plan.grid.m (series_in rounded.now.plan)
            self.old.profile self.new.profile }
    {
        self.round_by(&rounded.plan.rounding);
        let blocks = (rounded.free.len() - offset) / BLOCK;
        self.take_blocks(rounded, offset, blocks);
        self.take_rest(rounded, BLOCK * blocks, offset);
    }

    /// Merges both sides of a profile of the same windows into what was found.
    fn take_sides(&mut self, profile: &Profile)
        requires places { length profile.now.all ≡ length self.old.profile.all }
        ensures value { columns_of self.new.profile
            ≡ merged_columns (columns_of self.old.profile) (columns_of (kept_sides has_number profile.now)) }
        ensures places { length self.new.profile.all ≡ length self.old.profile.all }
        ensures is_value { HasColumns 3 (length self.new.profile.all) (columns_of self.new.profile) }
        ensures room { self.new.profile.room ≡ self.old.profile.room }
    {
        let _windows = profile.len();
        self.right.offer_column(&self.rounding, profile.right());
        self.left.offer_column(&self.rounding, profile.left());
        self.right.refresh();
        self.left.refresh();
    }

    /// The same, by bounds of residues of samples that are rounded so.
    pub(crate) fn take_profile(&mut self, profile: &Profile, rounding: &Rounding)
        requires places { length profile.now.all ≡ length self.old.profile.all }
        ensures value { columns_of self.new.profile
            ≡ merged_columns (columns_of self.old.profile) (columns_of (kept_sides has_number profile.now)) }
        ensures places { length self.new.profile.all ≡ length self.old.profile.all }
        ensures is_value { HasColumns 3 (length self.new.profile.all) (columns_of self.new.profile) }
        ensures room { self.new.profile.room ≡ self.old.profile.room }
    {
        self.round_by(rounding);
        self.take_sides(profile);
    }

    /// Merges what was found into a profile of the same windows.
    pub(crate) fn put_into(&self, profile: &mut Profile)
        requires places { length profile.old.all ≡ length self.now.profile.left }
        requires left { AreEarlier self.now.profile.left }
        requires right { AreLater (length profile.old.all) self.now.profile.right }
        ensures left { profile.new.left ≡ merged_column profile.old.left self.now.profile.left }
        ensures right { profile.new.right ≡ merged_column profile.old.right self.now.profile.right }
        ensures spare { profile.new.spare ≡ profile.old.spare }
    {
        offer_earlier(profile, self.left.slots());
        offer_later(profile, self.right.slots());
    }
}

impl Part for Found {
    ghost value = { λ found. found.profile.all ∷ found.profile.left ∷ found.profile.right ∷ [] };

    ghost size_of = { λ found. length found.profile.all };

    ghost room_of = { λ found. found.profile.room };

    ghost is_value = { HasColumns 3 };

    ghost unit_of = { empty_columns 3 };

    ghost merged = { merged_columns };

    ghost laws = { columns_merge 3 };

    fn unit(alloc: Global, size: u64) -> Result<Self, Memory> {
        Ok(Found {
            left: Side::none_found(alloc, size)?,
            right: Side::none_found(alloc, size)?,
            rounding: NO_ROUNDING,
        })
    }

    fn size(&self) -> u64 {
        self.left.len() as u64
    }

    fn clear(&mut self) {
        self.left.clear();
        self.right.clear();
    }

    fn merge(&mut self, other: &Self) {
        self.left.merge(&other.left);
        self.right.merge(&other.right);
    }

    fn take_over(&mut self, other: &Self) {
        self.left.copy_from(&other.left);
        self.right.copy_from(&other.right);
        self.rounding = other.rounding;
    }
}
