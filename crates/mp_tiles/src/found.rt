//! What was found on both sides, and the room for it.

ghost use Rattle.std.specs.Prelude.{◌≡◌, ◌+◌, ◌^◌, ◌<◌, ◌≤◌, [], ◌∷◌, length, slice_index_or, IfOk, None, false};
ghost use Rattle.mp_series.specs.declared.limits.TheConstants.{MAX_SAMPLES};
ghost use Rattle.mp_defs.specs.Series.{series_of};
ghost use Rattle.mp_defs.specs.Window.{windows as windows_in, excl as zone};
ghost use Rattle.mp_defs.specs.Profile.{matrix_profile};
ghost use Rattle.mp_partial.specs.Values.{HasColumns, empty_column, merged_column, merged_columns, offered};
ghost use Rattle.mp_cuts.specs.Pairs.{has_pair, IsTileBetween};
ghost use Rattle.mp_scans.specs.Slots.{Covers};
ghost use Rattle.mp_tiles.specs.Among.{profile_among};
ghost use Rattle.mp_tiles.specs.Compact.{IsWordOf, slot_of_word};
ghost use Rattle.mp_tiles.specs.Scanning.{taken};
ghost use Rattle.mp_tiles.specs.OfferingLaws.{fits_sides, may_sides, is_scanned_sides, on_both_sides};
ghost use Rattle.mp_tiles.specs.LimitLaws.{keeps_row_sides, keeps_column_sides, side_limits};
ghost use Rattle.mp_tiles.specs.Pieces.{sides_value};

use crate::blocks::scan_blocks;
use crate::columns::{Column, Room};
use crate::offers::OnBothSides;
use crate::scans::scan_tile;
use mp_cuts::Tile;
use mp_nums::{Memory, Near, Slots, Sq, nearer};
use mp_scans::{Firsts, Offers, Plan};
use mp_series::excl;
use mp_skips::{Coarse, Seeds, scan_seeds};
use mp_sums::{Limit, Rounding};
use std::alloc::Global;
use std::marker::Model;

/// What was found for each window, by its start: the nearest of the windows that start earlier, and the nearest of
/// those that start later. A window takes 40 bytes.
#[derive(Debug, Drop)]
pub(crate) struct Found {
    left: Column,
    right: Column,
}

impl Model for Found {
    ghost use Rattle.std.specs.Prelude.{◌≡◌, ◌+◌, length};
    ghost use Rattle.mp_tiles.specs.Sides.{Sided};

    ghost Value = { Sided };

    ghost view = { λ found. record {
      left = found.left.slots;
      right = found.right.slots;
      room = found.left.room + found.right.room;
    } };

    ghost invariant = { λ found. length found.right.slots ≡ length found.left.slots };
}

impl Found {
    /// The number of windows.
    pub(crate) fn len(&self) -> u64
        ensures left { result ≡ length self.now.left }
        ensures right { result ≡ length self.now.right }
    {
        self.left.len() as u64
    }

    /// Has bounds of residues be those of samples rounded so.
    pub(crate) fn round_by(&mut self, rounding: &Rounding)
        ensures { self.new ≡ self.old }
    {
        self.left.round_by(rounding);
        self.right.round_by(rounding);
    }

    /// Windows `i` and `j`, which starts later, have this distance.
    #[inline]
    pub(crate) fn offer(&mut self, i: u64, j: u64, dist: Sq)
        requires i { i < length self.old.right }
        requires j { j < length self.old.left }
        requires first { i < MAX_SAMPLES }
        requires second { j < MAX_SAMPLES }
        requires small { dist.0 + 1 < 2 ^ 110 }
        ensures left { self.new.left ≡ offered self.old.left j (record { dist = dist; index = i }) }
        ensures right { self.new.right ≡ offered self.old.right i (record { dist = dist; index = j }) }
        ensures room { self.new.room ≡ self.old.room }
    {
        self.left.offer(j as usize, Near { dist, index: i });
        self.right.offer(i as usize, Near { dist, index: j });
    }

    /// Takes for a window the one before it that a word tells, where that is nearer.
    #[inline]
    pub(crate) fn take_left(&mut self, place: usize, word: u64)
        requires { place < length self.old.left }
        ensures left { self.new.left ≡ taken self.old.left place (slot_of_word word) }
        ensures right { self.new.right ≡ self.old.right }
        ensures room { self.new.room ≡ self.old.room }
    {
        self.left.take_word(place, word);
    }

    /// Takes for a window the one behind it that a word tells, where that is nearer.
    #[inline]
    pub(crate) fn take_right(&mut self, place: usize, word: u64)
        requires { place < length self.old.left }
        ensures left { self.new.left ≡ self.old.left }
        ensures right { self.new.right ≡ taken self.old.right place (slot_of_word word) }
        ensures room { self.new.room ≡ self.old.room }
    {
        self.right.take_word(place, word);
    }

    /// What was found for a window before it, in a word.
    #[inline]
    pub(crate) fn left_word(&self, place: usize) -> u64
        requires { place < length self.now.left }
        ensures { IsWordOf (slice_index_or self.now.left place None) result }
    {
        self.left.word(place)
    }

    /// What was found for a window behind it, in a word.
    #[inline]
    pub(crate) fn right_word(&self, place: usize) -> u64
        requires { place < length self.now.left }
        ensures { IsWordOf (slice_index_or self.now.right place None) result }
    {
        self.right.word(place)
    }

    /// Whether windows `i` and `j`, which starts later, may be nearer at this distance than what was found for either.
    #[inline]
    pub(crate) fn may_take(&self, i: u64, j: u64, dist: Sq) -> bool
        requires i { i < length self.now.right }
        requires j { j < length self.now.left }
        requires first { i < MAX_SAMPLES }
        requires second { j < MAX_SAMPLES }
        requires small { dist.0 + 1 < 2 ^ 110 }
        ensures left { result ≡ false → Covers (slice_index_or self.now.left j None) i dist.0 }
        ensures right { result ≡ false → Covers (slice_index_or self.now.right i None) j dist.0 }
    {
        let to_right = self.right.may_take(i as usize, Near { dist, index: j });
        let to_left = self.left.may_take(j as usize, Near { dist, index: i });
        to_right | to_left
    }

    /// Puts what was found on the left into a column of no windows, which has room for it. It takes no memory.
    pub(crate) fn put_left(&self, column: &mut Slots)
        requires no_window { column.old.items ≡ [] }
        requires spare { length self.now.left ≤ column.old.spare }
        ensures { column.new.items ≡ self.now.left }
    {
        self.left.put(column);
    }

    /// Puts what was found on the right into a column of no windows, which has room for it. It takes no memory.
    pub(crate) fn put_right(&self, column: &mut Slots)
        requires no_window { column.old.items ≡ [] }
        requires spare { length self.now.left ≤ column.old.spare }
        ensures { column.new.items ≡ self.now.right }
    {
        let _places = self.len();
        self.right.put(column);
    }

    /// Puts the nearer window of both sides at each place into a column of no windows, which has room for it. It takes
    /// no memory.
    pub(crate) fn put_nearer(&self, column: &mut Slots)
        requires no_window { column.old.items ≡ [] }
        requires spare { length self.now.left ≤ column.old.spare }
        ensures { column.new.items ≡ merged_column self.now.left self.now.right }
    {
        let (left, right) = (&self.left, &self.right);
        for k in 0..left.len() {
            column.push(nearer(left.slot(k), right.slot(k))).unwrap();
        }
    }

    /// Both sides of no windows. It takes no memory.
    pub(crate) fn new(alloc: Global) -> Found
        ensures left { result.left ≡ [] }
        ensures right { result.right ≡ [] }
        ensures room { result.room ≡ 0 }
    {
        Found {
            left: Column::new(alloc),
            right: Column::new(alloc),
        }
    }

    /// Forgets what was found.
    pub(crate) fn clear(&mut self)
        ensures left { self.new.left ≡ empty_column (length self.old.left) }
        ensures right { self.new.right ≡ empty_column (length self.old.left) }
        ensures room { self.new.room ≡ self.old.room }
    {
        self.left.clear();
        self.right.clear();
    }

    /// Keeps the nearer window at each place.
    pub(crate) fn merge(&mut self, other: &Found)
        requires { length other.now.left ≡ length self.old.left }
        ensures left { self.new.left ≡ merged_column self.old.left other.now.left }
        ensures right { self.new.right ≡ merged_column self.old.right other.now.right }
        ensures places { length self.new.left ≡ length self.old.left }
        ensures same { length self.new.right ≡ length self.new.left }
        ensures room { self.new.room ≡ self.old.room }
    {
        self.left.merge(&other.left);
        self.right.merge(&other.right);
    }

    /// Has what was found by another one, in place of what it had.
    pub(crate) fn copy_from(&mut self, other: &Found)
        requires { length other.now.left ≡ length self.old.left }
        ensures left { self.new.left ≡ other.now.left }
        ensures right { self.new.right ≡ other.now.right }
        ensures room { self.new.room ≡ self.old.room }
    {
        self.left.copy_from(&other.left);
        self.right.copy_from(&other.right);
    }
}

/// Merges both sides of the profile of a tile's pairs into what was found.
pub(crate) fn take_tile(plan: &Plan, tile: &Tile, into: &mut Found)
    requires same { plan.now.grid.columns.now ≡ plan.now.grid.rows.now }
    requires tile { IsTileBetween (zone plan.now.grid.m + 1)
        (windows_in (length plan.now.grid.rows.now) plan.now.grid.m)
        (windows_in (length plan.now.grid.rows.now) plan.now.grid.m) tile.now }
    requires places { length into.old.left ≡ windows_in (length plan.now.grid.rows.now) plan.now.grid.m }
    ensures value { into.new.left ∷ into.new.right ∷ [] ≡ merged_columns (into.old.left ∷ into.old.right ∷ [])
        (sides_value (profile_among (has_pair 0 tile.now) plan.now.grid.m (series_of plan.now.grid.rows.now))) }
    ensures size { length into.new.left ≡ length into.old.left }
    ensures is_value { HasColumns 2 (length into.new.left) (into.new.left ∷ into.new.right ∷ []) }
    ensures room { into.new.room ≡ into.old.room }
{
    let _windows = into.len();
    into.round_by(&plan.rounding);
    scan_tile::<OnBothSides>(plan, tile, into);
}

/// The same in coarse sums.
pub(crate) fn take_by_sums(coarse: &Coarse, tile: &Tile, is_tried: bool, into: &mut Found)
    requires same { coarse.now.plan.grid.columns.now ≡ coarse.now.plan.grid.rows.now }
    requires tile { IsTileBetween (zone coarse.now.plan.grid.m + 1)
        (windows_in (length coarse.now.plan.grid.rows.now) coarse.now.plan.grid.m)
        (windows_in (length coarse.now.plan.grid.rows.now) coarse.now.plan.grid.m) tile.now }
    requires places { length into.old.left
        ≡ windows_in (length coarse.now.plan.grid.rows.now) coarse.now.plan.grid.m }
    ensures value { into.new.left ∷ into.new.right ∷ [] ≡ merged_columns (into.old.left ∷ into.old.right ∷ [])
        (sides_value (profile_among (has_pair 0 tile.now) coarse.now.plan.grid.m
        (series_of coarse.now.plan.grid.rows.now))) }
    ensures size { length into.new.left ≡ length into.old.left }
    ensures is_value { HasColumns 2 (length into.new.left) (into.new.left ∷ into.new.right ∷ []) }
    ensures room { into.new.room ≡ into.old.room }
{
    let _windows = into.len();
    into.round_by(&coarse.plan.rounding);
    scan_blocks::<OnBothSides>(coarse, tile, is_tried, into);
}

/// Offers a share of the pairs that are likely near to each other, of so many shares. What both sides have together
/// with those of the whole profile is the same afterwards.
pub(crate) fn take_seeds(coarse: &Coarse, seeds: &Seeds, share: u32, shares: u32, into: &mut Found)
    requires share { share < shares }
    requires same { coarse.now.plan.grid.columns.now ≡ coarse.now.plan.grid.rows.now }
    requires places { length into.old.left
        ≡ windows_in (length coarse.now.plan.grid.rows.now) coarse.now.plan.grid.m }
    ensures left { merged_column into.new.left
        (matrix_profile coarse.now.plan.grid.m (series_of coarse.now.plan.grid.rows.now)).left
        ≡ merged_column into.old.left
        (matrix_profile coarse.now.plan.grid.m (series_of coarse.now.plan.grid.rows.now)).left }
    ensures right { merged_column into.new.right
        (matrix_profile coarse.now.plan.grid.m (series_of coarse.now.plan.grid.rows.now)).right
        ≡ merged_column into.old.right
        (matrix_profile coarse.now.plan.grid.m (series_of coarse.now.plan.grid.rows.now)).right }
    ensures size { length into.new.left ≡ length into.old.left }
    ensures is_value { HasColumns 2 (length into.new.left) (into.new.left ∷ into.new.right ∷ []) }
    ensures room { into.new.room ≡ into.old.room }
{
    let _windows = into.len();
    into.round_by(&coarse.plan.rounding);
    let first = excl(coarse.plan.rounding.m) as usize + 1;
    scan_seeds::<OnBothSides>(coarse, seeds, share, shares, first, into);
}

/// Room for both sides of as many windows: memory that was taken, and that nothing was written to.
#[derive(Debug, Drop)]
pub(crate) struct FoundRoom {
    left: Room,
    right: Room,
}

impl Model for FoundRoom {
    ghost use Rattle.std.specs.Prelude.{◌≡◌, ◌+◌};
    ghost use Rattle.mp_tiles.specs.Sides.{Unfilled};

    ghost Value = { Unfilled };

    ghost view = { λ room. record { places = room.left.places; room = room.left.room + room.right.room } };

    ghost invariant = { λ room. room.right.places ≡ room.left.places };
}

impl FoundRoom {
    /// Room for so many windows.
    pub(crate) fn with_capacity(alloc: Global, places: u64) -> Result<FoundRoom, Memory>
        ensures { IfOk result (λ room. room.places ≡ places) }
    {
        Ok(FoundRoom {
            left: Room::with_capacity(alloc, places)?,
            right: Room::with_capacity(alloc, places)?,
        })
    }

    /// For how many windows it is.
    pub(crate) fn places(&self) -> u64
        ensures { result ≡ self.now.places }
    {
        self.left.places()
    }

    /// Both sides of these windows, with none found for any. It takes no memory.
    pub(crate) fn fill(self) -> Found
        ensures left { result.left ≡ empty_column self.places }
        ensures right { result.right ≡ empty_column self.places }
        ensures room { result.room ≡ self.room }
    {
        Found {
            left: self.left.fill(),
            right: self.right.fill(),
        }
    }

    /// Both sides of these windows, with what was found by another one. It takes no memory.
    pub(crate) fn fill_from(self, other: &Found) -> Found
        requires { length other.now.left ≡ self.places }
        ensures left { result.left ≡ other.now.left }
        ensures right { result.right ≡ other.now.right }
        ensures room { result.room ≡ self.room }
    {
        Found {
            left: self.left.fill_from(&other.left),
            right: self.right.fill_from(&other.right),
        }
    }
}

impl Offers for OnBothSides {
    type Into = Found;

    ghost least = { 1 };

    ghost fits = { fits_sides };

    ghost may_offer = { may_sides };

    ghost is_scanned = { is_scanned_sides };

    ghost laws = { on_both_sides };

    ghost keeps_row = { keeps_row_sides };

    ghost keeps_column = { keeps_column_sides };

    ghost limits = { side_limits };

    #[inline]
    fn offer(into: &mut Found, row: u64, column: u64, dist: Sq) {
        into.offer(row, column, dist);
    }

    #[inline]
    fn may_give(into: &Found, row: u64, column: u64, dist: Sq) -> bool {
        into.may_take(row, column, dist)
    }

    #[inline]
    fn row_limit(into: &Found, row: u64, first: u64) -> Limit {
        into.right.limit(row, first)
    }

    #[inline]
    fn column_limit(into: &Found, column: u64, first: u64) -> Limit {
        into.left.limit(column, first)
    }

    #[inline]
    fn row_bound(into: &Found, rounding: &Rounding, row: u64, first: u64) -> i32 {
        into.right.bound(rounding, row, first)
    }

    #[inline]
    fn column_bound(into: &Found, rounding: &Rounding, column: u64, first: u64) -> i32 {
        into.left.bound(rounding, column, first)
    }

    fn fill_row_bounds(
        into: &Found,
        rounding: &Rounding,
        row: u64,
        firsts: Firsts,
        free: &[bool],
        bounds: &mut [i32],
    ) {
        into.right.fill_bounds(rounding, row, firsts, free, bounds);
    }

    fn fill_column_bounds(
        into: &Found,
        rounding: &Rounding,
        column: u64,
        firsts: Firsts,
        free: &[bool],
        bounds: &mut [i32],
    ) {
        into.left
            .fill_bounds(rounding, column, firsts, free, bounds);
    }
}
