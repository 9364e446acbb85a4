//! The nearest windows on both sides.

ghost use Rattle.std.specs.Prelude.{◌≡◌, ◌+◌, ◌<◌, ◌≤◌, [], ◌∷◌, length, slice_index_or, None};
ghost use Rattle.mp_defs.specs.Series.{series_of};
ghost use Rattle.mp_defs.specs.Window.{windows as windows_in, excl as zone};
ghost use Rattle.mp_defs.specs.Profile.{matrix_profile};
ghost use Rattle.mp_partial.specs.Values.{HasColumns, empty_column, empty_columns, merged_column, merged_columns};
ghost use Rattle.mp_partial.specs.MergeLaws.{columns_merge};
ghost use Rattle.mp_cuts.specs.Pairs.{has_pair, IsTileBetween};
ghost use Rattle.mp_tiles.specs.Among.{profile_among};
ghost use Rattle.mp_tiles.specs.Compact.{IsWordOf, slot_of_word};
ghost use Rattle.mp_tiles.specs.Scanning.{taken};
ghost use Rattle.mp_tiles.specs.Sides.{sides_by};
ghost use Rattle.mp_tiles.specs.Pieces.{sides_value};

use crate::compact::NO_WORD;
use crate::found::{Found, FoundRoom, take_by_sums, take_seeds, take_tile};
use mp_cuts::Tile;
use mp_nums::{Memory, Slots};
use mp_partial::{Part, Profile};
use mp_scans::Plan;
use mp_skips::{Coarse, Seeds};
use std::alloc::Global;
use std::marker::Model;

/// For each window, by its start, the nearest of the windows that start earlier, and the nearest of those that start
/// later. A window takes 40 bytes.
///
/// All memory is taken when it is made, and first written to when something may be found: memory costs most where it is
/// used for the first time, and workers that each fill their own do so side by side.
#[derive(Debug, Drop)]
pub struct Sides {
    /// The room, until it is filled. So long `found` is of no windows, and stands for nothing.
    room: Option<FoundRoom>,
    found: Found,
}

impl Model for Sides {
    ghost use Rattle.mp_tiles.specs.Sides.{Sided, sides_by, IsApart};

    ghost Value = { Sided };

    ghost view = { λ sides. sides_by sides.room sides.found };

    ghost invariant = { λ sides. IsApart sides.room sides.found };
}

/// Fills the room, unless it is filled. It takes no memory.
fn fill(room: &mut Option<FoundRoom>, found: &mut Found)
    ensures room { room.new ≡ None }
    ensures found { found.new ≡ sides_by room.old found.old }
{
    // mostly it is filled, and then nothing is moved
    if room.is_none() {
        return;
    }
    if let Some(room) = room.take() {
        *found = room.fill();
    }
}

/// Puts none into a column of no windows for each of so many, for which it has room. It takes no memory.
fn put_none(places: u64, column: &mut Slots)
    requires no_window { column.old.items ≡ [] }
    requires spare { places ≤ column.old.spare }
    ensures { column.new.items ≡ empty_column places }
{
    for _ in 0..places {
        column.push(None).unwrap();
    }
}

impl Sides {
    /// The number of windows.
    fn len(&self) -> u64
        ensures left { result ≡ length self.now.left }
        ensures right { result ≡ length self.now.right }
    {
        match &self.room {
            Some(room) => room.places(),
            None => self.found.len(),
        }
    }

    /// Merges both sides of the profile of a tile's pairs into what was found.
    pub(crate) fn take_tile(&mut self, plan: &Plan, tile: &Tile)
        requires same { plan.now.grid.columns.now ≡ plan.now.grid.rows.now }
        requires tile { IsTileBetween (zone plan.now.grid.m + 1)
            (windows_in (length plan.now.grid.rows.now) plan.now.grid.m)
            (windows_in (length plan.now.grid.rows.now) plan.now.grid.m) tile.now }
        requires places { length self.old.left ≡ windows_in (length plan.now.grid.rows.now) plan.now.grid.m }
        ensures value { self.new.left ∷ self.new.right ∷ []
            ≡ merged_columns (self.old.left ∷ self.old.right ∷ [])
            (sides_value (profile_among (has_pair 0 tile.now) plan.now.grid.m (series_of plan.now.grid.rows.now))) }
        ensures size { length self.new.left ≡ length self.old.left }
        ensures is_value { HasColumns 2 (length self.new.left) (self.new.left ∷ self.new.right ∷ []) }
        ensures room { self.new.room ≡ self.old.room }
    {
        fill(&mut self.room, &mut self.found);
        take_tile(plan, tile, &mut self.found);
    }

    /// The same in coarse sums.
    pub(crate) fn take_by_sums(&mut self, coarse: &Coarse, tile: &Tile, is_tried: bool)
        requires same { coarse.now.plan.grid.columns.now ≡ coarse.now.plan.grid.rows.now }
        requires tile { IsTileBetween (zone coarse.now.plan.grid.m + 1)
            (windows_in (length coarse.now.plan.grid.rows.now) coarse.now.plan.grid.m)
            (windows_in (length coarse.now.plan.grid.rows.now) coarse.now.plan.grid.m) tile.now }
        requires places { length self.old.left
            ≡ windows_in (length coarse.now.plan.grid.rows.now) coarse.now.plan.grid.m }
        ensures value { self.new.left ∷ self.new.right ∷ []
            ≡ merged_columns (self.old.left ∷ self.old.right ∷ [])
            (sides_value (profile_among (has_pair 0 tile.now) coarse.now.plan.grid.m
            (series_of coarse.now.plan.grid.rows.now))) }
        ensures size { length self.new.left ≡ length self.old.left }
        ensures is_value { HasColumns 2 (length self.new.left) (self.new.left ∷ self.new.right ∷ []) }
        ensures room { self.new.room ≡ self.old.room }
    {
        fill(&mut self.room, &mut self.found);
        take_by_sums(coarse, tile, is_tried, &mut self.found);
    }

    /// Offers a share of the pairs that are likely near to each other, of so many shares. What both sides have together
    /// with those of the whole profile is the same afterwards.
    pub(crate) fn take_seeds(&mut self, coarse: &Coarse, seeds: &Seeds, share: u32, shares: u32)
        requires share { share < shares }
        requires same { coarse.now.plan.grid.columns.now ≡ coarse.now.plan.grid.rows.now }
        requires places { length self.old.left
            ≡ windows_in (length coarse.now.plan.grid.rows.now) coarse.now.plan.grid.m }
        ensures left { merged_column self.new.left
            (matrix_profile coarse.now.plan.grid.m (series_of coarse.now.plan.grid.rows.now)).left
            ≡ merged_column self.old.left
            (matrix_profile coarse.now.plan.grid.m (series_of coarse.now.plan.grid.rows.now)).left }
        ensures right { merged_column self.new.right
            (matrix_profile coarse.now.plan.grid.m (series_of coarse.now.plan.grid.rows.now)).right
            ≡ merged_column self.old.right
            (matrix_profile coarse.now.plan.grid.m (series_of coarse.now.plan.grid.rows.now)).right }
        ensures size { length self.new.left ≡ length self.old.left }
        ensures is_value { HasColumns 2 (length self.new.left) (self.new.left ∷ self.new.right ∷ []) }
        ensures room { self.new.room ≡ self.old.room }
    {
        fill(&mut self.room, &mut self.found);
        take_seeds(coarse, seeds, share, shares, &mut self.found);
    }

    /// Takes for a window the one before it that a word tells, where that is nearer. It takes no memory.
    #[inline]
    pub fn take_left(&mut self, place: u64, word: u64)
        requires { place < length self.old.left }
        ensures left { self.new.left ≡ taken self.old.left place (slot_of_word word) }
        ensures right { self.new.right ≡ self.old.right }
        ensures room { self.new.room ≡ self.old.room }
    {
        fill(&mut self.room, &mut self.found);
        self.found.take_left(place as usize, word);
    }

    /// Takes for a window the one behind it that a word tells, where that is nearer. It takes no memory.
    #[inline]
    pub fn take_right(&mut self, place: u64, word: u64)
        requires { place < length self.old.left }
        ensures left { self.new.left ≡ self.old.left }
        ensures right { self.new.right ≡ taken self.old.right place (slot_of_word word) }
        ensures room { self.new.room ≡ self.old.room }
    {
        fill(&mut self.room, &mut self.found);
        self.found.take_right(place as usize, word);
    }

    /// What was found for a window before it, in a word that threads may share.
    #[inline]
    pub fn left_word(&self, place: u64) -> u64
        requires { place < length self.now.left }
        ensures { IsWordOf (slice_index_or self.now.left place None) result }
    {
        match &self.room {
            Some(_) => NO_WORD,
            None => self.found.left_word(place as usize),
        }
    }

    /// What was found for a window behind it, in a word that threads may share.
    #[inline]
    pub fn right_word(&self, place: u64) -> u64
        requires { place < length self.now.left }
        ensures { IsWordOf (slice_index_or self.now.right place None) result }
    {
        match &self.room {
            Some(_) => NO_WORD,
            None => self.found.right_word(place as usize),
        }
    }

    /// Puts what was found on the left into a column of no windows, which has room for it. It takes no memory.
    pub fn put_left(&self, column: &mut Slots)
        requires no_window { column.old.items ≡ [] }
        requires spare { length self.now.left ≤ column.old.spare }
        ensures { column.new.items ≡ self.now.left }
    {
        match &self.room {
            Some(room) => put_none(room.places(), column),
            None => self.found.put_left(column),
        }
    }

    /// Puts what was found on the right into a column of no windows, which has room for it. It takes no memory.
    pub fn put_right(&self, column: &mut Slots)
        requires no_window { column.old.items ≡ [] }
        requires spare { length self.now.left ≤ column.old.spare }
        ensures { column.new.items ≡ self.now.right }
    {
        match &self.room {
            Some(room) => put_none(room.places(), column),
            None => self.found.put_right(column),
        }
    }

    /// Puts the nearer window of both sides at each place into a column of no windows, which has room for it. It takes
    /// no memory.
    pub fn put_nearer(&self, column: &mut Slots)
        requires no_window { column.old.items ≡ [] }
        requires spare { length self.now.left ≤ column.old.spare }
        ensures { column.new.items ≡ merged_column self.now.left self.now.right }
    {
        match &self.room {
            Some(room) => put_none(room.places(), column),
            None => self.found.put_nearer(column),
        }
    }

    /// The profile of what was found, in the room of a profile of no windows. It takes no memory.
    pub fn profile(&self, room: Profile) -> Profile
        requires no_window { room.all ≡ [] }
        requires no_left { room.left ≡ [] }
        requires no_right { room.right ≡ [] }
        requires spare { length self.now.left ≤ room.spare }
        ensures left { result.left ≡ self.now.left }
        ensures right { result.right ≡ self.now.right }
        ensures all { result.all ≡ merged_column self.now.left self.now.right }
    {
        let _places = self.len();
        let (mut all, mut left, mut right) = room.into_columns();
        self.put_nearer(&mut all);
        self.put_left(&mut left);
        self.put_right(&mut right);
        Profile::of(all, left, right)
    }
}

impl Part for Sides {
    ghost value = { λ sides. sides.left ∷ sides.right ∷ [] };

    ghost size_of = { λ sides. length sides.left };

    ghost room_of = { λ sides. sides.room };

    ghost is_value = { HasColumns 2 };

    ghost unit_of = { empty_columns 2 };

    ghost merged = { merged_columns };

    ghost laws = { columns_merge 2 };

    fn unit(alloc: Global, size: u64) -> Result<Self, Memory> {
        Ok(Sides {
            room: Some(FoundRoom::with_capacity(alloc, size)?),
            found: Found::new(alloc),
        })
    }

    fn size(&self) -> u64 {
        self.len()
    }

    fn clear(&mut self) {
        if self.room.is_none() {
            self.found.clear();
        }
    }

    fn merge(&mut self, other: &Self) {
        let _places = self.len();
        if other.room.is_none() {
            fill(&mut self.room, &mut self.found);
            self.found.merge(&other.found);
        }
    }

    fn take_over(&mut self, other: &Self) {
        if other.room.is_some() {
            self.clear();
        } else if let Some(room) = self.room.take() {
            self.found = room.fill_from(&other.found);
        } else {
            self.found.copy_from(&other.found);
        }
    }
}
