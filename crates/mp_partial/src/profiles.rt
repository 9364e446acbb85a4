//! A profile of a part of the pairs of windows.

ghost use Rattle.std.specs.Prelude.{◌≡◌, ◌≢◌, ◌+◌, ◌<◌, ◌≤◌, ◌↔◌, nat_lt, if◌then◌else◌, [], ◌∷◌, ◌++◌, length};
ghost use Rattle.std.specs.Prelude.{IsOk, IfOk, IsTrue, OnOk, Some, None};
ghost use Rattle.mp_nums.specs.Near.{nearer_of};
ghost use Rattle.mp_partial.specs.Values.{HasColumns, empty_column, empty_columns, merged_columns, merged_column};
ghost use Rattle.mp_partial.specs.Values.{offered};
ghost use Rattle.mp_partial.specs.MergeLaws.{columns_merge};
ghost use Rattle.mp_partial.specs.Patching.{slots_from, placed};

use crate::columns;
use crate::parts::Part;
use crate::patches::{MAX_PATCH_COLUMNS, MAX_PATCH_ROWS, Patch};
use mp_nums::{Items, Memory, Near, Slot, Slots, Sq, nearer};
use std::alloc::Global;
use std::marker::Model;

/// For each window, by its start, the nearest of the windows that it was compared with, the nearest of those that start
/// earlier, and the nearest of those that start later.
#[derive(Debug, Drop)]
pub struct Profile {
    all: Slots,
    left: Slots,
    right: Slots,
}

impl Model for Profile {
    ghost use Rattle.std.specs.Prelude.{◌+◌, min};
    ghost use Rattle.mp_partial.specs.Profiled.{Profiled, IsProfile};

    ghost Value = { Profiled };

    ghost view = { λ p. record {
      all = p.all.items;
      left = p.left.items;
      right = p.right.items;
      spare = min p.all.spare (min p.left.spare p.right.spare);
      room = p.all.spare + p.left.spare + p.right.spare;
    } };

    ghost invariant = { λ p. IsProfile p.all.items p.left.items p.right.items };
}

impl Profile {
    /// The profile of no windows. It takes no memory.
    pub fn new(alloc: Global) -> Profile
        ensures all { result.all ≡ [] }
        ensures left { result.left ≡ [] }
        ensures right { result.right ≡ [] }
    {
        Profile {
            all: Items::new(alloc),
            left: Items::new(alloc),
            right: Items::new(alloc),
        }
    }

    /// The profile of no windows, with room for so many.
    pub fn with_capacity(alloc: Global, windows: u64) -> Result<Profile, Memory>
        ensures all { IfOk result (λ p. p.all ≡ []) }
        ensures left { IfOk result (λ p. p.left ≡ []) }
        ensures right { IfOk result (λ p. p.right ≡ []) }
        ensures spare { IfOk result (λ p. windows ≤ p.spare) }
    {
        let mut profile = Profile::new(alloc);
        profile.reserve(windows)?;
        Ok(profile)
    }

    /// The nearest windows.
    pub fn all(&self) -> &[Slot]
        ensures column { result.now ≡ self.now.all }
        ensures lesser { self.now.all ≡ merged_column self.now.left self.now.right }
    {
        self.all.as_slice()
    }

    /// The nearest of the windows that start earlier.
    pub fn left(&self) -> &[Slot]
        ensures { result.now ≡ self.now.left }
    {
        self.left.as_slice()
    }

    /// The nearest of the windows that start later.
    pub fn right(&self) -> &[Slot]
        ensures { result.now ≡ self.now.right }
    {
        self.right.as_slice()
    }

    /// The number of windows.
    pub fn len(&self) -> u64
        ensures all { result ≡ length self.now.all }
        ensures left { result ≡ length self.now.left }
        ensures right { result ≡ length self.now.right }
    {
        self.all.as_slice().len() as u64
    }

    /// Whether it is of no window.
    pub fn is_empty(&self) -> bool
        ensures { IsTrue result ↔ (length self.now.all ≡ 0) }
    {
        self.len() == 0
    }

    /// Window `j` is found at this distance from window `i`.
    #[inline]
    pub fn offer(&mut self, i: u64, j: u64, dist: Sq)
        requires i { i < length self.old.all }
        requires j { j < length self.old.all }
        requires apart { i ≢ j }
        ensures all { self.new.all ≡ offered self.old.all i (record { dist = dist; index = j }) }
        ensures left { self.new.left
            ≡ (if nat_lt j i then offered self.old.left i (record { dist = dist; index = j }) else self.old.left) }
        ensures right { self.new.right
            ≡ (if nat_lt i j then offered self.old.right i (record { dist = dist; index = j }) else self.old.right) }
        ensures spare { self.new.spare ≡ self.old.spare }
        ensures room { self.new.room ≡ self.old.room }
    {
        let found = Near { dist, index: j };
        let is_earlier = j < i;
        if is_earlier {
            columns::offer_on_side(&mut self.left, &mut self.all, i, found);
        } else {
            columns::offer_on_side(&mut self.right, &mut self.all, i, found);
        }
    }

    /// The patch goes to so many rows and columns, with what stands on the right of the rows and on the left of the
    /// columns.
    pub(crate) fn begin(
        &self,
        patch: &mut Patch,
        first_row: u64,
        rows: u64,
        first_column: u64,
        columns: u64,
    )
        requires few_rows { rows ≤ MAX_PATCH_ROWS }
        requires few_columns { columns ≤ MAX_PATCH_COLUMNS }
        requires last_row { first_row + rows ≤ length self.now.all }
        requires last_column { first_column + columns ≤ length self.now.all }
        ensures first_row { patch.new.first_row ≡ first_row }
        ensures rows { patch.new.rows ≡ slots_from self.now.right first_row rows }
        ensures first_column { patch.new.first_column ≡ first_column }
        ensures columns { patch.new.columns ≡ slots_from self.now.left first_column columns }
        ensures lesser { self.now.all ≡ merged_column self.now.left self.now.right }
    {
        let row_slots = columns::part(&self.right, first_row, rows);
        let column_slots = columns::part(&self.left, first_column, columns);
        patch.fill(first_row, row_slots, first_column, column_slots);
    }

    /// Takes over what the patch has: of the rows on the right, and of the columns on the left.
    pub(crate) fn absorb(&mut self, patch: &Patch)
        requires last_row { patch.now.first_row + length patch.now.rows ≤ length self.old.all }
        requires last_column { patch.now.first_column + length patch.now.columns ≤ length self.old.all }
        ensures right { self.new.right ≡ merged_column self.old.right
            (placed (length self.old.all) patch.now.first_row patch.now.rows) }
        ensures left { self.new.left ≡ merged_column self.old.left
            (placed (length self.old.all) patch.now.first_column patch.now.columns) }
        ensures all { self.new.all ≡ merged_column self.old.all (merged_column
            (placed (length self.old.all) patch.now.first_row patch.now.rows)
            (placed (length self.old.all) patch.now.first_column patch.now.columns)) }
        ensures lesser { self.new.all ≡ merged_column self.new.left self.new.right }
        ensures places { length self.new.all ≡ length self.old.all }
        ensures spare { self.new.spare ≡ self.old.spare }
        ensures room { self.new.room ≡ self.old.room }
    {
        let (row, rows) = (patch.first_row(), patch.rows());
        let (column, columns) = (patch.first_column(), patch.columns());
        columns::merge_side(&mut self.right, &mut self.all, row, rows);
        columns::merge_side(&mut self.left, &mut self.all, column, columns);
    }

    /// Makes room for `k` more windows.
    pub fn reserve(&mut self, k: u64) -> Result<(), Memory>
        ensures ok { OnOk result (k ≤ self.new.spare) }
        ensures all { self.new.all ≡ self.old.all }
        ensures left { self.new.left ≡ self.old.left }
        ensures right { self.new.right ≡ self.old.right }
        ensures spare { self.old.spare ≤ self.new.spare }
        ensures succeeds { k ≤ self.old.spare → IsOk result }
    {
        self.all.reserve(k)?;
        self.left.reserve(k)?;
        self.right.reserve(k)?;
        Ok(())
    }

    /// How many windows can be added without memory.
    pub fn spare(&self) -> u64
        ensures { result ≡ self.now.spare }
    {
        self.all
            .spare()
            .min(self.left.spare().min(self.right.spare()))
    }

    /// Adds a window of which these were found.
    #[inline]
    pub fn push(&mut self, left: Slot, right: Slot)
        requires { 0 < self.old.spare }
        ensures all { self.new.all ≡ self.old.all ++ nearer_of left right ∷ [] }
        ensures left { self.new.left ≡ self.old.left ++ left ∷ [] }
        ensures right { self.new.right ≡ self.old.right ++ right ∷ [] }
        ensures lesser { self.new.all ≡ merged_column self.new.left self.new.right }
        ensures spare { self.old.spare ≤ self.new.spare + 1 }
    {
        let both = nearer(left, right);
        self.all.push(both).unwrap();
        self.left.push(left).unwrap();
        self.right.push(right).unwrap();
    }

    /// The columns, of all, of the left and of the right.
    pub fn into_columns(self) -> (Slots, Slots, Slots)
        ensures all { result.0.items ≡ self.all }
        ensures left { result.1.items ≡ self.left }
        ensures right { result.2.items ≡ self.right }
        ensures all_spare { self.spare ≤ result.0.spare }
        ensures left_spare { self.spare ≤ result.1.spare }
        ensures right_spare { self.spare ≤ result.2.spare }
    {
        (self.all, self.left, self.right)
    }

    /// The profile of the columns, of which the first has the nearer window of both others at each place.
    pub fn of(all: Slots, left: Slots, right: Slots) -> Profile
        requires places { length right.items ≡ length left.items }
        requires nearer { all.items ≡ merged_column left.items right.items }
        ensures all { result.all ≡ all.items }
        ensures left { result.left ≡ left.items }
        ensures right { result.right ≡ right.items }
    {
        Profile { all, left, right }
    }

    /// Adds a window that was not compared with any.
    pub fn grow(&mut self)
        requires { 0 < self.old.spare }
        ensures all { self.new.all ≡ self.old.all ++ None ∷ [] }
        ensures left { self.new.left ≡ self.old.left ++ None ∷ [] }
        ensures right { self.new.right ≡ self.old.right ++ None ∷ [] }
        ensures spare { self.old.spare ≤ self.new.spare + 1 }
    {
        self.push(None, None);
    }
}

impl Part for Profile {
    ghost value = { λ profile. profile.all ∷ profile.left ∷ profile.right ∷ [] };

    ghost size_of = { λ profile. length profile.all };

    ghost room_of = { λ profile. profile.room };

    ghost is_value = { HasColumns 3 };

    ghost unit_of = { empty_columns 3 };

    ghost merged = { merged_columns };

    ghost laws = { columns_merge 3 };

    fn unit(alloc: Global, size: u64) -> Result<Self, Memory> {
        Ok(Profile {
            all: columns::empty(alloc, size)?,
            left: columns::empty(alloc, size)?,
            right: columns::empty(alloc, size)?,
        })
    }

    fn size(&self) -> u64 {
        self.len()
    }

    fn clear(&mut self)
        ensures all { self.new.all ≡ empty_column (length self.old.all) }
        ensures left { self.new.left ≡ empty_column (length self.old.all) }
        ensures right { self.new.right ≡ empty_column (length self.old.all) }
        ensures spare { self.new.spare ≡ self.old.spare }
        ensures room { self.new.room ≡ self.old.room }
    {
        columns::clear(&mut self.all);
        columns::clear(&mut self.left);
        columns::clear(&mut self.right);
    }

    fn merge(&mut self, other: &Self)
        requires { length other.now.all ≡ length self.old.all }
        ensures all { self.new.all ≡ merged_column self.old.all other.now.all }
        ensures left { self.new.left ≡ merged_column self.old.left other.now.left }
        ensures right { self.new.right ≡ merged_column self.old.right other.now.right }
        ensures places { HasColumns 3 (length self.old.all) (self.new.all ∷ self.new.left ∷ self.new.right ∷ []) }
        ensures spare { self.new.spare ≡ self.old.spare }
        ensures room { self.new.room ≡ self.old.room }
    {
        columns::merge(&mut self.all, &other.all);
        columns::merge(&mut self.left, &other.left);
        columns::merge(&mut self.right, &other.right);
    }
}
