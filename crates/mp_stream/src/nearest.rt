//! Where the nearest windows of the windows of a series are kept.

ghost use Rattle.std.specs.Prelude.{◌≡◌, ◌≢◌, ◌+◌, ◌^◌, ◌<◌, ◌≤◌, ℕ, nat_lt, if◌then◌else◌, [], ◌∷◌, ◌++◌, false};
ghost use Rattle.std.specs.Prelude.{drop, length, slice_index_or, IfOk, IsOk, IsSome, OnOk, None, Some};
ghost use Rattle.mp_partial.specs.Values.{merged_column, offered};
ghost use Rattle.mp_stream.specs.Blocks.{StayKnown, block_count, numbered};

use crate::last_columns::LastColumns;
use crate::marked::MarkedProfile;
use mp_nums::{Memory, Slot, Sq};
use mp_partial::Profile;
use std::alloc::Global;
use std::marker::Model;

/// The columns of all windows, or those of the last ones.
#[derive(Debug, Drop)]
enum Columns {
    All(MarkedProfile),
    Last(LastColumns),
}

/// The nearest windows of all windows of a series, which are marked by blocks where their entries change, or those of
/// its last windows, which have no marks. A window is offered by its place, and named by its number.
#[derive(Debug, Drop)]
pub(crate) struct Nearest {
    columns: Columns,
}

impl Model for Nearest {
    ghost use Rattle.std.specs.Prelude.{◌≡◌, length};
    ghost use Rattle.mp_stream.specs.Blocks.{Marked};
    ghost use Rattle.mp_stream.specs.Nearest.{seen_in};

    ghost Value = { Marked };

    ghost view = { λ n. seen_in n.columns };

    ghost invariant = { λ n. length (seen_in n.columns).left ≡ length (seen_in n.columns).right };
}

impl Nearest {
    /// Those of all windows, as the profile has them. No block is marked.
    pub(crate) fn of(alloc: Global, profile: Profile) -> Result<Nearest, Memory>
        ensures first { IfOk result (λ nearest. nearest.first ≡ None) }
        ensures all { IfOk result (λ nearest. nearest.all ≡ profile.all) }
        ensures left { IfOk result (λ nearest. nearest.left ≡ profile.left) }
        ensures right { IfOk result (λ nearest. nearest.right ≡ profile.right) }
        ensures unmarked { IfOk result (λ nearest. (block : ℕ) → slice_index_or nearest.changed block false ≡ false) }
    {
        let columns = Columns::All(MarkedProfile::of(alloc, profile)?);
        Ok(Nearest { columns })
    }

    /// Those of the last windows of a series that has none.
    pub(crate) fn of_last(alloc: Global) -> Nearest
        ensures first { result.first ≡ Some 0 }
        ensures left { result.left ≡ [] }
        ensures right { result.right ≡ [] }
    {
        let columns = Columns::Last(LastColumns::new(alloc));
        Nearest { columns }
    }

    /// The profile itself, where they are those of all windows.
    pub(crate) fn inner(&self) -> &Profile
        requires { self.now.first ≡ None }
        ensures all { result.now.all ≡ self.now.all }
        ensures left { result.now.left ≡ self.now.left }
        ensures right { result.now.right ≡ self.now.right }
        ensures lesser { self.now.all ≡ merged_column self.now.left self.now.right }
    {
        match &self.columns {
            Columns::All(profile) => profile.inner(),
            Columns::Last(_) => unreachable!(),
        }
    }

    /// For each block of windows whether it is marked, where they are those of all windows.
    pub(crate) fn changed(&self) -> &[bool]
        requires { self.now.first ≡ None }
        ensures marks { result.now ≡ self.now.changed }
        ensures blocks { length result.now ≡ block_count (length self.now.right) }
    {
        match &self.columns {
            Columns::All(profile) => profile.changed(),
            Columns::Last(_) => unreachable!(),
        }
    }

    /// The nearest of the windows that start earlier.
    #[inline]
    pub(crate) fn left(&self) -> &[Slot]
        ensures { result.now ≡ self.now.left }
    {
        match &self.columns {
            Columns::All(profile) => profile.left(),
            Columns::Last(columns) => columns.left.as_slice(),
        }
    }

    /// The nearest of the windows that start later.
    #[inline]
    pub(crate) fn right(&self) -> &[Slot]
        ensures { result.now ≡ self.now.right }
    {
        match &self.columns {
            Columns::All(profile) => profile.right(),
            Columns::Last(columns) => columns.right.as_slice(),
        }
    }

    /// The number of windows.
    pub(crate) fn len(&self) -> u64
        ensures right { result ≡ length self.now.right }
    {
        self.right().len() as u64
    }

    /// The window at place `j` is found at this distance from that at place `i`.
    #[inline]
    pub(crate) fn offer(&mut self, i: u64, j: u64, dist: Sq)
        requires i { i < length self.old.right }
        requires j { j < length self.old.right }
        requires number { numbered self.old.first j < 2 ^ 64 }
        requires apart { i ≢ j }
        ensures left { self.new.left ≡ (if nat_lt j i then offered self.old.left i
            (record { dist = dist; index = numbered self.old.first j }) else self.old.left) }
        ensures right { self.new.right ≡ (if nat_lt i j then offered self.old.right i
            (record { dist = dist; index = numbered self.old.first j }) else self.old.right) }
        ensures spare { self.new.spare ≡ self.old.spare }
        ensures first { self.new.first ≡ self.old.first }
        ensures known { StayKnown self.old self.new }
    {
        match &mut self.columns {
            Columns::All(profile) => profile.offer(i, j, dist),
            Columns::Last(columns) => columns.offer(i, j, dist),
        }
    }

    /// Makes room for `k` more windows.
    pub(crate) fn reserve(&mut self, k: u64) -> Result<(), Memory>
        ensures ok { OnOk result (k ≤ self.new.spare) }
        ensures all { self.new.all ≡ self.old.all }
        ensures left { self.new.left ≡ self.old.left }
        ensures right { self.new.right ≡ self.old.right }
        ensures changed { self.new.changed ≡ self.old.changed }
        ensures first { self.new.first ≡ self.old.first }
        ensures spare { self.old.spare ≤ self.new.spare }
        ensures succeeds { k ≤ self.old.spare → IsOk result }
    {
        match &mut self.columns {
            Columns::All(profile) => profile.reserve(k),
            Columns::Last(columns) => columns.reserve(k),
        }
    }

    /// How many windows can be added without memory.
    pub(crate) fn spare(&self) -> u64
        ensures { result ≡ self.now.spare }
    {
        match &self.columns {
            Columns::All(profile) => profile.spare(),
            Columns::Last(columns) => columns.room(),
        }
    }

    /// Adds a window that was not compared with any.
    pub(crate) fn grow(&mut self)
        requires { 0 < self.old.spare }
        ensures left { self.new.left ≡ self.old.left ++ None ∷ [] }
        ensures right { self.new.right ≡ self.old.right ++ None ∷ [] }
        ensures first { self.new.first ≡ self.old.first }
        ensures spare { self.old.spare ≤ self.new.spare + 1 }
        ensures known { StayKnown self.old self.new }
    {
        match &mut self.columns {
            Columns::All(profile) => profile.grow(),
            Columns::Last(columns) => columns.grow(),
        }
    }

    /// Drops the first window, where they are those of the last windows. What names it elsewhere stays.
    pub(crate) fn drop_first(&mut self)
        requires last { IsSome self.old.first }
        requires some { 0 < length self.old.right }
        requires number { numbered self.old.first 1 < 2 ^ 64 }
        ensures left { self.new.left ≡ drop 1 self.old.left }
        ensures right { self.new.right ≡ drop 1 self.old.right }
        ensures first { self.new.first ≡ Some (numbered self.old.first 1) }
        ensures spare { self.new.spare ≡ self.old.spare + 1 }
    {
        match &mut self.columns {
            Columns::All(_) => unreachable!(),
            Columns::Last(columns) => columns.drop_first(),
        }
    }

    /// Clears all marks.
    pub(crate) fn clear(&mut self)
        requires { self.old.first ≡ None }
        ensures all { self.new.all ≡ self.old.all }
        ensures left { self.new.left ≡ self.old.left }
        ensures right { self.new.right ≡ self.old.right }
        ensures spare { self.new.spare ≡ self.old.spare }
        ensures first { self.new.first ≡ self.old.first }
        ensures changed { (block : ℕ) → slice_index_or self.new.changed block false ≡ false }
    {
        match &mut self.columns {
            Columns::All(profile) => profile.clear(),
            Columns::Last(_) => unreachable!(),
        }
    }
}
