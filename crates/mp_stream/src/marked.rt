//! A profile whose windows are marked by blocks where their entries change.

ghost use Rattle.std.specs.Prelude.{◌≡◌, ◌≢◌, ◌+◌, ◌/◌, ◌<◌, ◌≤◌, ℕ, nat_lt, if◌then◌else◌, [], ◌∷◌, ◌++◌, false, true};
ghost use Rattle.std.specs.Prelude.{length, slice_index_or, slice_set, IfOk, IsOk, OnOk, None};
ghost use Rattle.mp_partial.specs.Values.{merged_column, offered};
ghost use Rattle.mp_stream.specs.Blocks.{StayKnown, block_count};

use mp_nums::{Items, Memory, Slot, Sq};
use mp_partial::Profile;
use std::alloc::Global;
use std::marker::Model;

/// How many windows are marked together.
pub const BLOCK: u64 = 32;

/// A profile, and for each block of its windows whether one of them was offered a window since the marks were cleared.
#[derive(Debug, Drop)]
pub(crate) struct MarkedProfile {
    profile: Profile,
    changed: Items<bool>,
}

impl Model for MarkedProfile {
    ghost use Rattle.std.specs.Prelude.{◌≡◌, length, min, None};
    ghost use Rattle.mp_stream.specs.Blocks.{Marked, AreMarked};

    ghost Value = { Marked };

    ghost view = { λ p. record {
      all = p.profile.all;
      left = p.profile.left;
      right = p.profile.right;
      spare = min
          p.profile.spare p.changed.spare;
      changed = p.changed.items;
      first = None;
    } };

    ghost invariant = { λ p. AreMarked p.profile.all p.profile.left p.profile.right p.changed.items };
}

/// How many blocks so many windows fill.
fn count_blocks(windows: u64) -> u64
    ensures { result ≡ block_count windows }
{
    windows.div_ceil(BLOCK)
}

/// Marks the block of window `i`.
#[inline]
fn mark(changed: &mut [bool], i: u64)
    requires { i / 32 < length changed.old }
    ensures { changed.new ≡ slice_set changed.old (i / 32) true }
{
    changed[(i / BLOCK) as usize] = true;
}

/// Clears all marks.
fn clear_each(changed: &mut [bool])
    ensures none { (block : ℕ) → slice_index_or changed.new block false ≡ false }
    ensures blocks { length changed.new ≡ length changed.old }
{
    for k in 0..changed.len() {
        changed[k] = false;
    }
}

/// Begins another block where so many windows fill all blocks that there are.
fn grow_marks(changed: &mut Items<bool>, windows: u64)
    requires room { 0 < changed.old.spare }
    requires blocks { length changed.old.items ≡ block_count windows }
    ensures blocks { length changed.new.items ≡ block_count (windows + 1) }
    ensures same { (block : ℕ) → slice_index_or changed.new.items block false
        ≡ slice_index_or changed.old.items block false }
    ensures spare { changed.old.spare ≤ changed.new.spare + 1 }
{
    if windows % BLOCK == 0 {
        changed.push(false).unwrap();
    }
}

impl MarkedProfile {
    /// The profile, with no block marked.
    pub(crate) fn of(alloc: Global, profile: Profile) -> Result<MarkedProfile, Memory>
        ensures first { IfOk result (λ marked. marked.first ≡ None) }
        ensures same { IfOk result (λ marked. length marked.left ≡ length marked.right) }
        ensures all { IfOk result (λ marked. marked.all ≡ profile.all) }
        ensures left { IfOk result (λ marked. marked.left ≡ profile.left) }
        ensures right { IfOk result (λ marked. marked.right ≡ profile.right) }
        ensures unmarked { IfOk result (λ marked. (block : ℕ) → slice_index_or marked.changed block false ≡ false) }
    {
        let blocks = count_blocks(profile.len());
        let changed = Items::from(vec![in alloc; false; blocks as usize]?);
        Ok(MarkedProfile { profile, changed })
    }

    /// The profile itself.
    pub(crate) fn inner(&self) -> &Profile
        ensures all { result.now.all ≡ self.now.all }
        ensures left { result.now.left ≡ self.now.left }
        ensures right { result.now.right ≡ self.now.right }
        ensures lesser { self.now.all ≡ merged_column self.now.left self.now.right }
    {
        let _lesser = self.profile.all();
        &self.profile
    }

    /// The nearest of the windows that start earlier.
    #[inline]
    pub(crate) fn left(&self) -> &[Slot]
        ensures { result.now ≡ self.now.left }
    {
        self.profile.left()
    }

    /// The nearest of the windows that start later.
    #[inline]
    pub(crate) fn right(&self) -> &[Slot]
        ensures { result.now ≡ self.now.right }
    {
        self.profile.right()
    }

    /// For each block of windows whether it is marked.
    pub(crate) fn changed(&self) -> &[bool]
        ensures marks { result.now ≡ self.now.changed }
        ensures blocks { length result.now ≡ block_count (length self.now.right) }
    {
        self.changed.as_slice()
    }

    /// Window `j` is found at this distance from window `i`, whose block is marked.
    #[inline]
    pub(crate) fn offer(&mut self, i: u64, j: u64, dist: Sq)
        requires i { i < length self.old.right }
        requires j { j < length self.old.right }
        requires apart { i ≢ j }
        ensures left { self.new.left
            ≡ (if nat_lt j i then offered self.old.left i (record { dist = dist; index = j }) else self.old.left) }
        ensures right { self.new.right
            ≡ (if nat_lt i j then offered self.old.right i (record { dist = dist; index = j }) else self.old.right) }
        ensures spare { self.new.spare ≡ self.old.spare }
        ensures first { self.new.first ≡ self.old.first }
        ensures known { StayKnown self.old self.new }
    {
        mark(self.changed.as_mut_slice(), i);
        self.profile.offer(i, j, dist);
    }

    /// Makes room for `k` more windows. There is never less room for their blocks.
    pub(crate) fn reserve(&mut self, k: u64) -> Result<(), Memory>
        ensures ok { OnOk result (k ≤ self.new.spare) }
        ensures all { self.new.all ≡ self.old.all }
        ensures left { self.new.left ≡ self.old.left }
        ensures right { self.new.right ≡ self.old.right }
        ensures changed { self.new.changed ≡ self.old.changed }
        ensures first { self.new.first ≡ self.old.first }
        ensures spare { self.old.spare ≤ self.new.spare }
        ensures succeeds { k ≤ self.old.spare → IsOk result }
    {
        self.profile.reserve(k)?;
        self.changed.reserve(k)
    }

    /// How many windows can be added without memory.
    pub(crate) fn spare(&self) -> u64
        ensures { result ≡ self.now.spare }
    {
        self.profile.spare().min(self.changed.spare())
    }

    /// Adds a window that was not compared with any.
    pub(crate) fn grow(&mut self)
        requires { 0 < self.old.spare }
        ensures all { self.new.all ≡ self.old.all ++ None ∷ [] }
        ensures left { self.new.left ≡ self.old.left ++ None ∷ [] }
        ensures right { self.new.right ≡ self.old.right ++ None ∷ [] }
        ensures spare { self.old.spare ≤ self.new.spare + 1 }
        ensures first { self.new.first ≡ self.old.first }
        ensures known { StayKnown self.old self.new }
    {
        grow_marks(&mut self.changed, self.profile.len());
        self.profile.grow();
    }

    /// Clears all marks.
    pub(crate) fn clear(&mut self)
        ensures all { self.new.all ≡ self.old.all }
        ensures left { self.new.left ≡ self.old.left }
        ensures right { self.new.right ≡ self.old.right }
        ensures spare { self.new.spare ≡ self.old.spare }
        ensures first { self.new.first ≡ self.old.first }
        ensures changed { (block : ℕ) → slice_index_or self.new.changed block false ≡ false }
    {
        clear_each(self.changed.as_mut_slice());
    }
}
