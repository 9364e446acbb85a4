//! Arcs that change one at a time.

ghost use Rattle.std.specs.Prelude.{◌≡◌, ◌+◌, ◌<◌, ◌≤◌, ◌↔◌, [], ◌∷◌, ◌++◌, length, slice_get, slice_set, IsOk, OnOk};
ghost use Rattle.std.specs.Prelude.{IfOk, IfSome};
ghost use Rattle.std.specs.Prelude.{IsTrue, None, Some};
ghost use Rattle.mp_series.specs.declared.limits.TheConstants.{MAX_SAMPLES};
ghost use Rattle.mp_results.specs.Arcs.{arcs_of};

use crate::ends;
use mp_nums::{Items, Memory, Places};
use mp_series::MAX_SAMPLES;
use std::alloc::Global;
use std::marker::Model;

/// For each window the one that it names, or none, from which the arcs over each place are counted at any time.
///
/// A change of one window takes the same time however many there are.
#[derive(Debug, Drop)]
pub struct ArcBoard {
    alloc: Global,
    indices: Items<Option<u64>>,
    begun: Items<u32>,
    ended: Items<u32>,
}

impl Model for ArcBoard {
    ghost use Rattle.std.specs.Prelude.{ℕ, min, Option};
    ghost use Rattle.mp_nums.specs.Listed.{Listed};
    ghost use Rattle.mp_arcs.specs.Board.{AreEnds};

    ghost Value = { Listed (Option ℕ) };

    ghost view = { λ a. record {
      items = a.indices.items;
      spare = min a.indices.spare (min a.begun.spare a.ended.spare);
    } };

    ghost invariant = { λ a. AreEnds a.indices.items a.begun.items a.ended.items };
}

impl ArcBoard {
    /// No windows. It takes no memory.
    pub fn new(alloc: Global) -> ArcBoard
        ensures { result.items ≡ [] }
    {
        ArcBoard {
            alloc,
            indices: Items::new(alloc),
            begun: Items::new(alloc),
            ended: Items::new(alloc),
        }
    }

    /// Makes room for `k` more windows.
    pub fn reserve(&mut self, k: u64) -> Result<(), Memory>
        ensures ok { OnOk result (k ≤ self.new.spare) }
        ensures items { self.new.items ≡ self.old.items }
        ensures spare { self.old.spare ≤ self.new.spare }
        ensures succeeds { k ≤ self.old.spare → IsOk result }
    {
        self.indices.reserve(k)?;
        self.begun.reserve(k)?;
        self.ended.reserve(k)?;
        Ok(())
    }

    /// Adds a window that names none.
    pub fn grow(&mut self)
        requires room { 0 < self.old.spare }
        requires few { length self.old.items < MAX_SAMPLES }
        ensures items { self.new.items ≡ self.old.items ++ None ∷ [] }
        ensures spare { self.old.spare ≤ self.new.spare + 1 }
    {
        self.indices.push(None).unwrap();
        self.begun.push(0).unwrap();
        self.ended.push(0).unwrap();
    }

    /// Which window `i` names, if any.
    #[inline]
    pub fn get(&self, i: u64) -> Option<u64>
        requires window { i < length self.now.items }
        ensures named { slice_get self.now.items i ≡ Some result }
    {
        self.indices.as_slice()[i as usize]
    }

    /// Window `i` names another one, or none. It takes no memory.
    pub fn change(&mut self, i: u64, new: Option<u64>)
        requires window { i < length self.old.items }
        requires named { IfSome new (λ j. j < length self.old.items) }
        ensures items { self.new.items ≡ slice_set self.old.items i new }
        ensures spare { self.new.spare ≡ self.old.spare }
    {
        ends::change(
            self.indices.as_mut_slice(),
            self.begun.as_mut_slice(),
            self.ended.as_mut_slice(),
            i as usize,
            new,
        );
    }

    /// How many arcs pass over each place.
    pub fn counts(&self) -> Result<Places, Memory>
        ensures { IfOk result (λ counts. counts.items ≡ arcs_of self.now.items) }
    {
        ends::counts(self.alloc, self.begun.as_slice(), self.ended.as_slice())
    }

    /// How many windows can be added without memory.
    pub fn spare(&self) -> u64
        ensures { result ≡ self.now.spare }
    {
        self.indices
            .spare()
            .min(self.begun.spare().min(self.ended.spare()))
    }

    /// The number of windows.
    pub fn len(&self) -> u64
        ensures { result ≡ length self.now.items }
    {
        self.indices.as_slice().len() as u64
    }

    pub fn is_empty(&self) -> bool
        ensures { IsTrue result ↔ (length self.now.items ≡ 0) }
    {
        self.len() == 0
    }
}
