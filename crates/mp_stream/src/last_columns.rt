//! The nearest windows of the last windows of a series.

ghost use Rattle.std.specs.Prelude.{◌≡◌, ◌≢◌, ◌+◌, ◌-◌, ◌^◌, ◌<◌, ◌≤◌, nat_lt, if◌then◌else◌, [], ◌∷◌, ◌++◌};
ghost use Rattle.std.specs.Prelude.{length, drop, min};
ghost use Rattle.std.specs.Prelude.{IsOk, OnOk, None};
ghost use Rattle.mp_partial.specs.Values.{offered};
ghost use Rattle.mp_stream.specs.Last.{last_room};

use crate::queues::Queue;
use mp_nums::{Memory, Near, Slot, Sq, nearer};
use std::alloc::Global;

/// For each of the last windows of a series the nearest of those that start earlier, and of those that start later. The
/// first of them has a number, by which the others are named too.
#[derive(Debug, Drop)]
pub(crate) struct LastColumns {
    pub(crate) left: Queue<Slot>,
    pub(crate) right: Queue<Slot>,
    pub(crate) first: u64,
}

/// Keeps the nearer of what stands at place `i` and of what was found.
#[inline]
fn offer_at(slots: &mut [Slot], i: usize, found: Near)
    requires { i < length slots.old }
    ensures { slots.new ≡ offered slots.old i found }
{
    slots[i] = nearer(slots[i], Some(found));
}

impl LastColumns {
    /// No windows.
    pub(crate) fn new(alloc: Global) -> LastColumns
        ensures left { result.left.items ≡ [] }
        ensures right { result.right.items ≡ [] }
        ensures first { result.first ≡ 0 }
    {
        LastColumns {
            left: Queue::new(alloc),
            right: Queue::new(alloc),
            first: 0,
        }
    }

    /// The window at place `j` is found at this distance from that at place `i`.
    #[inline]
    pub(crate) fn offer(&mut self, i: u64, j: u64, dist: Sq)
        requires left { i < length self.old.left.items }
        requires right { i < length self.old.right.items }
        requires number { self.old.first + j < 2 ^ 64 }
        requires apart { i ≢ j }
        ensures left { self.new.left.items ≡ (if nat_lt j i then offered self.old.left.items i
            (record { dist = dist; index = self.old.first + j }) else self.old.left.items) }
        ensures right { self.new.right.items ≡ (if nat_lt i j then offered self.old.right.items i
            (record { dist = dist; index = self.old.first + j }) else self.old.right.items) }
        ensures left_spare { self.new.left.spare ≡ self.old.left.spare }
        ensures right_spare { self.new.right.spare ≡ self.old.right.spare }
        ensures first { self.new.first ≡ self.old.first }
    {
        let found = Near {
            dist,
            index: self.first + j,
        };
        if j < i {
            offer_at(self.left.as_mut_slice(), i as usize, found);
        } else {
            offer_at(self.right.as_mut_slice(), i as usize, found);
        }
    }

    /// Makes room for `k` more windows.
    pub(crate) fn reserve(&mut self, k: u64) -> Result<(), Memory>
        ensures ok { OnOk result (k ≤ last_room self.new) }
        ensures left { self.new.left.items ≡ self.old.left.items }
        ensures right { self.new.right.items ≡ self.old.right.items }
        ensures first { self.new.first ≡ self.old.first }
        ensures room { last_room self.old ≤ last_room self.new }
        ensures succeeds { k ≤ last_room self.old → IsOk result }
    {
        self.left.reserve(k)?;
        self.right.reserve(k)
    }

    /// How many windows can be added without memory.
    pub(crate) fn room(&self) -> u64
        ensures { result ≡ last_room self.now }
    {
        self.left.spare().min(self.right.spare())
    }

    /// Adds a window that was not compared with any.
    pub(crate) fn grow(&mut self)
        requires { 0 < last_room self.old }
        ensures left { self.new.left.items ≡ self.old.left.items ++ None ∷ [] }
        ensures right { self.new.right.items ≡ self.old.right.items ++ None ∷ [] }
        ensures first { self.new.first ≡ self.old.first }
        ensures room { last_room self.old ≤ last_room self.new + 1 }
    {
        self.left.push(None).unwrap();
        self.right.push(None).unwrap();
    }

    /// Drops the first window. What names it elsewhere stays.
    pub(crate) fn drop_first(&mut self)
        requires left { 0 < length self.old.left.items }
        requires right { 0 < length self.old.right.items }
        requires number { self.old.first + 1 < 2 ^ 64 }
        ensures left { self.new.left.items ≡ drop 1 self.old.left.items }
        ensures right { self.new.right.items ≡ drop 1 self.old.right.items }
        ensures first { self.new.first ≡ self.old.first + 1 }
        ensures room { last_room self.new ≡ last_room self.old + 1 }
    {
        self.left.drop_first();
        self.right.drop_first();
        self.first += 1;
    }
}
