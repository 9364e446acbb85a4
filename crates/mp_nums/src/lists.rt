//! Lists that keep their allocator and tell the room that they have reserved.

ghost use Rattle.std.specs.Prelude.{◌≡◌, ◌+◌, ◌<◌, ◌≤◌, [], ◌∷◌, ◌++◌, IsOk, OnOk, OnErr};

use crate::nearest::{Near, Slot, Sq};
use crate::refusal::Memory;
use std::alloc::Global;
use std::marker::Model;

/// A list, seen as its items and the number of items that it can take without memory.
#[derive(Debug, Drop)]
pub struct Items<T> {
    stored: Vec<T>,
}

/// Bytes.
pub type Text = Items<u8>;

/// A nearest window, or none, for each place.
pub type Slots = Items<Slot>;

/// Windows with their distances.
pub type NearList = Items<Near>;

/// Places, counted from 0.
pub type Places = Items<u64>;

/// A squared distance, or none, for each place.
pub type SqList = Items<Option<Sq>>;

impl<T> Model for Items<T> {
    ghost use Rattle.std.specs.Prelude.{◌-◌, vec_len, vec_capacity};
    ghost use Rattle.mp_nums.specs.Listed.{Listed};

    ghost Value = { Listed T };

    ghost view = { λ a. record { items = a.stored.items; spare = vec_capacity a.stored - vec_len a.stored } };
}

impl<T> Items<T> {
    ghost use Rattle.std.specs.Borrow.{sem};
    ghost use Rattle.mp_nums.specs.Lending.{LendsItems};

    /// The empty list. It takes no memory.
    pub fn new(alloc: Global) -> Self
        ensures items { result.items ≡ [] }
        ensures spare { result.spare ≡ 0 }
    {
        Items {
            stored: Vec::new(alloc),
        }
    }

    /// The items, in their order.
    pub fn as_slice(&self) -> &[T]
        ensures { result.now ≡ self.now.items }
    {
        self.stored.as_slice()
    }

    /// The items, to be changed in place.
    pub fn as_mut_slice(&mut self) -> &mut [T]
        ensures* writes_back { sem 𝓛 (LendsItems T.row self.entry result) }
        ensures value { result.now ≡ self.old.items }
    {
        self.stored.as_mut_slice()
    }

    /// Makes room for `k` more items.
    pub fn reserve(&mut self, k: u64) -> Result<(), Memory>
        ensures ok { OnOk result (k ≤ self.new.spare) }
        ensures items { self.new.items ≡ self.old.items }
        ensures spare { self.old.spare ≤ self.new.spare }
        ensures succeeds { k ≤ self.old.spare → IsOk result }
    {
        self.stored.reserve(k as usize)?;
        Ok(())
    }

    /// Appends the item.
    pub fn push(&mut self, item: T) -> Result<(), Memory>
    where
        T: Drop,
        ensures ok { OnOk result (self.new.items ≡ self.old.items ++ item ∷ []) }
        ensures err { OnErr result (self.new.items ≡ self.old.items) }
        ensures spare { self.old.spare ≤ self.new.spare + 1 }
        ensures succeeds { 0 < self.old.spare → IsOk result }
    {
        self.stored.push(item)?;
        Ok(())
    }

    /// How many items can be appended without memory.
    pub fn spare(&self) -> u64
        ensures { result ≡ self.now.spare }
    {
        (self.stored.capacity() - self.stored.len()) as u64
    }

    /// The vector of the items.
    pub fn into_vec(self) -> Vec<T>
        ensures { result.items ≡ self.items }
    {
        self.stored
    }
}

impl<T> From<Vec<T>> for Items<T> {
    ghost from_gives = { λ stored list. list.items ≡ stored.items };

    fn from(stored: Vec<T>) -> Items<T> {
        Items { stored }
    }
}
