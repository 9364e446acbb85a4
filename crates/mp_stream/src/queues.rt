//! Queues whose items stand side by side.

ghost use Rattle.std.specs.Prelude.{◌≡◌, ◌+◌, ◌-◌, ◌<◌, ◌≤◌, [], ◌∷◌, ◌++◌, length, drop, IsOk, OnOk, OnErr};
ghost use Rattle.std.specs.Prelude.{vec_len, vec_capacity};

use mp_nums::Memory;
use std::alloc::Global;
use std::marker::Model;

/// A queue, seen as its items and the number of items that it can take without memory. Dropped ones are passed over
/// where they stand, until their places are needed: then the others move to the front.
#[derive(Debug, Drop)]
pub(crate) struct Queue<T> {
    stored: Vec<T>,
    start: usize,
}

impl<T> Model for Queue<T> {
    ghost use Rattle.std.specs.Prelude.{◌-◌, ◌≤◌, drop, vec_len, vec_capacity};
    ghost use Rattle.mp_nums.specs.Listed.{Listed};

    ghost Value = { Listed T };

    ghost view = { λ q. record {
      items = drop q.start q.stored.items;
      spare = vec_capacity q.stored - (vec_len q.stored - q.start);
    } };

    ghost invariant = { λ q. q.start ≤ vec_len q.stored };
}

/// Removes the first `count` items.
fn remove_front<T: Copy + Drop>(items: &mut Vec<T>, count: usize)
    requires { count ≤ vec_len items.old }
    ensures items { items.new.items ≡ drop count items.old.items }
    ensures len { vec_len items.new ≡ vec_len items.old - count }
    ensures capacity { vec_capacity items.new ≡ vec_capacity items.old }
{
    let len = items.len();
    items.as_mut_slice().copy_within(count..len, 0);
    items.truncate(len - count);
}

impl<T> Queue<T> {
    ghost use Rattle.std.specs.Borrow.{sem};
    ghost use Rattle.mp_stream.specs.Queues.{LendsQueue};

    /// The empty queue. It takes no memory.
    pub(crate) fn new(alloc: Global) -> Self
        ensures { result.items ≡ [] }
    {
        Queue {
            stored: Vec::new(alloc),
            start: 0,
        }
    }

    /// The items, in their order.
    #[inline]
    pub(crate) fn as_slice(&self) -> &[T]
        ensures { result.now ≡ self.now.items }
    {
        &self.stored.as_slice()[self.start..]
    }

    /// The items, to be changed in place.
    #[inline]
    pub(crate) fn as_mut_slice(&mut self) -> &mut [T]
        ensures* writes_back { sem 𝓛 (LendsQueue T.row self.entry result) }
        ensures value { result.now ≡ self.old.items }
    {
        self.stored.slice_mut(self.start..)
    }

    /// Makes room for `k` more items.
    pub(crate) fn reserve(&mut self, k: u64) -> Result<(), Memory>
        ensures ok { OnOk result (k ≤ self.new.spare) }
        ensures items { self.new.items ≡ self.old.items }
        ensures spare { self.old.spare ≤ self.new.spare }
        ensures succeeds { k ≤ self.old.spare → IsOk result }
    {
        if self.spare() < k {
            self.stored.reserve(k as usize)?;
        }
        Ok(())
    }

    /// Appends the item.
    pub(crate) fn push(&mut self, item: T) -> Result<(), Memory>
    where
        T: Copy + Drop,
        ensures ok { OnOk result (self.new.items ≡ self.old.items ++ item ∷ []) }
        ensures err { OnErr result (self.new.items ≡ self.old.items) }
        ensures spare { self.old.spare ≤ self.new.spare + 1 }
        ensures succeeds { 0 < self.old.spare → IsOk result }
    {
        if self.stored.len() == self.stored.capacity() {
            remove_front(&mut self.stored, self.start);
            self.start = 0;
        }
        self.stored.push(item)?;
        Ok(())
    }

    /// Drops the first item.
    pub(crate) fn drop_first(&mut self)
        requires { 0 < length self.old.items }
        ensures items { self.new.items ≡ drop 1 self.old.items }
        ensures spare { self.new.spare ≡ self.old.spare + 1 }
    {
        self.start += 1;
    }

    /// How many items can be appended without memory.
    pub(crate) fn spare(&self) -> u64
        ensures { result ≡ self.now.spare }
    {
        (self.stored.capacity() - (self.stored.len() - self.start)) as u64
    }
}

impl<T> From<Vec<T>> for Queue<T> {
    ghost from_gives = { λ stored queue. queue.items ≡ stored.items };

    fn from(stored: Vec<T>) -> Queue<T> {
        Queue { stored, start: 0 }
    }
}
