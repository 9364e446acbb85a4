//! Lists of which the first items are dropped, and the others stand side by side.

ghost use Rattle.std.specs.Prelude.{◌≡◌, ◌+◌, ◌-◌, ◌^◌, ◌<◌, ◌≤◌, [], ◌∷◌, ◌++◌, length, drop, IfOk};
ghost use Rattle.std.specs.Prelude.{vec_len, vec_capacity};
ghost use Rattle.circular_buffer.specs.Buffer.{buffer};

use mp_nums::Memory;
use std::alloc::Global;
use std::marker::Model;

/// A list, seen as the items that weren't dropped and how many there may be. Dropped ones are passed over where they
/// stand, until their places are needed: then the others move to the front. There are places for a sixteenth more of
/// them, so that an append moves no more than sixteen on average.
#[derive(Debug, Drop)]
pub struct Sliding<T> {
    stored: Vec<T>,
    start: usize,
    capacity: usize,
}

impl<T> Model for Sliding<T> {
    ghost use Rattle.std.specs.Prelude.{drop, vec_len, vec_capacity};
    ghost use Rattle.circular_buffer.specs.Buffer.{Buffer, buffer, buffer_code};
    ghost use Rattle.mp_series.specs.HeldSamples.{IsSliding};

    ghost Value = { Buffer T };

    ghost coded = { buffer_code T.code };

    ghost view = { λ s. buffer (drop s.start s.stored.items) s.capacity };

    ghost invariant = { λ s. IsSliding s.start (vec_len s.stored) s.capacity (vec_capacity s.stored) };
}

/// Removes the first `count` items.
fn remove_front<T: Copy + Drop>(items: &mut Vec<T>, count: usize)
    requires { count ≤ vec_len items.old }
    ensures items { items.new.items ≡ drop count items.old.items }
    ensures len { vec_len items.new ≡ vec_len items.old - count }
    ensures capacity { vec_capacity items.new ≡ vec_capacity items.old }
{
    let len = items.len();
    items.as_mut_slice().copy_within(count..len, 0);
    items.truncate(len - count);
}

impl<T> Sliding<T> {
    /// No items, with room for `capacity`.
    pub fn new(alloc: Global, capacity: usize) -> Result<Self, Memory>
        requires { capacity < 2 ^ 32 }
        ensures { IfOk result (λ list. list ≡ buffer [] capacity) }
    {
        Ok(Sliding {
            stored: Vec::with_capacity(alloc, capacity + capacity / 16 + 1)?,
            start: 0,
            capacity,
        })
    }

    /// Drops the first item.
    pub fn drop_first(&mut self)
        requires { 0 < length self.old.items }
        ensures { self.new ≡ buffer (drop 1 self.old.items) self.old.capacity }
    {
        self.start += 1;
    }

    /// Appends an item, for which there is room.
    pub fn append(&mut self, item: T)
    where
        T: Copy + Drop,
        requires { length self.old.items < self.old.capacity }
        ensures { self.new ≡ buffer (self.old.items ++ item ∷ []) self.old.capacity }
    {
        if self.stored.len() == self.stored.capacity() {
            remove_front(&mut self.stored, self.start);
            self.start = 0;
        }
        self.stored.push(item).unwrap();
    }

    /// The items, in their order.
    #[inline]
    pub fn as_slice(&self) -> &[T]
        ensures { result.now ≡ self.now.items }
    {
        &self.stored.as_slice()[self.start..]
    }
}
