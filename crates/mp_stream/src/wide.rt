//! A row in sums of 128 bits.

ghost use Rattle.std.specs.Prelude.{◌≡◌, ◌+◌, ◌<◌, ◌≤◌, ℕ, ◌++◌, ◌∷◌, [], drop, length, slice_index, IsOk, OnOk};

use crate::queues::Queue;
use mp_nums::Memory;

/// The sums of all windows with the last one, and a list for the next row.
#[derive(Debug, Drop)]
pub(crate) struct Wide {
    pub(crate) sums: Queue<u128>,
    pub(crate) next: Queue<u128>,
}

/// Takes over sums of 64 bits.
pub(crate) fn widen_sums(narrow: &[u64], sums: &mut [u128])
    requires { length narrow.now ≡ length sums.old }
    ensures { (i : ℕ) → i < length sums.old → slice_index sums.new i ≡ slice_index narrow.now i }
{
    for i in 0..sums.len() {
        sums[i] = u128::from(narrow[i]);
    }
}

impl Wide {
    ghost use Rattle.mp_stream.specs.Streams.{wide_room};

    /// Makes room for `k` more windows.
    pub(crate) fn reserve(&mut self, k: u64) -> Result<(), Memory>
        ensures ok { OnOk result (k ≤ wide_room self.new) }
        ensures sums { self.new.sums.items ≡ self.old.sums.items }
        ensures next { self.new.next.items ≡ self.old.next.items }
        ensures room { wide_room self.old ≤ wide_room self.new }
        ensures succeeds { k ≤ wide_room self.old → IsOk result }
    {
        self.sums.reserve(k)?;
        self.next.reserve(k)
    }

    /// For how many more windows there is room.
    pub(crate) fn room(&self) -> u64
        ensures { result ≡ wide_room self.now }
    {
        self.sums.spare().min(self.next.spare())
    }

    /// Adds a window.
    pub(crate) fn grow(&mut self)
        requires { 0 < wide_room self.old }
        ensures sums { self.new.sums.items ≡ self.old.sums.items ++ 0 ∷ [] }
        ensures next { length self.new.next.items ≡ length self.old.next.items + 1 }
        ensures room { wide_room self.old ≤ wide_room self.new + 1 }
    {
        self.sums.push(0).unwrap();
        self.next.push(0).unwrap();
    }

    /// Drops the first window.
    pub(crate) fn drop_first(&mut self)
        requires sums { 0 < length self.old.sums.items }
        requires next { 0 < length self.old.next.items }
        ensures sums { self.new.sums.items ≡ drop 1 self.old.sums.items }
        ensures next { self.new.next.items ≡ drop 1 self.old.next.items }
        ensures room { wide_room self.new ≡ wide_room self.old + 1 }
    {
        self.sums.drop_first();
        self.next.drop_first();
    }
}
