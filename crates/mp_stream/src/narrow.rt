//! A row in sums of 64 bits.

ghost use Rattle.std.specs.Prelude.{◌≡◌, ◌+◌, ◌-◌, ◌^◌, ◌<◌, ◌≤◌, ℕ, ◌++◌, ◌∷◌, [], drop, length, min};
ghost use Rattle.std.specs.Prelude.{slice_index, IfOk};
ghost use Rattle.std.specs.Prelude.{IsOk, OnOk};

use crate::queues::Queue;
use mp_nums::Memory;
use std::alloc::Global;

/// The sums of all windows with the last one, and a list for the next row.
#[derive(Debug, Drop)]
pub(crate) struct Narrow {
    pub(crate) sums: Queue<u64>,
    pub(crate) next: Queue<u64>,
}

/// A sum, or the greatest number of 64 bits where it is greater.
fn saturated(sum: u128) -> u64
    ensures { result ≡ min sum (2 ^ 64 - 1) }
{
    sum.min(u128::from(u64::MAX)) as u64
}

/// The sums in 64 bits.
fn saturated_sums(alloc: Global, sums: &[u128]) -> Result<Queue<u64>, Memory>
    ensures places { IfOk result (λ row. length row.items ≡ length sums.now) }
    ensures sums { IfOk result (λ row. (i : ℕ) → i < length sums.now
        → slice_index row.items i ≡ min (slice_index sums.now i) (2 ^ 64 - 1)) }
{
    let mut row = Queue::new(alloc);
    row.reserve(sums.len() as u64)?;
    for sum in sums {
        row.push(saturated(*sum))?;
    }
    Ok(row)
}

impl Narrow {
    ghost use Rattle.mp_stream.specs.Streams.{narrow_room};

    /// The row of these sums.
    pub(crate) fn of(alloc: Global, sums: &[u128]) -> Result<Narrow, Memory>
        ensures places { IfOk result (λ narrow. length narrow.sums.items ≡ length sums.now) }
        ensures sums { IfOk result (λ narrow. (i : ℕ) → i < length sums.now
            → slice_index narrow.sums.items i ≡ min (slice_index sums.now i) (2 ^ 64 - 1)) }
        ensures next { IfOk result (λ narrow. length narrow.next.items ≡ length sums.now) }
    {
        Ok(Narrow {
            sums: saturated_sums(alloc, sums)?,
            next: Queue::from(vec![in alloc; 0; sums.len()]?),
        })
    }

    /// Makes room for `k` more windows.
    pub(crate) fn reserve(&mut self, k: u64) -> Result<(), Memory>
        ensures ok { OnOk result (k ≤ narrow_room self.new) }
        ensures sums { self.new.sums.items ≡ self.old.sums.items }
        ensures next { self.new.next.items ≡ self.old.next.items }
        ensures room { narrow_room self.old ≤ narrow_room self.new }
        ensures succeeds { k ≤ narrow_room self.old → IsOk result }
    {
        self.sums.reserve(k)?;
        self.next.reserve(k)
    }

    /// For how many more windows there is room.
    pub(crate) fn room(&self) -> u64
        ensures { result ≡ narrow_room self.now }
    {
        self.sums.spare().min(self.next.spare())
    }

    /// Adds a window.
    pub(crate) fn grow(&mut self)
        requires { 0 < narrow_room self.old }
        ensures sums { self.new.sums.items ≡ self.old.sums.items ++ 0 ∷ [] }
        ensures next { length self.new.next.items ≡ length self.old.next.items + 1 }
        ensures room { narrow_room self.old ≤ narrow_room self.new + 1 }
    {
        self.sums.push(0).unwrap();
        self.next.push(0).unwrap();
    }

    /// Drops the first window.
    pub(crate) fn drop_first(&mut self)
        requires sums { 0 < length self.old.sums.items }
        requires next { 0 < length self.old.next.items }
        ensures sums { self.new.sums.items ≡ drop 1 self.old.sums.items }
        ensures next { self.new.next.items ≡ drop 1 self.old.next.items }
        ensures room { narrow_room self.new ≡ narrow_room self.old + 1 }
    {
        self.sums.drop_first();
        self.next.drop_first();
    }
}
