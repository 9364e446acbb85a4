//! The sum of the last pair of each diagonal.

ghost use Rattle.std.specs.Prelude.{◌≡◌, ℕ, ◌+◌, ◌<◌, ◌≤◌, length, slice_index, IfOk, IsOk, OnOk};
ghost use Rattle.mp_anytime.specs.Sums.{HavePlaces, IsPut, room_of, sum_in};

use mp_nums::{Items, Memory};
use std::alloc::Global;

/// The lower 64 bits of a sum are below it.
const LOWER: u128 = 1 << 64;

/// What stands for the sum of a diagonal that isn't covered: it is far from that of any near pair.
const FAR: u64 = 1 << 62;

/// For each diagonal the sum of its last pair, where it is covered: the lower 64 bits, which are all of them where the
/// samples lie close, and the upper ones.
#[derive(Debug, Drop)]
pub(crate) struct Sums {
    pub(crate) lower: Items<u64>,
    pub(crate) upper: Items<u64>,
}

/// So many numbers that are the same.
pub(crate) fn filled(alloc: Global, number: u64, count: u64) -> Result<Items<u64>, Memory>
    ensures { IfOk result (λ list. length list.items ≡ count) }
{
    Ok(Items::from(vec![in alloc; number; count as usize]?))
}

impl Sums {
    /// Those of so many diagonals, none of which is covered.
    pub(crate) fn of(alloc: Global, count: u64) -> Result<Sums, Memory>
        ensures { IfOk result (HavePlaces count) }
    {
        Ok(Sums {
            lower: filled(alloc, FAR, count)?,
            upper: filled(alloc, 0, count)?,
        })
    }

    /// Makes room for `k` more diagonals.
    pub(crate) fn reserve(&mut self, k: u64) -> Result<(), Memory>
        ensures ok { OnOk result (k ≤ room_of self.new) }
        ensures lower { self.new.lower.items ≡ self.old.lower.items }
        ensures upper { self.new.upper.items ≡ self.old.upper.items }
        ensures room { room_of self.old ≤ room_of self.new }
        ensures succeeds { k ≤ room_of self.old → IsOk result }
    {
        self.lower.reserve(k)?;
        self.upper.reserve(k)
    }

    /// For how many more diagonals there is room.
    pub(crate) fn room(&self) -> u64
        ensures { result ≡ room_of self.now }
    {
        self.lower.spare().min(self.upper.spare())
    }

    /// Adds a diagonal, which isn't covered.
    pub(crate) fn grow(&mut self)
        requires { 0 < room_of self.old }
        ensures places { (count : ℕ) → HavePlaces count self.old → HavePlaces (count + 1) self.new }
        ensures sums { (d : ℕ) → d < length self.old.lower.items → d < length self.old.upper.items
            → sum_in self.new d ≡ sum_in self.old d }
        ensures room { room_of self.old ≤ room_of self.new + 1 }
    {
        self.lower.push(FAR).unwrap();
        self.upper.push(0).unwrap();
    }

    /// The sum of a diagonal.
    #[inline]
    pub(crate) fn at(&self, diagonal: usize) -> u128
        requires lower { diagonal < length self.now.lower.items }
        requires upper { diagonal < length self.now.upper.items }
        ensures { result ≡ sum_in self.now diagonal }
    {
        let lower = self.lower.as_slice()[diagonal];
        let upper = self.upper.as_slice()[diagonal];
        u128::from(upper) * LOWER + u128::from(lower)
    }

    /// Puts the sum of a diagonal.
    #[inline]
    pub(crate) fn set(&mut self, diagonal: usize, sum: u128)
        requires lower { diagonal < length self.old.lower.items }
        requires upper { diagonal < length self.old.upper.items }
        ensures put { IsPut diagonal sum self.old self.new }
        ensures room { room_of self.new ≡ room_of self.old }
    {
        self.lower.as_mut_slice()[diagonal] = (sum % LOWER) as u64;
        self.upper.as_mut_slice()[diagonal] = (sum / LOWER) as u64;
    }

    /// Puts the sum of a diagonal of which 64 bits held the sum before.
    #[inline]
    pub(crate) fn set_lower(&mut self, diagonal: usize, sum: u64)
        requires lower { diagonal < length self.old.lower.items }
        requires none { slice_index self.old.upper.items diagonal ≡ 0 }
        ensures put { IsPut diagonal sum self.old self.new }
        ensures room { room_of self.new ≡ room_of self.old }
    {
        self.lower.as_mut_slice()[diagonal] = sum;
    }
}
