//! Slots in one number each.

ghost use Rattle.std.specs.Prelude.{◌≡◌, ◌+◌, ◌-◌, ◌^◌, ◌<◌, ◌≤◌, [], length, slice_index_or, Some, None};
ghost use Rattle.std.specs.Prelude.{vec_capacity};
ghost use Rattle.mp_series.specs.declared.limits.TheConstants.{MAX_SAMPLES};
ghost use Rattle.mp_partial.specs.Values.{empty_column};
ghost use Rattle.mp_tiles.specs.Compact.{slot_of_word};

use mp_nums::{Near, Slot, Sq};
use mp_series::MAX_SAMPLES;
use std::marker::Model;

/// The number that stands for no window, and comes after those of all windows.
const NO_WINDOW: u128 = u128::MAX;

/// The word that tells no window.
pub const NO_WORD: u64 = u64::MAX;

/// A slot in one number, since the scan loads slots for each row and each column of a block: the distance of the window
/// times the most samples that a series has, and its start. So of two windows the one with the lesser number is nearer,
/// or as near and starts first.
#[derive(Clone, Copy, Debug)]
pub struct Compact {
    number: u128,
}

impl Model for Compact {
    ghost use Rattle.std.specs.Prelude.{Option};
    ghost use Rattle.mp_nums.specs.declared.nearest.Near.{Near};
    ghost use Rattle.mp_tiles.specs.Compact.{slot_by, number_of, number_back};

    ghost Value = { Option Near };

    ghost view = { λ compact. slot_by compact.number };

    ghost inverse = { λ slot. record { number = number_of slot } };

    ghost inverse_ok = { λ compact _ i. record { number = number_back compact.number i } };
}

impl Compact {
    ghost use Rattle.std.specs.Prelude.{Some, true, false};
    ghost use Rattle.mp_nums.specs.Near.{nearer_of};
    ghost use Rattle.mp_tiles.specs.Compact.{slot_before, slot_of_word, IsWordOf};

    /// No window.
    #[inline]
    pub fn none() -> Compact
        ensures { result ≡ None }
    {
        Compact { number: NO_WINDOW }
    }

    /// A window.
    #[inline]
    pub fn of(near: Near) -> Compact
        requires start { near.index < MAX_SAMPLES }
        requires small { near.dist.0 + 1 < 2 ^ 110 }
        ensures { result ≡ Some near }
    {
        Compact {
            number: near.dist.0 * u128::from(MAX_SAMPLES) + u128::from(near.index),
        }
    }

    /// What stands there.
    #[inline]
    pub fn slot(&self) -> Slot
        ensures { result ≡ self.now }
    {
        if self.number == NO_WINDOW {
            None
        } else {
            let most = u128::from(MAX_SAMPLES);
            Some(Near {
                dist: Sq(self.number / most),
                index: (self.number % most) as u64,
            })
        }
    }

    /// The slot in a word that threads share, where it fits one. The greatest word tells nothing.
    #[inline]
    pub fn word(&self) -> u64
        ensures { IsWordOf self.now result }
    {
        if self.number < u128::from(NO_WORD) {
            self.number as u64
        } else {
            NO_WORD
        }
    }

    /// The slot that a word tells.
    #[inline]
    pub fn of_word(word: u64) -> Compact
        ensures { result ≡ slot_of_word word }
    {
        if word == NO_WORD {
            Compact::none()
        } else {
            Compact {
                number: u128::from(word),
            }
        }
    }

    /// Whether a word may tell a window that comes before what stands there.
    #[inline]
    pub fn may_take(&self, word: u64) -> bool
        ensures { result ≡ false → nearer_of self.now (slot_of_word word) ≡ self.now }
    {
        u128::from(word) < self.number
    }

    /// The same slot once more.
    #[inline]
    pub(crate) fn copy(&self) -> Compact
        ensures { result ≡ self.now }
    {
        Compact {
            number: self.number,
        }
    }

    /// Whether it is the lesser of this slot and another one, and not the same.
    #[inline]
    pub fn comes_before(&self, other: &Compact) -> bool
        ensures order { result ≡ slot_before self.now other.now }
        ensures before { result ≡ true → nearer_of other.now self.now ≡ self.now }
        ensures behind { result ≡ false → nearer_of other.now self.now ≡ other.now }
    {
        self.number < other.number
    }
}

/// The word that tells a window, at a distance that fits one.
#[inline]
pub fn word_of(near: Near) -> u64
    requires start { near.index < MAX_SAMPLES }
    requires short { near.dist.0 < 2 ^ 46 - 1 }
    ensures { slot_of_word result ≡ Some near }
{
    near.dist.0 as u64 * MAX_SAMPLES + near.index
}

/// Puts no window at each of so many places of a list that has room for them. It takes no memory.
pub(crate) fn fill_with_none(slots: &mut Vec<Compact>, places: u64)
    requires no_place { slots.old.items ≡ [] }
    requires room { places ≤ vec_capacity slots.old }
    ensures slots { slots.new.items ≡ empty_column places }
    ensures room { vec_capacity slots.new ≡ vec_capacity slots.old }
{
    for _ in 0..places {
        slots.push_reserved(Compact::none());
    }
}

/// Puts the same slots into a list of none that has room for them. It takes no memory.
pub(crate) fn fill_with_copies(slots: &mut Vec<Compact>, others: &[Compact])
    requires no_place { slots.old.items ≡ [] }
    requires room { length others.now ≤ vec_capacity slots.old }
    ensures slots { slots.new.items ≡ others.now }
    ensures room { vec_capacity slots.new ≡ vec_capacity slots.old }
{
    for k in 0..others.len() {
        slots.push_reserved(others[k].copy());
    }
}

/// What stands at a place.
#[inline]
pub(crate) fn slot_at(slots: &[Compact], place: usize) -> Slot
    requires { place < length slots.now }
    ensures { result ≡ slice_index_or slots.now place None }
{
    slots[place].slot()
}
