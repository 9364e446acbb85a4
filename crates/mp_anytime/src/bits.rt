//! Marks of places, in a bit each.

ghost use Rattle.std.specs.Prelude.{◌≡◌, ◌≢◌, ℕ, ◌+◌, ◌*◌, ◌<◌, ◌≤◌, ◌==◌, List, Bool, true, false, IfOk, length};
ghost use Rattle.std.specs.Prelude.{slice_index_or, slice_set};
ghost use Rattle.std.specs.Int.{bit_at};
ghost use Rattle.mp_anytime.specs.Bits.{is_set, marks_in};

use mp_nums::Memory;
use std::alloc::Global;
use std::marker::Model;

/// How many places a word has.
pub(crate) const WORD: usize = 64;

/// Whether each of some places is marked, in a bit each. They are seen as a list.
#[derive(Debug, Drop)]
pub(crate) struct Bits {
    words: Vec<u64>,
}

impl Model for Bits {
    ghost Value = { List Bool };

    ghost view = { λ bits. marks_in bits.words.items };
}

/// So many words without a bit.
fn zeros(alloc: Global, count: usize) -> Result<Vec<u64>, Memory>
    ensures places { IfOk result (λ words. length words.items ≡ count) }
    ensures none { IfOk result (λ words. (k : ℕ) → slice_index_or words.items k 0 ≡ 0) }
{
    Ok(vec![in alloc; 0; count]?)
}

/// A word of which one bit is set, or isn't.
#[inline]
fn with_bit(word: u64, place: usize, is_on: bool) -> u64
    requires { place < WORD }
    ensures same { (bit_at result place == 1) ≡ is_on }
    ensures other { (k : ℕ) → k < WORD → k ≢ place → bit_at result k ≡ bit_at word k }
{
    if is_on {
        word | 1 << place
    } else {
        word & !(1 << place)
    }
}

/// Whether the bit of a place is set.
#[inline]
fn bit_of(words: &[u64], place: usize) -> bool
    requires { place < WORD * length words.now }
    ensures { result ≡ is_set words.now place }
{
    (words[place / WORD] >> (place % WORD)) & 1 == 1
}

/// Sets the bit of a place, or clears it.
#[inline]
fn set_bit(words: &mut [u64], place: usize, is_on: bool)
    requires { place < WORD * length words.old }
    ensures { marks_in words.new ≡ slice_set (marks_in words.old) place is_on }
{
    words[place / WORD] = with_bit(words[place / WORD], place % WORD, is_on);
}

/// Whether no word has a bit.
fn are_zero(words: &[u64]) -> bool
    ensures { result ≡ true → (k : ℕ) → k < length words.now → slice_index_or words.now k 0 ≡ 0 }
{
    let mut all = 0;
    for k in 0..words.len() {
        all |= words[k];
    }
    all == 0
}

/// Whether no place of so many words is marked, from a word on.
fn is_none_marked(words: &[u64], first: usize, count: usize) -> bool
    requires { first + count ≤ length words.now }
    ensures { result ≡ true → (place : ℕ) → WORD * first ≤ place → place < WORD * (first + count)
        → slice_index_or (marks_in words.now) place false ≡ false }
{
    are_zero(&words[first..first + count])
}

impl Bits {
    /// The places of so many words, none of which is marked.
    pub(crate) fn none(alloc: Global, words: usize) -> Result<Bits, Memory>
        ensures places { IfOk result (λ bits. length bits ≡ WORD * words) }
        ensures none { IfOk result (λ bits. (place : ℕ) → slice_index_or bits place false ≡ false) }
    {
        Ok(Bits {
            words: zeros(alloc, words)?,
        })
    }

    /// Whether a place is marked.
    #[inline]
    pub(crate) fn at(&self, place: usize) -> bool
        requires { place < length self.now }
        ensures { result ≡ slice_index_or self.now place false }
    {
        bit_of(self.words.as_slice(), place)
    }

    /// Marks a place, or has it not be marked.
    #[inline]
    pub(crate) fn set(&mut self, place: usize, is_marked: bool)
        requires { place < length self.old }
        ensures { self.new ≡ slice_set self.old place is_marked }
    {
        set_bit(self.words.as_mut_slice(), place, is_marked);
    }

    /// Whether no place of so many words is marked, from a word on.
    pub(crate) fn is_none_marked(&self, first: usize, count: usize) -> bool
        requires { WORD * (first + count) ≤ length self.now }
        ensures { result ≡ true → (place : ℕ) → WORD * first ≤ place → place < WORD * (first + count)
            → slice_index_or self.now place false ≡ false }
    {
        is_none_marked(self.words.as_slice(), first, count)
    }
}
