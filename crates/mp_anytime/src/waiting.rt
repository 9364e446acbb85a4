//! Which diagonals aren't covered, by their reversals.

ghost use Rattle.std.specs.Prelude.{◌≡◌, ℕ, ◌+◌, ◌*◌, ◌<◌, ◌≤◌, ◌==◌, [], ◌∷◌};
ghost use Rattle.std.specs.Prelude.{◌++◌, if◌then◌else◌};
ghost use Rattle.std.specs.Prelude.{List, filter, take, length, slice_index_or, Bool, false, IfOk, OnOk};
ghost use Rattle.mp_results.specs.Reversal.{reversal as reversal_of};
ghost use Rattle.mp_results.specs.Covering.{by_reversal, is_covered, is_uncovered, uncovered};
ghost use Rattle.mp_anytime.specs.Waiting.{AreMarks, AreWaiting};

use crate::bits::{Bits, WORD};
use crate::reversals::{NUMBERS, reversal};
use mp_nums::Memory;
use mp_series::excl;
use std::alloc::Global;
use std::marker::Model;

/// How many places a block has.
const PLACES: usize = 512;

/// How many words the bits of a block take.
const WORDS: usize = PLACES / WORD;

/// How many blocks of places there are.
const BLOCKS: usize = 512;

/// For the reversal of each diagonal, its place, whether the diagonal waits to be covered. What comes next is sought
/// among the marked blocks alone.
#[derive(Debug, Drop)]
pub(crate) struct Waiting {
    places: Bits,
    /// Whether a diagonal may be waiting at one of the places of a block.
    marks: Vec<bool>,
}

impl Model for Waiting {
    ghost Value = { List Bool };

    ghost view = { λ waiting. waiting.places };

    ghost invariant = { λ waiting. AreMarks waiting.places waiting.marks.items };
}

/// So many marks, none of which is set.
fn none_marked(alloc: Global, count: usize) -> Result<Vec<bool>, Memory>
    ensures places { IfOk result (λ marks. length marks.items ≡ count) }
    ensures none { IfOk result (λ marks. (place : ℕ) → slice_index_or marks.items place false ≡ false) }
{
    Ok(vec![in alloc; false; count]?)
}

/// Notes whether a diagonal waits.
fn put(places: &mut Bits, marks: &mut [bool], diagonal: u64, is_waiting: bool)
    requires marks { AreMarks places.old marks.old }
    requires diagonal { diagonal < NUMBERS }
    ensures marks { AreMarks places.new marks.new }
    ensures places { (place : ℕ) → place < NUMBERS → slice_index_or places.new place false
        ≡ (if reversal_of place == diagonal then is_waiting else slice_index_or places.old place false) }
{
    let place = reversal(diagonal) as usize;
    places.set(place, is_waiting);
    marks[place / PLACES] = is_waiting | marks[place / PLACES];
}

/// Whether a diagonal waits.
#[inline]
fn waits_at(places: &Bits, diagonal: u64) -> bool
    requires { length places.now ≡ NUMBERS }
    ensures { result ≡ slice_index_or places.now (reversal_of diagonal) false }
{
    places.at(reversal(diagonal) as usize)
}

/// Marks a block where a diagonal waits in it, and no other way.
fn mark(places: &Bits, marks: &mut [bool], block: usize)
    requires marks { AreMarks places.now marks.old }
    requires block { block < BLOCKS }
    ensures { AreMarks places.now marks.new }
{
    marks[block] = !places.is_none_marked(WORDS * block, WORDS);
}

/// Chooses the diagonal at a place, where it is waiting and fewer than `count` are chosen.
fn choose_at(places: &Bits, place: usize, count: u64, chosen: &mut Vec<u64>) -> Result<(), Memory>
    requires place { place < length places.now }
    ensures chosen { (is_waiting : ℕ → Bool)
        → slice_index_or places.now place false ≡ is_waiting (reversal_of place)
        → chosen.old.items ≡ take count (filter is_waiting (by_reversal place))
        → OnOk result (chosen.new.items ≡ take count (filter is_waiting (by_reversal (place + 1)))) }
    ensures few { length chosen.new.items ≤ length chosen.old.items + 1 }
{
    let is_chosen = places.at(place) & ((chosen.len() as u64) < count);
    if is_chosen {
        chosen.push(reversal(place as u64))?;
    }
    Ok(())
}

/// The same of all places of a block.
fn choose_in(places: &Bits, block: usize, count: u64, chosen: &mut Vec<u64>) -> Result<(), Memory>
    requires block { block < BLOCKS }
    requires places { PLACES * block + PLACES ≤ length places.now }
    ensures chosen { (is_waiting : ℕ → Bool)
        → ((place : ℕ) → place < length places.now
        → slice_index_or places.now place false ≡ is_waiting (reversal_of place))
        → chosen.old.items ≡ take count (filter is_waiting (by_reversal (PLACES * block)))
        → OnOk result (chosen.new.items ≡ take count (filter is_waiting (by_reversal (PLACES * block + PLACES)))) }
    ensures few { length chosen.new.items ≤ length chosen.old.items + PLACES }
{
    for k in 0..PLACES {
        choose_at(places, PLACES * block + k, count, chosen)?;
    }
    Ok(())
}

/// The same, where the block is marked and fewer than `count` are chosen. Else there is nothing to choose in it.
fn choose_marked(
    places: &Bits,
    marks: &[bool],
    block: usize,
    count: u64,
    chosen: &mut Vec<u64>,
) -> Result<(), Memory>
    requires marks { AreMarks places.now marks.now }
    requires block { block < BLOCKS }
    ensures chosen { (is_waiting : ℕ → Bool)
        → ((place : ℕ) → place < length places.now
        → slice_index_or places.now place false ≡ is_waiting (reversal_of place))
        → chosen.old.items ≡ take count (filter is_waiting (by_reversal (PLACES * block)))
        → OnOk result (chosen.new.items ≡ take count (filter is_waiting (by_reversal (PLACES * block + PLACES)))) }
    ensures few { length chosen.new.items ≤ length chosen.old.items + PLACES }
{
    let is_asked = marks[block] & ((chosen.len() as u64) < count);
    if is_asked {
        choose_in(places, block, count, chosen)?;
    }
    Ok(())
}

/// The same of all blocks.
fn choose_from(alloc: Global, places: &Bits, marks: &[bool], count: u64) -> Result<Vec<u64>, Memory>
    requires { AreMarks places.now marks.now }
    ensures chosen { IfOk result (λ chosen. (m windows : ℕ) (covered : List ℕ)
        → AreWaiting m windows covered places.now → chosen.items ≡ take count (uncovered m windows covered)) }
    ensures few { IfOk result (λ chosen. length chosen.items ≤ NUMBERS) }
{
    let mut chosen = Vec::new(alloc);
    for block in 0..BLOCKS {
        choose_marked(places, marks, block, count, &mut chosen)?;
    }
    Ok(chosen)
}

impl Waiting {
    /// Of no windows no diagonal waits.
    fn nothing(alloc: Global) -> Result<Waiting, Memory>
        ensures { IfOk result (λ waiting. (m : ℕ) → AreWaiting m 0 [] waiting) }
    {
        Ok(Waiting {
            places: Bits::none(alloc, NUMBERS as usize / WORD)?,
            marks: none_marked(alloc, BLOCKS)?,
        })
    }

    /// The diagonals of so many windows, none of which is covered.
    pub(crate) fn none_covered(alloc: Global, m: u32, windows: u64) -> Result<Waiting, Memory>
        requires { windows ≤ NUMBERS }
        ensures { IfOk result (λ waiting. AreWaiting m windows [] waiting) }
    {
        let mut waiting = Waiting::nothing(alloc)?;
        for window in 0..windows {
            waiting.add_window(m, window);
        }
        Ok(waiting)
    }

    /// Notes whether a diagonal waits.
    fn put(&mut self, diagonal: u64, is_waiting: bool)
        requires { diagonal < NUMBERS }
        ensures each { (place : ℕ) → place < NUMBERS → slice_index_or self.new place false
            ≡ (if reversal_of place == diagonal then is_waiting else slice_index_or self.old place false) }
        ensures places { length self.new ≡ NUMBERS }
    {
        put(
            &mut self.places,
            self.marks.as_mut_slice(),
            diagonal,
            is_waiting,
        );
    }

    /// With one window more there is one diagonal more, unless it lies in the exclusion zone.
    pub(crate) fn add_window(&mut self, m: u32, windows: u64)
        requires { windows < NUMBERS }
        ensures { (covered : List ℕ) → is_covered covered windows ≡ false
            → AreWaiting m windows covered self.old → AreWaiting m (windows + 1) covered self.new }
    {
        self.put(windows, excl(m) < windows);
    }

    /// Marks the block of a diagonal where one still waits in it.
    fn mark(&mut self, diagonal: u64)
        ensures { self.new ≡ self.old }
    {
        mark(
            &self.places,
            self.marks.as_mut_slice(),
            reversal(diagonal) as usize / PLACES,
        );
    }

    /// Covers a diagonal.
    pub(crate) fn cover(&mut self, diagonal: u64)
        requires { diagonal < NUMBERS }
        ensures { (m windows : ℕ) (covered : List ℕ) → AreWaiting m windows covered self.old
            → AreWaiting m windows (covered ++ diagonal ∷ []) self.new }
    {
        self.put(diagonal, false);
        self.mark(diagonal);
    }

    /// Whether a diagonal waits.
    pub(crate) fn is_waiting(&self, diagonal: u64) -> bool
        requires { diagonal < NUMBERS }
        ensures { (m windows : ℕ) (covered : List ℕ) → AreWaiting m windows covered self.now
            → result ≡ is_uncovered m windows covered diagonal }
    {
        waits_at(&self.places, diagonal)
    }

    /// The next `count` diagonals, or all that aren't covered where these are fewer.
    pub(crate) fn choose(&self, alloc: Global, count: u64) -> Result<Vec<u64>, Memory>
        ensures chosen { IfOk result (λ chosen. (m windows : ℕ) (covered : List ℕ)
            → AreWaiting m windows covered self.now → chosen.items ≡ take count (uncovered m windows covered)) }
        ensures few { IfOk result (λ chosen. length chosen.items ≤ NUMBERS) }
    {
        choose_from(alloc, &self.places, self.marks.as_slice(), count)
    }
}
