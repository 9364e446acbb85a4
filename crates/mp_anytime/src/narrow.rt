//! A series in 16 bits, whose residues tell the distances of its windows.

ghost use Rattle.std.specs.Prelude.{◌≡◌, ℕ, ◌+◌, ◌*◌, ◌<◌, ◌≤◌, ◌^◌, length, min, IfOk, None, true, false, ◌&&◌};
ghost use Rattle.std.specs.Prelude.{slice_index_or, ℤ, pos, ◌-ℤ◌, FitsSigned};
ghost use Rattle.std.specs.Option.{ForSome};
ghost use Rattle.std.specs.Int.{int_wrap, w16};
ghost use Rattle.mp_defs.specs.Distance.{squared_difference};
ghost use Rattle.mp_defs.specs.Series.{series_of};
ghost use Rattle.mp_sums.specs.Sums.{numbers_of, square_sum};
ghost use Rattle.mp_sums.specs.Residues.{item, residue as residue_of};
ghost use Rattle.mp_anytime.specs.Scanning.{AreFree};
ghost use Rattle.mp_anytime.specs.Rounded.{core_in, rounded_in, series_in, whole_in};
ghost use Rattle.mp_anytime.specs.Narrow.{AreNarrow, AreTurns, IsNarrow, IsTurn, LieNear, wrapped};

use crate::rounded::{BEHIND, BLOCK, add_up};
use mp_nums::{Memory, Sample};
use mp_scans::Plan;
use mp_sums::{Range, ZERO, number_of};
use std::alloc::Global;
use std::simd::prelude::*;

/// How many bits the squared difference of two samples has at most where their difference fits 16 bits.
const SQUARE_BITS: u32 = 30;

/// A series with itself in 16 bits: the residues of its windows tell their distances. A block of pairs is told by its
/// core, as in `Rounded`.
#[derive(Clone, Copy)]
pub(crate) struct Narrow<'a> {
    pub(crate) plan: Plan<'a>,
    /// The lower 16 bits of the samples, and zeros behind them.
    numbers: &'a [i16],
    /// Whether no sample of a window is missing.
    pub(crate) free: &'a [bool],
    /// For each window where the stretch ends of which all windows are free or none is. There are none of them where no
    /// sample is missing.
    turns: Option<&'a [u32]>,
    ghost turning: { ForSome turns (λ turns. AreTurns free.now turns.now) },
    ghost whole: { turns ≡ None → (k : ℕ) → k < length free.now → slice_index_or free.now k false ≡ true },
    ghost lists: { IsNarrow plan numbers.now free.now },
}

/// The lower 16 bits of a number.
#[inline]
fn lower_bits(number: i64) -> i16
    ensures { result ≡ int_wrap w16 number }
{
    ((number.cast_unsigned() % (1 << 16)) as u16).cast_signed()
}

/// The squared difference of two numbers that lie near each other, from their lower 16 bits.
#[inline]
fn square(x: i16, y: i16) -> i32
    ensures { (a b : ℤ) → FitsSigned w16 (a -ℤ b) → x ≡ int_wrap w16 a → y ≡ int_wrap w16 b
        → result ≡ pos (squared_difference a b) }
{
    let difference = i32::from(x.wrapping_sub(y));
    difference.wrapping_mul(difference)
}

/// The sum of the squared differences of so many numbers from two places on.
fn sum_of_squares(numbers: &[i16], row: usize, column: usize, count: usize) -> i32
    requires row { row + count ≤ length numbers.now }
    requires column { column + count ≤ length numbers.now }
    ensures { (n : ℕ) (x : ℕ → ℤ) → AreNarrow n x numbers.now
        → ((k : ℕ) → k < count → (row + k < n) × (column + k < n))
        → result ≡ wrapped (square_sum count x row x column) }
{
    let mut sum = 0_i32;
    for k in 0..count {
        sum = sum.wrapping_add(square(numbers[row + k], numbers[column + k]));
    }
    sum
}

/// The same of as many numbers as a block has pairs, at once.
#[inline(always)]
fn block_squares(numbers: &[i16], row: usize, column: usize) -> i32
    requires row { row + BLOCK ≤ length numbers.now }
    requires column { column + BLOCK ≤ length numbers.now }
    ensures { (n : ℕ) (x : ℕ → ℤ) → AreNarrow n x numbers.now → row + BLOCK ≤ n → column + BLOCK ≤ n
        → result ≡ wrapped (square_sum BLOCK x row x column) }
{
    let differences = i16x32::from_slice(&numbers[row..]) - i16x32::from_slice(&numbers[column..]);
    let wide: i32x32 = differences.cast();
    (wide * wide).reduce_sum()
}

/// By how much sums go up where windows of `m` numbers move on, from two places on.
#[inline(always)]
fn fill_steps(numbers: &[i16], row: usize, column: usize, m: usize, steps: &mut [i32])
    requires row { row + m + length steps.old ≤ length numbers.now }
    requires column { column + m + length steps.old ≤ length numbers.now }
    ensures steps { (n : ℕ) (x : ℕ → ℤ) (k : ℕ) → AreNarrow n x numbers.now → k < length steps.new
        → row + m + k < n → column + m + k < n → item steps.new k
        ≡ pos (squared_difference (x (row + m + k)) (x (column + m + k)))
        -ℤ pos (squared_difference (x (row + k)) (x (column + k))) }
    ensures places { length steps.new ≡ length steps.old }
{
    for k in 0..steps.len() {
        let enters = square(numbers[row + m + k], numbers[column + m + k]);
        let leaves = square(numbers[row + k], numbers[column + k]);
        steps[k] = enters.wrapping_sub(leaves);
    }
}

/// Whether all marks are set.
fn are_all(marks: &[bool]) -> bool
    ensures { result ≡ true → (k : ℕ) → k < length marks.now → slice_index_or marks.now k false ≡ true }
{
    let mut all = true;
    for k in 0..marks.len() {
        all = marks[k] & all;
    }
    all
}

/// Where the stretch of the same marks ends that one is in, from where that of the next one ends.
#[inline]
fn turn_at(marks: &[bool], place: usize, behind: u32) -> u32
    requires place { place < length marks.now }
    requires few { length marks.now < 2 ^ 32 }
    requires behind { place + 1 < length marks.now → IsTurn marks.now (place + 1) behind }
    ensures { IsTurn marks.now place result }
{
    if place + 1 < marks.len() && marks[place] == marks[place + 1] {
        behind
    } else {
        place as u32 + 1
    }
}

/// Finds for each mark where the stretch ends of marks that are the same.
fn fill_turns(marks: &[bool], turns: &mut [u32])
    requires places { length turns.old ≡ length marks.now }
    requires few { length marks.now < 2 ^ 32 }
    ensures { AreTurns marks.now turns.new }
{
    let mut turn = 0;
    for k in 0..marks.len() {
        let place = marks.len() - 1 - k;
        turn = turn_at(marks, place, turn);
        turns[place] = turn;
    }
}

/// For each mark where the stretch ends of marks that are the same, unless all are set.
fn turns_of(alloc: Global, marks: &[bool]) -> Result<Option<Vec<u32>>, Memory>
    requires few { length marks.now < 2 ^ 32 }
    ensures turning { IfOk result (λ turns. ForSome turns (λ turns. AreTurns marks.now turns.items)) }
    ensures whole { IfOk result (λ turns. turns ≡ None
        → (k : ℕ) → k < length marks.now → slice_index_or marks.now k false ≡ true) }
{
    if are_all(marks) {
        return Ok(None);
    }
    let mut turns = vec![in alloc; 0; marks.len()]?;
    fill_turns(marks, turns.as_mut_slice());
    Ok(Some(turns))
}

/// Whether the samples lie so near each other that 16 bits hold each difference.
pub(crate) fn lie_near(samples: &[Sample]) -> bool
    ensures { result ≡ true → LieNear (length samples.now) (numbers_of (series_of samples.now)) }
{
    match samples.first() {
        Some(first) => Range::at(number_of(*first))
            .with_samples(samples)
            .sums_fit(1, SQUARE_BITS),
        None => true,
    }
}

impl<'a> Narrow<'a> {
    /// The residue of the core of the block of a row and of the column so far behind it.
    pub(crate) fn core(&self, row: usize, offset: usize) -> i32
        requires { row + offset < length self.now.free.now }
        ensures { result ≡ residue_of (core_in self.now.plan row (row + offset)) }
    {
        let (column, count) = (row + offset, self.plan.grid.m.saturating_sub(BEHIND));
        sum_of_squares(self.numbers, row + BEHIND, column + BEHIND, count).wrapping_add(ZERO)
    }

    /// The residue of the core of the next block, where there is one, from that of the block of a row and of the column
    /// so far behind it.
    #[inline]
    pub(crate) fn next_core(&self, row: usize, offset: usize, residue: i32) -> i32
        requires within { row + offset + 2 * BLOCK ≤ length self.now.free.now }
        requires residue { residue ≡ residue_of (core_in self.now.plan row (row + offset)) }
        ensures { result ≡ residue_of (core_in self.now.plan (row + BLOCK) (row + BLOCK + offset)) }
    {
        let (column, m) = (row + offset, self.plan.grid.m);
        if m < BEHIND {
            return residue;
        }
        let enters = block_squares(self.numbers, row + m, column + m);
        let leaves = block_squares(self.numbers, row + BEHIND, column + BEHIND);
        residue.wrapping_add(enters).wrapping_sub(leaves)
    }

    /// The residue of a row and of the column so far behind it.
    pub(crate) fn whole(&self, row: usize, offset: usize) -> i32
        requires { row + offset < length self.now.free.now }
        ensures { result ≡ residue_of (whole_in self.now.plan row (row + offset)) }
    {
        sum_of_squares(self.numbers, row, row + offset, self.plan.grid.m).wrapping_add(ZERO)
    }

    /// The sum of the squared differences of the samples of a row and of the column so far behind it that stand before
    /// their core.
    #[inline]
    fn first_of(&self, row: usize, offset: usize) -> i32
        requires { row + offset < length self.now.free.now }
        ensures { result ≡ wrapped (square_sum (min self.now.plan.grid.m BEHIND)
            (rounded_in self.now.plan.rounding.shift (series_in self.now.plan)) row
            (rounded_in self.now.plan.rounding.shift (series_in self.now.plan)) (row + offset)) }
    {
        let (column, m) = (row + offset, self.plan.grid.m);
        if m <= BEHIND {
            return sum_of_squares(self.numbers, row, column, m);
        }
        let last = square(self.numbers[row + BEHIND], self.numbers[column + BEHIND]);
        block_squares(self.numbers, row, column).wrapping_sub(last)
    }

    /// The residue of a row and of the column so far behind it, from that of the core of their block.
    #[inline]
    pub(crate) fn whole_of(&self, row: usize, offset: usize, core: i32) -> i32
        requires within { row + offset < length self.now.free.now }
        requires core { core ≡ residue_of (core_in self.now.plan row (row + offset)) }
        ensures { result ≡ residue_of (whole_in self.now.plan row (row + offset)) }
    {
        self.first_of(row, offset).wrapping_add(core)
    }

    /// The residues of successive rows, as far as there are any, each with the column so far behind it, from that of
    /// the first.
    #[inline]
    pub(crate) fn fill_residues(&self, row: usize, offset: usize, whole: i32, residues: &mut [i32])
        requires places { length residues.old ≡ BLOCK }
        requires within { row + offset < length self.now.free.now }
        requires whole { whole ≡ residue_of (whole_in self.now.plan row (row + offset)) }
        ensures residues { (k : ℕ) → k < BLOCK → row + k + offset < length self.now.free.now
            → item residues.new k ≡ residue_of (whole_in self.now.plan (row + k) (row + k + offset)) }
        ensures places { length residues.new ≡ BLOCK }
    {
        let mut steps = [0; BLOCK];
        fill_steps(
            self.numbers,
            row,
            row + offset,
            self.plan.grid.m,
            &mut steps,
        );
        add_up(whole, &steps, residues);
    }

    /// Whether no sample of a row and of the column so far behind it is missing.
    #[inline]
    pub(crate) fn are_free(&self, row: usize, offset: usize) -> bool
        requires { row + offset < length self.now.free.now }
        ensures { result ≡ (slice_index_or self.now.free.now row false
            && slice_index_or self.now.free.now (row + offset) false) }
    {
        self.free[row] & self.free[row + offset]
    }

    /// Where the stretch of pairs ends of which all have free windows or none has, from a row and the column so far
    /// behind it on.
    #[inline]
    pub(crate) fn turn(&self, row: usize, offset: usize) -> usize
        requires { row + offset < length self.now.free.now }
        ensures later { row < result }
        ensures within { result + offset ≤ length self.now.free.now }
        ensures rows { (k : ℕ) → row ≤ k → k < result
            → slice_index_or self.now.free.now k false ≡ slice_index_or self.now.free.now row false }
        ensures columns { (k : ℕ) → row ≤ k → k < result → slice_index_or self.now.free.now (k + offset) false
            ≡ slice_index_or self.now.free.now (row + offset) false }
    {
        match self.turns {
            Some(turns) => (turns[row] as usize).min(turns[row + offset] as usize - offset),
            None => self.free.len() - offset,
        }
    }
}

/// A series in 16 bits, and the memory that these take.
#[derive(Drop)]
pub(crate) struct NarrowList<'a> {
    plan: Plan<'a>,
    numbers: Vec<i16>,
    free: Vec<bool>,
    turns: Option<Vec<u32>>,
    ghost turning: { ForSome turns (λ turns. AreTurns free.items turns.items) },
    ghost whole: { turns ≡ None → (k : ℕ) → k < length free.items → slice_index_or free.items k false ≡ true },
    ghost lists: { IsNarrow plan numbers.items free.items },
}

/// Fills in the lower 16 bits of the samples.
fn fill_narrow(samples: &[Sample], numbers: &mut [i16])
    requires { length samples.now ≤ length numbers.old }
    ensures numbers { (k : ℕ) → k < length samples.now
        → item numbers.new k ≡ int_wrap w16 (numbers_of (series_of samples.now) k) }
    ensures places { length numbers.new ≡ length numbers.old }
{
    for k in 0..samples.len() {
        numbers[k] = lower_bits(number_of(samples[k]).get());
    }
}

/// The lower 16 bits of the samples, and zeros behind them for a block.
fn narrow_all(alloc: Global, samples: &[Sample]) -> Result<Vec<i16>, Memory>
    ensures numbers { IfOk result (λ numbers. (k : ℕ) → k < length samples.now
        → item numbers.items k ≡ int_wrap w16 (numbers_of (series_of samples.now) k)) }
    ensures places { IfOk result (λ numbers. length numbers.items ≡ length samples.now + BLOCK) }
{
    let mut numbers = vec![in alloc; 0; samples.len() + BLOCK]?;
    fill_narrow(samples, numbers.as_mut_slice());
    Ok(numbers)
}

impl<'a> NarrowList<'a> {
    /// The samples of a plan's series, which lie near each other and of whose windows it is known which are free.
    pub(crate) fn of(
        alloc: Global,
        plan: &Plan<'a>,
        free: Vec<bool>,
    ) -> Result<NarrowList<'a>, Memory>
        requires exact { plan.now.is_exact ≡ true }
        requires own { plan.now.grid.columns.now ≡ plan.now.grid.rows.now }
        requires free { AreFree plan.now.grid.m (series_in plan.now) free.items }
        requires near { LieNear (length plan.now.grid.rows.now) (numbers_of (series_in plan.now)) }
        ensures plan { IfOk result (λ list. list.plan ≡ plan.now) }
    {
        let numbers = narrow_all(alloc, plan.grid.rows)?;
        let turns = turns_of(alloc, free.as_slice())?;
        Ok(NarrowList {
            plan: *plan,
            numbers,
            free,
            turns,
        })
    }

    /// The series with itself in 16 bits.
    pub(crate) fn narrow(&self) -> Narrow<'_>
        ensures plan { result.plan ≡ self.now.plan }
    {
        Narrow {
            plan: self.plan,
            numbers: self.numbers.as_slice(),
            free: self.free.as_slice(),
            turns: self.turns.as_ref().map(|turns| turns.as_slice()),
        }
    }
}
