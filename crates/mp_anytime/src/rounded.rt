//! A series in rounded samples, whose residues tell of most pairs of windows that they give nothing.

ghost use Rattle.std.specs.Prelude.{◌≡◌, ℕ, ◌+◌, ◌-◌, ◌^◌, ◌<◌, ◌≤◌, length, IfOk};
ghost use Rattle.std.specs.Prelude.{IsSome, Some, ℤ, pos, ◌+ℤ◌, min};
ghost use Rattle.std.specs.Int.{int_wrap, w32};
ghost use Rattle.mp_sums.specs.Grids.{distance_in};
ghost use Rattle.mp_sums.specs.Sums.{square_sum};
ghost use Rattle.mp_sums.specs.Residues.{AreChanges, AreNumbers, item, moved, residue as residue_of};
ghost use Rattle.mp_anytime.specs.Scanning.{AreFree};
ghost use Rattle.mp_scans.specs.Exacts.{IsExact};
ghost use Rattle.mp_anytime.specs.Rounded.{AreRounded, core_in, rounded_in, series_in, whole_in};

use mp_nums::Memory;
use mp_scans::{Exact, Plan, exact_distance};
use mp_sums::{Change, ZERO, fill_changes, first_residue, next_residue, sum_of};
use std::alloc::Global;

/// How many successive pairs of a diagonal are told at once that they give nothing.
pub(crate) const BLOCK: usize = 32;

/// How many samples of a block's first windows its last ones don't have.
pub(crate) const BEHIND: usize = BLOCK - 1;

/// What comes in and what goes where successive windows move on by one: their differences, and their sums.
#[derive(Clone, Copy)]
pub(crate) struct Changes<'a> {
    differences: &'a [i32],
    sums: &'a [i32],
    ghost same: { length sums.now ≡ length differences.now },
}

impl<'a> Changes<'a> {
    /// Those of a block's windows, from a place on.
    #[inline]
    fn of_block(&self, place: usize) -> Changes<'a>
        requires { place + BLOCK ≤ length self.now.differences.now }
        ensures places { length result.differences.now ≡ BLOCK }
        ensures differences { (k : ℕ) → k < BLOCK
            → item result.differences.now k ≡ item self.now.differences.now (place + k) }
        ensures sums { (k : ℕ) → k < BLOCK → item result.sums.now k ≡ item self.now.sums.now (place + k) }
    {
        Changes {
            differences: &self.differences[place..place + BLOCK],
            sums: &self.sums[place..place + BLOCK],
        }
    }

    /// That of the window at a place.
    #[inline]
    fn at(&self, place: usize) -> Change
        requires { place < length self.now.differences.now }
        ensures difference { result.difference ≡ item self.now.differences.now place }
        ensures sum { result.sum ≡ item self.now.sums.now place }
    {
        Change {
            difference: self.differences[place],
            sum: self.sums[place],
        }
    }
}

/// A series with itself in rounded samples. A block of pairs has successive ones of a diagonal, whose windows share all
/// samples but the first ones and the last ones: the core of the block.
#[derive(Clone, Copy)]
pub(crate) struct Rounded<'a> {
    pub(crate) plan: Plan<'a>,
    /// The samples, rounded, and zeros behind them.
    numbers: &'a [i32],
    /// Whether no sample of a window is missing.
    pub(crate) free: &'a [bool],
    windows: Changes<'a>,
    cores: Changes<'a>,
    ghost own: { plan.grid.columns.now ≡ plan.grid.rows.now },
    ghost lists: { AreRounded plan.grid.m plan.rounding.shift plan.grid.rows.now numbers.now free.now
        windows.differences.now windows.sums.now cores.differences.now cores.sums.now },
}

/// By how much residues go up where successive rows and columns move on to the next ones.
fn fill_steps(rows: &Changes, columns: &Changes, steps: &mut [i32])
    requires rows { length steps.old ≤ length rows.now.differences.now }
    requires columns { length steps.old ≤ length columns.now.differences.now }
    ensures steps { (k : ℕ) → k < length steps.new → item steps.new k ≡ moved (pos 0)
        (item rows.now.differences.now k) (item rows.now.sums.now k)
        (item columns.now.differences.now k) (item columns.now.sums.now k) }
    ensures places { length steps.new ≡ length steps.old }
{
    for k in 0..steps.len() {
        steps[k] = next_residue(0, rows.at(k), columns.at(k));
    }
}

/// Finds the residue from which each step goes on, where the first one goes on from this.
pub(crate) fn add_up(first: i32, steps: &[i32], residues: &mut [i32])
    requires places { length residues.old ≡ length steps.now }
    ensures residues { (count : ℕ) (r : ℕ → ℤ) → first ≡ r 0
        → ((k : ℕ) → k < length steps.now → k + 1 < count → int_wrap w32 (r k +ℤ item steps.now k) ≡ r (k + 1))
        → (k : ℕ) → k < length residues.new → k < count → item residues.new k ≡ r k }
    ensures places { length residues.new ≡ length residues.old }
{
    let mut residue = first;
    for k in 0..steps.len() {
        residues[k] = residue;
        residue = residue.wrapping_add(steps[k]);
    }
}

impl<'a> Rounded<'a> {
    /// The residue of the core of the diagonal's first block.
    pub(crate) fn first_core(&self, offset: usize) -> i32
        requires { offset < length self.now.free.now }
        ensures { result ≡ residue_of (core_in self.now.plan 0 offset) }
    {
        let end = BEHIND + self.plan.grid.m.saturating_sub(BEHIND);
        first_residue(
            &self.numbers[BEHIND..end],
            &self.numbers[offset + BEHIND..offset + end],
        )
    }

    /// The residue of the core of the next block, from that of the block of a row and of the column so far behind it.
    #[inline]
    pub(crate) fn next_core(&self, row: usize, offset: usize, residue: i32) -> i32
        requires within { row + offset + BLOCK ≤ length self.now.free.now }
        requires residue { residue ≡ residue_of (core_in self.now.plan row (row + offset)) }
        ensures { result ≡ residue_of (core_in self.now.plan (row + BLOCK) (row + BLOCK + offset)) }
    {
        let first = row + BEHIND;
        let mut moved = residue;
        for k in 0..BLOCK {
            moved = next_residue(
                moved,
                self.cores.at(first + k),
                self.cores.at(first + offset + k),
            );
        }
        moved
    }

    /// The residue of a row and of the column so far behind it.
    pub(crate) fn whole(&self, row: usize, offset: usize) -> i32
        requires { row + offset < length self.now.free.now }
        ensures { result ≡ residue_of (whole_in self.now.plan row (row + offset)) }
    {
        let (column, m) = (row + offset, self.plan.grid.m);
        first_residue(
            &self.numbers[row..row + m],
            &self.numbers[column..column + m],
        )
    }

    /// The residue of the next row and its column.
    #[inline]
    pub(crate) fn next_whole(&self, row: usize, offset: usize, residue: i32) -> i32
        requires within { row + offset < length self.now.free.now }
        requires residue { residue ≡ residue_of (whole_in self.now.plan row (row + offset)) }
        ensures { result ≡ residue_of (whole_in self.now.plan (row + 1) (row + 1 + offset)) }
    {
        next_residue(residue, self.windows.at(row), self.windows.at(row + offset))
    }

    /// The residue of the samples of a row and of the column so far behind it that stand before their core.
    #[inline]
    fn first_of(&self, row: usize, offset: usize) -> i32
        requires { row + offset < length self.now.free.now }
        ensures { result ≡ residue_of (square_sum (min self.now.plan.grid.m BEHIND)
            (rounded_in self.now.plan.rounding.shift (series_in self.now.plan)) row
            (rounded_in self.now.plan.rounding.shift (series_in self.now.plan)) (row + offset)) }
    {
        let (column, m) = (row + offset, self.plan.grid.m);
        if m < BEHIND {
            first_residue(
                &self.numbers[row..row + m],
                &self.numbers[column..column + m],
            )
        } else {
            first_residue(
                &self.numbers[row..row + BEHIND],
                &self.numbers[column..column + BEHIND],
            )
        }
    }

    /// The residue of a row and of the column so far behind it, from that of the core of their block.
    fn whole_of(&self, row: usize, offset: usize, core: i32) -> i32
        requires within { row + offset < length self.now.free.now }
        requires core { core ≡ residue_of (core_in self.now.plan row (row + offset)) }
        ensures { result ≡ residue_of (whole_in self.now.plan row (row + offset)) }
    {
        self.first_of(row, offset)
            .wrapping_add(core.wrapping_sub(ZERO))
    }

    /// The residues of a block's rows, each with the column so far behind it, from that of its core.
    pub(crate) fn fill_residues(&self, row: usize, offset: usize, core: i32, residues: &mut [i32])
        requires places { length residues.old ≡ BLOCK }
        requires within { row + offset + BLOCK ≤ length self.now.free.now }
        requires core { core ≡ residue_of (core_in self.now.plan row (row + offset)) }
        ensures residues { (k : ℕ) → k < BLOCK
            → item residues.new k ≡ residue_of (whole_in self.now.plan (row + k) (row + k + offset)) }
        ensures places { length residues.new ≡ BLOCK }
    {
        let (rows, columns) = (
            self.windows.of_block(row),
            self.windows.of_block(row + offset),
        );
        let mut steps = [0; BLOCK];
        fill_steps(&rows, &columns, &mut steps);
        add_up(self.whole_of(row, offset, core), &steps, residues);
    }

    /// The distance of a row and a column that lack no sample, which have this residue, from what is known of their
    /// diagonal.
    pub(crate) fn distance(
        &self,
        row: usize,
        column: usize,
        residue: i32,
        exact: &mut Option<Exact>,
    ) -> u128
        requires order { row ≤ column }
        requires column { column < length self.now.free.now }
        requires free { IsSome (distance_in self.now.plan.grid row column) }
        requires residue { residue ≡ residue_of (whole_in self.now.plan row column) }
        requires exact { IsExact self.now.plan.grid (column - row) exact.old }
        ensures exact { IsExact self.now.plan.grid (column - row) exact.new }
        ensures small { result + 1 < 2 ^ 110 }
        ensures distance { (d : ℕ) → distance_in self.now.plan.grid row column ≡ Some d → result ≡ d }
    {
        if self.plan.is_exact {
            sum_of(residue)
        } else {
            exact_distance(&self.plan.grid, exact, row, column)
        }
    }
}

/// A series with itself in rounded samples, and the memory that these take: some 20 bytes for each sample.
#[derive(Drop)]
pub(crate) struct Lists<'a> {
    plan: Plan<'a>,
    numbers: Vec<i32>,
    free: Vec<bool>,
    differences: Vec<i32>,
    sums: Vec<i32>,
    core_differences: Vec<i32>,
    core_sums: Vec<i32>,
    ghost own: { plan.grid.columns.now ≡ plan.grid.rows.now },
    ghost lists: { AreRounded plan.grid.m plan.rounding.shift plan.grid.rows.now numbers.items free.items
        differences.items sums.items core_differences.items core_sums.items },
}

/// The rounded samples, and zeros behind them for a window and for a block.
fn round_all(alloc: Global, plan: &Plan) -> Result<Vec<i32>, Memory>
    ensures numbers { IfOk result (λ numbers. AreNumbers (rounded_in plan.now.rounding.shift
        (series_in plan.now)) 0 numbers.items) }
    ensures places { IfOk result (λ numbers. length numbers.items
        ≡ length plan.now.grid.rows.now + plan.now.grid.m + BLOCK) }
{
    let mut numbers = vec![in alloc; 0; plan.grid.rows.len() + plan.grid.m + BLOCK]?;
    plan.rounding
        .fill(plan.grid.rows, 0, numbers.as_mut_slice());
    Ok(numbers)
}

/// What comes in and what goes where the windows of `m` numbers move on by one.
fn fill_moves(numbers: &[i32], m: usize, differences: &mut [i32], sums: &mut [i32])
    requires places { m + length differences.old ≤ length numbers.now }
    requires same { length sums.old ≡ length differences.old }
    ensures changes { (x : ℕ → ℤ) → AreNumbers x 0 numbers.now → AreChanges m x 0 differences.new sums.new }
    ensures places { length differences.new ≡ length differences.old }
{
    let count = differences.len();
    fill_changes(&numbers[..count], &numbers[m..m + count], differences, sums);
}

impl<'a> Lists<'a> {
    /// The rounded samples of a plan's series, of whose windows it is known which are free.
    pub(crate) fn of(alloc: Global, plan: &Plan<'a>, free: Vec<bool>) -> Result<Lists<'a>, Memory>
        requires own { plan.now.grid.columns.now ≡ plan.now.grid.rows.now }
        requires free { AreFree plan.now.grid.m (series_in plan.now) free.items }
        ensures plan { IfOk result (λ lists. lists.plan ≡ plan.now) }
    {
        let (m, count) = (plan.grid.m, free.len());
        let core = m.saturating_sub(BEHIND);
        let numbers = round_all(alloc, plan)?;
        let mut differences = vec![in alloc; 0; count]?;
        let mut sums = vec![in alloc; 0; count]?;
        let mut core_differences = vec![in alloc; 0; count + BEHIND]?;
        let mut core_sums = vec![in alloc; 0; count + BEHIND]?;
        fill_moves(
            numbers.as_slice(),
            m,
            differences.as_mut_slice(),
            sums.as_mut_slice(),
        );
        fill_moves(
            numbers.as_slice(),
            core,
            core_differences.as_mut_slice(),
            core_sums.as_mut_slice(),
        );
        Ok(Lists {
            plan: *plan,
            numbers,
            free,
            differences,
            sums,
            core_differences,
            core_sums,
        })
    }

    /// The series with itself in rounded samples.
    pub(crate) fn rounded(&self) -> Rounded<'_>
        ensures plan { result.plan ≡ self.now.plan }
        ensures free { result.free.now ≡ self.now.free.items }
    {
        let windows = Changes {
            differences: self.differences.as_slice(),
            sums: self.sums.as_slice(),
        };
        let cores = Changes {
            differences: self.core_differences.as_slice(),
            sums: self.core_sums.as_slice(),
        };
        Rounded {
            plan: self.plan,
            numbers: self.numbers.as_slice(),
            free: self.free.as_slice(),
            windows,
            cores,
        }
    }
}
