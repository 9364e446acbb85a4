//! The limits of a block's rows and columns, as residues.

ghost use Rattle.std.specs.Prelude.{◌≡◌, ℕ, ◌+◌, ◌<◌, ◌≤◌, length, false};
ghost use Rattle.mp_sums.specs.Limits.{IsBeyond};
ghost use Rattle.mp_sums.specs.Residues.{item};
ghost use Rattle.mp_scans.specs.Limiting.{IsRowLimit, IsColumnLimit, first_on};

use crate::blocks::Block;
use crate::offers::{Firsts, Offers};
use mp_sums::{Limit, NEVER};

/// The limit of a row. Where a sample of it is missing, no pair passes.
#[inline]
pub(crate) fn row_limit<O: Offers>(block: &Block, p: usize, into: &O::Into) -> i32
    requires row { p < length block.now.rows.differences.now }
    ensures { IsRowLimit block.now (O.keeps_row into.now) p p result }
{
    if block.free_rows[p] {
        let (row, first) = (block.row + p, block.column + p);
        O::row_bound(into, &block.rounding, row as u64, first as u64)
    } else {
        NEVER
    }
}

/// The limit of a column to which rows from one on are still offered. Where a sample of it is missing, no pair passes.
#[inline]
pub(crate) fn column_limit<O: Offers>(block: &Block, first: usize, c: usize, into: &O::Into) -> i32
    requires column { c < length block.now.columns.differences.now }
    requires first { first ≤ c + 1 }
    ensures { IsColumnLimit block.now (O.keeps_column into.now) first c result }
{
    if block.free_columns[c] {
        let (column, row) = (block.column + c, block.row + first);
        O::column_bound(into, &block.rounding, column as u64, row as u64)
    } else {
        NEVER
    }
}

/// The limits of all rows.
pub(crate) fn fill_row_limits<O: Offers>(block: &Block, limits: &mut [i32], into: &O::Into)
    requires places { length block.now.rows.differences.now ≤ length limits.old }
    ensures limits { (p : ℕ) → p < length block.now.rows.differences.now
        → IsRowLimit block.now (O.keeps_row into.now) p p (item limits.new p) }
    ensures places { length limits.new ≡ length limits.old }
{
    let firsts = Firsts {
        first: block.column as u64,
        lead: 1,
    };
    let row = block.row as u64;
    O::fill_row_bounds(into, &block.rounding, row, firsts, block.free_rows, limits);
}

/// The limits of all columns, to which rows are offered on the block's first diagonals, as many as `width` says.
pub(crate) fn fill_column_limits<O: Offers>(
    block: &Block,
    width: usize,
    limits: &mut [i32],
    into: &O::Into,
)
    requires places { length block.now.columns.differences.now ≤ length limits.old }
    ensures limits { (c : ℕ) → c < length block.now.columns.differences.now
        → IsColumnLimit block.now (O.keeps_column into.now) (first_on width c) c (item limits.new c) }
    ensures places { length limits.new ≡ length limits.old }
{
    let firsts = Firsts {
        first: block.row as u64,
        lead: width,
    };
    let column = block.column as u64;
    O::fill_column_bounds(
        into,
        &block.rounding,
        column,
        firsts,
        block.free_columns,
        limits,
    );
}

/// Whether a distance is within a limit.
#[inline]
pub(crate) fn is_within(limit: Limit, dist: u128) -> bool
    ensures { result ≡ false → IsBeyond limit dist }
{
    match limit {
        Limit::Every => true,
        Limit::Within(most) => dist <= most.0,
        Limit::Below(end) => dist < end.0,
    }
}
