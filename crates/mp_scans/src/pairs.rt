//! Pairs of windows that are offered to each other.

ghost use Rattle.std.specs.Prelude.{◌≡◌, ◌≢◌, ℕ, ◌+◌, ◌^◌, ◌<◌, ◌≤◌, length, true, false, Some, IsTrue, IsSome, ◌↔◌};
ghost use Rattle.mp_sums.specs.Grids.{distance_in};
ghost use Rattle.mp_scans.specs.Blocks.{IsColumn, IsPairOf, IsRowOf, in_pair, in_columns};
ghost use Rattle.mp_scans.specs.Exacts.{AreExactsIn};
ghost use Rattle.mp_scans.specs.Limiting.{IsRowLimit, IsColumnLimit, IsKnownAt, AreKept};
ghost use Rattle.mp_scans.specs.Offering.{only};
ghost use Rattle.mp_scans.specs.Windows.{FitIn, AreScannedIn};

use crate::blocks::{Block, Known, Pair, Row, Strip};
use crate::exacts::{Exact, distance_by};
use crate::limits::{column_limit, row_limit};
use crate::offers::Offers;
use crate::vectors::{LANES, lanes_above, least_lane, next_clear};
use mp_nums::Sq;
use mp_sums::{passes, sum_of};

/// Whether a row and a column have a distance: no sample of either is missing.
#[inline]
fn are_free(block: &Block, p: usize, c: usize) -> bool
    requires row { p < length block.now.rows.differences.now }
    requires column { c < length block.now.columns.differences.now }
    ensures { IsTrue result ↔ IsSome (distance_in block.now.grid (block.now.row + p) (block.now.column + c)) }
{
    block.free_rows[p] & block.free_columns[c]
}

/// The distance of a row and a column that lack no sample: that of their residue, where this tells it.
#[inline(always)]
fn distance_at(strip: &Strip, pair: Pair, exacts: &mut [Option<Exact>]) -> u128
    requires pair { IsPairOf strip.now pair }
    requires free { IsSome (distance_in strip.now.block.grid (strip.now.block.row + pair.row)
        (strip.now.block.column + pair.column)) }
    requires exacts { AreExactsIn strip.now.block exacts.old }
    ensures exacts { AreExactsIn strip.now.block exacts.new }
    ensures small { result + 1 < 2 ^ 110 }
    ensures distance { (d : ℕ) → distance_in strip.now.block.grid (strip.now.block.row + pair.row)
        (strip.now.block.column + pair.column) ≡ Some d → result ≡ d }
{
    let block = &strip.block;
    if block.is_exact {
        sum_of(pair.residue)
    } else {
        let (row, column) = (block.row + pair.row, block.column + pair.column);
        distance_by(&block.grid, block.column - block.row, exacts, row, column)
    }
}

/// Offers a row and a column at a distance to each other, where that may give one of them something, and tells whether
/// it may. Mostly it doesn't where rounding hides the distance, or where its sum wraps.
#[inline]
fn offer_at<O: Offers>(block: &Block, p: usize, c: usize, dist: u128, into: &mut O::Into) -> bool
    requires row { p < length block.now.rows.differences.now }
    requires is_column { IsColumn block.now c }
    requires apart { block.now.row + p + O.least ≤ block.now.column + c }
    requires dist { distance_in block.now.grid (block.now.row + p) (block.now.column + c) ≡ Some dist }
    requires small { dist + 1 < 2 ^ 110 }
    requires fits { FitIn O.fits block.now.grid into.old }
    ensures { AreScannedIn O.is_scanned block.now.grid (only (block.now.row + p) (block.now.column + c)) into.old
        into.new }
{
    let (row, column) = ((block.row + p) as u64, (block.column + c) as u64);
    let dist = Sq(dist);
    if O::may_give(into, row, column, dist) {
        O::offer(into, row, column, dist);
        true
    } else {
        false
    }
}

/// Offers a row and a column to each other, where no sample of either is missing and their distance may give one of
/// them something, and tells whether it is so.
fn offer_pair<O: Offers>(
    strip: &Strip,
    pair: Pair,
    exacts: &mut [Option<Exact>],
    into: &mut O::Into,
) -> bool
    requires pair { IsPairOf strip.now pair }
    requires apart { strip.now.block.row + O.least ≤ strip.now.block.column + strip.now.offset }
    requires exacts { AreExactsIn strip.now.block exacts.old }
    requires fits { FitIn O.fits strip.now.block.grid into.old }
    ensures scanned { AreScannedIn O.is_scanned strip.now.block.grid (in_pair strip.now.block pair) into.old into.new }
    ensures exacts { AreExactsIn strip.now.block exacts.new }
{
    let (p, c) = (pair.row, pair.column);
    if are_free(&strip.block, p, c) {
        let dist = distance_at(strip, pair, exacts);
        offer_at::<O>(&strip.block, p, c, dist, into)
    } else {
        false
    }
}

/// The limit of a pair's row behind the pair, where one from before is known. It is made anew where the pair was within
/// it.
#[inline]
fn next_row_limit<O: Offers>(strip: &Strip, pair: Pair, limit: i32, into: &O::Into) -> i32
    requires row { pair.row < strip.now.end }
    requires limit { IsRowLimit strip.now.block (O.keeps_row into.now) pair.row pair.row limit }
    ensures { IsRowLimit strip.now.block (O.keeps_row into.now) pair.row pair.row result }
{
    if pair.residue <= limit {
        row_limit::<O>(&strip.block, pair.row, into)
    } else {
        limit
    }
}

/// The same of its column.
#[inline]
fn next_column_limit<O: Offers>(strip: &Strip, pair: Pair, limit: i32, into: &O::Into) -> i32
    requires column { pair.column < length strip.now.block.columns.differences.now }
    requires order { pair.row ≤ pair.column }
    requires limit { IsColumnLimit strip.now.block (O.keeps_column into.now) pair.row pair.column limit }
    ensures { IsColumnLimit strip.now.block (O.keeps_column into.now) pair.row pair.column result }
{
    if pair.residue <= limit {
        column_limit::<O>(&strip.block, pair.row, pair.column, into)
    } else {
        limit
    }
}

/// Offers a row and a column to each other, and makes their limits anew where that may change them. Only later rows are
/// still offered to the column. It stands apart, so that the lanes of a row are tested in a short loop.
#[inline(never)]
fn offer_within<O: Offers>(strip: &Strip, pair: Pair, known: &mut Known, into: &mut O::Into)
    requires pair { IsPairOf strip.now pair }
    requires apart { strip.now.block.row + O.least ≤ strip.now.block.column + strip.now.offset }
    requires known { IsKnownAt O.fits O.keeps_row O.keeps_column strip.now pair.row known.old into.old }
    ensures scanned { AreScannedIn O.is_scanned strip.now.block.grid (in_pair strip.now.block pair) into.old into.new }
    ensures known { IsKnownAt O.fits O.keeps_row O.keeps_column strip.now pair.row known.new into.new }
{
    let (p, c) = (pair.row, pair.column);
    if offer_pair::<O>(strip, pair, &mut known.exacts, into) {
        known.rows[p] = next_row_limit::<O>(strip, pair, known.rows[p], into);
        known.columns[c] = next_column_limit::<O>(strip, pair, known.columns[c], into);
    }
}

/// Takes a row and a column. They are offered to each other where their residue is within the limit of either.
#[inline(always)]
fn take_pair<O: Offers>(strip: &Strip, pair: Pair, known: &mut Known, into: &mut O::Into)
    requires pair { IsPairOf strip.now pair }
    requires apart { strip.now.block.row + O.least ≤ strip.now.block.column + strip.now.offset }
    requires known { IsKnownAt O.fits O.keeps_row O.keeps_column strip.now pair.row known.old into.old }
    ensures scanned { AreScannedIn O.is_scanned strip.now.block.grid (in_pair strip.now.block pair) into.old into.new }
    ensures known { IsKnownAt O.fits O.keeps_row O.keeps_column strip.now pair.row known.new into.new }
{
    if passes(
        pair.residue,
        known.rows[pair.row],
        known.columns[pair.column],
    ) {
        offer_within::<O>(strip, pair, known, into);
    }
}

/// The pair of a row and one of the strip's columns.
#[inline]
fn pair_at(strip: &Strip, row: &Row, t: usize) -> Pair
    requires row { IsRowOf strip.now row.now }
    requires lane { t < row.now.width }
    ensures row { result.row ≡ row.now.place }
    ensures column { result.column ≡ row.now.place + strip.now.offset + t }
    ensures pair { IsPairOf strip.now result }
{
    Pair {
        row: row.place,
        column: row.place + strip.offset + t,
        residue: row.residues.as_array()[t],
    }
}

/// Whether a column is another than the one that was taken first.
#[inline]
fn is_other(t: usize, first: usize) -> bool
    ensures other { result ≡ true → t ≢ first }
    ensures same { result ≡ false → t ≡ first }
{
    t != first
}

/// A bit for each of a row's thirty-two columns, set where it is above both limits. Such a pair gives what keeps the
/// nearest windows nothing, then and later.
#[inline]
fn columns_above<O: Offers>(strip: &Strip, row: &Row, known: &Known, into: &O::Into) -> u64
    requires row { IsRowOf strip.now row.now }
    requires known { IsKnownAt O.fits O.keeps_row O.keeps_column strip.now row.now.place known.now into.now }
    ensures kept { AreKept strip.now.block (O.keeps_row into.now) (O.keeps_column into.now) row.now.place
        (row.now.place + strip.now.offset) result }
    ensures small { result < 2 ^ 32 }
{
    let c = row.place + strip.offset;
    let limits = &known.columns[c..c + LANES];
    lanes_above(row.residues, &known.rows[row.place], limits)
}

/// Takes a row and the strip's first columns. The one that seems nearest comes first, since it may bring the limits
/// below the others.
#[inline(never)]
pub(crate) fn take_row<O: Offers>(strip: &Strip, row: &Row, known: &mut Known, into: &mut O::Into)
    requires row { IsRowOf strip.now row.now }
    requires apart { strip.now.block.row + O.least ≤ strip.now.block.column + strip.now.offset }
    requires known { IsKnownAt O.fits O.keeps_row O.keeps_column strip.now row.now.place known.old into.old }
    ensures scanned { AreScannedIn O.is_scanned strip.now.block.grid
        (in_columns strip.now row.now.place row.now.width) into.old into.new }
    ensures known { IsKnownAt O.fits O.keeps_row O.keeps_column strip.now row.now.place known.new into.new }
{
    let nearest = least_lane(row.residues, row.width);
    let first = pair_at(strip, row, nearest);
    take_pair::<O>(strip, first, known, into);
    let above = columns_above::<O>(strip, row, known, into);
    let mut t = next_clear(above, 0, row.width);
    while t < row.width {
        let next = next_clear(above, t + 1, row.width);
        if is_other(t, nearest) {
            let pair = pair_at(strip, row, t);
            take_pair::<O>(strip, pair, known, into);
        }
        t = next;
    }
}
