//! Pairs of windows of several channels that are offered to each other.

ghost use Rattle.std.specs.Prelude.{◌≡◌, ◌+◌, ◌<◌, ◌≤◌, length};
ghost use Rattle.mp_sums.specs.Residues.{item};
ghost use Rattle.mp_scans.specs.Offering.{only};
ghost use Rattle.mp_scans.specs.declared.vectors.TheConstants.{LANES};
ghost use Rattle.mp_multi.specs.declared.sizes.TheConstants.{WIDTH};
ghost use Rattle.mp_multi.specs.Blocks.{IsPairOf, IsRowOf, AreKeptIn, AreLimitsAt, AreScannedIn, in_pair, in_strip};

use crate::blocks::{Block, Known, Pair, Strip};
use crate::exacts::value_at;
use crate::running::Running;
use crate::scans::offer_both;
use crate::sides::window_limit;
use mp_nums::Slots;
use mp_scans::LANES;
use mp_sums::passes;
use std::simd::prelude::*;

/// Offers a row and a column to each other, by their value. It stands apart, so that the lanes of a row are tested in a
/// short loop.
#[inline(never)]
fn offer_pair<const D: usize>(
    block: &Block,
    p: usize,
    c: usize,
    kept: &mut [Option<usize>],
    running: &mut [[Running; D]],
    into: &mut Slots,
)
    requires channels { length block.now.moves.now ≡ D }
    requires row { p < block.now.rows }
    requires column { block.now.column + c < block.now.windows }
    requires order { p ≤ c }
    requires diagonal { c < p + WIDTH }
    requires windows { length into.old.items ≡ block.now.windows }
    requires kept { AreKeptIn block.now kept.old running.old }
    ensures scanned { AreScannedIn block.now (only (block.now.row + p) (block.now.column + c)) into.old into.new }
    ensures windows { length into.new.items ≡ block.now.windows }
    ensures kept { AreKeptIn block.now kept.new running.new }
{
    let (i, j) = (block.row + p, block.column + c);
    let t = c - p;
    let value = value_at::<D>(&block.plan.channels, &mut kept[t], &mut running[t], i, j);
    offer_both(into, i as u64, j as u64, value);
}

/// Takes a row and a column. They are offered to each other where their lane is within the limit of either, and their
/// limits are made anew. Only later rows are still offered to the column.
#[inline]
fn take_pair<const D: usize>(
    strip: &Strip,
    pair: Pair,
    known: &mut Known,
    running: &mut [[Running; D]],
    into: &mut Slots,
)
    requires channels { length strip.now.block.moves.now ≡ D }
    requires pair { IsPairOf strip.now pair }
    requires windows { length into.old.items ≡ strip.now.block.windows }
    requires limits { AreLimitsAt strip.now pair.row known.old into.old.items }
    requires kept { AreKeptIn strip.now.block known.old.kept running.old }
    ensures scanned { AreScannedIn strip.now.block (in_pair strip.now.block pair) into.old into.new }
    ensures limits { AreLimitsAt strip.now pair.row known.new into.new.items }
    ensures windows { length into.new.items ≡ strip.now.block.windows }
    ensures kept { AreKeptIn strip.now.block known.new.kept running.new }
{
    let (p, c) = (pair.row, pair.column);
    if passes(pair.lane, known.rows[p], known.columns[c]) {
        let block = &strip.block;
        offer_pair::<D>(block, p, c, &mut known.kept, running, into);
        let (i, j) = (block.row + p, block.column + c);
        known.rows[p] = window_limit(&block.plan, i, block.column + p, into);
        known.columns[c] = window_limit(&block.plan, j, i, into);
    }
}

/// The pair of a row and one of the strip's columns.
#[inline]
fn pair_at(strip: &Strip, p: usize, lanes: &i32x32, t: usize) -> Pair
    requires row { IsRowOf strip.now p lanes.now }
    requires lane { t < LANES }
    requires column { strip.now.block.column + (p + strip.now.offset) + t < strip.now.block.windows }
    ensures row { result.row ≡ p }
    ensures column { result.column ≡ p + strip.now.offset + t }
    ensures lane { result.lane ≡ item lanes.now t }
{
    Pair {
        row: p,
        column: p + strip.offset + t,
        lane: lanes.as_array()[t],
    }
}

/// Takes a row and its columns on the strip's diagonals, as far as there are windows.
#[inline(never)]
pub(crate) fn take_row<const D: usize>(
    strip: &Strip,
    p: usize,
    lanes: &i32x32,
    known: &mut Known,
    running: &mut [[Running; D]],
    into: &mut Slots,
)
    requires channels { length strip.now.block.moves.now ≡ D }
    requires row { IsRowOf strip.now p lanes.now }
    requires windows { length into.old.items ≡ strip.now.block.windows }
    requires limits { AreLimitsAt strip.now p known.old into.old.items }
    requires kept { AreKeptIn strip.now.block known.old.kept running.old }
    ensures scanned { AreScannedIn strip.now.block (in_strip strip.now p (p + 1)) into.old into.new }
    ensures limits { AreLimitsAt strip.now p known.new into.new.items }
    ensures windows { length into.new.items ≡ strip.now.block.windows }
    ensures kept { AreKeptIn strip.now.block known.new.kept running.new }
{
    let left = strip.block.windows - (strip.block.column + (p + strip.offset));
    let width = strip.width.min(left);
    for t in 0..width {
        let pair = pair_at(strip, p, lanes, t);
        take_pair::<D>(strip, pair, known, running, into);
    }
}
