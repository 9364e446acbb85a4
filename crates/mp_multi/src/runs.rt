//! Rows of several channels in which no pair is within a limit, on thirty-two diagonals at once.

ghost use Rattle.std.specs.Prelude.{◌≡◌, ℕ, ◌+◌, ◌<◌, ◌≤◌, length, map, All};
ghost use Rattle.mp_defs.specs.Series.{series_of};
ghost use Rattle.mp_sums.specs.Residues.{item};
ghost use Rattle.mp_scans.specs.Lanes.{AreLanes};
ghost use Rattle.mp_scans.specs.declared.vectors.TheConstants.{LANES};
ghost use Rattle.mp_multi.specs.Lanes.{IsLane, AreChannelResidues};
ghost use Rattle.mp_multi.specs.Blocks.{IsChannelAt, AreResiduesAt, AreAbove, AreLimitsAt, AreFit};
ghost use Rattle.mp_multi.specs.Blocks.{in_strip, AreScannedIn};
ghost use Rattle.mp_multi.specs.declared.sizes.TheConstants.{WIDE};

use crate::blocks::{Block, Known, Strip};
use crate::lanes::{all_lanes, least_lanes, lower_lanes, lowest_lanes};
use crate::limits::PLACES;
use crate::plans::MultiPlan;
use mp_nums::Slots;
use mp_scans::{LANES, is_within, load, step, store};
use mp_sums::ZERO;
use std::simd::prelude::*;

/// From the residues of a row and of thirty-two columns to those of the next row and of the next columns, in a channel.
#[inline(always)]
fn advance_channel(block: &Block, n: usize, p: usize, c: usize, residues: &mut [i32; LANES])
    requires channel { n < length block.now.moves.now }
    requires row { p < block.now.rows }
    requires columns { c + LANES ≤ WIDE }
    requires residues { IsChannelAt block.now n p c residues.old }
    ensures { IsChannelAt block.now n (p + 1) (c + 1) residues.new }
{
    let moves = &block.moves[n];
    let mut next = i32x32::splat(0);
    load(&mut next, residues, 0);
    step(
        &mut next,
        &moves.row_differences[p],
        &moves.row_sums[p],
        &moves.column_differences[c..c + LANES],
        &moves.column_sums[c..c + LANES],
    );
    store(&next, residues, 0);
}

/// The same in each channel.
#[inline(always)]
pub(crate) fn advance(block: &Block, p: usize, c: usize, residues: &mut [[i32; LANES]])
    requires row { p < block.now.rows }
    requires columns { c + LANES ≤ WIDE }
    requires residues { AreResiduesAt block.now p c residues.old }
    ensures { AreResiduesAt block.now (p + 1) (c + 1) residues.new }
{
    for n in 0..residues.len() {
        advance_channel(block, n, p, c, &mut residues[n]);
    }
}

/// The lanes of a window and of thirty-two others, from their residues in each channel.
#[inline(always)]
pub(crate) fn lanes_of<const D: usize>(plan: &MultiPlan, residues: &[[i32; LANES]]) -> i32x32
    requires count { length residues.now ≡ D }
    requires channels { length residues.now ≡ length plan.now.channels.list.now }
    requires residues { All AreLanes residues.now }
    ensures lanes { AreLanes result }
    ensures each { (i j t : ℕ) → t < LANES
        → AreChannelResidues plan.now.channels.m plan.now.shift (map series_of plan.now.channels.list.now) i j
        residues.now
        → IsLane plan.now.channels.m plan.now.channels.k plan.now.shift (map series_of plan.now.channels.list.now) i
        (j + t) (item result t) }
{
    let floors = [ZERO; PLACES];
    let floors = &floors[..residues.len()];
    let k = plan.channels.k as usize;
    if k == residues.len() {
        return all_lanes(residues, floors);
    }
    if k == 1 {
        return lowest_lanes(residues, floors);
    }
    if k + 1 == residues.len() {
        return lower_lanes(residues, floors);
    }
    least_lanes::<D>(residues, k)
}

/// Goes on from one row to the first in which a lane is within the limit of the row or that of its column, and no
/// further than to the last.
///
/// It stands apart, so that nothing else takes registers.
#[inline(never)]
fn run<const D: usize>(
    strip: &Strip,
    from: usize,
    known: &Known,
    residues: &mut [[i32; LANES]],
) -> usize
    requires channels { length strip.now.block.moves.now ≡ D }
    requires ordered { from ≤ strip.now.end }
    requires fit { AreFit known.now }
    requires residues { AreResiduesAt strip.now.block from (from + strip.now.offset) residues.old }
    ensures behind { from ≤ result }
    ensures within { result ≤ strip.now.end }
    ensures residues { AreResiduesAt strip.now.block result (result + strip.now.offset) residues.new }
    ensures above { AreAbove strip.now known.now from result }
{
    let strip = *strip;
    let mut next = [[0; LANES]; D];
    next.copy_from_slice(residues);
    for q in from..strip.end {
        let c = q + strip.offset;
        let lanes = lanes_of::<D>(&strip.block.plan, &next);
        if is_within(&lanes, &known.rows[q], &known.columns[c..c + LANES]) {
            residues.copy_from_slice(&next);
            return q;
        }
        advance(&strip.block, q, c, &mut next);
    }
    residues.copy_from_slice(&next);
    strip.end
}

/// Passes over the rows from one on in which no pair is within a limit. Such pairs give the slots nothing.
#[inline]
pub(crate) fn pass_over<const D: usize>(
    strip: &Strip,
    from: usize,
    known: &Known,
    residues: &mut [[i32; LANES]],
    into: &Slots,
) -> usize
    requires channels { length strip.now.block.moves.now ≡ D }
    requires ordered { from ≤ strip.now.end }
    requires windows { length into.now.items ≡ strip.now.block.windows }
    requires limits { AreLimitsAt strip.now from known.now into.now.items }
    requires residues { AreResiduesAt strip.now.block from (from + strip.now.offset) residues.old }
    ensures behind { from ≤ result }
    ensures within { result ≤ strip.now.end }
    ensures residues { AreResiduesAt strip.now.block result (result + strip.now.offset) residues.new }
    ensures scanned { AreScannedIn strip.now.block (in_strip strip.now from result) into.now into.now }
{
    let _windows = into.as_slice().len();
    run::<D>(strip, from, known, residues)
}
