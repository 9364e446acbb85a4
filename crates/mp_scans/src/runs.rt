//! Rows in which no pair is within a limit, on thirty-two diagonals at once.

ghost use Rattle.std.specs.Prelude.{ℕ, ◌+◌, ◌<◌, ◌≤◌, length, FitsSigned};
ghost use Rattle.std.specs.Int.{w32};
ghost use Rattle.mp_sums.specs.Residues.{item};
ghost use Rattle.mp_scans.specs.Blocks.{AreResiduesAt, AreResiduesOf, AreAbove, in_strip};
ghost use Rattle.mp_scans.specs.Limiting.{IsKnownAt};
ghost use Rattle.mp_scans.specs.Windows.{AreScannedIn};

use crate::blocks::{Block, Known, Strip};
use crate::offers::Offers;
use crate::vectors::{LANES, is_within, step};
use std::simd::prelude::*;

/// From the residues of a row and of thirty-two columns to those of the next row and of the next columns.
#[inline(always)]
pub(crate) fn advance(block: &Block, k: usize, c: usize, residues: &mut i32x32)
    requires row { k < length block.now.rows.differences.now }
    requires columns { c + LANES ≤ length block.now.columns.differences.now }
    requires residues { AreResiduesAt block.now k c residues.old }
    ensures { AreResiduesAt block.now (k + 1) (c + 1) residues.new }
{
    step(
        residues,
        &block.rows.differences[k],
        &block.rows.sums[k],
        &block.columns.differences[c..c + LANES],
        &block.columns.sums[c..c + LANES],
    );
}

/// Goes on from one row to the first in which a residue is within the limit of the row or that of its column, and no
/// further than to the last.
///
/// It stands apart, so that the residues stay in registers.
#[inline(never)]
pub(crate) fn run(strip: &Strip, from: usize, known: &Known, residues: &mut i32x32) -> usize
    requires ordered { from ≤ strip.now.end }
    requires fit { (c : ℕ) → c < length strip.now.block.columns.differences.now
        → FitsSigned w32 (item known.now.columns c) }
    requires residues { AreResiduesOf strip.now from residues.old }
    ensures behind { from ≤ result }
    ensures within { result ≤ strip.now.end }
    ensures residues { AreResiduesOf strip.now result residues.new }
    ensures above { AreAbove strip.now known.now.rows known.now.columns from result }
{
    let strip = *strip;
    let mut next = *residues;
    for q in from..strip.end {
        let c = q + strip.offset;
        if is_within(&next, &known.rows[q], &known.columns[c..c + LANES]) {
            *residues = next;
            return q;
        }
        advance(&strip.block, q, c, &mut next);
    }
    *residues = next;
    strip.end
}

/// Passes over the rows from one on in which no pair is within a limit. Such pairs give what keeps the nearest windows
/// nothing.
#[inline]
pub(crate) fn pass_over<O: Offers>(
    strip: &Strip,
    from: usize,
    known: &Known,
    residues: &mut i32x32,
    into: &O::Into,
) -> usize
    requires ordered { from ≤ strip.now.end }
    requires apart { strip.now.block.row + O.least ≤ strip.now.block.column + strip.now.offset }
    requires known { IsKnownAt O.fits O.keeps_row O.keeps_column strip.now from known.now into.now }
    requires residues { AreResiduesOf strip.now from residues.old }
    ensures behind { from ≤ result }
    ensures within { result ≤ strip.now.end }
    ensures residues { AreResiduesOf strip.now result residues.new }
    ensures scanned { AreScannedIn O.is_scanned strip.now.block.grid (in_strip strip.now from result) into.now
        into.now }
{
    run(strip, from, known, residues)
}
