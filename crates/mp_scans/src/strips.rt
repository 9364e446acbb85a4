//! Strips of thirty-two diagonals.

ghost use Rattle.std.specs.Prelude.{◌≡◌, ℕ, ◌+◌, ◌-◌, ◌<◌, ◌≤◌, min, length};
ghost use Rattle.mp_sums.specs.Residues.{item};
ghost use Rattle.mp_scans.specs.Blocks.{residue_in, AreResiduesOf, AreMovedOn, in_strip};
ghost use Rattle.mp_scans.specs.Limiting.{IsKnownAt};
ghost use Rattle.mp_scans.specs.Windows.{column_windows, AreScannedIn};

use crate::blocks::{Known, Row, Strip};
use crate::offers::Offers;
use crate::pairs::take_row;
use crate::plans::count_columns;
use crate::runs::{advance, pass_over};
use crate::vectors::{load, store};
use std::simd::prelude::*;

/// How many of the diagonals that are scanned have a column at a row.
#[inline]
fn lanes_at(strip: &Strip, p: usize) -> usize
    requires { p < strip.now.end }
    ensures { result ≡ min strip.now.width
        (column_windows strip.now.block.grid - (strip.now.block.column + (p + strip.now.offset))) }
{
    let left = count_columns(&strip.block.grid).saturating_sub(
        strip.block.column + (p + strip.offset),
    );
    strip.width.min(left)
}

/// Takes all rows of a strip.
fn scan_lanes<O: Offers>(
    strip: &Strip,
    known: &mut Known,
    residues: &mut i32x32,
    into: &mut O::Into,
)
    requires apart { strip.now.block.row + O.least ≤ strip.now.block.column + strip.now.offset }
    requires residues { AreResiduesOf strip.now 0 residues.old }
    requires known { IsKnownAt O.fits O.keeps_row O.keeps_column strip.now 0 known.old into.old }
    ensures residues { AreResiduesOf strip.now strip.now.end residues.new }
    ensures known { IsKnownAt O.fits O.keeps_row O.keeps_column strip.now strip.now.end known.new into.new }
    ensures scanned { AreScannedIn O.is_scanned strip.now.block.grid (in_strip strip.now 0 strip.now.end) into.old
        into.new }
{
    let mut done = 0;
    while done < strip.end {
        done = pass_over::<O>(strip, done, known, residues, into);
        if done < strip.end {
            let row = Row {
                place: done,
                width: lanes_at(strip, done),
                residues,
            };
            take_row::<O>(strip, &row, known, into);
            advance(&strip.block, done, done + strip.offset, residues);
            done += 1;
        }
    }
}

/// Takes all rows of a strip, by the residues that stand at its place. Where it has no row, there are none.
pub(crate) fn scan_strip<O: Offers>(
    strip: &Strip,
    residues: &mut [i32],
    known: &mut Known,
    into: &mut O::Into,
)
    requires apart { strip.now.block.row + O.least ≤ strip.now.block.column + strip.now.offset }
    requires places { strip.now.offset + 32 ≤ length residues.old }
    requires residues { 1 ≤ strip.now.end → (t : ℕ) → t < 32
        → item residues.old (strip.now.offset + t) ≡ residue_in strip.now.block 0 (strip.now.offset + t) }
    requires known { IsKnownAt O.fits O.keeps_row O.keeps_column strip.now 0 known.old into.old }
    ensures known { IsKnownAt O.fits O.keeps_row O.keeps_column strip.now strip.now.end known.new into.new }
    ensures scanned { AreScannedIn O.is_scanned strip.now.block.grid (in_strip strip.now 0 strip.now.end) into.old
        into.new }
    ensures moved { AreMovedOn strip.now residues.old residues.new }
{
    if strip.end > 0 {
        let mut lanes = i32x32::splat(0);
        load(&mut lanes, residues, strip.offset);
        scan_lanes::<O>(strip, known, &mut lanes, into);
        store(&lanes, residues, strip.offset);
    }
}
