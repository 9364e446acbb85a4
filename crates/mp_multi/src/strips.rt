//! Strips of thirty-two diagonals of several channels.

ghost use Rattle.std.specs.Prelude.{◌≡◌, ℕ, ◌+◌, ◌<◌, ◌≤◌, length};
ghost use Rattle.mp_multi.specs.Blocks.{AreResiduesAt, AreKeptIn, AreLimitsAt, AreScannedIn, in_strip};

use crate::blocks::{Known, Strip};
use crate::pairs::take_row;
use crate::running::Running;
use crate::runs::{advance, lanes_of, pass_over};
use mp_nums::Slots;
use mp_scans::LANES;

/// Takes a row, and moves the residues on to the next.
fn take_lanes<const D: usize>(
    strip: &Strip,
    p: usize,
    known: &mut Known,
    running: &mut [[Running; D]],
    residues: &mut [[i32; LANES]],
    into: &mut Slots,
)
    requires channels { length strip.now.block.moves.now ≡ D }
    requires row { p < strip.now.end }
    requires windows { length into.old.items ≡ strip.now.block.windows }
    requires limits { AreLimitsAt strip.now p known.old into.old.items }
    requires kept { AreKeptIn strip.now.block known.old.kept running.old }
    requires residues { AreResiduesAt strip.now.block p (p + strip.now.offset) residues.old }
    ensures residues { AreResiduesAt strip.now.block (p + 1) (p + 1 + strip.now.offset) residues.new }
    ensures limits { AreLimitsAt strip.now p known.new into.new.items }
    ensures windows { length into.new.items ≡ strip.now.block.windows }
    ensures kept { AreKeptIn strip.now.block known.new.kept running.new }
    ensures scanned { AreScannedIn strip.now.block (in_strip strip.now p (p + 1)) into.old into.new }
{
    let lanes = lanes_of::<D>(&strip.block.plan, residues);
    take_row::<D>(strip, p, &lanes, known, running, into);
    advance(&strip.block, p, p + strip.offset, residues);
}

/// Takes all rows of a strip, from the residues of its first row in each channel to those behind its last.
pub(crate) fn scan_strip<const D: usize>(
    strip: &Strip,
    known: &mut Known,
    running: &mut [[Running; D]],
    residues: &mut [[i32; LANES]],
    into: &mut Slots,
)
    requires channels { length strip.now.block.moves.now ≡ D }
    requires windows { length into.old.items ≡ strip.now.block.windows }
    requires limits { AreLimitsAt strip.now 0 known.old into.old.items }
    requires kept { AreKeptIn strip.now.block known.old.kept running.old }
    requires residues { 1 ≤ strip.now.end → AreResiduesAt strip.now.block 0 strip.now.offset residues.old }
    ensures residues { 1 ≤ strip.now.end
        → AreResiduesAt strip.now.block strip.now.end (strip.now.end + strip.now.offset) residues.new }
    ensures limits { AreLimitsAt strip.now strip.now.end known.new into.new.items }
    ensures windows { length into.new.items ≡ strip.now.block.windows }
    ensures kept { AreKeptIn strip.now.block known.new.kept running.new }
    ensures scanned { AreScannedIn strip.now.block (in_strip strip.now 0 strip.now.end) into.old into.new }
{
    let mut done = 0;
    while done < strip.end {
        done = pass_over::<D>(strip, done, known, residues, into);
        if done < strip.end {
            take_lanes::<D>(strip, done, known, running, residues, into);
            done += 1;
        }
    }
}
