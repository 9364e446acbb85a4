//! Two series in coarse sums.

ghost use Rattle.std.specs.Prelude.{◌≡◌, ◌+◌, ◌*◌, ◌^◌, ◌<◌, ◌≤◌};
ghost use Rattle.mp_skips.specs.Slack.{IsSlack};
ghost use Rattle.mp_skips.specs.Lists.{AreLists};
ghost use Rattle.mp_skips.specs.declared.sums.TheConstants.{MOST_GRAINS};

use mp_nums::{Sample, Whole};
use mp_scans::Plan;

/// More units than any sum has, and more than any sample lies above the low number. So the squares of those of a
/// window's rows and columns have 62 bits together.
pub const MOST_GRAINS: u32 = 16_777_216;

/// More than the coarse sum of squares of any block or diagonal of two series.
pub const MOST_SUM: u64 = 576_460_752_303_423_488;

/// A coarse sum of squares that no block reaches, nor do those of eight times two series together.
pub const NO_NEED: u64 = 4_611_686_018_427_387_904;

/// A unit in which numbers are rounded down: a power of two, 1 where they are left as they are.
#[derive(Clone, Copy)]
pub struct Unit {
    /// By how many bits numbers are shifted.
    pub shift: u32,
    pub size: u32,
    /// How many units are left for what rounding takes.
    pub slack: u32,
    pub ghost power: { size ≡ 2 ^ shift },
    pub ghost short: { shift ≤ 31 },
    pub ghost some: { 1 ≤ size },
    pub ghost few: { slack ≤ 1 },
    pub ghost enough: { IsSlack size slack },
    pub ghost exact: { size ≡ 1 → slack ≡ 0 },
}

/// In which units series are summed.
#[derive(Clone, Copy)]
pub struct Units {
    /// A number that no sample lies below.
    pub low: Whole,
    /// How far samples lie above it at most.
    pub width: u64,
    /// How many times eight samples a sum has.
    pub eights: usize,
    /// In which unit samples are rounded down.
    pub step: Unit,
    /// In which unit sums are rounded down.
    pub grain: Unit,
    pub ghost some: { 1 ≤ eights },
    pub ghost few: { eights ≤ 8 },
    pub ghost narrow: { width < 2 ^ 49 },
    pub ghost steps: { width < MOST_GRAINS * step.size },
    pub ghost fits: { 8 * eights * width < MOST_GRAINS * grain.size },
}

/// A series in plain numbers and in sums of successive samples, both rounded down.
#[derive(Clone, Copy)]
pub struct Side<'a> {
    pub samples: &'a [Sample],
    /// How many samples a window has.
    pub m: usize,
    pub units: Units,
    /// How many steps each sample lies above the low number. A missing one counts as 0.
    pub levels: &'a [u32],
    /// The sums from each place on.
    pub floors: &'a [u32],
    /// From which number of grains on the sums lie, for each eight places.
    pub least: &'a [u32],
    /// Up to which they lie.
    pub greatest: &'a [u32],
    /// Whether no sample of a window is missing.
    pub free: &'a [bool],
    pub ghost lists: { AreLists units.low units.width (8 * units.eights) units.step.size units.grain.size m samples.now
        levels.now floors.now least.now greatest.now free.now },
}

/// Two series whose windows are compared, in sums of successive samples. A block of pairs has as many successive rows
/// as a sum has samples, on the diagonals of eight successive columns. The windows of its rows on one diagonal share
/// the samples behind the first sum, and sums of these bound how far all of them are apart.
#[derive(Clone, Copy)]
pub struct Coarse<'a> {
    pub plan: Plan<'a>,
    pub rows: Side<'a>,
    pub columns: Side<'a>,
    /// How many sums of a window are compared.
    pub terms: usize,
    pub ghost row_samples: { rows.samples.now ≡ plan.grid.rows.now },
    pub ghost column_samples: { columns.samples.now ≡ plan.grid.columns.now },
    pub ghost row_length: { rows.m ≡ plan.grid.m },
    pub ghost column_length: { columns.m ≡ plan.grid.m },
    pub ghost same_units: { columns.units ≡ rows.units },
    pub ghost wide: { (terms + 1) * (8 * rows.units.eights) ≤ plan.grid.m },
}
