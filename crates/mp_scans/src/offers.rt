//! How the windows of a pair are offered, and what of them is kept.

ghost use Rattle.std.specs.Prelude.{ℕ, ◌+◌, ◌^◌, ◌<◌, ◌≤◌, ◌≡◌, Bool, Some, true, false, length, slice_index_or};
ghost use Rattle.std.specs.Prelude.{FitsSigned};
ghost use Rattle.std.specs.Int.{w32};
ghost use Rattle.mp_series.specs.declared.limits.TheConstants.{MAX_SAMPLES};
ghost use Rattle.mp_defs.specs.Series.{Series};
ghost use Rattle.mp_defs.specs.Distance.{distance};
ghost use Rattle.mp_defs.specs.Profile.{windows_of};
ghost use Rattle.mp_sums.specs.Limits.{IsBeyond};
ghost use Rattle.mp_sums.specs.Residues.{item};
ghost use Rattle.mp_scans.specs.Firsts.{first_at};
ghost use Rattle.mp_scans.specs.Offering.{only, IsOffering, IsLimiting, TellsNothing};

use crate::limits::is_within;
use mp_nums::Sq;
use mp_sums::{Limit, NEVER, Rounding};

/// From which window on each of successive ones is compared: from `first` on up to place `lead`, and behind it from one
/// later on than the one before.
#[derive(Clone, Copy)]
pub struct Firsts {
    pub first: u64,
    pub lead: usize,
}

impl Firsts {
    /// From which window on the one at a place is compared.
    #[inline]
    pub fn at(&self, place: usize) -> u64
        requires { self.now.first + place + 1 < 2 ^ 64 }
        ensures { result ≡ first_at self.now place }
    {
        self.first + (place + 1).saturating_sub(self.lead) as u64
    }
}

/// A way to offer the windows of a pair. One window of the pair is a row and one a column.
pub trait Offers {
    /// What keeps the nearest windows.
    type Into;

    /// How far a column starts behind its row, at least.
    ghost least: { ℕ };

    /// There are places for the windows of these series, the first of which has the rows.
    ghost fits: { ℕ → Series → Series → Self.Into → Type 0 };

    /// A row and a column at a distance may be offered to each other.
    ghost may_offer: { Self.Into → ℕ → ℕ → ℕ → Type 0 };

    /// The second has what the first one had, and what these pairs of windows of the series give.
    ghost is_scanned: { ℕ → Series → Series → (ℕ → ℕ → Bool) → Self.Into → Self.Into → Type 0 };

    /// The windows that start at `row` and at `column` have this distance.
    fn offer(into: &mut Self::Into, row: u64, column: u64, dist: Sq)
        requires may { may_offer into.old row column dist.0 }
        requires row { row < MAX_SAMPLES }
        requires column { column < MAX_SAMPLES }
        requires small { dist.0 + 1 < 2 ^ 110 }
        ensures { (m : ℕ) (a b : Series) → fits m a b into.old → row < windows_of m a → column < windows_of m b
            → distance m a row b column ≡ Some dist.0 → is_scanned m a b (only row column) into.old into.new };

    /// A column at a distance gives the row nothing.
    ghost keeps_row: { Self.Into → ℕ → ℕ → ℕ → Type 0 };

    /// A row at a distance gives the column nothing.
    ghost keeps_column: { Self.Into → ℕ → ℕ → ℕ → Type 0 };

    /// Which distances of the columns from `first` on may still give the row something.
    fn row_limit(into: &Self::Into, row: u64, first: u64) -> Limit
        ensures { (column dist : ℕ) → first ≤ column → IsBeyond result dist → keeps_row into.now row column dist };

    /// Which distances of the rows from `first` on may still give the column something.
    fn column_limit(into: &Self::Into, column: u64, first: u64) -> Limit
        ensures { (row dist : ℕ) → first ≤ row → IsBeyond result dist → keeps_column into.now column row dist };

    /// Whether a row and a column at a distance may give each other something. What the limits tell is right; a test of
    /// the distance itself may be quicker.
    #[inline]
    fn may_give(into: &Self::Into, row: u64, column: u64, dist: Sq) -> bool
        requires may { may_offer into.now row column dist.0 }
        requires row { row < MAX_SAMPLES }
        requires column { column < MAX_SAMPLES }
        requires small { dist.0 + 1 < 2 ^ 110 }
        ensures row { result ≡ false → keeps_row into.now row column dist.0 }
        ensures column { result ≡ false → keeps_column into.now column row dist.0 }
    {
        let to_row = is_within(Self::row_limit(into, row, column), dist.0);
        let to_column = is_within(Self::column_limit(into, column, row), dist.0);
        to_row | to_column
    }

    /// A residue of pairs by a rounding, such that the columns from `first` on that have a greater one give the row
    /// nothing.
    #[inline]
    fn row_bound(into: &Self::Into, rounding: &Rounding, row: u64, first: u64) -> i32
        ensures { TellsNothing rounding.now.m rounding.now.shift first (keeps_row into.now row) result }
    {
        rounding.residue_limit(Self::row_limit(into, row, first))
    }

    /// A residue of pairs by a rounding, such that the rows from `first` on that have a greater one give the column
    /// nothing.
    #[inline]
    fn column_bound(into: &Self::Into, rounding: &Rounding, column: u64, first: u64) -> i32
        ensures { TellsNothing rounding.now.m rounding.now.shift first (keeps_column into.now column) result }
    {
        rounding.residue_limit(Self::column_limit(into, column, first))
    }

    /// Such residues for successive rows from `row` on of which no sample is missing.
    fn fill_row_bounds(
        into: &Self::Into,
        rounding: &Rounding,
        row: u64,
        firsts: Firsts,
        free: &[bool],
        bounds: &mut [i32],
    )
        requires places { length free.now ≤ length bounds.old }
        requires row { row + length free.now < 2 ^ 63 }
        requires first { firsts.first + length free.now < 2 ^ 63 }
        ensures bounds { (k : ℕ) → k < length free.now → slice_index_or free.now k false ≡ true
            → TellsNothing rounding.now.m rounding.now.shift (first_at firsts k) (keeps_row into.now (row + k))
            (item bounds.new k) }
        ensures fit { (k : ℕ) → k < length free.now → FitsSigned w32 (item bounds.new k) }
        ensures places { length bounds.new ≡ length bounds.old }
    {
        for k in 0..free.len() {
            bounds[k] = if free[k] {
                Self::row_bound(into, rounding, row + k as u64, firsts.at(k))
            } else {
                NEVER
            };
        }
    }

    /// Such residues for successive columns from `column` on of which no sample is missing.
    fn fill_column_bounds(
        into: &Self::Into,
        rounding: &Rounding,
        column: u64,
        firsts: Firsts,
        free: &[bool],
        bounds: &mut [i32],
    )
        requires places { length free.now ≤ length bounds.old }
        requires column { column + length free.now < 2 ^ 63 }
        requires first { firsts.first + length free.now < 2 ^ 63 }
        ensures bounds { (k : ℕ) → k < length free.now → slice_index_or free.now k false ≡ true
            → TellsNothing rounding.now.m rounding.now.shift (first_at firsts k) (keeps_column into.now (column + k))
            (item bounds.new k) }
        ensures fit { (k : ℕ) → k < length free.now → FitsSigned w32 (item bounds.new k) }
        ensures places { length bounds.new ≡ length bounds.old }
    {
        for k in 0..free.len() {
            bounds[k] = if free[k] {
                Self::column_bound(into, rounding, column + k as u64, firsts.at(k))
            } else {
                NEVER
            };
        }
    }

    /// Offers of more pairs give what these pairs give together.
    ghost laws: { IsOffering least fits may_offer is_scanned };

    /// What gives nothing is no matter.
    ghost limits: { IsLimiting least fits is_scanned keeps_row keeps_column };
}
