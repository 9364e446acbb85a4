//! How the windows of a pair are offered: each to the other, or one of them to the other.

ghost use Rattle.std.specs.Prelude.{◌≡◌, ℕ, ◌<◌, length, Some};
ghost use Rattle.mp_defs.specs.Series.{Series};
ghost use Rattle.mp_defs.specs.Distance.{distance};
ghost use Rattle.mp_defs.specs.Profile.{windows_of};
ghost use Rattle.mp_partial.specs.Values.{offered};
ghost use Rattle.mp_scans.specs.Offering.{only};
ghost use Rattle.mp_tiles.specs.OfferingLaws.{fits_each, may_each, is_scanned_each, each_to_other};
ghost use Rattle.mp_tiles.specs.OfferingLaws.{fits_rows, may_row, is_scanned_rows, column_to_row};
ghost use Rattle.mp_tiles.specs.OfferingLaws.{fits_columns, may_column, is_scanned_columns, row_to_column};
ghost use Rattle.mp_tiles.specs.PatchScanning.{HasTakenFrom, fits_patch, may_patch, is_scanned_patch};
ghost use Rattle.mp_tiles.specs.PatchScanning.{keeps_row_patch, keeps_column_patch};
ghost use Rattle.mp_tiles.specs.PatchLaws.{patch_offers, patch_limits};
ghost use Rattle.mp_tiles.specs.LimitLaws.{keeps_row_each, keeps_column_each, each_limits};
ghost use Rattle.mp_tiles.specs.LimitLaws.{keeps_row_slot, keeps_column_slot, keeps_all, row_limits, column_limits};

use crate::limits::{either, limit_at};
use mp_nums::{Near, Slot, Sq, nearer};
use mp_partial::{Patch, Profile};
use mp_scans::Offers;
use mp_sums::Limit;

/// Each of two windows of one series is offered to the other, on the side on which it starts.
pub(crate) struct OnBothSides;

/// Each of two windows of one series is offered to the other, on its side and among all.
pub(crate) struct EachToOther;

/// Each is offered to the other, where a patch has a slot for it.
pub(crate) struct EachInPatch;

/// The column is offered to the row. The slots are those of the rows.
#[derive(Drop)]
pub(crate) struct ColumnToRow<'a> {
    pub(crate) slots: &'a mut [Slot],
}

/// The row is offered to the column. The slots are those of the columns.
#[derive(Drop)]
pub(crate) struct RowToColumn<'a> {
    pub(crate) slots: &'a mut [Slot],
}

impl Offers for EachToOther {
    type Into = Profile;

    ghost least = { 1 };

    ghost fits = { fits_each };

    ghost may_offer = { may_each };

    ghost is_scanned = { is_scanned_each };

    ghost laws = { each_to_other };

    ghost keeps_row = { keeps_row_each };

    ghost keeps_column = { keeps_column_each };

    ghost limits = { each_limits };

    #[inline]
    fn offer(into: &mut Profile, row: u64, column: u64, dist: Sq) {
        into.offer(row, column, dist);
        into.offer(column, row, dist);
    }

    #[inline]
    fn row_limit(into: &Profile, row: u64, first: u64) -> Limit {
        let later = limit_at(into.right(), row, first);
        either(later, limit_at(into.all(), row, first))
    }

    #[inline]
    fn column_limit(into: &Profile, column: u64, first: u64) -> Limit {
        let earlier = limit_at(into.left(), column, first);
        either(earlier, limit_at(into.all(), column, first))
    }
}

/// The column is offered to the row, where that is a row of the patch.
#[inline]
fn offer_row(into: &mut Patch, row: u64, column: u64, dist: Sq)
    ensures first_row { into.new.first_row ≡ into.old.first_row }
    ensures rows { (m : ℕ) (a b : Series) → row < windows_of m a → column < windows_of m b
        → distance m a row b column ≡ Some dist.0
        → HasTakenFrom (only row column) m a b into.old.first_row into.old.rows into.new.rows }
    ensures first_column { into.new.first_column ≡ into.old.first_column }
    ensures columns { into.new.columns ≡ into.old.columns }
{
    if into.has_row(row) {
        into.offer_row(row, column, dist);
    }
}

/// The row is offered to the column, where that is a column of the patch.
#[inline]
fn offer_column(into: &mut Patch, row: u64, column: u64, dist: Sq)
    ensures first_row { into.new.first_row ≡ into.old.first_row }
    ensures rows { into.new.rows ≡ into.old.rows }
    ensures first_column { into.new.first_column ≡ into.old.first_column }
    ensures columns { (m : ℕ) (a b : Series) → row < windows_of m a → column < windows_of m b
        → distance m a row b column ≡ Some dist.0
        → HasTakenFrom (λ j i. only row column i j) m b a into.old.first_column into.old.columns into.new.columns }
{
    if into.has_column(column) {
        into.offer_column(row, column, dist);
    }
}

impl Offers for EachInPatch {
    type Into = Patch;

    ghost least = { 0 };

    ghost fits = { fits_patch };

    ghost may_offer = { may_patch };

    ghost is_scanned = { is_scanned_patch };

    ghost laws = { patch_offers };

    ghost keeps_row = { keeps_row_patch };

    ghost keeps_column = { keeps_column_patch };

    ghost limits = { patch_limits };

    #[inline]
    fn offer(into: &mut Patch, row: u64, column: u64, dist: Sq) {
        offer_row(into, row, column, dist);
        offer_column(into, row, column, dist);
    }

    #[inline]
    fn row_limit(into: &Patch, row: u64, first: u64) -> Limit {
        limit_at(into.rows(), row.saturating_sub(into.first_row()), first)
    }

    #[inline]
    fn column_limit(into: &Patch, column: u64, first: u64) -> Limit {
        limit_at(
            into.columns(),
            column.saturating_sub(into.first_column()),
            first,
        )
    }
}

/// Keeps the nearer of what stands at a place and of window `index` at a distance.
#[inline]
fn offer_slot(slots: &mut [Slot], place: u64, index: u64, dist: Sq)
    requires { place < length slots.old }
    ensures { slots.new ≡ offered slots.old place (record { dist = dist; index = index }) }
{
    let slot = &mut slots[place as usize];
    *slot = nearer(*slot, Some(Near { dist, index }));
}

impl<'a> Offers for ColumnToRow<'a> {
    type Into = ColumnToRow<'a>;

    ghost least = { 0 };

    ghost fits = { fits_rows };

    ghost may_offer = { may_row };

    ghost is_scanned = { is_scanned_rows };

    ghost laws = { column_to_row };

    ghost keeps_row = { keeps_row_slot };

    ghost keeps_column = { keeps_all };

    ghost limits = { row_limits };

    #[inline]
    fn offer(into: &mut ColumnToRow<'a>, row: u64, column: u64, dist: Sq) {
        offer_slot(into.slots, row, column, dist);
    }

    #[inline]
    fn row_limit(into: &ColumnToRow<'a>, row: u64, first: u64) -> Limit {
        limit_at(into.slots, row, first)
    }

    #[inline]
    fn column_limit(_into: &ColumnToRow<'a>, _column: u64, _first: u64) -> Limit {
        Limit::Below(Sq(0))
    }
}

impl<'a> Offers for RowToColumn<'a> {
    type Into = RowToColumn<'a>;

    ghost least = { 0 };

    ghost fits = { fits_columns };

    ghost may_offer = { may_column };

    ghost is_scanned = { is_scanned_columns };

    ghost laws = { row_to_column };

    ghost keeps_row = { keeps_all };

    ghost keeps_column = { keeps_column_slot };

    ghost limits = { column_limits };

    #[inline]
    fn offer(into: &mut RowToColumn<'a>, row: u64, column: u64, dist: Sq) {
        offer_slot(into.slots, column, row, dist);
    }

    #[inline]
    fn row_limit(_into: &RowToColumn<'a>, _row: u64, _first: u64) -> Limit {
        Limit::Below(Sq(0))
    }

    #[inline]
    fn column_limit(into: &RowToColumn<'a>, column: u64, first: u64) -> Limit {
        limit_at(into.slots, column, first)
    }
}
