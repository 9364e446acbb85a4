//! What a scan finds, for the columns of its rows and for the rows of its columns.

ghost use Rattle.std.specs.Prelude.{◌≡◌, ℕ, ◌<◌, Some};
ghost use Rattle.mp_defs.specs.Distance.{distance};
ghost use Rattle.mp_defs.specs.Profile.{windows_of};
ghost use Rattle.mp_scans.specs.Offering.{only, IsOffering, IsLimiting};
ghost use Rattle.tiles_tests.specs.Loose.{fits_any, may_any, scanned_any, keeps_any, any_offers, any_limits};

use mp_nums::{Near, Slot, Sq, nearer};
use mp_scans::{Offers, limit_of};
use mp_sums::Limit;

/// For each row its nearest column, and for each column its nearest row.
#[derive(Drop)]
pub(crate) struct Found {
    pub(crate) of_rows: Vec<Slot>,
    pub(crate) of_columns: Vec<Slot>,
}

/// Each window of a pair is offered to the other.
pub(crate) struct EachFound;

fn offer_to(slots: &mut [Slot], place: u64, index: u64, dist: Sq) {
    let place = place as usize;
    if place < slots.len() {
        slots[place] = nearer(slots[place], Some(Near { dist, index }));
    }
}

fn limit_at(slots: &[Slot], place: u64, first: u64) -> Limit {
    match slots.get(place as usize) {
        Some(slot) => limit_of(slot, first),
        None => Limit::Every,
    }
}

impl Offers for EachFound {
    type Into = Found;

    ghost least = { 0 };

    ghost fits = { fits_any };

    ghost may_offer = { may_any };

    ghost is_scanned = { scanned_any };

    ghost laws = { any_offers };

    ghost keeps_row = { keeps_any };

    ghost keeps_column = { keeps_any };

    ghost limits = { any_limits };

    fn offer(into: &mut Found, row: u64, column: u64, dist: Sq) {
        offer_to(into.of_rows.as_mut_slice(), row, column, dist);
        offer_to(into.of_columns.as_mut_slice(), column, row, dist);
    }

    fn row_limit(into: &Found, row: u64, first: u64) -> Limit {
        limit_at(into.of_rows.as_slice(), row, first)
    }

    fn column_limit(into: &Found, column: u64, first: u64) -> Limit {
        limit_at(into.of_columns.as_slice(), column, first)
    }
}
