//! How each of two windows of a series is offered to the other's ranks.

ghost use Rattle.std.specs.Prelude.{ℕ, ◌≤◌, map, slice_index_or, All, []};
ghost use Rattle.mp_defs.specs.Least.{near_at};
ghost use Rattle.mp_sums.specs.Limits.{IsBeyond};
ghost use Rattle.mp_topk.specs.Ranking.{AreRanked, those_in};
ghost use Rattle.mp_topk.specs.TakingLaws.{GivesNothing};
ghost use Rattle.mp_topk.specs.OfferLaws.{AreOffered, FitsRanks, keeps_ranks, may_offer, ranks_limit, ranks_offer};

use crate::compact_ranks::CompactRanks;
use mp_nums::Sq;
use mp_scans::{Offers, limit_of};
use mp_sums::Limit;
use mp_tiles::Compact;

/// Each of two windows of one series is offered to the other.
pub(crate) struct EachToOther<const K: usize>;

/// Which distances of windows from `first` on may still give a place something: those that come before its last rank,
/// and all where it has fewer.
#[inline]
fn limit_of_last<const K: usize>(slots: &[Compact; K], first: u64) -> Limit
    requires { AreRanked K slots.now }
    ensures { (index dist : ℕ) → first ≤ index → IsBeyond result dist
        → GivesNothing K (those_in slots.now) (near_at index dist) }
{
    if K == 0 {
        Limit::Every
    } else {
        limit_of(&slots[K - 1].slot(), first)
    }
}

/// The limit of a place, to windows from `first` on. Past the last place every distance passes.
#[inline]
pub(crate) fn limit_at<const K: usize>(places: &[[Compact; K]], place: u64, first: u64) -> Limit
    requires { All (AreRanked K) places.now }
    ensures { (index dist : ℕ) → first ≤ index → IsBeyond result dist
        → GivesNothing K (slice_index_or (map those_in places.now) place []) (near_at index dist) }
{
    match places.get(place as usize) {
        Some(slots) => limit_of_last(slots, first),
        None => Limit::Every,
    }
}

impl<const K: usize> Offers for EachToOther<K> {
    type Into = CompactRanks<K>;

    ghost least = { 1 };

    ghost fits = { FitsRanks K };

    ghost may_offer = { may_offer };

    ghost is_scanned = { AreOffered K };

    ghost laws = { ranks_offer K };

    ghost keeps_row = { keeps_ranks K };

    ghost keeps_column = { keeps_ranks K };

    ghost limits = { ranks_limit K };

    #[inline]
    fn offer(into: &mut CompactRanks<K>, row: u64, column: u64, dist: Sq) {
        into.offer(row, column, dist);
        into.offer(column, row, dist);
    }

    #[inline]
    fn may_give(into: &CompactRanks<K>, row: u64, column: u64, dist: Sq) -> bool {
        let to_row = into.may_take(row, column, dist);
        let to_column = into.may_take(column, row, dist);
        to_row | to_column
    }

    #[inline]
    fn row_limit(into: &CompactRanks<K>, row: u64, first: u64) -> Limit {
        into.limit(row, first)
    }

    #[inline]
    fn column_limit(into: &CompactRanks<K>, column: u64, first: u64) -> Limit {
        into.limit(column, first)
    }
}
