//! How each of two windows of a series is offered to the other at some successive lengths.

ghost use Rattle.std.specs.Prelude.{◌≡◌, ℕ, ◌+◌, ◌*◌, ◌^◌, ◌<◌, ◌≤◌, length, Some, false};
ghost use Rattle.mp_series.specs.declared.limits.TheConstants.{MAX_SAMPLES};
ghost use Rattle.mp_defs.specs.Series.{series_of};
ghost use Rattle.mp_defs.specs.Distance.{distance};
ghost use Rattle.mp_sums.specs.Limits.{IsBeyond};
ghost use Rattle.mp_pan.specs.declared.limits.TheConstants.{SPAN};
ghost use Rattle.mp_pan.specs.Spans.{all_put, FitsLengths, IsScannedAt, keeps_at, keeps_lengths, may_lengths};
ghost use Rattle.mp_pan.specs.SpanLaws.{lengths_limit, lengths_offer};

use crate::lengths::Lengths;
use crate::limits::SPAN;
use crate::places::{may_take, offer_if_there, widest};
use mp_nums::{Slot, Sq};
use mp_scans::{Offers, limit_of};
use mp_series::MAX_SAMPLES;
use mp_sums::Limit;

/// For each window of the least of some lengths the nearest one at each of them, of those outside its exclusion zone.
/// The distance of two windows at a length is no less than at a shorter one, and the zone no narrower. So a scan at the
/// least length finds all pairs that give a window something at any of them.
#[derive(Drop)]
pub(crate) struct AtLengths<'a> {
    pub(crate) lengths: Lengths<'a>,
    /// Four slots for each window, one for each length.
    pub(crate) slots: &'a mut [Slot],
}

/// Offers two windows to each other at each of the lengths at which they have a distance and lie apart. `dist` is that
/// at the least one.
fn offer_at_each(lengths: &Lengths, slots: &mut [Slot], row: usize, column: usize, dist: u128)
    requires order { row < column }
    requires column { column < MAX_SAMPLES }
    requires places { SPAN * column + SPAN ≤ length slots.old }
    requires small { dist + 1 < 2 ^ 110 }
    ensures { distance lengths.now.least (series_of lengths.now.samples.now) row (series_of lengths.now.samples.now)
        column ≡ Some dist
        → slots.new
        ≡ all_put lengths.now.count lengths.now.least (series_of lengths.now.samples.now) row column slots.old }
{
    let mut reached = Some(dist);
    for k in 0..lengths.count {
        let apart = lengths.where_apart(k, row, column, reached);
        offer_if_there(slots, k, row, column, apart);
        reached = lengths.next_distance(k, row, column, reached);
    }
}

/// Whether two windows give either of them something at any of the lengths. `dist` is their distance at the least one.
fn may_give_any(lengths: &Lengths, slots: &[Slot], row: usize, column: usize, dist: u128) -> bool
    requires order { row < column }
    requires column { column < MAX_SAMPLES }
    requires places { SPAN * column + SPAN ≤ length slots.now }
    requires small { dist + 1 < 2 ^ 110 }
    ensures row { result ≡ false → keeps_at lengths.now slots.now row column dist }
    ensures column { result ≡ false → keeps_at lengths.now slots.now column row dist }
{
    let mut reached = Some(dist);
    for k in 0..lengths.count {
        if may_take(slots, k, row, column, reached) {
            return true;
        }
        reached = lengths.next_distance(k, row, column, reached);
    }
    false
}

/// Which distances, at the least length, of windows from `first` on may still give a window something at any length at
/// which it lacks no sample.
fn limit_at_each(lengths: &Lengths, slots: &[Slot], window: u64, first: u64) -> Limit
    ensures { (index dist : ℕ) → first ≤ index → IsBeyond result dist
        → keeps_at lengths.now slots.now window index dist }
{
    if window >= MAX_SAMPLES {
        return Limit::Every;
    }
    let window = window as usize;
    let reach = lengths.reach(window);
    limit_of(&widest(slots, window, reach), first)
}

impl<'a> Offers for AtLengths<'a> {
    type Into = AtLengths<'a>;

    ghost least = { 1 };

    ghost fits = { FitsLengths };

    ghost may_offer = { may_lengths };

    ghost is_scanned = { IsScannedAt };

    ghost laws = { lengths_offer };

    ghost keeps_row = { keeps_lengths };

    ghost keeps_column = { keeps_lengths };

    ghost limits = { lengths_limit };

    #[inline]
    fn offer(into: &mut AtLengths<'a>, row: u64, column: u64, dist: Sq) {
        offer_at_each(
            &into.lengths,
            into.slots,
            row as usize,
            column as usize,
            dist.0,
        );
    }

    #[inline]
    fn may_give(into: &AtLengths<'a>, row: u64, column: u64, dist: Sq) -> bool {
        let lengths = &into.lengths;
        may_give_any(lengths, into.slots, row as usize, column as usize, dist.0)
    }

    #[inline]
    fn row_limit(into: &AtLengths<'a>, row: u64, first: u64) -> Limit {
        limit_at_each(&into.lengths, into.slots, row, first)
    }

    #[inline]
    fn column_limit(into: &AtLengths<'a>, column: u64, first: u64) -> Limit {
        limit_at_each(&into.lengths, into.slots, column, first)
    }
}
