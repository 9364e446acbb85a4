//! The slots of windows at some successive lengths: of each window one for each length, side by side.

ghost use Rattle.std.specs.Prelude.{◌≡◌, ℕ, ◌+◌, ◌*◌, ◌<◌, ◌≤◌, length, slice_index_or, Some, None, false};
ghost use Rattle.mp_series.specs.declared.limits.TheConstants.{MAX_SAMPLES};
ghost use Rattle.mp_partial.specs.Values.{offered};
ghost use Rattle.mp_scans.specs.Slots.{Covers};
ghost use Rattle.mp_pan.specs.declared.limits.TheConstants.{SPAN};
ghost use Rattle.mp_pan.specs.Spans.{pair_put};

use crate::limits::SPAN;
use mp_nums::{Near, Slot, Sq, nearer};

/// Keeps the nearer of what stands at a place and of a window.
#[inline]
fn offer_slot(slots: &mut [Slot], place: usize, found: Near)
    requires { place < length slots.old }
    ensures { slots.new ≡ offered slots.old place found }
{
    let slot = &mut slots[place];
    *slot = nearer(*slot, Some(found));
}

/// Offers two windows at a distance to each other, at one of the lengths.
#[inline]
fn offer_pair(slots: &mut [Slot], k: usize, row: usize, column: usize, dist: u128)
    requires k { k < SPAN }
    requires order { row < column }
    requires places { SPAN * column + k < length slots.old }
    requires few { column < MAX_SAMPLES }
    ensures { slots.new ≡ pair_put k row column (Some dist) slots.old }
{
    let dist = Sq(dist);
    offer_slot(
        slots,
        SPAN * row + k,
        Near {
            dist,
            index: column as u64,
        },
    );
    offer_slot(
        slots,
        SPAN * column + k,
        Near {
            dist,
            index: row as u64,
        },
    );
}

/// The same, where they have a distance.
#[inline]
pub(crate) fn offer_if_there(
    slots: &mut [Slot],
    k: usize,
    row: usize,
    column: usize,
    dist: Option<u128>,
)
    requires k { k < SPAN }
    requires order { row < column }
    requires places { SPAN * column + k < length slots.old }
    requires few { column < MAX_SAMPLES }
    ensures { slots.new ≡ pair_put k row column dist slots.old }
{
    if let Some(dist) = dist {
        offer_pair(slots, k, row, column, dist);
    }
}

/// Whether a window comes before what stands in a slot.
#[inline]
fn comes_first(slot: &Slot, index: u64, dist: u128) -> bool
    ensures { result ≡ false → Covers slot.now index dist }
{
    match slot {
        Some(near) => dist < near.dist.0 || dist == near.dist.0 && index < near.index,
        None => true,
    }
}

/// Whether two windows at a distance, where they have one, give either of them something at one of the lengths.
#[inline]
pub(crate) fn may_take(
    slots: &[Slot],
    k: usize,
    row: usize,
    column: usize,
    dist: Option<u128>,
) -> bool
    requires k { k < SPAN }
    requires order { row < column }
    requires places { SPAN * column + k < length slots.now }
    requires few { column < MAX_SAMPLES }
    ensures row { result ≡ false → (sum : ℕ) → dist ≡ Some sum
        → Covers (slice_index_or slots.now (SPAN * row + k) None) column sum }
    ensures column { result ≡ false → (sum : ℕ) → dist ≡ Some sum
        → Covers (slice_index_or slots.now (SPAN * column + k) None) row sum }
{
    match dist {
        Some(sum) => {
            let to_row = comes_first(&slots[SPAN * row + k], column as u64, sum);
            let to_column = comes_first(&slots[SPAN * column + k], row as u64, sum);
            to_row | to_column
        }
        None => false,
    }
}

/// What stands at a place, none past the last one.
#[inline]
fn slot_at(slots: &[Slot], place: usize) -> Slot
    ensures { result ≡ slice_index_or slots.now place None }
{
    if place < slots.len() {
        slots[place]
    } else {
        None
    }
}

/// Of two slots the one that more windows may come before.
#[inline]
fn wider(one: Slot, other: Slot) -> Slot
    ensures one { (index dist : ℕ) → Covers result index dist → Covers one index dist }
    ensures other { (index dist : ℕ) → Covers result index dist → Covers other index dist }
{
    match (one, other) {
        (Some(first), Some(second)) if first < second => other,
        (Some(_), Some(_)) => one,
        _ => None,
    }
}

/// Of a window's slots at the first of the lengths the one that most windows may come before, as many as `reach` says.
#[inline]
pub(crate) fn widest(slots: &[Slot], window: usize, reach: usize) -> Slot
    requires few { window < MAX_SAMPLES }
    requires reach { reach ≤ SPAN }
    ensures { (k index dist : ℕ) → k < reach → Covers result index dist
        → Covers (slice_index_or slots.now (SPAN * window + k) None) index dist }
{
    let mut widest = slot_at(slots, SPAN * window);
    for k in 1..reach {
        widest = wider(widest, slot_at(slots, SPAN * window + k));
    }
    widest
}
