//! The ranks of one window: its nearest windows in their order, and then slots without a window.

ghost use Rattle.std.specs.Prelude.{◌≡◌, Some, None, take};
ghost use Rattle.mp_results.specs.Ranks.{put, put_if_there};
ghost use Rattle.mp_topk.specs.Ranking.{AreRanked, later_of, put_all, those_in};

use mp_nums::{Near, Slot, nearer};

/// Of two windows the one that comes later, none where they are the same.
#[inline]
fn later(a: Slot, b: Slot) -> Slot
    ensures { result ≡ later_of a b }
{
    match (a, b) {
        (Some(first), Some(second)) if second < first => a,
        (Some(first), Some(second)) if first < second => b,
        _ => None,
    }
}

/// Puts a window among the others, of which the last one goes where there are more than slots. One that is there
/// already stays alone.
#[inline]
pub(crate) fn put_found<const K: usize>(slots: &mut [Slot; K], found: Near)
    requires { AreRanked K slots.old }
    ensures those { those_in slots.new ≡ take K (put found (those_in slots.old)) }
    ensures ranked { AreRanked K slots.new }
{
    let mut carried = Some(found);
    for place in 0..K {
        let here = slots[place];
        slots[place] = nearer(here, carried);
        carried = later(here, carried);
    }
}

/// Puts a window among the others, where there is one.
#[inline]
fn put_slot<const K: usize>(slots: &mut [Slot; K], other: Slot)
    requires { AreRanked K slots.old }
    ensures those { those_in slots.new ≡ take K (put_if_there other (those_in slots.old)) }
    ensures ranked { AreRanked K slots.new }
{
    if let Some(found) = other {
        put_found(slots, found);
    }
}

/// Puts the windows of others among these.
pub(crate) fn put_each<const K: usize>(slots: &mut [Slot; K], others: &[Slot; K])
    requires { AreRanked K slots.old }
    ensures those { those_in slots.new ≡ take K (put_all (those_in slots.old) (those_in others.now)) }
    ensures ranked { AreRanked K slots.new }
{
    for other in others {
        put_slot(slots, *other);
    }
}
