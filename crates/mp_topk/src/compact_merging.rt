//! The ranks of one window in numbers, merged with others of it.

ghost use Rattle.std.specs.Prelude.{◌≡◌, ◌<◌, [], take, true};
ghost use Rattle.mp_results.specs.Ranks.{put_if_there};
ghost use Rattle.mp_topk.specs.Ranking.{AreRanked, put_all, those_in};

use crate::compact_placing::put_compact;
use mp_tiles::Compact;

/// Whether two slots have the same window, or both none.
#[inline]
fn are_same(a: Compact, b: Compact) -> bool
    ensures { result ≡ true → a ≡ b }
{
    !(a.comes_before(&b) | b.comes_before(&a))
}

/// Whether there is no window among these.
#[inline]
fn is_vacant<const K: usize>(slots: &[Compact; K]) -> bool
    requires { AreRanked K slots.now }
    ensures { result ≡ true → those_in slots.now ≡ [] }
{
    if K == 0 {
        true
    } else {
        !slots[0].comes_before(&Compact::none())
    }
}

/// Puts a window among the others, unless it stands at this place.
#[inline]
pub(crate) fn put_unless_there<const K: usize>(
    slots: &mut [Compact; K],
    place: usize,
    found: Compact,
)
    requires place { place < K }
    requires ranked { AreRanked K slots.old }
    ensures those { those_in slots.new ≡ take K (put_if_there found (those_in slots.old)) }
    ensures ranked { AreRanked K slots.new }
{
    if !are_same(slots[place], found) {
        put_compact(slots, found);
    }
}

/// Puts the windows of others among these. Workers that began with the same ranks mostly have the same still, each
/// window at the same place.
fn put_each_compact<const K: usize>(slots: &mut [Compact; K], others: &[Compact; K])
    requires { AreRanked K slots.old }
    ensures those { those_in slots.new ≡ take K (put_all (those_in slots.old) (those_in others.now)) }
    ensures ranked { AreRanked K slots.new }
{
    for place in 0..K {
        put_unless_there(slots, place, others[place]);
    }
}

/// The same. Where there is no window, all others are taken at once: workers that each scan a band of rows mostly find
/// windows for other places than the rest.
pub(crate) fn merge_slots<const K: usize>(slots: &mut [Compact; K], others: &[Compact; K])
    requires ranked { AreRanked K slots.old }
    requires others { AreRanked K others.now }
    ensures those { those_in slots.new ≡ take K (put_all (those_in slots.old) (those_in others.now)) }
    ensures ranked { AreRanked K slots.new }
{
    if is_vacant(slots) {
        *slots = *others;
    } else {
        put_each_compact(slots, others);
    }
}
