//! The ranks of one window in numbers: its nearest windows in their order, and then slots without a window.

ghost use Rattle.std.specs.Prelude.{◌≡◌, take, false};
ghost use Rattle.mp_nums.specs.Near.{nearer_of};
ghost use Rattle.mp_results.specs.Ranks.{put_if_there};
ghost use Rattle.mp_topk.specs.Ranking.{AreRanked, later_of, those_in};

use mp_tiles::Compact;

/// Of two slots the one that comes first.
#[inline]
fn earlier(a: Compact, b: Compact) -> Compact
    ensures { result ≡ nearer_of a b }
{
    if b.comes_before(&a) { b } else { a }
}

/// Of two windows the one that comes later, none where they are the same.
#[inline]
fn later(a: Compact, b: Compact) -> Compact
    ensures { result ≡ later_of a b }
{
    if b.comes_before(&a) {
        a
    } else if a.comes_before(&b) {
        b
    } else {
        Compact::none()
    }
}

/// Whether ranks may gain by a slot. One that doesn't come before the last of them gives them nothing.
#[inline]
pub(crate) fn may_gain<const K: usize>(slots: &[Compact; K], found: Compact) -> bool
    requires { AreRanked K slots.now }
    ensures { result ≡ false → take K (put_if_there found (those_in slots.now)) ≡ those_in slots.now }
{
    if K == 0 {
        true
    } else {
        found.comes_before(&slots[K - 1])
    }
}

/// Puts a window among the others, of which the last one goes where there are more than slots. One that is there
/// already stays alone.
#[inline]
fn put_through<const K: usize>(slots: &mut [Compact; K], found: Compact)
    requires { AreRanked K slots.old }
    ensures those { those_in slots.new ≡ take K (put_if_there found (those_in slots.old)) }
    ensures ranked { AreRanked K slots.new }
{
    let mut carried = found;
    for place in 0..K {
        let here = slots[place];
        slots[place] = earlier(here, carried);
        carried = later(here, carried);
    }
}

/// Puts a window among the others, where there is one. Most give nothing, which is told by the last of the others.
#[inline]
pub(crate) fn put_compact<const K: usize>(slots: &mut [Compact; K], found: Compact)
    requires { AreRanked K slots.old }
    ensures those { those_in slots.new ≡ take K (put_if_there found (those_in slots.old)) }
    ensures ranked { AreRanked K slots.new }
{
    if may_gain(slots, found) {
        put_through(slots, found);
    }
}
