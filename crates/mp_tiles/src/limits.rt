//! Which distances may still give a slot something.

ghost use Rattle.std.specs.Prelude.{ℕ, ◌≤◌, slice_index_or, None};
ghost use Rattle.mp_sums.specs.declared.limits.Limit.TheVariants.{Within, Below};
ghost use Rattle.mp_sums.specs.Limits.{IsBeyond};
ghost use Rattle.mp_scans.specs.Slots.{Covers};

use mp_nums::{Slot, Sq};
use mp_scans::limit_of;
use mp_sums::Limit;

/// The limit of the slot at a place, to windows from `first` on. Past the last slot every distance passes.
#[inline]
pub(crate) fn limit_at(slots: &[Slot], place: u64, first: u64) -> Limit
    ensures { (index dist : ℕ) → first ≤ index → IsBeyond result dist
        → Covers (slice_index_or slots.now place None) index dist }
{
    match slots.get(place as usize) {
        Some(slot) => limit_of(slot, first),
        None => Limit::Every,
    }
}

/// Of a limit up to a distance and one below a distance the one that lets more pass.
#[inline]
fn wider(within: Sq, below: Sq) -> Limit
    ensures within { (dist : ℕ) → IsBeyond result dist → IsBeyond (Within within) dist }
    ensures below { (dist : ℕ) → IsBeyond result dist → IsBeyond (Below below) dist }
{
    if within < below {
        Limit::Below(below)
    } else {
        Limit::Within(within)
    }
}

/// What passes either limit passes this one.
#[inline]
pub(crate) fn either(one: Limit, other: Limit) -> Limit
    ensures one { (dist : ℕ) → IsBeyond result dist → IsBeyond one dist }
    ensures other { (dist : ℕ) → IsBeyond result dist → IsBeyond other dist }
{
    match (one, other) {
        (Limit::Within(x), Limit::Within(y)) => Limit::Within(x.max(y)),
        (Limit::Below(x), Limit::Below(y)) => Limit::Below(x.max(y)),
        (Limit::Within(x), Limit::Below(y)) => wider(x, y),
        (Limit::Below(x), Limit::Within(y)) => wider(y, x),
        _ => Limit::Every,
    }
}
