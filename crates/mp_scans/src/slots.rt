//! The limit of a slot.

ghost use Rattle.std.specs.Prelude.{◌≡◌, ℕ, ◌≤◌};
ghost use Rattle.mp_sums.specs.Limits.{IsBeyond};
ghost use Rattle.mp_scans.specs.Slots.{Covers};

use mp_nums::Slot;
use mp_sums::Limit;

/// Which distances of the windows from `first` on come before what stands in a slot. Where that starts before all of
/// these, equal distances don't.
#[inline]
pub fn limit_of(slot: &Slot, first: u64) -> Limit
    ensures { (index dist : ℕ) → first ≤ index → IsBeyond result dist → Covers slot.now index dist }
{
    match slot {
        Some(near) if near.index <= first => Limit::Below(near.dist),
        Some(near) => Limit::Within(near.dist),
        None => Limit::Every,
    }
}
