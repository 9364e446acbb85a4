//! Zones that are shut out.

ghost use Rattle.std.specs.Prelude.{◌≡◌, ℕ, ◌&&◌, false, nat_lt, slice_index_or};
ghost use Rattle.std.specs.Int.{abs_diff};

/// Shuts out the places that are no further from `place` than the zone. `is_free` tells of each place whether it isn't
/// shut out.
pub fn shut_out(is_free: &mut [bool], place: u64, zone: u64)
    ensures { (other : ℕ) → slice_index_or is_free.new other false
        ≡ (slice_index_or is_free.old other false && nat_lt zone (abs_diff place other)) }
{
    let count = is_free.len() as u64;
    let end = place.saturating_add(zone).saturating_add(1).min(count);
    let start = place.saturating_sub(zone);
    for other in start..end {
        is_free[other as usize] = false;
    }
}
