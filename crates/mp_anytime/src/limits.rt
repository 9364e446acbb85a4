//! From which sum on a pair gives a window nothing.

ghost use Rattle.std.specs.Prelude.{◌≡◌, ◌^◌, ◌≤◌, length};
ghost use Rattle.mp_anytime.specs.Limits as specs;

use mp_nums::Slot;

/// Where nothing was found, each sum is below this. Its one bit is the top bit of 64.
pub(crate) const GREATEST: u64 = 1 << 63;

/// The limit of what was found: a sum that isn't below it is greater.
#[inline]
pub(crate) fn limit_of(found: Slot) -> u64
    ensures limit { result ≡ specs.limit_of found }
    ensures small { result ≤ 2 ^ 63 }
{
    match found {
        Some(near) => (near.dist.0.min(u128::from(GREATEST - 1)) + 1) as u64,
        None => GREATEST,
    }
}

/// Finds the limits of a column.
pub(crate) fn find_limits(column: &[Slot], limits: &mut [u64])
    requires { length limits.old ≡ length column.now }
    ensures { specs.AreLimits column.now limits.new }
{
    for place in 0..limits.len() {
        limits[place] = limit_of(column[place]);
    }
}
