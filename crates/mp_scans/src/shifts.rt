//! How far samples are rounded.

ghost use Rattle.std.specs.Prelude.{◌<◌, ◌≤◌};
ghost use Rattle.mp_sums.specs.declared.numbers.TheConstants.{NUMBER_BITS};

use mp_sums::{Grid, NUMBER_BITS};

/// How many pairs of windows are looked at.
const LOOKED_AT: usize = 16;

/// The `k`th of places that lie scattered before `count`.
#[inline]
fn place_of(k: usize, count: usize) -> usize
    requires { 1 ≤ count }
    ensures { result < count }
{
    (k.wrapping_mul(0x9e37_79b9_7f4a_7c15) >> 20) % count
}

/// The squared distance of one of some scattered pairs of windows, 0 where there is no pair.
fn distance_of(grid: &Grid, k: usize) -> u128
    requires { k < LOOKED_AT }
{
    let rows = (grid.rows.len() + 1).saturating_sub(grid.m);
    let columns = (grid.columns.len() + 1).saturating_sub(grid.m);
    if rows == 0 || columns == 0 {
        return 0;
    }
    grid.distance(place_of(2 * k + 1, rows), place_of(2 * k + 2, columns))
}

/// How many distances are so far that their sums in units of `2^shift` may not fit into thirty-two bits.
fn count_far(distances: &[u128], shift: u32) -> usize
    requires { shift < NUMBER_BITS }
{
    let mut far = 0;
    for k in 0..distances.len() {
        if distances[k] >> (2 * shift) >= 1 << 27 {
            far += 1;
        }
    }
    far
}

/// The least shift at which most sums fit well into thirty-two bits. Any other is as right, but lets more pairs pass:
/// with a greater one rounding hides more, and with a lesser one more sums wrap. A few samples far from the others
/// don't matter.
pub(crate) fn shift_for(grid: &Grid) -> u32
    ensures { result < NUMBER_BITS }
{
    let mut distances = [0; LOOKED_AT];
    for k in 0..LOOKED_AT {
        distances[k] = distance_of(grid, k);
    }
    for shift in 0..NUMBER_BITS {
        if count_far(&distances, shift) <= LOOKED_AT / 2 {
            return shift;
        }
    }
    NUMBER_BITS - 1
}
