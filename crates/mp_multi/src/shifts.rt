//! How far the samples of several channels are rounded.

ghost use Rattle.std.specs.Prelude.{◌≡◌, ◌<◌, ◌≤◌, length};
ghost use Rattle.mp_sums.specs.declared.numbers.TheConstants.{NUMBER_BITS};
ghost use Rattle.mp_multi.specs.Tiling.{window_count};

use crate::channels::Channels;
use crate::running::Running;
use mp_sums::NUMBER_BITS;

/// How many pairs of windows are looked at.
const LOOKED_AT: usize = 16;

/// The `k`th of places that lie scattered before `count`.
#[inline]
fn place_of(k: usize, count: u64) -> u64
    requires { 1 ≤ count }
    ensures { result < count }
{
    ((k as u64).wrapping_mul(0x9e37_79b9_7f4a_7c15) >> 20) % count
}

/// The value of one of some scattered pairs of windows, 0 where it has none.
fn value_of<const D: usize>(channels: &Channels, count: u64, k: usize) -> u128
    requires channels { length channels.now.list.now ≡ D }
    requires some { 1 ≤ count }
    requires count { count ≡ window_count channels.now.m channels.now.list.now }
    requires pair { k < LOOKED_AT }
{
    let running: [Running; D] = channels.at(place_of(2 * k + 1, count), place_of(2 * k + 2, count));
    match channels.value(&running) {
        Some(value) => value.0,
        None => 0,
    }
}

/// How many values are so far that their sums in units of `2^shift` may not fit into thirty-two bits.
fn count_far(values: &[u128; LOOKED_AT], shift: u32) -> usize
    requires { shift < NUMBER_BITS }
{
    let mut far = 0;
    for k in 0..LOOKED_AT {
        if values[k] >> (2 * shift) >= 1 << 29 {
            far += 1;
        }
    }
    far
}

/// The least shift at which most sums fit well into thirty-two bits. Any other is as right, but lets more pairs pass.
pub(crate) fn shift_for<const D: usize>(channels: &Channels, count: u64) -> u32
    requires channels { length channels.now.list.now ≡ D }
    requires some { 1 ≤ count }
    requires count { count ≡ window_count channels.now.m channels.now.list.now }
    ensures { result < NUMBER_BITS }
{
    let mut values = [0; LOOKED_AT];
    for k in 0..LOOKED_AT {
        values[k] = value_of::<D>(channels, count, k);
    }
    for shift in 0..NUMBER_BITS {
        if count_far(&values, shift) <= LOOKED_AT / 2 {
            return shift;
        }
    }
    NUMBER_BITS - 1
}
