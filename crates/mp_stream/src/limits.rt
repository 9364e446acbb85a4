//! Below which distance a window is nearer than the one that was found.

ghost use Rattle.std.specs.Prelude.{◌≡◌, ◌<◌, ◌≤◌, ◌^◌, length, IfOk};
ghost use Rattle.mp_stream.specs.Limits as specs;

use crate::queues::Queue;
use mp_nums::{Memory, Slot};
use std::alloc::Global;

/// Where nothing was found, each sum is below this. Its one bit is the top bit of 64.
pub(crate) const GREATEST: u64 = 1 << 63;

/// How many bits the sums of a row have where they are compared in 64.
pub(crate) const SUM_BITS: u32 = 63;

/// How many bits sums of 128 have at most where they are compared by how often `PART` goes into them.
pub(crate) const COARSE_BITS: u32 = 79;

/// Sums of 128 bits are compared by how often this goes into them, where 64 bits hold that.
const PART: u128 = 1 << 16;

/// The bits of both.
#[inline]
#[tactic(auto, using(std::proofs::lemmas::Nat::le_or_l, std::proofs::lemmas::Nat::le_or_r))]
pub(crate) fn either(a: u64, b: u64) -> u64
    ensures a { a ≤ result }
    ensures b { b ≤ result }
{
    a | b
}

/// How often `PART` goes into a sum.
#[inline]
pub(crate) fn coarse(sum: u128) -> u64
    requires { sum < 2 ^ 79 }
    ensures { result ≡ specs.coarse sum }
{
    (sum / PART) as u64
}

/// The limit of what was found, for sums of 64 bits. Distances that aren't below `GREATEST` count as this.
pub(crate) fn limit_of(found: Slot) -> u64
    ensures { result ≡ specs.limit_of found }
{
    match found {
        Some(near) => near.dist.0.min(u128::from(GREATEST)) as u64,
        None => GREATEST,
    }
}

/// The limit of what was found, for sums of 128 bits. What isn't below it is farther.
pub(crate) fn coarse_limit(found: Slot) -> u64
    ensures limit { result ≡ specs.coarse_limit found }
    ensures small { result ≤ 2 ^ 63 }
{
    match found {
        Some(near) => (near.dist.0 / PART + 1).min(u128::from(GREATEST)) as u64,
        None => GREATEST,
    }
}

/// The limit of what was found, for sums of 64 or of 128 bits.
fn limit_by(is_narrow: bool, found: Slot) -> u64
    ensures { result ≡ specs.limit_by is_narrow found }
{
    if is_narrow {
        limit_of(found)
    } else {
        coarse_limit(found)
    }
}

/// The limits of a column, for sums of 64 or of 128 bits.
pub(crate) fn limits_of(
    alloc: Global,
    column: &[Slot],
    is_narrow: bool,
) -> Result<Queue<u64>, Memory>
    ensures { IfOk result (λ limits. specs.AreLimits (specs.limit_by is_narrow) column.now limits.items) }
{
    let mut limits = Queue::new(alloc);
    limits.reserve(column.len() as u64)?;
    for slot in column {
        limits.push(limit_by(is_narrow, *slot))?;
    }
    Ok(limits)
}

/// Makes the limits of a column those for sums of 128 bits.
pub(crate) fn coarsen(column: &[Slot], limits: &mut [u64])
    requires { length limits.old ≡ length column.now }
    ensures { specs.AreLimits specs.coarse_limit column.now limits.new }
{
    for i in 0..limits.len() {
        limits[i] = coarse_limit(column[i]);
    }
}
