//! The entries of the windows, and below which distances those on the right are nearer.

ghost use Rattle.std.specs.Prelude.{◌≡◌, ◌<◌, length, slice_set};

use crate::nearest::Nearest;
use crate::queues::Queue;

/// The nearest windows, and the limits of those on the right: for sums of 64 or of 128 bits.
#[derive(Debug, Drop)]
pub(crate) struct Entries {
    pub(crate) profile: Nearest,
    pub(crate) limits: Queue<u64>,
}

/// Sets the limit of window `i`.
#[inline]
pub(crate) fn set_limit(limits: &mut Queue<u64>, i: usize, limit: u64)
    requires { i < length limits.old.items }
    ensures items { limits.new.items ≡ slice_set limits.old.items i limit }
    ensures spare { limits.new.spare ≡ limits.old.spare }
{
    limits.as_mut_slice()[i] = limit;
}
