//! What is computed in pieces: its value, and the merge of two values.

ghost use Rattle.std.specs.Prelude.{◌≡◌, ℕ, map, replicate, IfOk};
ghost use Rattle.mp_partial.specs.Values.{Value};
ghost use Rattle.mp_partial.specs.MergeLaws.{IsMerging};

use mp_nums::Memory;
use std::alloc::Global;

/// What was found among a part of the pairs of windows. Parts of one size are merged in any order, so that threads may
/// compute them, and a part can move between threads.
///
/// A part stands for its value, columns of nearest windows. It may keep room for work beside it.
pub trait Part: Drop + Send {
    /// What the part stands for.
    ghost value: { Self → Value };

    /// The number of its places.
    ghost size_of: { Self → ℕ };

    /// The room that it has, which stays as it is where no memory may be taken.
    ghost room_of: { Self → ℕ };

    /// Which values belong to a size.
    ghost is_value: { ℕ → Value → Type 0 };

    /// The value of a size in which nothing was found.
    ghost unit_of: { ℕ → Value };

    /// What two values of one size have together.
    ghost merged: { Value → Value → Value };

    /// A part of this size in which nothing was found.
    fn unit(alloc: Global, size: u64) -> Result<Self, Memory>
        ensures value { IfOk result (λ part. value part ≡ unit_of size) }
        ensures size { IfOk result (λ part. size_of part ≡ size) }
        ensures is_value { IfOk result (λ part. is_value size (value part)) };

    /// The number of its places.
    fn size(&self) -> u64
        ensures size { result ≡ size_of self.now }
        ensures is_value { is_value result (value self.now) };

    /// Forgets what was found. It takes no memory.
    fn clear(&mut self)
        ensures value { value self.new ≡ unit_of (size_of self.old) }
        ensures size { size_of self.new ≡ size_of self.old }
        ensures is_value { is_value (size_of self.new) (value self.new) }
        ensures room { room_of self.new ≡ room_of self.old };

    /// Takes over what the other has found. It takes no memory.
    fn merge(&mut self, other: &Self)
        requires { size_of other.now ≡ size_of self.old }
        ensures value { value self.new ≡ merged (value self.old) (value other.now) }
        ensures size { size_of self.new ≡ size_of self.old }
        ensures is_value { is_value (size_of self.new) (value self.new) }
        ensures room { room_of self.new ≡ room_of self.old };

    /// Has what the other has found, in place of what it had. It takes no memory.
    fn take_over(&mut self, other: &Self)
        requires is_value { is_value (size_of other.now) (value other.now) }
        requires size { size_of self.old ≡ size_of other.now }
        ensures value { value self.new ≡ value other.now }
        ensures size { size_of self.new ≡ size_of other.now }
        ensures is_value { is_value (size_of self.new) (value self.new) }
        ensures room { room_of self.new ≡ room_of self.old }
    {
        self.clear();
        self.merge(other);
    }

    /// The order of merges doesn't matter, nor does merging twice, and a unit changes nothing.
    ghost laws: { IsMerging is_value unit_of merged };
}

/// So many parts of this size in which nothing was found, one for each of as many workers.
pub fn units<P: Part>(alloc: Global, count: u32, size: u64) -> Result<Vec<P>, Memory>
    ensures values { IfOk result (λ parts. map P.value parts.items ≡ replicate count (P.unit_of size)) }
    ensures sizes { IfOk result (λ parts. map P.size_of parts.items ≡ replicate count size) }
{
    let mut parts = Vec::with_capacity(alloc, count as usize)?;
    for _ in 0..count {
        parts.push(P::unit(alloc, size)?)?;
    }
    Ok(parts)
}
