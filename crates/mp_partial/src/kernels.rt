//! Work that is cut into pieces.

ghost use Rattle.std.specs.Prelude.{◌≡◌, ℕ, ◌<◌};
ghost use Rattle.mp_partial.specs.Values.{Value};

use crate::parts::Part;

/// Work that is cut into numbered pieces, each with a value of its own. Threads can share a kernel.
pub trait Kernel: Sync {
    /// What the pieces are merged into.
    type Out: Part;

    /// The size of every piece's value.
    ghost size_of: { Self → ℕ };

    /// The number of pieces.
    ghost pieces_of: { Self → ℕ };

    /// The value of a piece.
    ghost value_of: { Self → ℕ → Value };

    /// The size of the parts that pieces are merged into.
    fn size(&self) -> u64
        ensures { result ≡ size_of self.now };

    /// The number of pieces. They are numbered from 0.
    fn pieces(&self) -> u64
        ensures { result ≡ pieces_of self.now };

    /// Merges the value of a piece into the part. It takes no memory.
    fn run(&self, piece: u64, into: &mut Self::Out)
        requires piece { piece < pieces_of self.now }
        requires size { Self.Out.size_of into.old ≡ size_of self.now }
        ensures value { Self.Out.value into.new
            ≡ Self.Out.merged (Self.Out.value into.old) (value_of self.now piece) }
        ensures size { Self.Out.size_of into.new ≡ Self.Out.size_of into.old }
        ensures is_value { Self.Out.is_value (Self.Out.size_of into.new) (Self.Out.value into.new) }
        ensures room { Self.Out.room_of into.new ≡ Self.Out.room_of into.old };

    /// Each piece has a value of the kernel's size.
    ghost has_values: { (kernel : Self) (number : ℕ) → number < pieces_of kernel
        → Self.Out.is_value (size_of kernel) (value_of kernel number) };
}
