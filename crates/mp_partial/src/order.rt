//! The pieces of a kernel, one after another.

ghost use Rattle.std.specs.Prelude.{◌≡◌, IfOk};
ghost use Rattle.mp_partial.specs.Values.{merged_below};

use crate::kernels::Kernel;
use crate::parts::Part;
use mp_nums::Memory;
use std::alloc::Global;

/// What all pieces of the kernel have together, run one after another on the caller's thread.
pub fn run_in_order<K: Kernel>(alloc: Global, kernel: &K) -> Result<K::Out, Memory>
    ensures value { IfOk result (λ out. K.Out.value out
        ≡ merged_below K.Out.merged (K.Out.unit_of (K.size_of kernel.now)) (K.value_of kernel.now)
        (K.pieces_of kernel.now)) }
    ensures size { IfOk result (λ out. K.Out.size_of out ≡ K.size_of kernel.now) }
    ensures is_value { IfOk result (λ out. K.Out.is_value (K.size_of kernel.now) (K.Out.value out)) }
{
    let mut out = K::Out::unit(alloc, kernel.size())?;
    for piece in 0..kernel.pieces() {
        kernel.run(piece, &mut out);
    }
    Ok(out)
}
