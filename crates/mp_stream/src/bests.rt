//! The nearest of some windows.

ghost use Rattle.std.specs.Prelude.{◌≡◌, None};
ghost use Rattle.mp_stream.specs.Limits as specs;

use mp_nums::Slot;

/// The nearest of some windows, and below which distance another is nearer.
#[derive(Clone, Copy)]
pub(crate) struct Best {
    pub(crate) found: Slot,
    pub(crate) limit: u64,
    ghost exact: { limit ≡ specs.limit_of found },
}
