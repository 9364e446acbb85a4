//! Which distances may still give a window something.

use mp_nums::Sq;

/// Which distances may still give a window something.
#[derive(Clone, Copy)]
pub enum Limit {
    /// Every distance, as where nothing was found.
    Every,
    /// Distances up to this one, as where what was found at this distance may start later.
    Within(Sq),
    /// Distances below this one. Below 0 there is none.
    Below(Sq),
}
