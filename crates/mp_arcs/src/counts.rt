ghost use Rattle.std.specs.Prelude.{◌≡◌, ◌≤◌, length, IfOk};
ghost use Rattle.mp_series.specs.declared.limits.TheConstants.{MAX_SAMPLES};
ghost use Rattle.mp_results.specs.Arcs.{arcs_of, index_of, indices_of, NameWithin};

use crate::boards::ArcBoard;
use mp_nums::{Memory, Places, Slot};
use mp_series::MAX_SAMPLES;
use std::alloc::Global;

/// How many arcs pass over each place, where `index` has the nearest window of each window, or none. An arc between two
/// windows passes over the lesser one and over all places before the greater one. It takes time linear in the number of
/// windows. The counts are FLUSS's; that a window without a nearest one has no arc is our own rule.
pub fn arcs(alloc: Global, index: &[Slot]) -> Result<Places, Memory>
    requires places { length index.now ≤ MAX_SAMPLES }
    requires named { NameWithin (indices_of index.now) }
    ensures { IfOk result (λ counts. counts.items ≡ arcs_of (indices_of index.now)) }
{
    let mut board = ArcBoard::new(alloc);
    board.reserve(index.len() as u64)?;
    for _ in 0..index.len() {
        board.grow();
    }
    for place in 0..index.len() {
        board.change(place as u64, index_of(index[place]));
    }
    board.counts()
}

pub(crate) fn index_of(slot: Slot) -> Option<u64>
    ensures { result ≡ index_of slot }
{
    slot.map(|near| near.index)
}
