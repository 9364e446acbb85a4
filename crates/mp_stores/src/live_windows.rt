//! The windows that lie in the samples that are kept.

ghost use Rattle.std.specs.Prelude.{◌≡◌, List, length, IfOk};
ghost use Rattle.mp_nums.specs.declared.samples.Sample.{Sample};
ghost use Rattle.mp_defs.specs.Band.{live_windows};
ghost use Rattle.mp_stream.specs.Kept.{StandsFor, column_of};

use mp_nums::{Memory, Slots};
use mp_stream::{Column, Kept};
use std::alloc::Global;

/// What stands in a column at each window that is kept, in their order.
pub fn live_slots(alloc: Global, kept: &Kept, column: Column) -> Result<Slots, Memory>
    ensures count { IfOk result (λ slots. length slots.items
        ≡ live_windows kept.now.keep kept.now.m kept.now.count) }
    ensures slots { (samples : List Sample) → StandsFor samples kept.now
        → IfOk result (λ slots. slots.items ≡ column_of column kept.now) }
{
    let first = kept.first();
    let held = kept.len() - first;
    let mut slots = Vec::with_capacity(alloc, held as usize)?;
    for i in first..first + kept.live() {
        slots.push(kept.slot(column, i))?;
    }
    Ok(Slots::from(slots))
}
