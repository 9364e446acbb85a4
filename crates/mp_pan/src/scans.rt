//! The scan of a series at some successive lengths.

ghost use Rattle.std.specs.Prelude.{◌≡◌, ◌*◌, ◌≤◌, length};
ghost use Rattle.mp_defs.specs.Series.{series_of};
ghost use Rattle.mp_defs.specs.Window.{windows};
ghost use Rattle.mp_partial.specs.Values.{empty_column};
ghost use Rattle.mp_scans.specs.Offering.{in_block};
ghost use Rattle.mp_scans.specs.Windows.{row_windows};
ghost use Rattle.mp_pan.specs.declared.limits.TheConstants.{SPAN};
ghost use Rattle.mp_pan.specs.Spans.{ArePlaced, AreTakenAt};

use crate::lengths::Lengths;
use crate::limits::SPAN;
use crate::offers::AtLengths;
use mp_nums::Slot;
use mp_scans::{Plan, scan};
use mp_series::excl;
use mp_sums::Grid;

/// Forgets what stands in the slots.
fn clear(slots: &mut [Slot])
    ensures { slots.new ≡ empty_column (length slots.old) }
{
    for slot in slots.iter_mut() {
        *slot = None;
    }
}

/// Offers to each other, at each of the lengths, the windows that start at least `first` apart and less than `end`, of
/// which there are so many.
fn scan_lengths(plan: &Plan, lengths: &Lengths, first: usize, end: usize, slots: &mut [Slot])
    requires rows { plan.now.grid.rows.now ≡ lengths.now.samples.now }
    requires columns { plan.now.grid.columns.now ≡ lengths.now.samples.now }
    requires least { plan.now.grid.m ≡ lengths.now.least }
    requires apart { 1 ≤ first }
    requires end { end ≤ row_windows plan.now.grid }
    requires places { length slots.old ≡ SPAN * row_windows plan.now.grid }
    ensures taken { AreTakenAt lengths.now.count plan.now.grid.m (series_of plan.now.grid.rows.now)
        (in_block first end 0 end) slots.old slots.new }
{
    let mut into = AtLengths {
        lengths: *lengths,
        slots,
    };
    scan::<AtLengths>(plan, first, end, 0, end, &mut into);
}

/// Has the slots be those of the windows of the matrix profile of each length. Windows that there are only at a shorter
/// one have none.
pub(crate) fn fill(lengths: &Lengths, slots: &mut [Slot])
    requires places { length slots.old ≡ SPAN * windows (length lengths.now.samples.now) lengths.now.least }
    ensures places { length slots.new ≡ length slots.old }
    ensures entries { ArePlaced lengths.now slots.new }
{
    clear(slots);
    let plan = Plan::of(Grid {
        rows: lengths.samples,
        columns: lengths.samples,
        m: lengths.least as usize,
    });
    let first = excl(lengths.least) as usize + 1;
    scan_lengths(&plan, lengths, first, lengths.windows(), slots);
}
