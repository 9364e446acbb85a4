//! `pan R LO HI`: for each window length of a range the nearest pair of windows of a channel, and the most unusual
//! window.

ghost use Rattle.std.specs.Prelude.{◌≡◌, ◌≤◌, length, IfOk};
ghost use Rattle.mp_defs.specs.Limits.{max_samples};
ghost use Rattle.mp_defs.specs.Series.{series_of};
ghost use Rattle.mp_results.specs.Pan.{pan_of};
ghost use Rattle.mp_requests.specs.Reports.{IsReported, OnlyReads};
ghost use Rattle.mp_requests.specs.Requests.{asks_pan};

use crate::answers::Answer;
use crate::conditions::ref_cause;
use crate::context::Context;
use crate::reports::Report;
use crate::requests::Lengths;
use mp_nums::{Memory, PanRow, Sample};
use mp_outside::Gate;
use mp_pan::pan;
use mp_stores::{Plan, Stores};
use std::alloc::Global;
use std::thread::Threads;

pub(crate) fn report_pan<R: Threads + Sync, G: Gate>(
    rt: &R,
    stores: &mut Stores,
    context: Context,
    sought: Lengths,
    gate: &G,
) -> Result<Answer, Memory>
    ensures report { IsReported context (asks_pan sought) stores.old result }
    ensures stores { OnlyReads (asks_pan sought) stores.old stores.new result }
{
    if let Some(cause) = ref_cause(stores, sought.at) {
        return Ok(Answer::Refused(cause));
    }
    let list = stores.copies(context.alloc, &[sought.at])?;
    let plan = context.plan(stores.window_len());
    let rows = rows_of(rt, context.alloc, list.series(0), plan, sought, gate)?;
    Ok(Answer::Accepted(Report::Pan(rows)))
}

/// What the profile of each window length of a series has.
fn rows_of<R: Threads + Sync, G: Gate>(
    rt: &R,
    alloc: Global,
    samples: &[Sample],
    plan: Plan,
    sought: Lengths,
    gate: &G,
) -> Result<Vec<PanRow>, Memory>
    requires samples { length samples.now ≤ max_samples }
    ensures { IfOk result (λ rows. rows.items ≡ pan_of sought.lo sought.hi (series_of samples.now)) }
{
    pan(rt, alloc, samples, sought.lo, sought.hi, plan.workers, gate)
}
