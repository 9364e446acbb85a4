//! `nearest R K`: for each window of a channel the K nearest ones.

ghost use Rattle.std.specs.Prelude.{◌≡◌, ◌≤◌, length, IfOk};
ghost use Rattle.mp_defs.specs.Limits.{max_samples};
ghost use Rattle.mp_defs.specs.Series.{series_of};
ghost use Rattle.mp_results.specs.Ranks.{ranks_of};
ghost use Rattle.mp_replies.specs.Limits.{max_ranks};
ghost use Rattle.mp_requests.specs.Reports.{IsReported, OnlyReads};
ghost use Rattle.mp_requests.specs.Requests.{asks_nearest};
ghost use Rattle.mp_topk.specs.Ranking.{lists_in};

use crate::answers::Answer;
use crate::conditions::ref_cause;
use crate::context::Context;
use crate::reports::Report;
use crate::requests::Neighbours;
use mp_nums::{Memory, NearList, Sample};
use mp_outside::Gate;
use mp_stores::{Plan, Stores};
use mp_topk::nearest;
use std::alloc::Global;
use std::thread::Threads;

pub(crate) fn report_nearest<R: Threads + Sync, G: Gate>(
    rt: &R,
    stores: &mut Stores,
    context: Context,
    sought: Neighbours,
    gate: &G,
) -> Result<Answer, Memory>
    ensures report { IsReported context (asks_nearest sought) stores.old result }
    ensures stores { OnlyReads (asks_nearest sought) stores.old stores.new result }
{
    if let Some(cause) = ref_cause(stores, sought.at) {
        return Ok(Answer::Refused(cause));
    }
    let list = stores.copies(context.alloc, &[sought.at])?;
    let plan = context.plan(stores.window_len());
    let lists = ranked(rt, context.alloc, list.series(0), plan, sought.k, gate)?;
    Ok(Answer::Accepted(Report::Nearest(lists)))
}

/// For each window of a series the `k` nearest ones.
fn ranked<R: Threads + Sync, G: Gate>(
    rt: &R,
    alloc: Global,
    samples: &[Sample],
    plan: Plan,
    k: u64,
    gate: &G,
) -> Result<Vec<NearList>, Memory>
    requires samples { length samples.now ≤ max_samples }
    requires one { 1 ≤ k }
    requires few { k ≤ max_ranks }
    ensures { IfOk result (λ lists. lists_in lists.items ≡ ranks_of k plan.m (series_of samples.now)) }
{
    nearest(rt, alloc, samples, plan.m, k, plan.tile, plan.workers, gate)
}
