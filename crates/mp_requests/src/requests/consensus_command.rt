//! `consensus R R ..`: the window that several channels have in common.

ghost use Rattle.std.specs.Prelude.{◌≡◌, ◌≤◌, All, length, map, IfOk, option_map};
ghost use Rattle.mp_results.specs.Consensus.{central, centre_of};
ghost use Rattle.mp_defs.specs.Limits.{max_samples};
ghost use Rattle.mp_defs.specs.Series.{series_of};
ghost use Rattle.mp_replies.specs.Limits.{max_refs, min_refs};
ghost use Rattle.mp_requests.specs.Reports.{IsReported, OnlyReads};
ghost use Rattle.mp_requests.specs.Requests.{asks_consensus};

use crate::answers::Answer;
use crate::conditions::refs_cause;
use crate::context::Context;
use crate::reports::Report;
use mp_consensus::consensus;
use mp_lines::{MAX_REFS, Refs};
use mp_nums::{Centre, Memory};
use mp_outside::Gate;
use mp_replies::Ref;
use mp_series::Bundle;
use mp_stores::{Plan, Stores};
use std::alloc::Global;
use std::thread::Threads;

/// A channel may be named more than once.
pub(crate) fn report_consensus<R: Threads + Sync, G: Gate>(
    rt: &R,
    stores: &mut Stores,
    context: Context,
    refs: Refs<'_>,
    gate: &G,
) -> Result<Answer, Memory>
    ensures report { IsReported context (asks_consensus refs.entry) stores.old result }
    ensures stores { OnlyReads (asks_consensus refs.entry) stores.old stores.new result }
{
    let mut room = [Ref {
        slot: 0,
        channel: 0,
    }; MAX_REFS];
    let count = refs.gather(&mut room);
    let named = &room[..count];
    if let Some(cause) = refs_cause(stores, named) {
        return Ok(Answer::Refused(cause));
    }
    let list = stores.copies(context.alloc, named)?;
    let plan = context.plan(stores.window_len());
    let centre = centre_of(rt, context.alloc, &list, plan, gate)?;
    Ok(Answer::Accepted(Report::Consensus(centre)))
}

/// Their centre.
fn centre_of<R: Threads + Sync, G: Gate>(
    rt: &R,
    alloc: Global,
    list: &Bundle,
    plan: Plan,
    gate: &G,
) -> Result<Option<Centre>, Memory>
    requires two { min_refs ≤ length list.now }
    requires few { length list.now ≤ max_refs }
    requires samples { All (λ samples. length samples ≤ max_samples) list.now }
    ensures { IfOk result (λ found. option_map central found ≡ centre_of plan.m (map series_of list.now)) }
{
    consensus(rt, alloc, list, plan.m, plan.workers, gate)
}
