//! `join R Q`: the AB-join of a channel in another. `mpdist R Q`: MPdist of two channels.

ghost use Rattle.std.specs.Prelude.{◌≡◌, ◌≤◌, ◌∷◌, [], All, length, map, IfOk, None};
ghost use Rattle.mp_defs.specs.Limits.{max_samples};
ghost use Rattle.mp_defs.specs.Profile.{ab_join};
ghost use Rattle.mp_defs.specs.Series.{Series, series_of};
ghost use Rattle.mp_replies.specs.Line.{Asks};
ghost use Rattle.mp_replies.specs.State.{State};
ghost use Rattle.mp_requests.specs.Requests.{AreNamed, compared_by, compared_in, report_in, mode_named};
ghost use Rattle.mp_requests.specs.declared.answers.Answer.TheVariants.{Accepted};
ghost use Rattle.mp_requests.specs.Reports.{IsReported, OnlyReads};
ghost use Rattle.mp_stores.specs.Stores.{Stored};

use crate::answers::Answer;
use crate::conditions::refs_cause;
use crate::context::Context;
use crate::reports::Report;
use crate::requests::{Comparison, Pair};
use mp_mpdist::mpdist;
use mp_nums::{Memory, Sample, Slots};
use mp_outside::Gate;
use mp_series::Bundle;
use mp_stores::{Plan, Stores};
use mp_workers::ab_join;
use std::alloc::Global;
use std::thread::Threads;

/// Both may be the same channel.
pub(crate) fn report_comparison<R: Threads + Sync, G: Gate>(
    rt: &R,
    stores: &mut Stores,
    context: Context,
    pair: Pair,
    gate: &G,
) -> Result<Answer, Memory>
    ensures report { IsReported context (Asks (compared_by pair.by pair.a pair.b)) stores.old result }
    ensures stores { OnlyReads (Asks (compared_by pair.by pair.a pair.b)) stores.old stores.new result }
{
    let refs = [pair.a, pair.b];
    if let Some(cause) = refs_cause(stores, &refs) {
        return Ok(Answer::Refused(cause));
    }
    let list = stores.copies(context.alloc, &refs)?;
    let plan = context.plan(stores.window_len());
    let report = compared(rt, context.alloc, &list, plan, pair.by, gate)?;
    Ok(Answer::Accepted(report))
}

/// What is told of two series. MPdist is that of their joins in both directions.
fn compared<R: Threads + Sync, G: Gate>(
    rt: &R,
    alloc: Global,
    list: &Bundle,
    plan: Plan,
    by: Comparison,
    gate: &G,
) -> Result<Report, Memory>
    requires two { length list.now ≡ 2 }
    requires small { All (λ samples. length samples ≤ max_samples) list.now }
    ensures report { (a b : Series) (state : State) → map series_of list.now ≡ a ∷ b ∷ []
        → IfOk result (λ report. report_in state report ≡ compared_in by plan.m a b) }
    ensures names { (held : Stored) → IfOk result (AreNamed held) }
    ensures mode { IfOk result (λ report. mode_named (Accepted report) ≡ None) }
{
    let (first, second) = (list.series(0), list.series(1));
    let there = join(rt, alloc, first, second, plan, gate)?;
    match by {
        Comparison::Join => Ok(Report::Join(there)),
        Comparison::Mpdist => {
            let back = join(rt, alloc, second, first, plan, gate)?;
            let (na, nb) = (first.len() as u64, second.len() as u64);
            let dist = mpdist(alloc, there.as_slice(), back.as_slice(), na, nb)?;
            Ok(Report::Mpdist(dist))
        }
    }
}

/// The AB-join of one series in another.
fn join<R: Threads + Sync, G: Gate>(
    rt: &R,
    alloc: Global,
    first: &[Sample],
    second: &[Sample],
    plan: Plan,
    gate: &G,
) -> Result<Slots, Memory>
    requires first { length first.now ≤ max_samples }
    requires second { length second.now ≤ max_samples }
    ensures { IfOk result (λ slots. slots.items ≡ ab_join plan.m (series_of first.now) (series_of second.now)) }
{
    ab_join(
        rt,
        alloc,
        first,
        second,
        plan.m,
        plan.tile,
        plan.workers,
        gate,
    )
}
