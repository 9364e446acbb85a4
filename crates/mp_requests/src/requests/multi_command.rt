//! `multi S K`: the multidimensional profile of a slot's channels, K of them together.

ghost use Rattle.std.specs.Prelude.{◌≡◌, ◌≤◌, All, length, map, IfOk};
ghost use Rattle.mp_defs.specs.Limits.{max_samples};
ghost use Rattle.mp_defs.specs.Series.{series_of};
ghost use Rattle.mp_multi.specs.Conditions.{HaveOneLength};
ghost use Rattle.mp_results.specs.Multi.{multi_of};
ghost use Rattle.mp_replies.specs.Command as asked;
ghost use Rattle.mp_replies.specs.Limits.{max_channels};
ghost use Rattle.mp_replies.specs.Line.{Asks};
ghost use Rattle.mp_requests.specs.Requests.{refs_of};
ghost use Rattle.mp_requests.specs.Reports.{IsReported, OnlyReads};
ghost use Rattle.mp_stores.specs.Stores.{channel_count, slot_at, streams_at};

use crate::answers::Answer;
use crate::conditions::multi_cause;
use crate::context::Context;
use crate::reports::Report;
use mp_multi::multi;
use mp_nums::{Memory, Slots};
use mp_outside::Gate;
use mp_replies::Ref;
use mp_series::Bundle;
use mp_stores::{Plan, Stores};
use std::alloc::Global;
use std::thread::Threads;

pub(crate) fn report_multi<R: Threads + Sync, G: Gate>(
    rt: &R,
    stores: &mut Stores,
    context: Context,
    slot: u64,
    k: u64,
    gate: &G,
) -> Result<Answer, Memory>
    ensures report { IsReported context (Asks (asked.Multi slot k)) stores.old result }
    ensures stores { OnlyReads (Asks (asked.Multi slot k)) stores.old stores.new result }
{
    if let Some(cause) = multi_cause(stores, slot, k) {
        return Ok(Answer::Refused(cause));
    }
    let refs = channels_of(context.alloc, stores, slot)?;
    let channels = stores.copies(context.alloc, refs.as_slice())?;
    let plan = context.plan(stores.window_len());
    let slots = together(rt, context.alloc, &channels, plan, k, gate)?;
    Ok(Answer::Accepted(Report::Multi(slots)))
}

/// The profile of all of them, K together.
fn together<R: Threads + Sync, G: Gate>(
    rt: &R,
    alloc: Global,
    channels: &Bundle,
    plan: Plan,
    k: u64,
    gate: &G,
) -> Result<Slots, Memory>
    requires one { 1 ≤ length channels.now }
    requires few { length channels.now ≤ max_channels }
    requires one_length { HaveOneLength channels.now }
    requires samples { All (λ samples. length samples ≤ max_samples) channels.now }
    requires some { 1 ≤ k }
    requires present { k ≤ length channels.now }
    ensures { IfOk result (λ slots. slots.items ≡ multi_of plan.m k (map series_of channels.now)) }
{
    multi(
        rt,
        alloc,
        channels,
        plan.m,
        k,
        plan.tile,
        plan.workers,
        gate,
    )
}

/// All channels of an open slot.
fn channels_of(alloc: Global, stores: &Stores, slot: u64) -> Result<Vec<Ref>, Memory>
    requires { channel_count (slot_at stores.now slot) ≡ length (streams_at stores.now slot) }
    ensures { IfOk result (λ refs. refs.items ≡ refs_of stores.now slot) }
{
    let mut refs = Vec::new(alloc);
    for channel in 0..stores.count(slot) {
        refs.push(Ref { slot, channel })?;
    }
    Ok(refs)
}
