//! `chain R J`: the chain from one window of a channel. `chains R`: all chains of a channel.

ghost use Rattle.mp_replies.specs.Command as asked;
ghost use Rattle.mp_replies.specs.Line.{Asks};
ghost use Rattle.mp_requests.specs.Reports.{IsReported};

use crate::answers::Answer;
use crate::conditions::{ref_cause, window_cause};
use crate::context::Context;
use crate::reports::Report;
use mp_chains::{all_chains, anchored};
use mp_nums::Memory;
use mp_replies::Ref;
use mp_stores::Stores;

/// It reads no sample.
pub(crate) fn report_chain(
    stores: &Stores,
    context: Context,
    at: Ref,
    start: u64,
) -> Result<Answer, Memory>
    ensures { IsReported context (Asks (asked.Chain at start)) stores.now result }
{
    if let Some(cause) = window_cause(stores, at, start) {
        return Ok(Answer::Refused(cause));
    }
    let profile = stores.profile(at);
    let chain = anchored(context.alloc, profile.left(), profile.right(), start)?;
    Ok(Answer::Accepted(Report::Chain(chain)))
}

/// It reads no sample.
pub(crate) fn report_chains(stores: &Stores, context: Context, at: Ref) -> Result<Answer, Memory>
    ensures { IsReported context (Asks (asked.Chains at)) stores.now result }
{
    if let Some(cause) = ref_cause(stores, at) {
        return Ok(Answer::Refused(cause));
    }
    let profile = stores.profile(at);
    let chains = all_chains(context.alloc, profile.left(), profile.right())?;
    Ok(Answer::Accepted(Report::Chains(chains)))
}
