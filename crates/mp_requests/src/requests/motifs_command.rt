//! `motifs R COUNT CUTOFF RADIUS NEIGHBOURS MATCHES`: the repeated patterns of a channel.

ghost use Rattle.mp_requests.specs.Reports.{IsReported, OnlyReads};
ghost use Rattle.mp_requests.specs.Requests.{asks_motifs};

use crate::answers::Answer;
use crate::conditions::ref_cause;
use crate::context::Context;
use crate::reports::Report;
use crate::requests::Repeats;
use mp_motifs::motifs;
use mp_nums::{Memory, Sq};
use mp_stores::Stores;
use std::thread::Threads;

/// The profile is the one that is kept.
pub(crate) fn report_motifs(
    rt: &(impl Threads + Sync),
    stores: &mut Stores,
    context: Context,
    repeats: Repeats,
) -> Result<Answer, Memory>
    ensures report { IsReported context (asks_motifs repeats) stores.old result }
    ensures stores { OnlyReads (asks_motifs repeats) stores.old stores.new result }
{
    if let Some(cause) = ref_cause(stores, repeats.at) {
        return Ok(Answer::Refused(cause));
    }
    let list = stores.copies(context.alloc, &[repeats.at])?;
    let found = motifs(
        rt,
        context.alloc,
        list.series(0),
        stores.profile(repeats.at).all(),
        stores.window_len(),
        Sq(repeats.cutoff),
        Sq(repeats.radius),
        repeats.neighbours,
        repeats.matches,
        repeats.count,
    )?;
    Ok(Answer::Accepted(Report::Motifs(found)))
}
