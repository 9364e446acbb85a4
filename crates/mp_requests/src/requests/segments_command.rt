//! `segments R COUNT FACTOR`: the places where a channel changes its regime.

ghost use Rattle.mp_replies.specs.Command as asked;
ghost use Rattle.mp_replies.specs.Line.{Asks};
ghost use Rattle.mp_requests.specs.Reports.{IsReported};

use crate::answers::Answer;
use crate::conditions::ref_cause;
use crate::context::Context;
use crate::reports::{Report, Segments};
use crate::requests::Regimes;
use mp_arcs::{arcs_are_few, corrected, regimes};
use mp_nums::Memory;
use mp_stores::Stores;

/// The arcs are counted from those that are kept. It reads no sample.
pub(crate) fn report_segments(
    stores: &Stores,
    context: Context,
    sought: Regimes,
) -> Result<Answer, Memory>
    ensures { IsReported context (Asks (asked.Segments sought.at sought.count sought.factor)) stores.now result }
{
    if let Some(cause) = ref_cause(stores, sought.at) {
        return Ok(Answer::Refused(cause));
    }
    // no more arcs pass over a place than there are windows, and no channel has more samples than fit
    arcs_are_few();
    let _within = stores.channel_len(sought.at);
    let arcs = stores.arcs(sought.at)?;
    let m = stores.window_len();
    let curve = corrected(context.alloc, arcs.as_slice(), m, sought.factor)?;
    let zone = u64::from(sought.factor) * u64::from(m);
    let places = regimes(context.alloc, curve.as_slice(), zone, sought.count)?;
    Ok(Answer::Accepted(Report::Segments(Segments { places, curve })))
}
