//! `partial S`: the profile of those diagonals of a slot that are covered.

ghost use Rattle.mp_replies.specs.Command as asked;
ghost use Rattle.mp_replies.specs.Line.{Asks};
ghost use Rattle.mp_requests.specs.Reports.{IsAnswered};

use crate::answers::Answer;
use crate::conditions::part_cause;
use crate::context::Context;
use crate::reports::Report;
use mp_stores::Stores;

/// The profile is kept, so the report names its slot, and no sample is read.
pub(crate) fn report_partial(stores: &Stores, context: Context, slot: u64) -> Answer
    ensures { IsAnswered context (Asks (asked.Partial slot)) stores.now result }
{
    match part_cause(stores, slot) {
        Some(cause) => Answer::Refused(cause),
        None => Answer::Accepted(Report::Partial { slot }),
    }
}
