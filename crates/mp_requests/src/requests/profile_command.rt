//! `profile R`: the matrix profile of a channel. `entry R I`: the entry of one window in it. In a kept slot they speak
//! of the live windows.

ghost use Rattle.mp_replies.specs.Command as asked;
ghost use Rattle.mp_replies.specs.Line.{Asks};
ghost use Rattle.mp_requests.specs.Reports.{IsAnswered};

use crate::answers::Answer;
use crate::conditions::{any_ref_cause, entry_cause};
use crate::context::Context;
use crate::reports::Report;
use mp_replies::Ref;
use mp_stores::Stores;

/// The profile is kept, so the report names its channel, and no sample is read.
pub(crate) fn report_profile(stores: &Stores, context: Context, at: Ref) -> Answer
    ensures { IsAnswered context (Asks (asked.Profile at)) stores.now result }
{
    match any_ref_cause(stores, at) {
        Some(cause) => Answer::Refused(cause),
        None => Answer::Accepted(Report::Profile(at)),
    }
}

/// It reads no sample.
pub(crate) fn report_entry(stores: &Stores, context: Context, at: Ref, start: u64) -> Answer
    ensures { IsAnswered context (Asks (asked.Entry at start)) stores.now result }
{
    match entry_cause(stores, at, start) {
        Some(cause) => Answer::Refused(cause),
        None => Answer::Accepted(Report::Entry { at, start }),
    }
}
