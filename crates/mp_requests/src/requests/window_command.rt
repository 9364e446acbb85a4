//! `window R I`: the samples of a window.

ghost use Rattle.mp_replies.specs.Command as asked;
ghost use Rattle.mp_replies.specs.Line.{Asks};
ghost use Rattle.mp_requests.specs.Reports.{IsReported, OnlyReads};

use crate::answers::Answer;
use crate::conditions::window_cause;
use crate::context::Context;
use crate::reports::{Report, Window};
use mp_nums::Memory;
use mp_replies::Ref;
use mp_stores::Stores;

pub(crate) fn report_window(
    stores: &mut Stores,
    context: Context,
    at: Ref,
    start: u64,
) -> Result<Answer, Memory>
    ensures report { IsReported context (Asks (asked.Window at start)) stores.old result }
    ensures stores { OnlyReads (Asks (asked.Window at start)) stores.old stores.new result }
{
    if let Some(cause) = window_cause(stores, at, start) {
        return Ok(Answer::Refused(cause));
    }
    let samples = stores.window(context.alloc, at, start)?;
    let scale = context.settings.scale();
    Ok(Answer::Accepted(Report::Window(Window {
        start,
        samples,
        scale,
    })))
}
