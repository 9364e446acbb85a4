//! `session 1`, or `session 2` with `wide` or `json` or both behind: how the lines that follow are read and answered.

ghost use Rattle.std.specs.Prelude.{◌≡◌};
ghost use Rattle.mp_replies.specs.Command as asked;
ghost use Rattle.mp_replies.specs.Line.{Asks};
ghost use Rattle.mp_replies.specs.SessionCommand.{mode_of as mode_named_by};
ghost use Rattle.mp_requests.specs.Reports.{IsAnswered};
ghost use Rattle.mp_stores.specs.Stores.{Stored};

use crate::answers::Answer;
use crate::context::Context;
use crate::reports::Report;
use mp_nums::Width;
use mp_replies::{Cause, Mode, ReportForm};

/// What a version line sets.
pub(crate) fn mode_of(version: u64, wide: bool, json: bool) -> Mode
    ensures { result ≡ mode_named_by version wide json }
{
    Mode {
        version,
        width: if wide { Width::Wide } else { Width::Narrow },
        form: if json {
            ReportForm::Json
        } else {
            ReportForm::Text
        },
    }
}

/// It comes before all other commands.
pub(crate) fn report_session(context: Context, mode: Mode) -> Answer
    ensures { (held : Stored) → IsAnswered context (Asks (asked.Session mode)) held result }
{
    if context.begun {
        Answer::Refused(Cause::Version)
    } else {
        Answer::Accepted(Report::Session { mode })
    }
}
