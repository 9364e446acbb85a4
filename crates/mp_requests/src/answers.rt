//! The answer to a line.

ghost use Rattle.std.specs.Prelude.{◌≡◌, IfOk};
ghost use Rattle.mp_replies.specs.Report.{refusal_written};
ghost use Rattle.mp_requests.specs.Requests.{is_accepted as is_accepted_kind, is_ended as is_ended_kind};
ghost use Rattle.mp_requests.specs.Requests.{is_refused as is_refused_kind, kind_by};

use crate::replies::Reply;
use crate::reports::Report;
use mp_nums::{Memory, Text};
use mp_replies::{Cause, Mode, ReportForm};
use mp_report::answers::refused_text;
use mp_report::json_lines::answers::refused_json;
use mp_stores::Stores;
use std::alloc::Global;

/// What became of a line.
#[derive(Clone, Copy, Debug, PartialEq, Eq)]
pub enum ReplyKind {
    /// A blank line or a comment.
    Quiet,
    /// A command that was carried out.
    Accepted,
    /// A line that changed nothing but the number of lines run.
    Refused,
    /// An accepted line that ends the run.
    Ended,
}

impl ReplyKind {
    pub fn is_refused(self) -> bool
        ensures { result ≡ is_refused_kind self }
    {
        match self {
            ReplyKind::Refused => true,
            ReplyKind::Quiet | ReplyKind::Accepted | ReplyKind::Ended => false,
        }
    }

    pub fn is_ended(self) -> bool
        ensures { result ≡ is_ended_kind self }
    {
        match self {
            ReplyKind::Ended => true,
            ReplyKind::Quiet | ReplyKind::Accepted | ReplyKind::Refused => false,
        }
    }

    /// Whether the line was carried out.
    pub fn is_accepted(self) -> bool
        ensures { result ≡ is_accepted_kind self }
    {
        match self {
            ReplyKind::Accepted | ReplyKind::Ended => true,
            ReplyKind::Quiet | ReplyKind::Refused => false,
        }
    }
}

/// The report of a refused line, in this form.
fn written_refusal(alloc: Global, form: ReportForm, line: u64, cause: Cause) -> Result<Text, Memory>
    ensures { IfOk result (λ text. text.items ≡ refusal_written form line cause) }
{
    match form {
        ReportForm::Text => refused_text(alloc, line, cause),
        ReportForm::Json => refused_json(alloc, line, cause),
    }
}

/// The answer to a line.
#[derive(Debug, Drop)]
pub enum Answer {
    /// To a blank line or a comment.
    Silent,
    Refused(Cause),
    Accepted(Report),
    /// Accepted, and no line behind is run.
    Ended(Report),
}

impl Answer {
    ghost use Rattle.mp_replies.specs.Report.{written_of};
    ghost use Rattle.mp_replies.specs.State.{State};
    ghost use Rattle.mp_requests.specs.Requests.{AreSlotsOf, NamesChannels, answered, mode_named};

    /// What becomes of the line.
    pub fn kind(&self) -> ReplyKind
        ensures { result ≡ kind_by self.now }
    {
        match self {
            Answer::Silent => ReplyKind::Quiet,
            Answer::Refused(_) => ReplyKind::Refused,
            Answer::Accepted(_) => ReplyKind::Accepted,
            Answer::Ended(_) => ReplyKind::Ended,
        }
    }

    /// How it is written and the lines behind it are read, where it says so.
    pub fn mode(&self) -> Option<Mode>
        ensures { result ≡ mode_named self.now }
    {
        match self {
            Answer::Accepted(Report::Session { mode }) => Some(*mode),
            Answer::Silent | Answer::Refused(_) | Answer::Accepted(_) | Answer::Ended(_) => None,
        }
    }

    /// The reply to the line of this number, in this form. What the answer names is looked up in the slots.
    pub fn reply(
        self,
        alloc: Global,
        form: ReportForm,
        line: u64,
        stores: &Stores,
    ) -> Result<Reply, Memory>
        requires { NamesChannels stores.now self }
        ensures text { (state : State) → AreSlotsOf state stores.now
            → IfOk result (λ r. r.text.items ≡ written_of form line (answered state self)) }
        ensures kind { IfOk result (λ r. r.kind ≡ kind_by self) }
    {
        let text = self.written(alloc, form, line, stores)?;
        let kind = self.kind();
        Ok(Reply { text, kind })
    }

    /// What is written of it.
    fn written(
        &self,
        alloc: Global,
        form: ReportForm,
        line: u64,
        stores: &Stores,
    ) -> Result<Text, Memory>
        requires { NamesChannels stores.now self.now }
        ensures { (state : State) → AreSlotsOf state stores.now
            → IfOk result (λ text. text.items ≡ written_of form line (answered state self.now)) }
    {
        match self {
            Answer::Silent => Ok(Text::new(alloc)),
            Answer::Refused(cause) => written_refusal(alloc, form, line, *cause),
            Answer::Accepted(report) | Answer::Ended(report) => {
                report.written(alloc, form, line, stores)
            }
        }
    }
}
