//! What a line asks for: a change of slots, or a report alone.

ghost use Rattle.std.specs.Prelude.{◌≡◌, ◌≤◌};
ghost use Rattle.mp_defs.specs.Limits.{max_samples};

use mp_lines::{Columns, Command};
use mp_requests::ReportRequest;

#[derive(Clone, Copy, Debug)]
pub(crate) enum Request<'a> {
    /// Nothing is asked for.
    Blank,
    Change(ChangeRequest<'a>),
    Report(ReportRequest<'a>),
}

/// A change of a slot.
#[derive(Clone, Copy, Debug)]
pub(crate) enum ChangeRequest<'a> {
    Open(Opening),
    Keep(Keeping),
    Load(Load<'a>),
    Lazy(LazyLoad<'a>),
    Append(Appending<'a>),
    Advance(Advance),
}

/// So many empty channels for a slot.
#[derive(Clone, Copy, Debug)]
pub(crate) struct Opening {
    pub(crate) slot: u64,
    pub(crate) channels: u64,
}

/// An empty channel for a slot, of which so many samples are kept.
#[derive(Clone, Copy, Debug)]
pub(crate) struct Keeping {
    pub(crate) slot: u64,
    pub(crate) keep: u64,
    ghost within: { keep ≤ max_samples },
}

/// Columns of a file for a slot.
#[derive(Clone, Copy, Debug)]
pub(crate) struct Load<'a> {
    pub(crate) slot: u64,
    pub(crate) file: &'a [u8],
    pub(crate) columns: Columns<'a>,
    pub(crate) header: bool,
}

/// A column of a file for a slot, whose profile is made in parts.
#[derive(Clone, Copy, Debug)]
pub(crate) struct LazyLoad<'a> {
    pub(crate) slot: u64,
    pub(crate) file: &'a [u8],
    pub(crate) column: u32,
    pub(crate) header: bool,
}

/// So many more diagonals of a slot.
#[derive(Clone, Copy, Debug)]
pub(crate) struct Advance {
    pub(crate) slot: u64,
    pub(crate) count: u64,
}

/// Items for a slot.
#[derive(Clone, Copy, Debug)]
pub(crate) struct Appending<'a> {
    pub(crate) slot: u64,
    pub(crate) items: &'a [u8],
}

impl<'a> Request<'a> {
    ghost use Rattle.mp_lines.specs.Lines.{asked_by};
    ghost use Rattle.mp_requests.specs.Requests.{IsWithinLimits};
    ghost use Rattle.mp_commands.specs.Commands.{asked_in};

    /// What a command asks for.
    pub(crate) fn of(command: Command<'a>) -> Request<'a>
        requires { IsWithinLimits (asked_by command) }
        ensures { asked_in result ≡ asked_by command.entry }
    {
        match command {
            Command::Blank => Request::Blank,
            Command::Open { slot, channels } => {
                Request::Change(ChangeRequest::Open(Opening { slot, channels }))
            }
            Command::Keep { slot, keep } => {
                Request::Change(ChangeRequest::Keep(Keeping { slot, keep }))
            }
            Command::Load {
                slot,
                file,
                columns,
                header,
            } => Request::Change(ChangeRequest::Load(Load {
                slot,
                file,
                columns,
                header,
            })),
            Command::Lazy {
                slot,
                file,
                column,
                header,
            } => Request::Change(ChangeRequest::Lazy(LazyLoad {
                slot,
                file,
                column,
                header,
            })),
            Command::Advance { slot, count } => {
                Request::Change(ChangeRequest::Advance(Advance { slot, count }))
            }
            Command::Append { slot, items } => {
                Request::Change(ChangeRequest::Append(Appending { slot, items }))
            }
            report => Request::Report(ReportRequest::of(report)),
        }
    }
}
