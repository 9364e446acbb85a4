//! What a line asks for, prepared.

ghost use Rattle.std.specs.Prelude.{◌≡◌, IfOk, IsErrOf, false};
ghost use Rattle.mp_lines.specs.Lines.{asked_by, cause_of as cause_of_fault};
ghost use Rattle.mp_replies.specs.Line.{asked_of, ends};
ghost use Rattle.mp_requests.specs.Reads.{AreUnread, IsKept};
ghost use Rattle.mp_requests.specs.Requests.{IsWithinLimits, is_accepted, is_ended, kind_by};
ghost use Rattle.mp_commands.specs.Commands.{changed_in};
ghost use Rattle.mp_commands.specs.Preparing.{IsAsked, IsPreparedBySome, IsReady, IsTaken, NeedsFile};
ghost use Rattle.mp_stores.specs.Stores.{StandAsBefore};

use crate::advance_command::prepare_advance;
use crate::append_command::prepare_append;
use crate::keep_command::prepare_keep;
use crate::lazy_command::prepare_lazy;
use crate::load_command::prepare_load;
use crate::open_command::prepare_open;
use crate::prepared::Prepared;
use crate::requests::{ChangeRequest, Request};
use mp_lines::{Command, LineFault, parse_line};
use mp_outside::{Gate, Shelf};
use mp_replies::Cause;
use mp_requests::{Answer, Context, Stop};
use mp_stores::Stores;
use std::thread::Threads;

/// Takes all that a line needs, its report included, before anything is changed but reads and room: the answer, and the
/// change, for which all memory is then there, but for that of an advance. Want of memory comes only where nothing
/// refuses the line without a file.
pub fn prepare<R: Threads + Sync, H: Shelf, G: Gate>(
    rt: &R,
    stores: &mut Stores,
    context: Context,
    line: &[u8],
    shelf: &mut H,
    gate: &G,
) -> Result<Prepared, Stop>
    ensures prepared { IsTaken (H.files shelf.old) context (asked_of context.mode.version line.now) stores.old result }
    ensures some_files { IfOk result (IsPreparedBySome context (asked_of context.mode.version line.now) stores.old) }
    ensures ends { IfOk result (λ prepared. is_ended (kind_by prepared.answer) ≡ ends line.now) }
    ensures ready { IfOk result (IsReady (asked_of context.mode.version line.now) stores.new) }

    // The slots, before the change is made.
    ensures stores { IsKept (asked_of context.mode.version line.now) stores.old stores.new }
    ensures unread { IfOk result (λ prepared. is_accepted (kind_by prepared.answer) ≡ false
        → AreUnread stores.old stores.new) }

    ensures shelf { IsAsked H.Shelf (NeedsFile context (asked_of context.mode.version line.now) stores.old)
        (IsErrOf result Stop.ShelfFault) shelf.old shelf.new }
{
    let command = match parse_line(line, context.mode.version) {
        Err(fault) => return Ok(Prepared::refused(cause_of(fault))),
        Ok(command) => command,
    };
    prepare_command(rt, stores, context, command, shelf, gate)
}

/// The same for a command that was read.
fn prepare_command<R: Threads + Sync, H: Shelf, G: Gate>(
    rt: &R,
    stores: &mut Stores,
    context: Context,
    command: Command<'_>,
    shelf: &mut H,
    gate: &G,
) -> Result<Prepared, Stop>
    requires { IsWithinLimits (asked_by command) }
    ensures prepared { IsTaken (H.files shelf.old) context (asked_by command.entry) stores.old result }
    ensures some_files { IfOk result (IsPreparedBySome context (asked_by command.entry) stores.old) }
    ensures ready { IfOk result (IsReady (asked_by command.entry) stores.new) }

    // The slots, before the change is made.
    ensures stores { IsKept (asked_by command.entry) stores.old stores.new }
    ensures unread { IfOk result (λ prepared. is_accepted (kind_by prepared.answer) ≡ false
        → AreUnread stores.old stores.new) }

    ensures shelf { IsAsked H.Shelf (NeedsFile context (asked_by command.entry) stores.old)
        (IsErrOf result Stop.ShelfFault) shelf.old shelf.new }
{
    match Request::of(command) {
        Request::Blank => Ok(Prepared::keeping(Answer::Silent)),
        Request::Change(request) => prepare_change(rt, stores, context, request, shelf, gate),
        Request::Report(request) => {
            Ok(Prepared::keeping(request.answer(rt, stores, context, gate)?))
        }
    }
}

/// The same for a change of a slot.
fn prepare_change<R: Threads + Sync, H: Shelf, G: Gate>(
    rt: &R,
    stores: &mut Stores,
    context: Context,
    request: ChangeRequest<'_>,
    shelf: &mut H,
    gate: &G,
) -> Result<Prepared, Stop>
    ensures prepared { IsTaken (H.files shelf.old) context (changed_in request.entry) stores.old result }
    ensures some_files { IfOk result (IsPreparedBySome context (changed_in request.entry) stores.old) }
    ensures ready { IfOk result (IsReady (changed_in request.entry) stores.new) }
    ensures stands { StandAsBefore stores.old stores.new }
    ensures unread { AreUnread stores.old stores.new }
    ensures shelf { IsAsked H.Shelf (NeedsFile context (changed_in request.entry) stores.old)
        (IsErrOf result Stop.ShelfFault) shelf.old shelf.new }
{
    match request {
        ChangeRequest::Open(opening) => prepare_open(rt, stores, context, opening),
        ChangeRequest::Keep(keeping) => prepare_keep(stores, context, keeping),
        ChangeRequest::Load(load) => prepare_load(rt, stores, context, load, shelf, gate),
        ChangeRequest::Lazy(load) => prepare_lazy(stores, context, load, shelf),
        ChangeRequest::Append(more) => prepare_append(stores, context, more),
        ChangeRequest::Advance(advance) => prepare_advance(stores, context, advance),
    }
}

/// Why a line is refused that wasn't read.
fn cause_of(fault: LineFault) -> Cause
    ensures { result ≡ cause_of_fault fault }
{
    match fault {
        LineFault::Long => Cause::Long,
        LineFault::Version => Cause::Version,
        LineFault::Unknown => Cause::Unknown,
        LineFault::Fields => Cause::Fields,
        LineFault::Number => Cause::Number,
    }
}
