//! `keep S N`: an empty channel in place of what stood in a slot, of which the last N samples are kept.

ghost use Rattle.std.specs.Prelude.{◌≡◌, ◌<◌, ◌≤◌, Option, IfNone, IfOk, IsErrOf};
ghost use Rattle.mp_replies.specs.Command as asked;
ghost use Rattle.mp_replies.specs.Conditions.{first_cause};
ghost use Rattle.mp_replies.specs.KeepCommand.{keep_conditions};
ghost use Rattle.mp_replies.specs.Line.{Asks};
ghost use Rattle.mp_replies.specs.State.{Files};
ghost use Rattle.mp_commands.specs.Preparing.{IsReady, IsTaken};

use crate::prepared::{Change, Prepared};
use crate::requests::Keeping;
use mp_replies::Cause;
use mp_requests::{Answer, Context, Report, Stop};
use mp_stores::{SLOTS, Stores};
use mp_stream::Kept;

/// Takes the memory for the samples that will be kept, where the line isn't refused.
pub(crate) fn prepare_keep(
    stores: &Stores,
    context: Context,
    keeping: Keeping,
) -> Result<Prepared, Stop>
    ensures prepared { (told : Option Files)
        → IsTaken told context (Asks (asked.KeepLast keeping.slot keeping.keep)) stores.now result }
    ensures ready { IfOk result (IsReady (Asks (asked.KeepLast keeping.slot keeping.keep)) stores.now) }
    ensures calm { IsErrOf result Stop.ShelfFault → ⊥ }
{
    let Keeping { slot, keep } = keeping;
    let m = stores.window_len();
    if let Some(cause) = keep_cause(m, slot, keep) {
        return Ok(Prepared::refused(cause));
    }
    let kept = Kept::open(context.alloc, m, keep)?;
    Ok(Prepared {
        answer: Answer::Accepted(Report::Keep { samples: 0 }),
        change: Change::PutKept { slot, kept },
    })
}

/// Why so many samples of windows of length `m` can't be kept in a slot, if they can't.
fn keep_cause(m: u32, slot: u64, keep: u64) -> Option<Cause>
    ensures cause { result ≡ first_cause (keep_conditions m slot keep) }
    ensures slot { IfNone result (slot < SLOTS) }
    ensures least { IfNone result (m ≤ keep) }
{
    if keep < m as u64 {
        Some(Cause::Number)
    } else if SLOTS <= slot {
        Some(Cause::Slot)
    } else {
        None
    }
}
