//! `open S C`: empty channels in place of what stood in a slot.

ghost use Rattle.std.specs.Prelude.{◌≡◌, ◌<◌, ◌≤◌, Option, vec_len, IfNone, IfOk, IsErrOf};
ghost use Rattle.mp_defs.specs.Limits.{max_window, min_window};
ghost use Rattle.mp_replies.specs.Command as asked;
ghost use Rattle.mp_replies.specs.Conditions.{first_cause};
ghost use Rattle.mp_replies.specs.Line.{Asks};
ghost use Rattle.mp_replies.specs.OpenCommand.{open_conditions};
ghost use Rattle.mp_replies.specs.State.{Files};
ghost use Rattle.mp_commands.specs.Preparing.{AreEmpty, IsReady, IsTaken};
ghost use Rattle.mp_stores.specs.Stores.{HaveWindow};

use crate::prepared::{Change, Prepared};
use crate::requests::Opening;
use mp_nums::Memory;
use mp_replies::Cause;
use mp_requests::{Answer, Context, Report, Stop};
use mp_stores::{Channel, MAX_CHANNELS, SLOTS, Stores};
use std::alloc::Global;
use std::thread::Threads;

/// Takes the memory for the channels, where the line isn't refused.
pub(crate) fn prepare_open<R: Threads + Sync>(
    rt: &R,
    stores: &Stores,
    context: Context,
    opening: Opening,
) -> Result<Prepared, Stop>
    ensures prepared { (told : Option Files)
        → IsTaken told context (Asks (asked.OpenAnew opening.slot opening.channels)) stores.now result }
    ensures ready { IfOk result (IsReady (Asks (asked.OpenAnew opening.slot opening.channels)) stores.now) }
    ensures calm { IsErrOf result Stop.ShelfFault → ⊥ }
{
    let slot = opening.slot;
    if let Some(cause) = open_cause(slot, opening.channels) {
        return Ok(Prepared::refused(cause));
    }
    let channels = empty_channels(rt, context.alloc, stores.window_len(), opening.channels)?;
    Ok(Prepared {
        answer: Answer::Accepted(Report::Open { samples: 0 }),
        change: Change::PutChannels { slot, channels },
    })
}

/// Why a slot can't be opened with so many channels, if it can't.
fn open_cause(slot: u64, channels: u64) -> Option<Cause>
    ensures cause { result ≡ first_cause (open_conditions slot channels) }
    ensures slot { IfNone result (slot < SLOTS) }
    ensures some { IfNone result (1 ≤ channels) }
    ensures few { IfNone result (channels ≤ MAX_CHANNELS) }
{
    if SLOTS <= slot {
        Some(Cause::Slot)
    } else if (1..=MAX_CHANNELS).contains(&channels) {
        None
    } else {
        Some(Cause::Channel)
    }
}

/// So many channels without a sample.
fn empty_channels<R: Threads + Sync>(
    rt: &R,
    alloc: Global,
    m: u32,
    count: u64,
) -> Result<Vec<Channel>, Memory>
    requires shortest { min_window ≤ m }
    requires longest { m ≤ max_window }
    ensures len { IfOk result (λ channels. vec_len channels ≡ count) }
    ensures empty { IfOk result (λ channels. AreEmpty channels.items) }
    ensures window { IfOk result (λ channels. HaveWindow m channels.items) }
{
    let mut channels = Vec::new(alloc);
    for _ in 0..count {
        channels.push(Channel::empty(rt, alloc, m)?)?;
    }
    Ok(channels)
}
