//! `advance S K`: so many more diagonals of a slot are covered, or all that are left.

ghost use Rattle.std.specs.Prelude.{◌≡◌, ◌+◌, ◌≤◌, Option, length, IfOk, IsErrOf};
ghost use Rattle.mp_defs.specs.Limits.{max_samples, min_window};
ghost use Rattle.mp_defs.specs.Window.{windows};
ghost use Rattle.mp_replies.specs.Command as asked;
ghost use Rattle.mp_replies.specs.Line.{Asks};
ghost use Rattle.mp_replies.specs.State.{Files};
ghost use Rattle.mp_requests.specs.Requests.{IsLazySlot};
ghost use Rattle.mp_results.specs.Covering.{advanced, uncovered};
ghost use Rattle.mp_commands.specs.Advancing.{AreSteps};
ghost use Rattle.mp_commands.specs.Preparing.{IsReady, IsTaken};

use crate::prepared::{Change, Prepared};
use crate::requests::Advance;
use mp_anytime::{Anytime, covers_the_next};
use mp_requests::{Answer, Context, Report, Stop, part_cause};
use mp_stores::Stores;

/// How many diagonals it covers and how many it leaves is known before it is made.
pub(crate) fn prepare_advance(
    stores: &Stores,
    context: Context,
    advance: Advance,
) -> Result<Prepared, Stop>
    ensures prepared { (told : Option Files)
        → IsTaken told context (Asks (asked.Advance advance.slot advance.count)) stores.now result }
    ensures ready { IfOk result (IsReady (Asks (asked.Advance advance.slot advance.count)) stores.now) }
    ensures calm { IsErrOf result Stop.ShelfFault → ⊥ }
{
    let Advance { slot, count } = advance;
    if let Some(cause) = part_cause(stores, slot) {
        return Ok(Prepared::refused(cause));
    }
    let Steps { done, left } = steps_in(stores, slot, count);
    Ok(Prepared {
        answer: Answer::Accepted(Report::Advance { done, left }),
        change: Change::Advance { slot, count },
    })
}

/// How many diagonals an advance covers, and how many are left behind it.
#[derive(Clone, Copy)]
struct Steps {
    done: u64,
    left: u64,
}

/// Those of an advance by so many in a slot.
fn steps_in(stores: &Stores, slot: u64, count: u64) -> Steps
    requires { IsLazySlot stores.now slot }
    ensures { AreSteps stores.now slot count result.done result.left }
{
    let _m = stores.window_len();
    match stores.lazy(slot) {
        Some(part) => steps_of(part, count),
        None => unreachable!(),
    }
}

/// Those of an advance by so many.
fn steps_of(part: &Anytime, count: u64) -> Steps
    requires shortest { min_window ≤ part.now.m }
    requires few { length part.now.items ≤ max_samples }
    ensures done { length (advanced part.now.m (windows (length part.now.items) part.now.m) count part.now.covered)
        ≡ length part.now.covered + result.done }
    ensures left { result.left ≡ length (uncovered part.now.m (windows (length part.now.items) part.now.m)
        (advanced part.now.m (windows (length part.now.items) part.now.m) count part.now.covered)) }
{
    covers_the_next();
    let left = part.left();
    let done = left.min(count);
    Steps {
        done,
        left: left - done,
    }
}
