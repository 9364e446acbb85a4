//! `lazy S FILE COL`, or with `header` behind: a column of a file in place of what stood in a slot, whose profile is
//! made in parts.

ghost use Rattle.std.specs.Prelude.{◌≡◌, ◌<◌, ◌≤◌, List, [], length, None, Some, IfNone, IfOk, IsErrOf};
ghost use Rattle.mp_defs.specs.Limits.{max_samples, max_window, min_window};
ghost use Rattle.mp_replies.specs.Conditions.{first_cause};
ghost use Rattle.mp_replies.specs.LazyCommand.{lazy_conditions};
ghost use Rattle.mp_replies.specs.Limits.{max_file, slot_count};
ghost use Rattle.mp_replies.specs.LoadCommand.{file_in};
ghost use Rattle.mp_replies.specs.State.{Files, Store};
ghost use Rattle.mp_requests.specs.Answering.{state_over};
ghost use Rattle.mp_commands.specs.Commands.{asks_lazy};
ghost use Rattle.mp_commands.specs.Preparing.{IsAsked, IsPrepared, IsPreparedBySome, IsReady, IsTaken, NeedsFile};
ghost use Rattle.mp_stores.specs.Stores.{StandFor};

use crate::load_command::{fetch_file, table_cause};
use crate::prepared::{Change, Prepared};
use crate::requests::LazyLoad;
use mp_anytime::Anytime;
use mp_nums::{Memory, Sample};
use mp_outside::Shelf;
use mp_replies::Cause;
use mp_requests::{Answer, Context, Report, Stop};
use mp_series::Samples;
use mp_stores::{SLOTS, Stores};
use mp_text::read_table;
use std::alloc::Global;

/// Fetches the file and takes its column, where the line isn't refused. The file is fetched once, and only where
/// nothing refuses the line without it. No two windows are compared.
pub(crate) fn prepare_lazy<H: Shelf>(
    stores: &Stores,
    context: Context,
    load: LazyLoad<'_>,
    shelf: &mut H,
) -> Result<Prepared, Stop>
    ensures prepared { IsTaken (H.files shelf.old) context (asks_lazy load.entry) stores.now result }
    ensures some_files { IfOk result (IsPreparedBySome context (asks_lazy load.entry) stores.now) }
    ensures ready { IfOk result (IsReady (asks_lazy load.entry) stores.now) }
    ensures shelf { IsAsked H.Shelf (NeedsFile context (asks_lazy load.entry) stores.now)
        (IsErrOf result Stop.ShelfFault) shelf.old shelf.new }
{
    if let Some(cause) = lazy_cause(load.slot) {
        return Ok(Prepared::refused(cause));
    }
    let fetched = fetch_file(context.alloc, load.file, shelf)?;
    match fetched {
        Ok(bytes) => prepare_column(stores, context, load, bytes.as_slice()),
        Err(cause) => Ok(Prepared::refused(cause)),
    }
}

/// Why a slot can't be loaded, if it can't.
fn lazy_cause(slot: u64) -> Option<Cause>
    ensures cause { result ≡ first_cause (lazy_conditions slot) }
    ensures slot { IfNone result (slot < SLOTS) }
{
    if SLOTS <= slot {
        Some(Cause::Slot)
    } else {
        None
    }
}

/// Makes the column of a file's bytes into a series, where none of its records is bad.
fn prepare_column(
    stores: &Stores,
    context: Context,
    load: LazyLoad<'_>,
    bytes: &[u8],
) -> Result<Prepared, Stop>
    requires slot { load.slot < slot_count }
    requires within { length bytes.now ≤ max_file }
    requires unrefused { first_cause (lazy_conditions load.slot) ≡ None }
    ensures ok { (stands : List Store) (files : Files) → StandFor stores.now stands
        → file_in files load.entry.file.now ≡ Some bytes.now
        → IfOk result (IsPrepared (state_over context stores.now stands) files (asks_lazy load.entry)) }
    ensures ready { IfOk result (IsReady (asks_lazy load.entry) stores.now) }
    ensures calm { IsErrOf result Stop.ShelfFault → ⊥ }
{
    let alloc = context.alloc;
    let scale = context.settings.scale();
    let bundle = match read_table(
        alloc,
        bytes,
        &[load.column],
        load.header,
        scale,
        context.mode.width,
    ) {
        Ok(bundle) => bundle,
        Err(fault) => {
            return match table_cause(fault) {
                Some(cause) => Ok(Prepared::refused(cause)),
                None => Err(Stop::Memory),
            };
        }
    };
    let part = uncovered_part(alloc, bundle.series(0), stores.window_len())?;
    let samples = part.len();
    Ok(Prepared {
        answer: Answer::Accepted(Report::Lazy { samples }),
        change: Change::PutLazy {
            slot: load.slot,
            part,
        },
    })
}

/// The series, of which no diagonal is covered.
fn uncovered_part(alloc: Global, series: &[Sample], m: u32) -> Result<Anytime, Memory>
    requires few { length series.now ≤ max_samples }
    requires shortest { min_window ≤ m }
    requires longest { m ≤ max_window }
    ensures items { IfOk result (λ part. part.items ≡ series.now) }
    ensures covered { IfOk result (λ part. part.covered ≡ []) }
    ensures m { IfOk result (λ part. part.m ≡ m) }
{
    let Ok(samples) = Samples::of(alloc, series) else {
        return Err(Memory);
    };
    Anytime::from(alloc, samples, m)
}
