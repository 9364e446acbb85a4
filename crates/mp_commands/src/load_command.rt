//! `load S FILE COL,COL`, or with `header` behind: columns of a file in place of what stood in a slot.

ghost use Rattle.std.specs.Prelude.{◌≡◌, ◌<◌, ◌≤◌, List, [], All, length};
ghost use Rattle.std.specs.Prelude.{option_map, unwrap_or, vec_len, true, Some, None, IfErr, IfNone, IfOk, IsErrOf};
ghost use Rattle.mp_defs.specs.Limits.{max_samples};
ghost use Rattle.mp_replies.specs.Limits.{max_file, slot_count};
ghost use Rattle.mp_replies.specs.LoadCommand.{file_in, load_conditions};
ghost use Rattle.mp_replies.specs.Numbers.{columns as columns_of};
ghost use Rattle.mp_replies.specs.State.{Files, Store};
ghost use Rattle.mp_requests.specs.Answering.{IsCause, state_over};
ghost use Rattle.mp_commands.specs.Commands.{asks_for};
ghost use Rattle.mp_commands.specs.Fetching.{IsRefusedFile};
ghost use Rattle.mp_commands.specs.Preparing.{IsAsked, IsPrepared, IsPreparedBySome, IsReady, IsTaken, NeedsFile};
ghost use Rattle.mp_commands.specs.Preparing.{cause_by};
ghost use Rattle.mp_text.specs.Table.{told};
ghost use Rattle.mp_stores.specs.Stores.{HaveWindow, StandFor, items_in, streams_at};

use crate::prepared::{Change, Prepared};
use crate::requests::Load;
use mp_lines::Columns;
use mp_nums::Memory;
use mp_outside::{Gate, Shelf, ShelfAnswer};
use mp_replies::Cause;
use mp_requests::{Answer, Context, Report, Stop};
use mp_series::Bundle;
use mp_stores::{Channel, Plan, SLOTS, Stores};
use mp_text::{TableFault, read_table};
use std::alloc::Global;
use std::thread::Threads;

/// The most bytes of a file.
const MAX_FILE: u64 = 67_108_864;

/// Fetches the file and makes its columns into channels, where the line isn't refused. The file is fetched once, and
/// only where nothing refuses the line without it.
pub(crate) fn prepare_load<R: Threads + Sync, H: Shelf, G: Gate>(
    rt: &R,
    stores: &Stores,
    context: Context,
    load: Load<'_>,
    shelf: &mut H,
    gate: &G,
) -> Result<Prepared, Stop>
    ensures prepared { IsTaken (H.files shelf.old) context (asks_for load.entry) stores.now result }
    ensures some_files { IfOk result (IsPreparedBySome context (asks_for load.entry) stores.now) }
    ensures ready { IfOk result (IsReady (asks_for load.entry) stores.now) }
    ensures shelf { IsAsked H.Shelf (NeedsFile context (asks_for load.entry) stores.now)
        (IsErrOf result Stop.ShelfFault) shelf.old shelf.new }
{
    if let Some(cause) = load_cause(stores, load.slot, load.columns) {
        return Ok(Prepared::refused(cause));
    }
    let fetched = fetch_file(context.alloc, load.file, shelf)?;
    match fetched {
        Ok(bytes) => prepare_table(rt, stores, context, load, bytes.as_slice(), gate),
        Err(cause) => Ok(Prepared::refused(cause)),
    }
}

/// Why a slot can't be loaded with these columns, if it can't.
fn load_cause(stores: &Stores, slot: u64, names: Columns<'_>) -> Option<Cause>
    ensures cause { IsCause stores.now
        (λ stands. load_conditions stands slot (unwrap_or (columns_of names.entry.field.now) [])) result }
    ensures slot { IfNone result (slot < SLOTS) }
    ensures some { IfNone result (0 < length (streams_at stores.now slot)) }
{
    let count = stores.count(slot);
    if count == 0 {
        Some(Cause::Slot)
    } else if stores.is_kept(slot) {
        Some(Cause::Kept)
    } else if stores.is_lazy(slot) {
        Some(Cause::Lazy)
    } else if names.count() == count {
        None
    } else {
        Some(Cause::Channel)
    }
}

/// The bytes of a file, or the word by which a load of it is refused.
pub(crate) fn fetch_file<H: Shelf>(
    alloc: Global,
    name: &[u8],
    shelf: &mut H,
) -> Result<Result<Vec<u8>, Cause>, Stop>
    ensures within { IfOk result (λ fetched. IfOk fetched (λ bytes. vec_len bytes ≤ max_file)) }
    ensures found { (files : Files) → H.files shelf.old ≡ Some files
        → IfOk result (λ fetched. IfOk fetched (λ bytes. file_in files name.now ≡ Some bytes.items)) }
    ensures refused { IfOk result (λ fetched. IfErr fetched (IsRefusedFile (H.files shelf.old) name.now)) }
    ensures shelf { IsAsked H.Shelf (λ file. file ≡ true) (IsErrOf result Stop.ShelfFault) shelf.old shelf.new }
{
    match shelf.fetch(alloc, name, MAX_FILE) {
        Ok(bytes) => Ok(Ok(bytes)),
        Err(ShelfAnswer::Absent) => Ok(Err(Cause::File)),
        Err(ShelfAnswer::TooLarge) => Ok(Err(Cause::FileSize)),
        Err(ShelfAnswer::Failed) => Err(Stop::ShelfFault),
        Err(ShelfAnswer::Memory) => Err(Stop::Memory),
    }
}

/// Makes the columns of a file's bytes into channels, where none of its records is bad.
fn prepare_table<R: Threads + Sync, G: Gate>(
    rt: &R,
    stores: &Stores,
    context: Context,
    load: Load<'_>,
    bytes: &[u8],
    gate: &G,
) -> Result<Prepared, Stop>
    requires slot { load.slot < slot_count }
    requires within { length bytes.now ≤ max_file }
    requires unrefused { IsCause stores.now
        (λ stands. load_conditions stands load.slot (unwrap_or (columns_of load.columns.field.now) [])) None }
    ensures ok { (stands : List Store) (files : Files) → StandFor stores.now stands
        → file_in files load.entry.file.now ≡ Some bytes.now
        → IfOk result (IsPrepared (state_over context stores.now stands) files (asks_for load.entry)) }
    ensures ready { IfOk result (IsReady (asks_for load.entry) stores.now) }
    ensures calm { IsErrOf result Stop.ShelfFault → ⊥ }
{
    let alloc = context.alloc;
    let columns = load.columns.read(alloc)?;
    let scale = context.settings.scale();
    let bundle = match read_table(
        alloc,
        bytes,
        columns.as_slice(),
        load.header,
        scale,
        context.mode.width,
    ) {
        Ok(bundle) => bundle,
        Err(fault) => {
            return match table_cause(fault) {
                Some(cause) => Ok(Prepared::refused(cause)),
                None => Err(Stop::Memory),
            };
        }
    };
    let channels = channels_of(rt, alloc, &bundle, context.plan(stores.window_len()), gate)?;
    let samples = bundle.series(0).len() as u64;
    Ok(Prepared {
        answer: Answer::Accepted(Report::Load { samples }),
        change: Change::PutChannels {
            slot: load.slot,
            channels,
        },
    })
}

/// Why a table is refused, none where there was no memory.
pub(crate) fn table_cause(fault: TableFault) -> Option<Cause>
    ensures { result ≡ option_map cause_by (told fault) }
{
    match fault {
        TableFault::Record { number, .. } | TableFault::NoField { number, .. } => {
            Some(Cause::Record(number))
        }
        TableFault::Rows => Some(Cause::Rows),
        TableFault::Memory => None,
    }
}

/// A channel for each series, with its profile.
fn channels_of<R: Threads + Sync, G: Gate>(
    rt: &R,
    alloc: Global,
    columns: &Bundle,
    plan: Plan,
    gate: &G,
) -> Result<Vec<Channel>, Memory>
    requires { All (λ series. length series ≤ max_samples) columns.now }
    ensures items { IfOk result (λ channels. items_in channels.items ≡ columns.now) }
    ensures window { IfOk result (λ channels. HaveWindow plan.m channels.items) }
{
    let mut channels = Vec::new(alloc);
    for k in 0..columns.count() {
        channels.push(Channel::of(rt, alloc, columns.series(k), plan, gate)?)?;
    }
    Ok(channels)
}
