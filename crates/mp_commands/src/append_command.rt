//! `append S ITEM ITEM ..`: samples behind those of each channel of a slot.

ghost use Rattle.std.specs.Prelude.{◌≡◌, ◌+◌, ℕ, ◌<◌, ◌≤◌, ◌==◌, ◌∷◌, [], length, map, replicate, is_ok, true};
ghost use Rattle.std.specs.Prelude.{List, Option, Ok, Some, None, IfOk, IfErr, OnOk, IsErrOf};
ghost use Rattle.mp_bytes.specs.Fields.{fields_in};
ghost use Rattle.mp_defs.specs.Series.{series_of};
ghost use Rattle.mp_replies.specs.AppendCommand.{append_conditions, bad_in, item_of, most_samples};
ghost use Rattle.mp_replies.specs.AppendCommand.{read_items as items_read, rows_in};
ghost use Rattle.mp_replies.specs.Change.{extended};
ghost use Rattle.mp_replies.specs.Command as asked;
ghost use Rattle.mp_replies.specs.Limits.{max_scale};
ghost use Rattle.mp_replies.specs.Line.{Asks};
ghost use Rattle.mp_replies.specs.State.{Files, Store, channels_at, is_closed, keep_at, store_at};
ghost use Rattle.mp_requests.specs.Answering.{IsCause};
ghost use Rattle.mp_requests.specs.Reads.{AreUnread};
ghost use Rattle.mp_commands.specs.Preparing.{IsReady, IsTaken};
ghost use Rattle.mp_stores.specs.Stores.{StandAsBefore, StandFor, keep_of, lists_in, sample_count, slot_at};
ghost use Rattle.mp_text.specs.Rows.{Row, columns_of};

use crate::prepared::{Change, Prepared};
use crate::requests::Appending;
use mp_bytes::{Fields, Values};
use mp_nums::{Memory, Sample, Width};
use mp_replies::Cause;
use mp_requests::{Answer, Context, Report, Stop};
use mp_series::MAX_SAMPLES;
use mp_stores::Stores;
use mp_stream::MAX_APPENDED;
use mp_text::read_sample;
use std::alloc::Global;

/// Takes the room for the items and reads them, where none is bad and all fit. Want of memory comes only where nothing
/// refuses the line.
pub(crate) fn prepare_append(
    stores: &mut Stores,
    context: Context,
    more: Appending<'_>,
) -> Result<Prepared, Stop>
    ensures prepared { (told : Option Files) → IsTaken told context
        (Asks (asked.Append more.entry.slot (fields_in more.entry.items.now))) stores.old result }
    ensures ready { IfOk result
        (IsReady (Asks (asked.Append more.entry.slot (fields_in more.entry.items.now))) stores.new) }
    ensures calm { IsErrOf result Stop.ShelfFault → ⊥ }
    ensures stands { StandAsBefore stores.old stores.new }
    ensures unread { AreUnread stores.old stores.new }
{
    let Appending { slot, items } = more;
    let form = Form {
        width: context.mode.width,
        scale: context.settings.scale(),
        channels: stores.count(slot),
    };
    let count = match count_items(stores, form, slot, items) {
        Ok(count) => count,
        Err(cause) => return Ok(Prepared::refused(cause)),
    };
    stores.reserve(slot, count)?;
    let samples = stores.len(slot) + count;
    let added = read_items(context.alloc, items, form, count)?;
    Ok(Prepared {
        answer: Answer::Accepted(Report::Append { samples }),
        change: Change::AddSamples { slot, added },
    })
}

/// How the items for a slot are read.
#[derive(Clone, Copy)]
struct Form {
    width: Width,
    scale: u8,
    /// How many values an item has.
    channels: u64,
}

/// How many items there are, where none is bad and all fit behind the samples of the slot, or why the line is refused.
/// It takes no memory.
fn count_items(stores: &Stores, form: Form, slot: u64, items: &[u8]) -> Result<u64, Cause>
    requires places { form.scale ≤ max_scale }
    requires channels { (stands : List Store) → StandFor stores.now stands
        → form.channels ≡ length (channels_at stands slot) }
    requires closed { (stands : List Store) → StandFor stores.now stands
        → is_closed (store_at stands slot) ≡ (form.channels == 0) }
    ensures refused { IfErr result (λ cause. IsCause stores.now
        (λ stands. append_conditions form.width form.scale stands slot (fields_in items.now)) (Some cause)) }
    ensures fine { OnOk result (IsCause stores.now
        (λ stands. append_conditions form.width form.scale stands slot (fields_in items.now)) None) }
    ensures good { OnOk result (bad_in (items_read form.width form.scale form.channels (fields_in items.now)) ≡ None) }
    ensures count { IfOk result (λ count. count ≡ length (fields_in items.now)) }
    ensures fits { IfOk result (λ count. sample_count (slot_at stores.now slot) + count
        ≤ most_samples (keep_of (slot_at stores.now slot))) }
    ensures open { OnOk result (0 < form.channels) }
{
    if form.channels == 0 {
        return Err(Cause::Slot);
    }
    let count = match count_good(form, items) {
        Ok(count) => count,
        Err(number) => return Err(Cause::Sample(number)),
    };
    if most_in(stores, slot) - stores.len(slot) < count {
        return Err(Cause::Full);
    }
    Ok(count)
}

/// The most samples of each channel of a slot.
fn most_in(stores: &Stores, slot: u64) -> u64
    ensures most { result ≡ most_samples (keep_of (slot_at stores.now slot)) }
    ensures stands { (stands : List Store) → StandFor stores.now stands
        → result ≡ most_samples (keep_at stands slot) }
{
    match stores.kept(slot) {
        Some(_) => MAX_APPENDED,
        None => MAX_SAMPLES,
    }
}

/// How many items there are, where none is bad, or the number of the first bad one, counted from 1.
#[tactic(auto, using(mp_bytes::specs::FieldLaws::fields_within))]
fn count_good(form: Form, items: &[u8]) -> Result<u64, u64>
    requires { form.scale ≤ max_scale }
    ensures count { IfOk result (λ count. count ≡ length (fields_in items.now)) }
    ensures good { OnOk result (bad_in (items_read form.width form.scale form.channels (fields_in items.now)) ≡ None) }
    ensures bad { IfErr result (λ number.
        bad_in (items_read form.width form.scale form.channels (fields_in items.now)) ≡ Some number) }
{
    let mut count = 0;
    for item in (Fields { text: items }) {
        if !is_good(item, form) {
            return Err(count + 1);
        }
        count += 1;
    }
    Ok(count)
}

/// Whether an item has a value for each channel, and each spells a sample.
#[tactic(auto, using(crate::proofs::AppendLemmas::values_within))]
fn is_good(item: &[u8], form: Form) -> bool
    requires { form.scale ≤ max_scale }
    ensures { (number : ℕ) → result ≡ is_ok (item_of form.width form.scale form.channels number item.now) }
{
    let mut count = 0;
    for value in Values::of(item) {
        if read_sample(value, form.scale, form.width).is_err() {
            return false;
        }
        count += 1;
    }
    count == form.channels
}

/// The samples of each channel, of so many items, each of which is good.
fn read_items(
    alloc: Global,
    items: &[u8],
    form: Form,
    count: u64,
) -> Result<Vec<Vec<Sample>>, Memory>
    requires places { form.scale ≤ max_scale }
    requires good { bad_in (items_read form.width form.scale form.channels (fields_in items.now)) ≡ None }
    ensures { IfOk result (λ added. map series_of (lists_in added.items)
        ≡ columns_of form.channels (rows_in (items_read form.width form.scale form.channels (fields_in items.now)))) }
{
    let mut added = empty_lists(alloc, form.channels, count)?;
    for item in (Fields { text: items }) {
        read_item(&mut added, item, form)?;
    }
    Ok(added)
}

/// A list without a sample for each channel, with room for `count` samples.
fn empty_lists(alloc: Global, channels: u64, count: u64) -> Result<Vec<Vec<Sample>>, Memory>
    ensures { IfOk result (λ lists. lists_in lists.items ≡ replicate channels []) }
{
    let mut lists = Vec::with_capacity(alloc, channels as usize)?;
    for _ in 0..channels {
        lists.push(Vec::with_capacity(alloc, count as usize)?)?;
    }
    Ok(lists)
}

/// Puts the samples of a good item behind the lists, one behind each.
fn read_item(added: &mut [Vec<Sample>], item: &[u8], form: Form) -> Result<(), Memory>
    requires places { form.scale ≤ max_scale }
    requires lists { length added.old ≡ form.channels }
    requires good { is_ok (item_of form.width form.scale form.channels 0 item.now) ≡ true }
    ensures { OnOk result ((row : Row) → item_of form.width form.scale form.channels 0 item.now ≡ Ok row
        → map series_of (lists_in added.new)
        ≡ extended (map series_of (lists_in added.old)) (columns_of form.channels (row ∷ []))) }
{
    for (k, value) in Values::of(item).enumerate() {
        added[k].push(read_sample(value, form.scale, form.width).unwrap())?;
    }
    Ok(())
}
