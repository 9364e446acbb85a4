//! `discords R COUNT`: the most unusual windows of a channel, or of the live windows of a kept slot.

ghost use Rattle.std.specs.Prelude.{◌≡◌, ◌+◌, ◌-◌, ◌^◌, ◌≤◌, List, All, IfOk, map};
ghost use Rattle.mp_nums.specs.declared.samples.Sample.{Sample};
ghost use Rattle.mp_replies.specs.Command as asked;
ghost use Rattle.mp_replies.specs.Command.{DiscordsReport};
ghost use Rattle.mp_replies.specs.DiscordsCommand.{discords_of, started_at};
ghost use Rattle.mp_replies.specs.Line.{Asks};
ghost use Rattle.mp_replies.specs.State.{Store, keep_at, series_at};
ghost use Rattle.mp_requests.specs.Reports.{IsReported};
ghost use Rattle.mp_requests.specs.Requests.{IsNamed};
ghost use Rattle.mp_results.specs.Discords.{discords as discords_in};
ghost use Rattle.mp_stores.specs.Stores.{StandFor};
ghost use Rattle.mp_defs.specs.Limits.{max_appended};
ghost use Rattle.mp_defs.specs.Band.{first_kept};
ghost use Rattle.mp_stream.specs.Kept.{StandsFor};

use crate::answers::Answer;
use crate::conditions::any_ref_cause;
use crate::context::Context;
use crate::reports::Report;
use crate::requests::Unusual;
use mp_motifs::discords;
use mp_nums::{Discord, Memory};
use mp_series::excl;
use mp_stores::{Stores, live_slots};
use mp_stream::{Column, Kept};
use std::alloc::Global;

/// It reads no sample.
pub(crate) fn report_discords(
    stores: &Stores,
    context: Context,
    unusual: Unusual,
) -> Result<Answer, Memory>
    ensures { IsReported context (Asks (asked.Discords unusual.at unusual.count)) stores.now result }
{
    if let Some(cause) = any_ref_cause(stores, unusual.at) {
        return Ok(Answer::Refused(cause));
    }
    let found = unusual_windows(context.alloc, stores, unusual)?;
    Ok(Answer::Accepted(Report::Discords(found)))
}

fn unusual_windows(alloc: Global, stores: &Stores, unusual: Unusual) -> Result<Vec<Discord>, Memory>
    requires { IsNamed stores.now unusual.at }
    ensures { (stands : List Store) → StandFor stores.now stands
        → IfOk result (λ found. DiscordsReport found.items
        ≡ discords_of (keep_at stands unusual.at.slot) stores.now.m (series_at stands unusual.at) unusual.count) }
{
    let zone = excl(stores.window_len());
    match stores.kept(unusual.at.slot) {
        Some(kept) => unusual_live_windows(alloc, kept, zone, unusual.count),
        None => discords(alloc, stores.profile(unusual.at).all(), zone, unusual.count),
    }
}

/// Those of the live windows, by their true starts.
fn unusual_live_windows(
    alloc: Global,
    kept: &Kept,
    zone: u64,
    count: u64,
) -> Result<Vec<Discord>, Memory>
    requires few { kept.now.count ≤ max_appended }
    requires some { 1 ≤ count }
    ensures { (samples : List Sample) → StandsFor samples kept.now
        → IfOk result (λ found. found.items
        ≡ map (started_at (first_kept kept.now.keep kept.now.count)) (discords_in kept.now.all zone count)) }
{
    let all = live_slots(alloc, kept, Column::All)?;
    let mut found = discords(alloc, all.as_slice(), zone, count)?;
    move_by(kept.first(), found.as_mut_slice());
    Ok(found)
}

/// Raises each start by that of the first live window, from which it was counted.
fn move_by(first: u64, found: &mut [Discord])
    requires { All (λ discord. first + discord.start ≤ 2 ^ 64 - 1) found.old }
    ensures { found.new ≡ map (started_at first) found.old }
{
    for discord in found.iter_mut() {
        discord.start += first;
    }
}
