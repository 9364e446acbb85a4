//! `match R Q I RADIUS MAX`: the windows of a channel that match a window of another.

ghost use Rattle.std.specs.Prelude.{◌≡◌, ◌+◌, ◌≤◌, drop, length, take, IfOk};
ghost use Rattle.mp_defs.specs.Series.{series_of};
ghost use Rattle.mp_replies.specs.MatchCommand.{matches_in};
ghost use Rattle.mp_requests.specs.Reports.{IsReported, OnlyReads};
ghost use Rattle.mp_requests.specs.Requests.{asks_match};

use crate::answers::Answer;
use crate::conditions::match_cause;
use crate::context::Context;
use crate::reports::Report;
use crate::requests::Pattern;
use mp_motifs::matches;
use mp_nums::{Memory, NearList, Sample, Sq};
use mp_series::excl;
use mp_slide::distances;
use mp_stores::Stores;
use std::alloc::Global;
use std::thread::Threads;

/// Both may be the same channel.
pub(crate) fn report_match(
    rt: &(impl Threads + Sync),
    stores: &mut Stores,
    context: Context,
    pattern: Pattern,
) -> Result<Answer, Memory>
    ensures report { IsReported context (asks_match pattern) stores.old result }
    ensures stores { OnlyReads (asks_match pattern) stores.old stores.new result }
{
    if let Some(cause) = match_cause(stores, pattern.at, pattern.query, pattern.start) {
        return Ok(Answer::Refused(cause));
    }
    let list = stores.copies(context.alloc, &[pattern.at, pattern.query])?;
    let m = stores.window_len();
    let (series, from) = (list.series(0), list.series(1));
    let found = found_in(rt, context.alloc, series, from, m, pattern)?;
    Ok(Answer::Accepted(Report::Match(found)))
}

/// The windows of a series that match the pattern's window of another.
fn found_in(
    rt: &(impl Threads + Sync),
    alloc: Global,
    series: &[Sample],
    from: &[Sample],
    m: u32,
    pattern: Pattern,
) -> Result<NearList, Memory>
    requires { pattern.start + m ≤ length from.now }
    ensures { IfOk result (λ list. list.items
        ≡ matches_in m (series_of series.now) (series_of from.now) pattern.start pattern.radius pattern.max) }
{
    let window = window_of(from, pattern.start, m);
    // (its length and its samples were tested, so nothing but memory can be wanting)
    let Ok(dist) = distances(rt, alloc, window, series) else {
        return Err(Memory);
    };
    let radius = Sq(pattern.radius);
    matches(alloc, dist.as_slice(), excl(m), None, radius, pattern.max)
}

/// The samples of the window at `start`.
fn window_of(series: &[Sample], start: u64, m: u32) -> &[Sample]
    requires { start + m ≤ length series.now }
    ensures { result.now ≡ take m (drop start series.now) }
{
    let first = start as usize;
    &series[first..first + m as usize]
}
