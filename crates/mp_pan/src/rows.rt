//! The nearest pair of windows and the most unusual window at each length.

ghost use Rattle.std.specs.Prelude.{◌≡◌, ◌+◌, ◌-◌, ◌<◌, ◌≤◌, length, IfOk, map};
ghost use Rattle.std.specs.List.{range_with_len};
ghost use Rattle.std.specs.Option.{option_map};
ghost use Rattle.mp_series.specs.declared.limits.TheConstants.{MAX_SAMPLES, MAX_WINDOW, MIN_WINDOW};
ghost use Rattle.mp_defs.specs.Series.{series_of};
ghost use Rattle.mp_partial.specs.declared.limits.TheConstants.{MAX_WORKERS};
ghost use Rattle.mp_results.specs.Pan.{pair_of, pan_of, pan_row};
ghost use Rattle.mp_pan.specs.declared.limits.TheConstants.{MAX_LENGTHS};
ghost use Rattle.mp_pan.specs.Ranges.{AreFound};

use crate::found::Found;
use crate::kernels::LengthRange;
use crate::limits::MAX_LENGTHS;
use mp_nums::{Discord, Memory, Pair, PanRow, Sample};
use mp_outside::Gate;
use mp_partial::{Kernel, MAX_WORKERS};
use mp_series::{MAX_SAMPLES, MAX_WINDOW, MIN_WINDOW, windows};
use mp_workers::{run_all, workers_for};
use std::alloc::Global;
use std::thread::Threads;

/// A window and its nearest other one as a pair.
fn pair(window: Option<Discord>) -> Option<Pair>
    ensures { result ≡ option_map pair_of window }
{
    match window {
        Some(Discord { start, near }) => Some(Pair { start, near }),
        None => None,
    }
}

/// What was found at a length.
fn row_of(range: &LengthRange, found: &Found, place: u32) -> PanRow
    requires place { place < range.now.count }
    requires found { AreFound range.now.lo range.now.count (series_of range.now.samples.now) found.now }
    ensures { result ≡ pan_row (series_of range.now.samples.now) (range.now.lo + place) }
{
    let length = range.lo + place;
    PanRow {
        length,
        windows: windows(range.samples.len() as u64, length),
        best: pair(found.best(u64::from(place))),
        discord: found.discord(u64::from(place)),
    }
}

/// What was found at each length.
fn rows_of(alloc: Global, range: &LengthRange, found: &Found) -> Result<Vec<PanRow>, Memory>
    requires { AreFound range.now.lo range.now.count (series_of range.now.samples.now) found.now }
    ensures { IfOk result (λ rows. rows.items
        ≡ map (pan_row (series_of range.now.samples.now)) (range_with_len range.now.lo range.now.count)) }
{
    let mut rows = Vec::with_capacity(alloc, range.count as usize)?;
    for place in 0..range.count {
        rows.push_reserved(row_of(range, found, place));
    }
    Ok(rows)
}

/// How many pairs of a sample and another there are, once for each length.
fn pairs(range: &LengthRange) -> u64 {
    let samples = range.samples.len() as u64;
    let pairs = samples.saturating_mul(samples) / 2;
    pairs.saturating_mul(u64::from(range.count))
}

/// For each window length from `lo` to `hi` how many windows there are, the pair of windows that is least far apart, by
/// the smaller start among equals, and the most unusual window: of the windows with the greatest distance to their
/// nearest one the first. At each length only windows outside each other's exclusion zone are compared, and none of
/// which a sample is missing. Where no window has a nearest one there is neither. It is the same for every number of
/// workers and gate.
///
/// Distances are sums of squared differences, in units of `10^(-2 * scale)`. Four successive lengths are computed by
/// one scan, and so many workers share these. Each takes 160 bytes for each window of the least length. Short series
/// are left to fewer workers.
pub fn pan<R: Threads + Sync, G: Gate>(
    rt: &R,
    alloc: Global,
    samples: &[Sample],
    lo: u32,
    hi: u32,
    workers: u32,
    gate: &G,
) -> Result<Vec<PanRow>, Memory>
    requires shortest { MIN_WINDOW ≤ lo }
    requires ordered { lo ≤ hi }
    requires longest { hi ≤ MAX_WINDOW }
    requires lengths { hi - lo < MAX_LENGTHS }
    requires samples { length samples.now ≤ MAX_SAMPLES }
    requires some { 1 ≤ workers }
    requires workers { workers ≤ MAX_WORKERS }
    ensures { IfOk result (λ rows. rows.items ≡ pan_of lo hi (series_of samples.now)) }
{
    let range = LengthRange {
        samples,
        lo,
        count: hi - lo + 1,
    };
    let workers = workers_for(pairs(&range), workers);
    let found = run_all(rt, alloc, &range, range.pieces(), workers, gate)?;
    rows_of(alloc, &range, &found)
}
