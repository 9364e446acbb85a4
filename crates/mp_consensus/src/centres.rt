//! The centre of several series.

ghost use Rattle.std.specs.Prelude.{◌≡◌, ◌+◌, ◌<◌, ◌≤◌, length, map, All, IfOk};
ghost use Rattle.std.specs.Option.{option_map};
ghost use Rattle.mp_series.specs.declared.limits.TheConstants.{MAX_SAMPLES, MAX_WINDOW, MIN_WINDOW};
ghost use Rattle.mp_partial.specs.declared.limits.TheConstants.{MAX_WORKERS};
ghost use Rattle.mp_defs.specs.Series.{series_of};
ghost use Rattle.mp_consensus.specs.Blocks.{windows_at};
ghost use Rattle.mp_consensus.specs.Conditions.{MayBeCompared};
ghost use Rattle.mp_results.specs.Consensus.{central, centre_of, counterpart, those_there};

use crate::blocks::{Block, rows_of, scan_all};
use crate::searches::search;
use mp_nums::{Centre, Items, Memory, Near, NearList, Slot, Sq};
use mp_outside::Gate;
use mp_partial::MAX_WORKERS;
use mp_series::{Bundle, MAX_SAMPLES, MAX_WINDOW, MIN_WINDOW};
use mp_workers::workers_for;
use std::alloc::Global;
use std::thread::Threads;

/// The most series that are compared.
pub const MAX_SERIES: u64 = 64;

/// How many pairs of samples of the list there are.
fn pairs(list: &Bundle) -> u64 {
    let mut samples: u64 = 0;
    for place in 0..list.count() {
        samples = samples.saturating_add(list.series(place).len() as u64);
    }
    samples.saturating_mul(samples)
}

/// At place `other` the window nearest to the one that starts at `start` at `place`, and this itself at its own place.
fn counterpart(
    alloc: Global,
    list: &Bundle,
    m: u32,
    place: u64,
    start: u64,
    other: u64,
) -> Result<Slot, Memory>
    requires conditions { MayBeCompared list.now m }
    requires place { place < length list.now }
    requires window { start < windows_at m list.now place }
    requires other { other < length list.now }
    ensures { IfOk result (λ slot. slot ≡ counterpart m (map series_of list.now) place start other) }
{
    if other == place {
        return Ok(Some(Near {
            dist: Sq(0),
            index: start,
        }));
    }
    let block = Block {
        place,
        start,
        count: 1,
    };
    let mut slots = Items::new(alloc);
    slots.push(None)?;
    scan_all(rows_of(list, m, block), list.series(other), m, &mut slots);
    Ok(slots.as_slice()[0])
}

/// The same at each place that has one.
fn counterparts(
    alloc: Global,
    list: &Bundle,
    m: u32,
    place: u64,
    start: u64,
) -> Result<NearList, Memory>
    requires conditions { MayBeCompared list.now m }
    requires place { place < length list.now }
    requires window { start < windows_at m list.now place }
    ensures { IfOk result (λ nearest. nearest.items
        ≡ those_there (counterpart m (map series_of list.now) place start) (length list.now)) }
{
    let mut nearest = Items::new(alloc);
    for other in 0..list.count() {
        if let Some(near) = counterpart(alloc, list, m, place, start, other)? {
            nearest.push(near)?;
        }
    }
    Ok(nearest)
}

/// The centre of 2 to 64 series at window length `m`, by so many workers. It is the same for every number of workers
/// and gate, and `None` exactly where no window has a radius.
///
/// The radius of a window without missing samples is the greatest, over the other places of the list, of its distance
/// to the nearest window there, in units of `10^(-2 * scale)`. A window has none where another place has no window
/// without missing samples. The centre has the least radius. Among equals it is the one at the first place, and there
/// the one that starts first. `nearest` has one window for each place: the nearest one, and at the centre's own place
/// the centre itself. A series that is named twice stands at two places, and no window is too near to be compared.
///
/// The centre is the consensus motif of the Matrix Profile papers; the order among equals is this project's own.
/// Workers look at blocks of windows of one series, and tell each other the least radius that they have found. A
/// window is given up as soon as it is farther than that from all windows of some other series.
pub fn consensus<R: Threads + Sync, G: Gate>(
    rt: &R,
    alloc: Global,
    list: &Bundle,
    m: u32,
    workers: u32,
    gate: &G,
) -> Result<Option<Centre>, Memory>
    requires shortest { MIN_WINDOW ≤ m }
    requires longest { m ≤ MAX_WINDOW }
    requires two { 2 ≤ length list.now }
    requires few { length list.now ≤ MAX_SERIES }
    requires samples { All (λ series. length series ≤ MAX_SAMPLES) list.now }
    requires some { 1 ≤ workers }
    requires workers { workers ≤ MAX_WORKERS }
    ensures { IfOk result (λ found. option_map central found ≡ centre_of m (map series_of list.now)) }
{
    let workers = workers_for(pairs(list), workers);
    let Some(best) = search(rt, alloc, list, m, workers, gate)? else {
        return Ok(None);
    };
    Ok(Some(Centre {
        radius: best.radius,
        series: best.place,
        start: best.start,
        nearest: counterparts(alloc, list, m, best.place, best.start)?,
    }))
}
