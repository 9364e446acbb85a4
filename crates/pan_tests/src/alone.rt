//! What the profile of one window length has.

ghost use Rattle.std.specs.Prelude.{◌≤◌, length};
ghost use Rattle.mp_cuts.specs.declared.cuts.TheConstants.{MAX_TILE};
ghost use Rattle.mp_partial.specs.declared.limits.TheConstants.{MAX_WORKERS};
ghost use Rattle.mp_series.specs.declared.limits.TheConstants.{MAX_SAMPLES, MAX_WINDOW, MIN_WINDOW};

use mp_nums::{Discord, Memory, Pair, PanRow, Sample, Slot};
use mp_outside::OpenGate;
use mp_workers::self_join;
use std::thread::Threads;

/// The row of a length, by its profile in tiles of so many diagonals by so many workers.
pub(crate) fn row_of<R: AllocGlobal + Threads + Sync>(
    rt: &R,
    samples: &[Sample],
    m: u32,
    tile: u32,
    workers: u32,
) -> Result<PanRow, Memory>
    requires shortest { MIN_WINDOW ≤ m }
    requires longest { m ≤ MAX_WINDOW }
    requires samples { length samples.now ≤ MAX_SAMPLES }
    requires least { 1 ≤ tile }
    requires greatest { tile ≤ MAX_TILE }
    requires some { 1 ≤ workers }
    requires workers { workers ≤ MAX_WORKERS }
{
    let profile = self_join(rt, rt.alloc(), samples, m, tile, workers, &OpenGate)?;
    let mut best = None;
    let mut discord = None;
    for (start, slot) in profile.all().iter().enumerate() {
        best = nearer(best, start as u64, slot);
        discord = farther(discord, start as u64, slot);
    }
    Ok(PanRow {
        length: m,
        windows: profile.len(),
        best,
        discord,
    })
}

/// The one of a pair and of a later window with its nearest one that is less far apart, the pair where both are as far.
fn nearer(earlier: Option<Pair>, start: u64, slot: &Slot) -> Option<Pair> {
    match (slot, earlier) {
        (Some(near), Some(pair)) if near.dist < pair.near.dist => Some(Pair { start, near: *near }),
        (Some(near), None) => Some(Pair { start, near: *near }),
        _ => earlier,
    }
}

/// The one of a window and of a later one that is farther from its nearest one, the earlier where both are as far.
fn farther(earlier: Option<Discord>, start: u64, slot: &Slot) -> Option<Discord> {
    match (slot, earlier) {
        (Some(near), Some(other)) if near.dist > other.near.dist => {
            Some(Discord { start, near: *near })
        }
        (Some(near), None) => Some(Discord { start, near: *near }),
        _ => earlier,
    }
}
