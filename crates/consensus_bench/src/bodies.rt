//! Two ways to find a centre.

ghost use Rattle.std.specs.Prelude.{◌≡◌, ◌<◌, ◌≤◌, length, All};
ghost use Rattle.mp_series.specs.declared.limits.TheConstants.{MAX_SAMPLES};

use crate::words::Words;
use anyhow::Result;
use mp_consensus::consensus;
use mp_nums::{Slot, Sq};
use mp_outside::OpenGate;
use mp_series::{Bundle, MAX_SAMPLES};
use mp_workers::ab_join;
use std::thread::Threads;

/// How many diagonals a join's tile has.
const TILE: u32 = 256;

/// A centre, but for the nearest windows.
#[derive(Clone, Copy, Debug)]
pub struct Found {
    pub radius: u128,
    pub series: u64,
    pub start: u64,
}

/// The centre, as the library finds it.
pub fn centre<R: AllocGlobal + Threads + Sync>(
    rt: &R,
    words: &Words,
    list: &Bundle,
) -> Result<Option<Found>>
    requires count { length list.now ≡ words.now.series }
    requires samples { All (λ series. length series ≤ MAX_SAMPLES) list.now }
{
    let found = consensus(rt, rt.alloc(), list, words.window, words.workers, &OpenGate)?;
    Ok(found.map(|centre| Found {
        radius: centre.radius.0,
        series: centre.series,
        start: centre.start,
    }))
}

/// Keeps the farther of both of each window, none where one of them is none.
fn keep_farther(reaches: &mut [Option<Sq>], slots: &[Slot]) {
    for (reach, slot) in reaches.iter_mut().zip(slots) {
        *reach = match (*reach, *slot) {
            (Some(reach), Some(near)) => Some(reach.max(near.dist)),
            _ => None,
        };
    }
}

/// The first window that reaches less far than the best one.
fn nearer(best: Option<Found>, series: u64, reaches: &[Option<Sq>]) -> Option<Found> {
    let mut best = best;
    let mut start = 0;
    for reach in reaches {
        if let Some(radius) = *reach {
            let is_less = match &best {
                Some(found) => radius.0 < found.radius,
                None => true,
            };
            if is_less {
                best = Some(Found {
                    radius: radius.0,
                    series,
                    start,
                });
            }
        }
        start = start.wrapping_add(1);
    }
    best
}

/// How far the windows of a series reach, by its joins with all others.
fn reaches_of<R: AllocGlobal + Threads + Sync>(
    rt: &R,
    words: &Words,
    list: &Bundle,
    place: u64,
) -> Result<Vec<Option<Sq>>>
    requires samples { All (λ series. length series ≤ MAX_SAMPLES) list.now }
    requires place { place < length list.now }
{
    let series = list.series(place);
    let windows = (series.len() + 1).saturating_sub(words.window as usize);
    let mut reaches = vec![in rt.alloc(); Some(Sq(0)); windows]?;
    for other in 0..list.count() {
        if other != place {
            let slots = ab_join(
                rt,
                rt.alloc(),
                series,
                list.series(other),
                words.window,
                TILE,
                words.workers,
                &OpenGate,
            )?;
            keep_farther(reaches.as_mut_slice(), slots.as_slice());
        }
    }
    Ok(reaches)
}

/// The centre by the joins of each two series.
pub fn centre_of_joins<R: AllocGlobal + Threads + Sync>(
    rt: &R,
    words: &Words,
    list: &Bundle,
) -> Result<Option<Found>>
    requires samples { All (λ series. length series ≤ MAX_SAMPLES) list.now }
{
    let mut best = None;
    for place in 0..list.count() {
        let reaches = reaches_of(rt, words, list, place)?;
        best = nearer(best, place, reaches.as_slice());
    }
    Ok(best)
}
