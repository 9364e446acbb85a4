//! The ways to compute a profile, and the AB-join.

ghost use Rattle.std.specs.Prelude.{◌≤◌, length};
ghost use Rattle.mp_series.specs.declared.limits.TheConstants.{MAX_SAMPLES, MAX_WINDOW, MIN_WINDOW};
ghost use Rattle.mp_partial.specs.declared.limits.TheConstants.{MAX_WORKERS};
ghost use Rattle.mp_cuts.specs.declared.cuts.TheConstants.{MAX_TILE};

use crate::words::{Body, Words};
use mp_nums::{Memory, Sample, Slot, Slots};
use mp_outside::OpenGate;
use mp_partial::Profile;
use mp_plain::Columns;
use mp_workers::{ab_join, self_join};
use std::thread::Threads;

/// What is found.
#[derive(Drop)]
pub enum Found {
    Profile(Profile),
    Columns(Columns),
    Join(Slots),
}

impl Found {
    /// A number that tells what is found from something else, but for chance.
    pub fn sum(&self) -> u128 {
        match self {
            Found::Profile(profile) => {
                sum_of_columns(profile.all(), profile.left(), profile.right())
            }
            Found::Columns(columns) => sum_of_columns(
                columns.all.as_slice(),
                columns.left.as_slice(),
                columns.right.as_slice(),
            ),
            Found::Join(slots) => sum_of_column(slots.as_slice()),
        }
    }
}

/// Finds what is asked for.
pub fn find<R: AllocGlobal + Threads + Sync>(
    rt: &R,
    words: &Words,
    samples: &[Sample],
) -> Result<Found, Memory>
    requires { length samples.now ≤ MAX_SAMPLES }
{
    let (alloc, m, tile, workers) = (rt.alloc(), words.window, words.tile, words.workers);
    Ok(match words.body {
        Body::Workers | Body::Each => {
            Found::Profile(self_join(rt, alloc, samples, m, tile, workers, &OpenGate)?)
        }
        Body::Tiles => Found::Profile(mp_tiles::profile(alloc, samples, m, tile)?),
        Body::Pairs => Found::Columns(mp_plain::profile(alloc, samples, m)?),
        Body::Join => {
            // from the first half of the samples to the second
            let (a, b) = samples.split_at(samples.len() / 2);
            Found::Join(ab_join(rt, alloc, a, b, m, tile, workers, &OpenGate)?)
        }
    })
}

fn sum_of_columns(all: &[Slot], left: &[Slot], right: &[Slot]) -> u128 {
    sum_of_column(all)
        .wrapping_mul(31)
        .wrapping_add(sum_of_column(left))
        .wrapping_mul(31)
        .wrapping_add(sum_of_column(right))
}

fn sum_of_column(slots: &[Slot]) -> u128 {
    let mut sum: u128 = 0;
    for slot in slots {
        sum = sum.wrapping_mul(31).wrapping_add(sum_of_slot(slot));
    }
    sum
}

/// A number that tells two slots apart, but for chance.
fn sum_of_slot(slot: &Slot) -> u128 {
    match slot {
        Some(near) => near
            .dist
            .0
            .wrapping_mul(31)
            .wrapping_add(u128::from(near.index))
            .wrapping_add(1),
        None => 0,
    }
}
