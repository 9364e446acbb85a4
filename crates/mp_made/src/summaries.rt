//! The summary of a made series.

ghost use Rattle.std.specs.Prelude.{◌≡◌, ◌*◌, ◌<◌, ◌≤◌, length, map, slice_get, IfOk, IfSome};
ghost use Rattle.std.specs.List.{range_with_len};
ghost use Rattle.mp_results.specs.Arcs.{indices_of, NameWithin};
ghost use Rattle.mp_results.specs.Curve.{parts_of};
ghost use Rattle.mp_results.specs.Regimes.{regimes_in};
ghost use Rattle.mp_defs.specs.Limits.{max_samples, max_window, min_window};
ghost use Rattle.mp_defs.specs.Profile.{matrix_profile};
ghost use Rattle.mp_results.specs.Generator.{sample_of};
ghost use Rattle.mp_replies.specs.Limits.{max_tile, max_workers};
ghost use Rattle.mp_replies.specs.SegmentsCommand.{curve_in};
ghost use Rattle.mp_replies.specs.Summary.{made_series, summary_factor, summary_of};
ghost use Rattle.mp_made.specs.Summaries.{summary_by};

use mp_arcs::{arcs, arcs_are_few, corrected, regimes};
use mp_gen::sample_at;
use mp_nums::{Memory, Ratio, Sample, Slot, Text};
use mp_outside::Gate;
use mp_partial::Profile;
use mp_replies::Make;
use mp_report::generated_text;
use mp_series::excl;
use mp_workers::self_join;
use std::alloc::{AllocError, Global};
use std::thread::Threads;

/// How many window lengths the margins of the curve have, and the zone of a regime.
const FACTOR: u32 = 5;

/// The summary of the series that is made of a number: how many samples and windows it has, the window that is nearest
/// to another, the first discord, and the place where the regime changes most.
///
/// The profile is computed as that of a loaded series, by `workers` workers in tiles of `tile` diagonals. Neither of
/// the two changes the text.
pub fn summary<R: Threads + Sync, G: Gate>(
    rt: &R,
    alloc: Global,
    m: u32,
    tile: u32,
    workers: u32,
    make: Make,
    gate: &G,
) -> Result<Text, Memory>
    requires shortest { min_window ≤ m }
    requires longest { m ≤ max_window }
    requires least { 1 ≤ tile }
    requires greatest { tile ≤ max_tile }
    requires some { 1 ≤ workers }
    requires workers { workers ≤ max_workers }
    requires count { make.count ≤ max_samples }
    ensures { IfOk result (λ text. text.items ≡ summary_of m make) }
{
    let profile = made_profile(rt, alloc, m, tile, workers, make, gate)?;
    text_of(alloc, m, make.count, &profile)
}

/// The profile of the samples that are made.
fn made_profile<R: Threads + Sync, G: Gate>(
    rt: &R,
    alloc: Global,
    m: u32,
    tile: u32,
    workers: u32,
    make: Make,
    gate: &G,
) -> Result<Profile, Memory>
    requires shortest { min_window ≤ m }
    requires longest { m ≤ max_window }
    requires least { 1 ≤ tile }
    requires greatest { tile ≤ max_tile }
    requires some { 1 ≤ workers }
    requires workers { workers ≤ max_workers }
    requires count { make.count ≤ max_samples }
    ensures { IfOk result (λ profile. profile.all ≡ (matrix_profile m (made_series make)).all) }
{
    let samples = made_samples(alloc, make)?;
    self_join(rt, alloc, samples.as_slice(), m, tile, workers, gate)
}

/// The samples that are made.
fn made_samples(alloc: Global, make: Make) -> Result<Vec<Sample>, AllocError>
    ensures { IfOk result (λ list. list.items ≡ map (sample_of make.number) (range_with_len 0 make.count)) }
{
    (0..make.count)
        .map(|i| sample_at(make.number, i))
        .collect(alloc)
}

/// The summary of so many samples, by their profile.
fn text_of(alloc: Global, m: u32, samples: u64, profile: &Profile) -> Result<Text, Memory>
    requires longest { m ≤ max_window }
    requires few { length profile.now.all ≤ max_samples }
    requires named { NameWithin (indices_of profile.now.all) }
    ensures { IfOk result (λ text. text.items ≡ summary_by m samples profile.now.all) }
{
    let curve = curve(alloc, profile.all(), m)?;
    let regime = first_regime(alloc, curve.as_slice(), m)?;
    generated_text(alloc, samples, profile, excl(m), regime, curve.as_slice())
}

/// The corrected arc curve of a profile's entries.
fn curve(alloc: Global, column: &[Slot], m: u32) -> Result<Vec<Ratio>, Memory>
    requires longest { m ≤ max_window }
    requires few { length column.now ≤ max_samples }
    requires named { NameWithin (indices_of column.now) }
    ensures { IfOk result (λ curve. map parts_of curve.items ≡ curve_in m column.now summary_factor) }
{
    // no more arcs pass over a place than there are windows
    arcs_are_few();
    let arcs = arcs(alloc, column)?;
    corrected(alloc, arcs.as_slice(), m, FACTOR)
}

/// The place of a curve where the regime changes most.
fn first_regime(alloc: Global, curve: &[Ratio], m: u32) -> Result<Option<u64>, Memory>
    ensures first { IfOk result
        (λ regime. regime ≡ slice_get (regimes_in (map parts_of curve.now) (summary_factor * m) 1) 0) }
    ensures within { IfOk result (λ regime. IfSome regime (λ place. place < length curve.now)) }
{
    let zone = u64::from(FACTOR) * u64::from(m);
    let places = regimes(alloc, curve, zone, 1)?;
    Ok(places.as_slice().first().copied())
}
