//! What workers find side by side.

ghost use Rattle.std.specs.Prelude.{◌≤◌, length};
ghost use Rattle.mp_series.specs.declared.limits.TheConstants.{MAX_SAMPLES};

use crate::expected::{expect_slots, expect_windows};
use crate::marks::{Marks, expect_marks};
use crate::numbers::{GREATEST, LEAST, sample, samples, wide_samples};
use mp_consensus::consensus;
use mp_multi::multi;
use mp_nums::{Centre, Sample};
use mp_outside::{MeetGate, OpenGate};
use mp_partial::{Kernel, Profile};
use mp_series::{Bundle, MAX_SAMPLES};
use mp_tiles::{OwnTiles, profile};
use mp_workers::{ab_join, run_all, self_join};
use std::alloc::{AllocError, Global};
use std::process::Abort;
use std::test::Fail;
use std::thread::Threads;

#[test]
fn two_workers_run_side_by_side(rt: HostRuntime) -> Result<(), Fail> {
    let gate = MeetGate::new();
    let found = run_all(&rt, rt.alloc(), &Marks { pieces: 2 }, 2, 2, &gate)?;
    assert!(rt; gate.met());
    expect_marks(&rt, found.as_slice(), 2);
    Ok(())
}

#[test]
fn no_pieces_are_the_unit(rt: HostRuntime) -> Result<(), Fail> {
    let found = run_all(&rt, rt.alloc(), &Marks { pieces: 2 }, 0, 3, &OpenGate)?;
    assert_eq!(rt; found.as_slice(), [None, None].as_slice());
    Ok(())
}

const RISING: [Option<i32>; 4] = [Some(1), Some(2), Some(3), Some(4)];

const TWICE: [Option<i32>; 6] = [Some(1), Some(2), Some(3), Some(1), Some(2), Some(3)];

/// The distances and starts of a column.
type Column = [Option<(u128, u64)>; 4];

const ALL: Column = [Some((0, 3)), Some((6, 3)), Some((6, 0)), Some((0, 0))];

const LEFT: Column = [None, None, Some((6, 0)), Some((0, 0))];

const RIGHT: Column = [Some((0, 3)), Some((6, 3)), None, None];

fn expect_columns(rt: &impl Abort, profile: &Profile) {
    expect_slots(rt, profile.all(), &ALL);
    expect_slots(rt, profile.left(), &LEFT);
    expect_slots(rt, profile.right(), &RIGHT);
}

#[test]
fn a_series_has_a_profile(rt: HostRuntime) -> Result<(), Fail> {
    let twice = samples(rt.alloc(), &TWICE)?;
    assert!(rt; twice.len() as u64 <= MAX_SAMPLES);
    let found = self_join(&rt, rt.alloc(), twice.as_slice(), 3, 256, 4, &OpenGate)?;
    expect_columns(&rt, &found);
    Ok(())
}

#[test]
fn no_samples_have_an_empty_profile(rt: HostRuntime) -> Result<(), Fail> {
    let none = self_join(&rt, rt.alloc(), &[], 3, 256, 4, &OpenGate)?;
    assert_eq!(rt; none.len(), 0);
    Ok(())
}

/// So many samples of a few numbers, so that many distances are equal, some of them missing.
fn ties(alloc: Global, count: u64, seed: u64) -> Result<Vec<Sample>, AllocError> {
    const CHOICES: [Option<i32>; 4] = [None, Some(-1), Some(0), Some(2)];
    let mut samples = Vec::new(alloc);
    for i in 0..count {
        let number = seed.wrapping_add(i).wrapping_mul(0x9E37_79B9_7F4A_7C15);
        let choice = (number ^ (number >> 29)).wrapping_mul(0xBF58_476D_1CE4_E5B9) >> 62;
        samples.push(sample(CHOICES[choice as usize]))?;
    }
    Ok(samples)
}

/// Expects eight workers to find what one found. `self_join` would start fewer for so short a series.
fn expect_same<R: Abort + AllocGlobal + Threads + Sync>(
    rt: &R,
    samples: &[Sample],
    tile: u32,
    whole: &Profile,
) -> Result<(), Fail>
    requires samples { length samples.now ≤ MAX_SAMPLES }
    requires least { 1 ≤ tile }
    requires greatest { tile ≤ 16 }
{
    let tiles = OwnTiles::new(samples, 3, tile);
    let room = Profile::with_capacity(rt.alloc(), tiles.size())?;
    let found = run_all(rt, rt.alloc(), &tiles, tiles.pieces(), 8, &OpenGate)?.profile(room);
    assert_eq!(rt; found.all(), whole.all());
    assert_eq!(rt; found.left(), whole.left());
    assert_eq!(rt; found.right(), whole.right());
    Ok(())
}

/// Runs one worker, and eight.
fn run_twice<R: Abort + AllocGlobal + Threads + Sync>(
    rt: &R,
    samples: &[Sample],
    tile: u32,
) -> Result<(), Fail>
    requires samples { length samples.now ≤ MAX_SAMPLES }
    requires least { 1 ≤ tile }
    requires greatest { tile ≤ 16 }
{
    let whole = profile(rt.alloc(), samples, 3, 256)?;
    expect_same(rt, samples, tile, &whole)
}

#[test]
fn a_thousand_runs_find_the_same(rt: HostRuntime) -> Result<(), Fail> {
    for seed in 0..1_000 {
        let samples = ties(rt.alloc(), 24 + seed % 17, 100 * seed)?;
        assert!(rt; samples.len() as u64 <= MAX_SAMPLES);
        // sums have 128 bits in tiles of one diagonal, and 64 in those of sixteen
        run_twice(&rt, samples.as_slice(), if seed % 2 == 0 { 1 } else { 16 })?;
    }
    Ok(())
}

#[test]
fn joins_have_no_zone(rt: HostRuntime) -> Result<(), Fail> {
    for (b, expected) in [
        (RISING.as_slice(), [Some((0, 0)), Some((0, 1))]),
        (&[], [None, None]),
    ] {
        let (a, b) = (samples(rt.alloc(), &RISING)?, samples(rt.alloc(), b)?);
        assert!(rt; a.len() as u64 <= MAX_SAMPLES && b.len() as u64 <= MAX_SAMPLES);
        let (a, b) = (a.as_slice(), b.as_slice());
        let found = ab_join(&rt, rt.alloc(), a, b, 3, 256, 4, &OpenGate)?;
        expect_slots(&rt, found.as_slice(), &expected);
    }
    Ok(())
}

const WHOLE: [Option<i32>; 7] = [
    Some(1),
    Some(2),
    Some(3),
    Some(1),
    Some(2),
    Some(3),
    Some(1),
];

const GAPPED: [Option<i32>; 7] = [Some(1), None, Some(3), Some(1), Some(2), Some(3), Some(1)];

#[test]
fn two_channels_have_a_profile(rt: HostRuntime) -> Result<(), Fail> {
    let mut channels = Bundle::new(rt.alloc());
    channels.add(samples(rt.alloc(), &WHOLE)?.as_slice())?;
    channels.add(samples(rt.alloc(), &GAPPED)?.as_slice())?;
    for (k, expected) in [
        (
            1,
            [
                Some((0, 3)),
                Some((0, 4)),
                Some((6, 0)),
                Some((0, 0)),
                Some((0, 1)),
            ],
        ),
        (2, [None, None, Some((12, 4)), None, Some((12, 2))]),
    ] {
        let found = multi(&rt, rt.alloc(), &channels, 3, k, 256, 4, &OpenGate)?;
        expect_slots(&rt, found.as_slice(), &expected);
    }
    Ok(())
}

/// The ends of 48 bits.
const ENDS: [i64; 6] = [LEAST, LEAST, LEAST, GREATEST, GREATEST, GREATEST];

/// The nearest windows are two differences of both ends away, in each of so many channels.
fn far_in(channels: u128) -> Column
    requires { channels ≤ 8 }
{
    let far = channels * 158_456_325_028_527_549_287_181_058_050;
    [
        Some((far, 2)),
        Some((far, 3)),
        Some((far, 0)),
        Some((far, 1)),
    ]
}

#[test]
fn the_ends_of_48_bits_have_entries(rt: HostRuntime) -> Result<(), Fail> {
    let ends = wide_samples(rt.alloc(), &ENDS)?;
    assert!(rt; ends.len() as u64 <= MAX_SAMPLES);
    let found = self_join(&rt, rt.alloc(), ends.as_slice(), 3, 256, 4, &OpenGate)?;
    expect_slots(&rt, found.all(), &far_in(1));
    let mut channels = Bundle::new(rt.alloc());
    channels.add(ends.as_slice())?;
    channels.add(ends.as_slice())?;
    let found = multi(&rt, rt.alloc(), &channels, 3, 2, 256, 4, &OpenGate)?;
    expect_slots(&rt, found.as_slice(), &far_in(2));
    Ok(())
}

fn expect_centre(rt: &impl Abort, centre: &Centre) {
    assert_eq!(rt; (centre.radius.0, centre.series, centre.start), (3, 0, 0));
    expect_windows(rt, centre.nearest.as_slice(), &[(0, 0), (0, 1), (3, 0)]);
}

#[test]
fn three_series_have_a_centre(rt: HostRuntime) -> Result<(), Fail> {
    let mut list = Bundle::new(rt.alloc());
    list.add(samples(rt.alloc(), &RISING)?.as_slice())?;
    list.add(samples(rt.alloc(), &[Some(9), Some(1), Some(2), Some(3)])?.as_slice())?;
    list.add(samples(rt.alloc(), &[Some(2), Some(3), Some(4), Some(9)])?.as_slice())?;
    let found = consensus(&rt, rt.alloc(), &list, 3, 4, &OpenGate)?;
    assert!(rt; found.is_some());
    if let Some(centre) = &found {
        expect_centre(&rt, centre);
    }
    Ok(())
}

#[test]
fn no_window_of_a_series_is_in_one_without_samples(rt: HostRuntime) -> Result<(), Fail> {
    let mut list = Bundle::new(rt.alloc());
    list.add(samples(rt.alloc(), &RISING)?.as_slice())?;
    list.add(&[])?;
    assert!(rt; consensus(&rt, rt.alloc(), &list, 3, 4, &OpenGate)?.is_none());
    Ok(())
}
