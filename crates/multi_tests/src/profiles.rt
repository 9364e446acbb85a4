ghost use Rattle.std.specs.Prelude.{◌≡◌, ◌≤◌, [], length, slice_index_or};
ghost use Rattle.mp_multi.specs.Conditions.{HaveOneLength};

use crate::channels::{multiples, tied, walks};
use crate::plain::entry;
use mp_cuts::{MAX_TILE, cut_own};
use mp_multi::{MAX_CHANNELS, multi, scan_multi};
use mp_nums::{Memory, Slots};
use mp_outside::{MeetGate, OpenGate};
use mp_partial::Part;
use mp_series::{Bundle, MAX_SAMPLES, MAX_WINDOW, MIN_WINDOW, excl, windows};
use std::alloc::Global;
use std::process::Abort;
use std::test::Fail;
use std::thread::Threads;

/// What the tiles of `D` channels give, one after another.
fn scanned<const D: usize>(
    alloc: Global,
    channels: &Bundle,
    m: u32,
    k: u64,
    tile: u32,
) -> Result<Slots, Memory>
    requires shortest { MIN_WINDOW ≤ m }
    requires longest { m ≤ MAX_WINDOW }
    requires some { 1 ≤ D }
    requires few { D ≤ MAX_CHANNELS }
    requires count { length channels.now ≡ D }
    requires one_length { HaveOneLength channels.now }
    requires samples { length (slice_index_or channels.now 0 []) ≤ MAX_SAMPLES }
    requires positive { 1 ≤ k }
    requires present { k ≤ D }
    requires least { 1 ≤ tile }
    requires greatest { tile ≤ MAX_TILE }
{
    let count = windows(channels.series(0).len() as u64, m);
    let cut = cut_own(count, excl(m), tile);
    let mut into: Slots = Part::unit(alloc, count)?;
    for place in 0..cut.count() {
        scan_multi::<D>(channels, m, k, &cut.tile(place), &mut into);
    }
    Ok(into)
}

/// Expects of `D` channels what the plain double loop gives, for each number of channels that are taken together.
fn expect_plain<R: Abort + AllocGlobal + Threads + Sync, const D: usize>(
    rt: &R,
    channels: &Bundle,
    tile: u32,
) -> Result<(), Fail>
    requires some { 1 ≤ D }
    requires few { D ≤ MAX_CHANNELS }
    requires count { length channels.now ≡ D }
    requires one_length { HaveOneLength channels.now }
    requires samples { length (slice_index_or channels.now 0 []) ≤ MAX_SAMPLES }
    requires least { 1 ≤ tile }
    requires greatest { tile ≤ MAX_TILE }
{
    let count = windows(channels.series(0).len() as u64, 3);
    for k in 1..D as u64 + 1 {
        let found = multi(rt, rt.alloc(), channels, 3, k, tile, 2, &OpenGate)?;
        let scanned = scanned::<D>(rt.alloc(), channels, 3, k, tile)?;
        assert_eq!(rt; found.as_slice(), scanned.as_slice());
        for (i, slot) in found.as_slice().iter().enumerate() {
            let expected = entry(rt, rt.alloc(), channels, k as usize, i as u64, count)?;
            assert_eq!(rt; *slot, expected);
        }
    }
    Ok(())
}

/// The values of the first and the second window of multiples of one channel, by how many are taken together.
const VALUES: [u128; 8] = [6, 30, 84, 180, 330, 546, 840, 1224];

/// Expects the values of `D` multiples of one channel.
fn expect_multiples<R: Abort + AllocGlobal + Threads + Sync, const D: usize>(
    rt: &R,
) -> Result<(), Fail>
    requires some { 1 ≤ D }
    requires few { D ≤ MAX_CHANNELS }
{
    let channels = multiples(rt.alloc(), D as u32)?;
    for k in 1..D as u64 + 1 {
        let found = multi(rt, rt.alloc(), &channels, 3, k, 256, 4, &OpenGate)?;
        let scanned = scanned::<D>(rt.alloc(), &channels, 3, k, 256)?;
        let value = VALUES[k as usize - 1];
        for slots in [found.as_slice(), scanned.as_slice()] {
            let pairs = [
                Some((0, 3)),
                Some((value, 3)),
                Some((value, 0)),
                Some((0, 0)),
            ];
            assert_eq!(rt; slots.len(), 4);
            for (slot, pair) in slots.iter().zip(&pairs) {
                assert_eq!(rt; slot.map(|near| (near.dist.0, near.index)), *pair);
            }
        }
    }
    Ok(())
}

macro_rules! for_each_count {
    ($expect:ident, $($argument:expr),*) => {
        $expect::<_, 1>($($argument),*)?;
        $expect::<_, 2>($($argument),*)?;
        $expect::<_, 3>($($argument),*)?;
        $expect::<_, 4>($($argument),*)?;
        $expect::<_, 5>($($argument),*)?;
        $expect::<_, 6>($($argument),*)?;
        $expect::<_, 7>($($argument),*)?;
        $expect::<_, 8>($($argument),*)?;
    };
}

#[test]
fn multiples_of_a_channel_have_profiles(rt: HostRuntime) -> Result<(), Fail> {
    for_each_count!(expect_multiples, &rt);
    Ok(())
}

/// Expects what the plain double loop gives, of `D` channels with ties and gaps, in tiles of each width.
fn expect_tied<R: Abort + AllocGlobal + Threads + Sync, const D: usize>(
    rt: &R,
    samples: u64,
    unit: i64,
) -> Result<(), Fail>
    requires some { 1 ≤ D }
    requires few { D ≤ MAX_CHANNELS }
    requires samples { samples ≤ 64 }
{
    for (seed, tile) in [(1, 1), (2, 7), (3, 256)] {
        let channels = tied(rt.alloc(), D as u64, samples, unit, seed)?;
        expect_plain::<R, D>(rt, &channels, tile)?;
    }
    Ok(())
}

#[test]
fn channels_have_the_profile_of_the_plain_loop(rt: HostRuntime) -> Result<(), Fail> {
    for_each_count!(expect_tied, &rt, 24, 1);
    Ok(())
}

/// Expects of `D` channels that are long enough for several workers what the tiles give one after another.
fn expect_workers<R: Abort + AllocGlobal + Threads + Sync, const D: usize>(
    rt: &R,
    k: u64,
) -> Result<(), Fail>
    requires some { 1 ≤ D }
    requires few { D ≤ MAX_CHANNELS }
    requires positive { 1 ≤ k }
    requires present { k ≤ D }
{
    let channels = tied(rt.alloc(), D as u64, 1_500, 1_000, 4)?;
    let scanned = scanned::<D>(rt.alloc(), &channels, 3, k, 64)?;
    for workers in [1, 2, 3, 32] {
        let found = multi(rt, rt.alloc(), &channels, 3, k, 64, workers, &OpenGate)?;
        assert_eq!(rt; found.as_slice(), scanned.as_slice());
    }
    Ok(())
}

#[test]
fn several_workers(rt: HostRuntime) -> Result<(), Fail> {
    expect_workers::<_, 1>(&rt, 1)?;
    expect_workers::<_, 3>(&rt, 2)?;
    expect_workers::<_, 8>(&rt, 8)
}

#[test]
fn two_workers_of_channels_meet(rt: HostRuntime) -> Result<(), Fail> {
    let channels = tied(rt.alloc(), 2, 1_500, 1_000, 5)?;
    let gate = MeetGate::new();
    let found = multi(&rt, rt.alloc(), &channels, 3, 1, 64, 2, &gate)?;
    assert!(rt; gate.met());
    assert_eq!(rt; found.as_slice().len(), 1_498);
    Ok(())
}

#[test]
fn wide_channels_have_the_profile_of_the_plain_loop(rt: HostRuntime) -> Result<(), Fail> {
    for_each_count!(expect_tied, &rt, 18, 140_737_488_355_327);
    Ok(())
}

#[test]
fn short_channels_have_no_windows(rt: HostRuntime) -> Result<(), Fail> {
    for_each_count!(expect_tied, &rt, 2, 1);
    for_each_count!(expect_tied, &rt, 0, 1);
    Ok(())
}

/// A window length for each number of channels: coarse sums have one, two or four times eight samples.
const LENGTHS: [u32; 8] = [16, 24, 64, 100, 256, 32, 128, 300];

/// Expects of `D` channels that are long enough for coarse sums what the tiles give one after another, for each number
/// of channels that are taken together.
fn expect_sums<R: Abort + AllocGlobal + Threads + Sync, const D: usize>(rt: &R) -> Result<(), Fail>
    requires some { 1 ≤ D }
    requires few { D ≤ MAX_CHANNELS }
{
    let channels = walks(rt.alloc(), D as u64, 4_400, 6)?;
    let m = LENGTHS[D - 1].clamp(MIN_WINDOW, MAX_WINDOW);
    for k in 1..D as u64 + 1 {
        let scanned = scanned::<D>(rt.alloc(), &channels, m, k, 256)?;
        for workers in [1, 4] {
            let found = multi(rt, rt.alloc(), &channels, m, k, 256, workers, &OpenGate)?;
            assert_eq!(rt; found.as_slice(), scanned.as_slice());
        }
    }
    Ok(())
}

#[test]
fn long_channels_have_the_profile_of_all_pairs(rt: HostRuntime) -> Result<(), Fail> {
    expect_sums::<_, 1>(&rt)?;
    expect_sums::<_, 2>(&rt)?;
    expect_sums::<_, 3>(&rt)?;
    expect_sums::<_, 4>(&rt)
}

#[test]
fn five_long_channels_have_the_profile_of_all_pairs(rt: HostRuntime) -> Result<(), Fail> {
    expect_sums::<_, 5>(&rt)
}

#[test]
fn six_long_channels_have_the_profile_of_all_pairs(rt: HostRuntime) -> Result<(), Fail> {
    expect_sums::<_, 6>(&rt)
}

#[test]
fn seven_long_channels_have_the_profile_of_all_pairs(rt: HostRuntime) -> Result<(), Fail> {
    expect_sums::<_, 7>(&rt)
}

#[test]
fn eight_long_channels_have_the_profile_of_all_pairs(rt: HostRuntime) -> Result<(), Fail> {
    expect_sums::<_, 8>(&rt)
}
