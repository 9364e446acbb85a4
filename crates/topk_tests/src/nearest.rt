ghost use Rattle.std.specs.Prelude.{◌+◌, ◌≤◌, length};
ghost use Rattle.mp_cuts.specs.declared.cuts.TheConstants.{MAX_TILE};
ghost use Rattle.mp_partial.specs.declared.limits.TheConstants.{MAX_WORKERS};
ghost use Rattle.mp_series.specs.declared.limits.TheConstants.{MAX_SAMPLES, MAX_WINDOW, MIN_WINDOW};
ghost use Rattle.mp_topk.specs.declared.ranks.TheConstants.{MAX_RANKS};

use crate::ordered::ordered;
use crate::series::{alike, ties, waves};
use mp_nums::{NearList, Sample};
use mp_outside::{MeetGate, OpenGate};
use mp_series::{MAX_SAMPLES, windows};
use mp_topk::nearest;
use std::alloc::Global;
use std::process::Abort;
use std::test::Fail;
use std::thread::Threads;

/// Expects the first `k` of all windows in order.
fn expect_list(
    rt: &impl Abort,
    alloc: Global,
    samples: &[Sample],
    m: u32,
    k: u64,
    i: u64,
    list: &NearList,
) -> Result<(), Fail>
    requires shortest { 1 ≤ m }
    requires window { i + m ≤ length samples.now }
{
    let all = ordered(alloc, samples, m, i)?;
    let count = all.len().min(k as usize);
    assert_eq!(rt; list.as_slice(), &all.as_slice()[..count]);
    Ok(())
}

/// Expects of each window its first `k` windows in order.
fn expect_lists(
    rt: &impl Abort,
    alloc: Global,
    samples: &[Sample],
    m: u32,
    k: u64,
    lists: &[NearList],
) -> Result<(), Fail>
    requires shortest { 1 ≤ m }
{
    let count = windows(samples.len() as u64, m);
    assert_eq!(rt; lists.len() as u64, count);
    for i in 0..count {
        let list = lists.get(i as usize).expect(rt, "a list for each window");
        expect_list(rt, alloc, samples, m, k, i, list)?;
    }
    Ok(())
}

/// Expects of each 64th window its first `k` windows in order.
fn expect_some_lists(
    rt: &impl Abort,
    alloc: Global,
    samples: &[Sample],
    m: u32,
    k: u64,
    lists: &[NearList],
) -> Result<(), Fail>
    requires shortest { 1 ≤ m }
{
    let count = windows(samples.len() as u64, m);
    assert_eq!(rt; lists.len() as u64, count);
    for n in 0..count / 64 {
        let i = 64 * n;
        let list = lists.get(i as usize).expect(rt, "a list for each window");
        expect_list(rt, alloc, samples, m, k, i, list)?;
    }
    Ok(())
}

/// Compares the nearest windows by tiles and workers with all windows in order.
fn expect_nearest<R: Abort + AllocGlobal + Threads + Sync>(
    rt: &R,
    samples: &[Sample],
    m: u32,
    k: u64,
    tile: u32,
    workers: u32,
) -> Result<(), Fail>
    requires shortest { MIN_WINDOW ≤ m }
    requires longest { m ≤ MAX_WINDOW }
    requires samples { length samples.now ≤ MAX_SAMPLES }
    requires one { 1 ≤ k }
    requires few { k ≤ MAX_RANKS }
    requires least { 1 ≤ tile }
    requires greatest { tile ≤ MAX_TILE }
    requires some { 1 ≤ workers }
    requires workers { workers ≤ MAX_WORKERS }
{
    let lists = nearest(rt, rt.alloc(), samples, m, k, tile, workers, &OpenGate)?;
    expect_lists(rt, rt.alloc(), samples, m, k, lists.as_slice())
}

/// By each number of ranks, tiles of 1, 7 and 256 diagonals, and one worker.
fn expect_each<R: Abort + AllocGlobal + Threads + Sync>(
    rt: &R,
    samples: &[Sample],
    m: u32,
) -> Result<(), Fail>
    requires shortest { MIN_WINDOW ≤ m }
    requires longest { m ≤ MAX_WINDOW }
    requires samples { length samples.now ≤ MAX_SAMPLES }
{
    for k in 1..5 {
        for tile in [1, 7, 256] {
            expect_nearest(rt, samples, m, k, tile, 1)?;
        }
    }
    Ok(())
}

#[test]
fn ties_and_missing_samples(rt: HostRuntime) -> Result<(), Fail> {
    for unit in [1, 40_000, 140_000_000_000_000] {
        for m in [3, 4, 9] {
            let samples = ties(rt.alloc(), 70, unit, u64::from(m))?;
            assert!(rt; samples.len() as u64 <= MAX_SAMPLES);
            expect_each(&rt, samples.as_slice(), m)?;
        }
    }
    Ok(())
}

#[test]
fn a_constant_series(rt: HostRuntime) -> Result<(), Fail> {
    let samples = alike(rt.alloc(), 50, 1_000)?;
    assert!(rt; samples.len() as u64 <= MAX_SAMPLES);
    expect_each(&rt, samples.as_slice(), 4)
}

#[test]
fn several_workers(rt: HostRuntime) -> Result<(), Fail> {
    let samples = ties(rt.alloc(), 1_500, 1_000, 3)?;
    assert!(rt; samples.len() as u64 <= MAX_SAMPLES);
    for workers in [1, 3, 32] {
        expect_nearest(&rt, samples.as_slice(), 5, 4, 16, workers)?;
    }
    Ok(())
}

/// Expects the same windows in each of two lists of lists.
fn expect_same(rt: &impl Abort, lists: &[NearList], others: &[NearList]) {
    assert_eq!(rt; lists.len(), others.len());
    for i in 0..lists.len() {
        let other = others.get(i).expect(rt, "a list for each window");
        assert_eq!(rt; lists[i].as_slice(), other.as_slice());
    }
}

/// The lists of so many windows are made by several workers.
#[test]
fn several_workers_make_lists(rt: HostRuntime) -> Result<(), Fail> {
    let samples = ties(rt.alloc(), 4_500, 1_000, 7)?;
    assert!(rt; samples.len() as u64 <= MAX_SAMPLES);
    let lists = nearest(
        &rt,
        rt.alloc(),
        samples.as_slice(),
        16,
        3,
        256,
        1,
        &OpenGate,
    )?;
    for workers in [2, 4] {
        let others = nearest(
            &rt,
            rt.alloc(),
            samples.as_slice(),
            16,
            3,
            256,
            workers,
            &OpenGate,
        )?;
        expect_same(&rt, others.as_slice(), lists.as_slice());
    }
    Ok(())
}

#[test]
fn two_workers_of_ranks_meet(rt: HostRuntime) -> Result<(), Fail> {
    let samples = ties(rt.alloc(), 1_500, 1_000, 5)?;
    assert!(rt; samples.len() as u64 <= MAX_SAMPLES);
    let gate = MeetGate::new();
    let lists = nearest(&rt, rt.alloc(), samples.as_slice(), 8, 2, 64, 2, &gate)?;
    assert!(rt; gate.met());
    assert_eq!(rt; lists.len() as u64, 1_493);
    Ok(())
}

#[test]
fn two_workers_of_ranks_in_coarse_sums_meet(rt: HostRuntime) -> Result<(), Fail> {
    let samples = ties(rt.alloc(), 4_200, 1_000, 5)?;
    assert!(rt; samples.len() as u64 <= MAX_SAMPLES);
    let gate = MeetGate::new();
    let lists = nearest(&rt, rt.alloc(), samples.as_slice(), 16, 2, 64, 2, &gate)?;
    assert!(rt; gate.met());
    assert_eq!(rt; lists.len() as u64, 4_185);
    Ok(())
}

/// Compares some lists by each number of ranks and by one worker and several with all windows in order.
fn expect_some<R: Abort + AllocGlobal + Threads + Sync>(
    rt: &R,
    samples: &[Sample],
    m: u32,
) -> Result<(), Fail>
    requires shortest { MIN_WINDOW ≤ m }
    requires longest { m ≤ MAX_WINDOW }
    requires samples { length samples.now ≤ MAX_SAMPLES }
{
    for k in 1..5 {
        for workers in [1, 3] {
            let lists = nearest(rt, rt.alloc(), samples, m, k, 256, workers, &OpenGate)?;
            expect_some_lists(rt, rt.alloc(), samples, m, k, lists.as_slice())?;
        }
    }
    Ok(())
}

/// Coarse sums are made of so many windows. They pass over blocks of pairs of waves, and not of ties.
#[test]
fn ranks_in_coarse_sums(rt: HostRuntime) -> Result<(), Fail> {
    let samples = waves(rt.alloc(), 4_200)?;
    assert!(rt; samples.len() as u64 <= MAX_SAMPLES);
    expect_some(&rt, samples.as_slice(), 24)?;
    let samples = ties(rt.alloc(), 4_200, 1_000, 9)?;
    assert!(rt; samples.len() as u64 <= MAX_SAMPLES);
    expect_some(&rt, samples.as_slice(), 16)
}

/// Distances of samples that lie so far apart don't fit words.
#[test]
fn ranks_at_great_distances(rt: HostRuntime) -> Result<(), Fail> {
    let samples = ties(rt.alloc(), 4_200, 2_000_000, 13)?;
    assert!(rt; samples.len() as u64 <= MAX_SAMPLES);
    expect_some(&rt, samples.as_slice(), 16)
}
