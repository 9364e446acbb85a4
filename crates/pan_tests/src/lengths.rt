ghost use Rattle.std.specs.Prelude.{◌+◌, ◌≤◌, length};
ghost use Rattle.mp_cuts.specs.declared.cuts.TheConstants.{MAX_TILE};
ghost use Rattle.mp_partial.specs.declared.limits.TheConstants.{MAX_WORKERS};
ghost use Rattle.mp_series.specs.declared.limits.TheConstants.{MAX_SAMPLES, MAX_WINDOW, MIN_WINDOW};
ghost use Rattle.mp_pan.specs.declared.limits.TheConstants.{MAX_LENGTHS};

use crate::alone::row_of;
use crate::series::{alike, ties};
use mp_nums::Sample;
use mp_outside::{MeetGate, OpenGate};
use mp_pan::pan;
use mp_series::MAX_SAMPLES;
use std::process::Abort;
use std::test::Fail;
use std::thread::Threads;

/// Expects of each length from `lo` to `hi`, found by so many workers, what its profile by such tiles has.
fn expect_rows<R: Abort + AllocGlobal + Threads + Sync>(
    rt: &R,
    samples: &[Sample],
    lo: u32,
    hi: u32,
    tile: u32,
    workers: u32,
) -> Result<(), Fail>
    requires shortest { MIN_WINDOW ≤ lo }
    requires ordered { lo ≤ hi }
    requires longest { hi ≤ MAX_WINDOW }
    requires lengths { hi + 1 ≤ lo + MAX_LENGTHS }
    requires samples { length samples.now ≤ MAX_SAMPLES }
    requires least { 1 ≤ tile }
    requires greatest { tile ≤ MAX_TILE }
    requires some { 1 ≤ workers }
    requires workers { workers ≤ MAX_WORKERS }
{
    let rows = pan(rt, rt.alloc(), samples, lo, hi, workers, &OpenGate)?;
    assert_eq!(rt; rows.len() as u64, u64::from(hi - lo + 1));
    for m in lo..hi + 1 {
        let row = rows
            .get((m - lo) as usize)
            .expect(rt, "a row for each length");
        assert_eq!(rt; *row, row_of(rt, samples, m, tile, 1)?);
    }
    Ok(())
}

#[test]
fn ties_and_missing_samples(rt: HostRuntime) -> Result<(), Fail> {
    for unit in [1, 40_000, 140_000_000_000_000] {
        for seed in [3, 4, 9] {
            let samples = ties(rt.alloc(), 70, unit, seed)?;
            assert!(rt; samples.len() as u64 <= MAX_SAMPLES);
            for tile in [1, 7, 256] {
                expect_rows(&rt, samples.as_slice(), 3, 13, tile, 1)?;
            }
        }
    }
    Ok(())
}

#[test]
fn lengths_without_windows(rt: HostRuntime) -> Result<(), Fail> {
    let samples = alike(rt.alloc(), 12, 1_000)?;
    assert!(rt; samples.len() as u64 <= MAX_SAMPLES);
    expect_rows(&rt, samples.as_slice(), 3, 20, 7, 1)
}

#[test]
fn several_workers(rt: HostRuntime) -> Result<(), Fail> {
    let samples = ties(rt.alloc(), 1_200, 1_000, 3)?;
    assert!(rt; samples.len() as u64 <= MAX_SAMPLES);
    for workers in [1, 3, 32] {
        expect_rows(&rt, samples.as_slice(), 5, 12, 256, workers)?;
    }
    Ok(())
}

#[test]
fn two_workers_of_lengths_meet(rt: HostRuntime) -> Result<(), Fail> {
    let samples = ties(rt.alloc(), 1_500, 1_000, 5)?;
    assert!(rt; samples.len() as u64 <= MAX_SAMPLES);
    let gate = MeetGate::new();
    let rows = pan(&rt, rt.alloc(), samples.as_slice(), 8, 15, 2, &gate)?;
    assert!(rt; gate.met());
    assert_eq!(rt; rows.len(), 8);
    Ok(())
}
