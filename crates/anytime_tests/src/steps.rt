ghost use Rattle.std.specs.Prelude.{◌≤◌};
ghost use Rattle.mp_partial.specs.declared.limits.TheConstants.{MAX_WORKERS};
ghost use Rattle.mp_series.specs.declared.limits.TheConstants.{MAX_WINDOW, MIN_WINDOW};

use crate::plain::{nearest, next};
use crate::series::{drawn, lazy, numbers, sample_of, walked};
use mp_anytime::Anytime;
use mp_nums::{Sample, Slot};
use mp_outside::{MeetGate, OpenGate};
use mp_partial::Profile;
use mp_series::{excl, windows};
use std::process::Abort;
use std::test::Fail;
use std::thread::Threads;

/// Expects a column to have this at a window.
fn expect_slot(rt: &impl Abort, column: &[Slot], i: u64, expected: Slot) {
    let slot = column
        .get(i as usize)
        .expect(rt, "an entry for each window");
    assert_eq!(rt; *slot, expected);
}

/// Expects for each window the nearest ones among all on covered diagonals.
fn expect_profile(rt: &impl Abort, profile: &Profile, samples: &[Sample], m: u32, covered: &[bool])
    requires { 1 ≤ m }
{
    let count = windows(samples.len() as u64, m);
    assert_eq!(rt; profile.len(), count);
    for i in 0..count {
        expect_slot(
            rt,
            profile.all(),
            i,
            nearest(samples, m, covered, i, 0, count),
        );
        expect_slot(rt, profile.left(), i, nearest(samples, m, covered, i, 0, i));
        expect_slot(
            rt,
            profile.right(),
            i,
            nearest(samples, m, covered, i, i + 1, count),
        );
    }
}

/// Appends the sample to both, and looks at the reads.
fn append(
    rt: &impl Abort,
    anytime: &mut Anytime,
    m: u32,
    samples: &mut Vec<Sample>,
    sample: &Sample,
) -> Result<(), Fail> {
    let before = anytime.reads();
    let most = u128::from(anytime.covered()) + u128::from(m);
    anytime.append(*sample)?;
    samples.push(*sample)?;
    assert!(rt; anytime.reads().saturating_sub(before) <= 4 * most);
    Ok(())
}

/// Marks a diagonal as covered.
fn mark(rt: &impl Abort, covered: &mut [bool], diagonal: u64) {
    *covered
        .get_mut(diagonal as usize)
        .expect(rt, "a place for each diagonal") = true;
}

/// Covers the next diagonals by so many workers, and by the definition, one after another.
fn advance<R: Abort + AllocGlobal + Threads + Sync>(
    rt: &R,
    anytime: &mut Anytime,
    m: u32,
    covered: &mut [bool],
    count: u64,
    workers: u32,
) -> Result<(), Fail>
    requires shortest { 1 ≤ m }
    requires some { 1 ≤ workers }
    requires workers { workers ≤ MAX_WORKERS }
{
    let before = anytime.covered();
    let windows = windows(anytime.len(), m);
    let mut after = before;
    for _ in 0..count {
        if let Some(diagonal) = next(m, windows, covered) {
            mark(rt, covered, diagonal);
            after = after.saturating_add(1);
        }
    }
    let done = anytime.advance(rt, rt.alloc(), count, workers, &OpenGate)?;
    assert_eq!(rt; done, after.saturating_sub(before));
    assert_eq!(rt; anytime.covered(), after);
    let behind_the_zone = windows.saturating_sub(excl(m) + 1);
    assert_eq!(rt; anytime.left(), behind_the_zone.saturating_sub(after));
    Ok(())
}

/// For each number below 10 appends a sample, and for each other one covers up to six diagonals. It compares the
/// profile after each.
fn take_each<R: Abort + AllocGlobal + Threads + Sync>(
    rt: &R,
    anytime: &mut Anytime,
    m: u32,
    numbers: &[u64],
    unit: i64,
    workers: u32,
) -> Result<(), Fail>
    requires shortest { 1 ≤ m }
    requires some { 1 ≤ workers }
    requires workers { workers ≤ MAX_WORKERS }
{
    let mut samples = Vec::new(rt.alloc());
    let mut covered = vec![in rt.alloc(); false; 1_000]?;
    for number in numbers {
        if *number < 10 {
            append(rt, anytime, m, &mut samples, &sample_of(*number, unit))?;
        } else {
            advance(rt, anytime, m, covered.as_mut_slice(), *number - 9, workers)?;
        }
        expect_profile(
            rt,
            anytime.profile(),
            samples.as_slice(),
            m,
            covered.as_slice(),
        );
    }
    Ok(())
}

/// Takes steps from no samples on.
fn expect_steps<R: Abort + AllocGlobal + Threads + Sync>(
    rt: &R,
    m: u32,
    count: u64,
    unit: i64,
    workers: u32,
) -> Result<(), Fail>
    requires shortest { MIN_WINDOW ≤ m }
    requires longest { m ≤ MAX_WINDOW }
    requires some { 1 ≤ workers }
    requires workers { workers ≤ MAX_WORKERS }
{
    let numbers = numbers(rt.alloc(), count, u64::from(m))?;
    let mut anytime = lazy(rt.alloc(), &[], m)?;
    take_each(rt, &mut anytime, m, numbers.as_slice(), unit, workers)
}

#[test]
fn appends_and_advances(rt: HostRuntime) -> Result<(), Fail> {
    for unit in [1, 40_000, 140_000_000_000_000] {
        for m in [3, 4, 9] {
            expect_steps(&rt, m, 60, unit, 1)?;
        }
    }
    Ok(())
}

/// Covers all diagonals of a series by so many workers.
fn cover_all<R: Abort + AllocGlobal + Threads + Sync>(
    rt: &R,
    anytime: &mut Anytime,
    samples: &[Sample],
    m: u32,
    workers: u32,
) -> Result<(), Fail>
    requires shortest { 1 ≤ m }
    requires some { 1 ≤ workers }
    requires workers { workers ≤ MAX_WORKERS }
{
    let count = samples.len();
    let mut covered = vec![in rt.alloc(); false; count]?;
    advance(
        rt,
        anytime,
        m,
        covered.as_mut_slice(),
        count as u64,
        workers,
    )?;
    expect_profile(rt, anytime.profile(), samples, m, covered.as_slice());
    Ok(())
}

/// A series whose samples go up and down, with windows of a block and more.
fn expect_walked<R: Abort + AllocGlobal + Threads + Sync>(
    rt: &R,
    m: u32,
    unit: i64,
    workers: u32,
) -> Result<(), Fail>
    requires shortest { MIN_WINDOW ≤ m }
    requires longest { m ≤ MAX_WINDOW }
    requires some { 1 ≤ workers }
    requires workers { workers ≤ MAX_WORKERS }
{
    let samples = walked(rt.alloc(), 420, unit, u64::from(m))?;
    let mut anytime = lazy(rt.alloc(), samples.as_slice(), m)?;
    cover_all(rt, &mut anytime, samples.as_slice(), m, workers)
}

#[test]
fn blocks_of_pairs(rt: HostRuntime) -> Result<(), Fail> {
    for unit in [1, 50_000, 500_000_000_000] {
        for m in [31, 32, 70, 150] {
            expect_walked(&rt, m, unit, 1)?;
        }
        expect_walked(&rt, 40, unit, 3)?;
    }
    Ok(())
}

/// A series of which few diagonals are worth a worker of their own.
fn expect_workers<R: Abort + AllocGlobal + Threads + Sync>(rt: &R, workers: u32) -> Result<(), Fail>
    requires some { 1 ≤ workers }
    requires workers { workers ≤ MAX_WORKERS }
{
    let samples = drawn(rt.alloc(), 900, 1_000, 5)?;
    let mut anytime = lazy(rt.alloc(), samples.as_slice(), 5)?;
    cover_all(rt, &mut anytime, samples.as_slice(), 5, workers)
}

#[test]
fn several_workers(rt: HostRuntime) -> Result<(), Fail> {
    for workers in [1, 3, 32] {
        expect_workers(&rt, workers)?;
    }
    Ok(())
}

/// Covers all diagonals by two workers, which meet.
fn meet<R: Abort + AllocGlobal + Threads + Sync>(
    rt: &R,
    anytime: &mut Anytime,
) -> Result<(), Fail> {
    let gate = MeetGate::new();
    anytime.advance(rt, rt.alloc(), 1_500, 2, &gate)?;
    assert!(rt; gate.met());
    assert_eq!(rt; anytime.left(), 0);
    Ok(())
}

#[test]
fn two_workers_of_diagonals_meet(rt: HostRuntime) -> Result<(), Fail> {
    let samples = drawn(rt.alloc(), 1_500, 1_000, 5)?;
    let mut anytime = lazy(rt.alloc(), samples.as_slice(), 8)?;
    meet(&rt, &mut anytime)
}
