ghost use Rattle.std.specs.Prelude.{◌≤◌};
ghost use Rattle.mp_partial.specs.declared.limits.TheConstants.{MAX_WORKERS};

use crate::plain::next;
use crate::series::{lazy, sample, samples};
use mp_anytime::Anytime;
use mp_nums::Slot;
use mp_outside::OpenGate;
use std::process::Abort;
use std::test::Fail;
use std::thread::Threads;

/// For each window the distance and the start of the nearest one.
type Entries<'a> = &'a [Option<(u128, u64)>];

/// Expects a column to have these.
fn expect_slots(rt: &impl Abort, slots: &[Slot], expected: Entries<'_>) {
    assert_eq!(rt; slots.len(), expected.len());
    for (slot, pair) in slots.iter().zip(expected) {
        assert_eq!(rt; slot.map(|near| (near.dist.0, near.index)), *pair);
    }
}

/// Expects the columns to have these.
fn expect_part(
    rt: &impl Abort,
    anytime: &Anytime,
    all: Entries<'_>,
    left: Entries<'_>,
    right: Entries<'_>,
) {
    let profile = anytime.profile();
    expect_slots(rt, profile.all(), all);
    expect_slots(rt, profile.left(), left);
    expect_slots(rt, profile.right(), right);
}

/// Covers so many of the next diagonals, and expects some to be covered and others to be left.
fn cover<R: Abort + AllocGlobal + Threads + Sync>(
    rt: &R,
    anytime: &mut Anytime,
    count: u64,
    workers: u32,
    done: u64,
    left: u64,
) -> Result<(), Fail>
    requires some { 1 ≤ workers }
    requires workers { workers ≤ MAX_WORKERS }
{
    assert_eq!(rt;
        anytime.advance(rt, rt.alloc(), count, workers, &OpenGate)?,
        done
    );
    assert_eq!(rt; anytime.left(), left);
    Ok(())
}

/// From the samples 1 2 3 1 2 3 on.
fn grow_to_the_whole<R: Abort + AllocGlobal + Threads + Sync>(
    rt: &R,
    anytime: &mut Anytime,
) -> Result<(), Fail> {
    assert_eq!(rt; anytime.left(), 2);
    expect_part(rt, anytime, &[None; 4], &[None; 4], &[None; 4]);
    cover(rt, anytime, 1, 1, 1, 1)?;
    expect_part(
        rt,
        anytime,
        &[Some((6, 2)), Some((6, 3)), Some((6, 0)), Some((6, 1))],
        &[None, None, Some((6, 0)), Some((6, 1))],
        &[Some((6, 2)), Some((6, 3)), None, None],
    );
    anytime.append(sample(1))?;
    assert_eq!(rt; anytime.left(), 2);
    expect_part(
        rt,
        anytime,
        &[
            Some((6, 2)),
            Some((6, 3)),
            Some((6, 0)),
            Some((6, 1)),
            Some((6, 2)),
        ],
        &[None, None, Some((6, 0)), Some((6, 1)), Some((6, 2))],
        &[Some((6, 2)), Some((6, 3)), Some((6, 4)), None, None],
    );
    cover(rt, anytime, 9, 1, 2, 0)?;
    expect_part(
        rt,
        anytime,
        &[
            Some((0, 3)),
            Some((0, 4)),
            Some((6, 0)),
            Some((0, 0)),
            Some((0, 1)),
        ],
        &[None, None, Some((6, 0)), Some((0, 0)), Some((0, 1))],
        &[Some((0, 3)), Some((0, 4)), Some((6, 4)), None, None],
    );
    Ok(())
}

#[test]
fn a_part_grows_to_the_whole(rt: HostRuntime) -> Result<(), Fail> {
    let samples = samples(rt.alloc(), &[1, 2, 3, 1, 2, 3])?;
    let mut anytime = lazy(rt.alloc(), samples.as_slice(), 3)?;
    grow_to_the_whole(&rt, &mut anytime)
}

/// From no samples on.
fn begin<R: Abort + AllocGlobal + Threads + Sync>(
    rt: &R,
    anytime: &mut Anytime,
) -> Result<(), Fail> {
    assert_eq!(rt; anytime.left(), 0);
    cover(rt, anytime, 5, 2, 0, 0)?;
    expect_part(rt, anytime, &[], &[], &[]);
    anytime.reserve(1)?;
    assert!(rt; 1 <= anytime.spare());
    anytime.append(sample(7))?;
    assert_eq!(rt; anytime.len(), 1);
    assert!(rt; !anytime.is_empty());
    Ok(())
}

#[test]
fn no_samples(rt: HostRuntime) -> Result<(), Fail> {
    let mut anytime = lazy(rt.alloc(), &[], 3)?;
    begin(&rt, &mut anytime)
}

/// From five windows on, of which the first and the last are compared first.
fn cover_two<R: Abort + AllocGlobal + Threads + Sync>(
    rt: &R,
    anytime: &mut Anytime,
) -> Result<(), Fail> {
    cover(rt, anytime, 1, 1, 1, 2)?;
    expect_part(
        rt,
        anytime,
        &[Some((57, 4)), None, None, None, Some((57, 0))],
        &[None, None, None, None, Some((57, 0))],
        &[Some((57, 4)), None, None, None, None],
    );
    cover(rt, anytime, 1, 1, 1, 1)?;
    expect_part(
        rt,
        anytime,
        &[
            Some((12, 2)),
            Some((12, 3)),
            Some((12, 0)),
            Some((12, 1)),
            Some((17, 2)),
        ],
        &[None, None, Some((12, 0)), Some((12, 1)), Some((17, 2))],
        &[Some((12, 2)), Some((12, 3)), Some((17, 4)), None, None],
    );
    Ok(())
}

#[test]
fn diagonals_by_their_reversals(rt: HostRuntime) -> Result<(), Fail> {
    let samples = samples(rt.alloc(), &[1, 2, 3, 4, 5, 6, 8])?;
    let mut anytime = lazy(rt.alloc(), samples.as_slice(), 3)?;
    cover_two(&rt, &mut anytime)
}

#[test]
fn the_order_of_three(rt: HostRuntime) {
    let mut covered = [false; 5];
    for diagonal in [4, 2, 3] {
        assert_eq!(rt; next(3, 5, &covered), Some(diagonal as u64));
        covered[diagonal] = true;
    }
    assert_eq!(rt; next(3, 5, &covered), None);
}
