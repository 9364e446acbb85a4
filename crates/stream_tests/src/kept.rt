ghost use Rattle.std.specs.Prelude.{◌≤◌};
ghost use Rattle.mp_series.specs.declared.limits.TheConstants.{MIN_WINDOW, MAX_WINDOW, MAX_SAMPLES};

use crate::series::{TIED, WIDEST, drawn, expect_slots, sample};
use mp_nums::{Memory, Sample, Slot};
use mp_plain::kept_profile;
use mp_stream::{Column, Kept};
use std::alloc::Global;
use std::process::Abort;
use std::test::Fail;

/// Appends the sample, and looks at the reads.
fn append(rt: &impl Abort, kept: &mut Kept, sample: Sample, most: u128) -> Result<(), Fail> {
    let before = kept.reads();
    kept.append(sample)?;
    assert!(rt; kept.reads().saturating_sub(before) <= most);
    Ok(())
}

/// The slots of the live windows in a column.
fn slots(alloc: Global, kept: &Kept, column: Column) -> Result<Vec<Slot>, Memory> {
    let mut slots = Vec::new(alloc);
    for i in kept.first()..kept.first().saturating_add(kept.live()) {
        slots.push(kept.slot(column, i))?;
    }
    Ok(slots)
}

/// Of live windows, their distances and starts in a column.
type Slots<'a> = &'a [Option<(u128, u64)>];

/// Expects the slots of the live windows in a column to have these distances and starts.
fn expect_column(
    rt: &impl Abort,
    alloc: Global,
    kept: &Kept,
    column: Column,
    expected: Slots<'_>,
) -> Result<(), Fail> {
    expect_slots(rt, slots(alloc, kept, column)?.as_slice(), expected);
    Ok(())
}

/// Expects the first sample that is kept to have this number, and the columns to be these.
fn expect_live(
    rt: &impl Abort,
    alloc: Global,
    kept: &Kept,
    first: u64,
    left: Slots<'_>,
    right: Slots<'_>,
) -> Result<(), Fail> {
    assert_eq!(rt; kept.first(), first);
    expect_column(rt, alloc, kept, Column::All, left)?;
    expect_column(rt, alloc, kept, Column::Left, left)?;
    expect_column(rt, alloc, kept, Column::Right, right)
}

/// Appends the numbers, and expects the same of what is then kept.
fn expect_behind(
    rt: &(impl Abort + AllocGlobal),
    kept: &mut Kept,
    numbers: &[i64],
    first: u64,
    left: Slots<'_>,
    right: Slots<'_>,
) -> Result<(), Fail> {
    for number in numbers {
        append(rt, kept, sample(*number), 32)?;
    }
    expect_live(rt, rt.alloc(), kept, first, left, right)
}

#[test]
fn the_last_five_of_seven(rt: HostRuntime) -> Result<(), Fail> {
    let numbers = [1, 2, 3, 1, 2, 3, 1];
    let left = [Some((6, 0)), Some((6, 1)), Some((6, 2))];
    let right = [Some((6, 4)), None, None];
    let mut kept = Kept::open(rt.alloc(), 3, 5)?;
    expect_behind(&rt, &mut kept, &numbers, 2, &left, &right)
}

#[test]
fn one_window_alone(rt: HostRuntime) -> Result<(), Fail> {
    let mut kept = Kept::open(rt.alloc(), 3, 3)?;
    let numbers = [1, 2, 3, 4];
    expect_behind(&rt, &mut kept, &numbers, 1, &[None], &[None])
}

/// Expects the columns of the live windows to be what every pair gives.
fn expect_whole(
    rt: &impl Abort,
    alloc: Global,
    kept: &Kept,
    samples: &[Sample],
    m: u32,
    keep: u64,
) -> Result<(), Fail>
    requires shortest { MIN_WINDOW ≤ m }
    requires longest { m ≤ MAX_WINDOW }
    requires least { m ≤ keep }
{
    let whole = kept_profile(alloc, samples, m, keep)?;
    assert_eq!(rt;
        slots(alloc, kept, Column::All)?.as_slice(),
        whole.all.as_slice()
    );
    assert_eq!(rt;
        slots(alloc, kept, Column::Left)?.as_slice(),
        whole.left.as_slice()
    );
    assert_eq!(rt;
        slots(alloc, kept, Column::Right)?.as_slice(),
        whole.right.as_slice()
    );
    Ok(())
}

/// Appends the samples, and compares the columns after each.
fn append_each(
    rt: &impl Abort,
    alloc: Global,
    kept: &mut Kept,
    samples: &[Sample],
    m: u32,
    keep: u64,
) -> Result<(), Fail>
    requires shortest { MIN_WINDOW ≤ m }
    requires longest { m ≤ MAX_WINDOW }
    requires least { m ≤ keep }
    requires greatest { keep ≤ MAX_SAMPLES }
{
    let most = 4 * (u128::from(keep) + u128::from(m));
    for i in 0..samples.len() {
        append(rt, kept, samples[i], most)?;
        expect_whole(rt, alloc, kept, &samples[..i + 1], m, keep)?;
    }
    Ok(())
}

/// The same from a store without samples.
fn expect_growth(
    rt: &impl Abort,
    alloc: Global,
    samples: &[Sample],
    m: u32,
    keep: u64,
) -> Result<(), Fail>
    requires shortest { MIN_WINDOW ≤ m }
    requires longest { m ≤ MAX_WINDOW }
    requires least { m ≤ keep }
    requires greatest { keep ≤ MAX_SAMPLES }
{
    let mut kept = Kept::open(alloc, m, keep)?;
    append_each(rt, alloc, &mut kept, samples, m, keep)
}

#[test]
fn ties_and_missing_samples_of_the_last(rt: HostRuntime) -> Result<(), Fail> {
    for more in 0..41 {
        let samples = drawn(rt.alloc(), &TIED, 80, more)?;
        expect_growth(&rt, rt.alloc(), samples.as_slice(), 4, 4 + more)?;
    }
    Ok(())
}

/// Appends samples whose sums 64 bits hold, and then others.
fn expect_late_range(rt: &impl Abort, alloc: Global, keep: u64) -> Result<(), Fail>
    requires least { 5 ≤ keep }
    requires greatest { keep ≤ MAX_SAMPLES }
{
    let mut samples = drawn(alloc, &TIED, 40, keep)?;
    for sample in drawn(alloc, &WIDEST, 40, keep)?.iter() {
        samples.push(*sample)?;
    }
    expect_growth(rt, alloc, samples.as_slice(), 5, keep)
}

#[test]
fn a_range_that_widens_late(rt: HostRuntime) -> Result<(), Fail> {
    expect_late_range(&rt, rt.alloc(), 5)?;
    expect_late_range(&rt, rt.alloc(), 12)?;
    expect_late_range(&rt, rt.alloc(), 30)
}
