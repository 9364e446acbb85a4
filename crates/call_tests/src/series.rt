//! Series that are kept, and series that are made.

use crate::numbers::{sample, samples};
use mp_gen::sample_at;
use mp_nums::{Memory, Sample};
use mp_series::{Bundle, MAX_SAMPLES, PushRefusal, Samples};
use std::alloc::Global;
use std::process::Abort;
use std::test::Fail;

const SERIES: [Option<i32>; 3] = [Some(1), Some(2), Some(3)];

/// Makes room in no samples, and appends one.
fn expect_push(rt: &impl Abort, samples: &mut Samples) -> Result<(), Fail> {
    samples.reserve(4)?;
    assert!(rt; 4 <= samples.spare());
    samples.push(sample(Some(7)))?;
    assert_eq!(rt; samples.len(), 1);
    Ok(())
}

#[test]
fn an_empty_series_takes_samples(rt: HostRuntime) -> Result<(), Fail> {
    let mut samples = Samples::new(rt.alloc());
    expect_push(&rt, &mut samples)
}

// More room than there is.
#[test]
fn room_that_is_refused_leaves_a_series(rt: HostRuntime) -> Result<(), Fail> {
    let mut samples = Samples::new(rt.alloc());
    expect_push(&rt, &mut samples)?;
    for room in [1 << 59, u64::MAX] {
        assert_eq!(rt; samples.reserve(room), Err(Memory));
        assert_eq!(rt; samples.len(), 1);
    }
    samples.push(sample(Some(8)))?;
    assert_eq!(rt; samples.get(0), sample(Some(7)));
    Ok(())
}

/// Why there is no copy of these samples, or why it takes no more, and else how many it has and how often they were
/// read.
fn copied(alloc: Global, series: &[Sample]) -> Result<(u64, u128), PushRefusal> {
    let samples = Samples::of(alloc, series)?;
    Ok((samples.len(), samples.reads()))
}

/// Why a copy of these samples takes no more.
fn refused(alloc: Global, series: &[Sample]) -> Option<PushRefusal> {
    match Samples::of(alloc, series) {
        Ok(mut samples) => samples.push(Sample::Missing).err(),
        Err(_) => None,
    }
}

#[test]
fn a_series_has_so_many_samples_at_most(rt: HostRuntime) -> Result<(), Fail> {
    let series = samples(rt.alloc(), &SERIES)?;
    assert_eq!(rt; copied(rt.alloc(), series.as_slice()), Ok((3, 0)));
    let zeros = vec![in rt.alloc(); sample(Some(0)); MAX_SAMPLES as usize + 1]?;
    assert_eq!(rt;
        copied(rt.alloc(), zeros.as_slice()),
        Err(PushRefusal::Full)
    );
    let (_, most) = zeros.split_at(1);
    assert_eq!(rt; refused(rt.alloc(), most), Some(PushRefusal::Full));
    Ok(())
}

fn count_of_one(alloc: Global) -> Result<u64, Memory> {
    let mut bundle = Bundle::new(alloc);
    let series = samples(alloc, &SERIES)?;
    bundle.add(series.as_slice())?;
    Ok(bundle.count())
}

#[test]
fn a_bundle_takes_a_series(rt: HostRuntime) -> Result<(), Fail> {
    assert_eq!(rt; count_of_one(rt.alloc())?, 1);
    Ok(())
}

/// Numbers, places and the numbers of the samples there.
static MADE: [(u64, u64, Option<i32>); 13] = [
    (0, 0, Some(3)),
    (0, 1, Some(109)),
    (0, 2, Some(181)),
    (0, 3, Some(319)),
    (0, 63, Some(113)),
    (0, 996, None),
    (0, 1_000, Some(9)),
    (0, 1_039, Some(87)),
    (1, 1_993, None),
    (7, 1_500, Some(1_986)),
    (12_345, 2_000, Some(1_588)),
    (u64::MAX, 0, Some(3)),
    (u64::MAX, u64::MAX, Some(1_517)),
];

#[test]
fn samples_that_were_computed_elsewhere(rt: HostRuntime) {
    for (number, i, made) in &MADE {
        assert_eq!(rt; sample_at(*number, *i), sample(*made), "{number} {i}");
    }
}
