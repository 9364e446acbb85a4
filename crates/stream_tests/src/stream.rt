ghost use Rattle.std.specs.Prelude.{◌≤◌};
ghost use Rattle.mp_series.specs.declared.limits.TheConstants.{MIN_WINDOW, MAX_WINDOW};

use crate::series::{TIED, WIDEST, drawn, expect_slots, sample, samples_of};
use mp_nums::Sample;
use mp_outside::{MeetGate, OpenGate};
use mp_plain::profile;
use mp_series::Samples;
use mp_stream::Stream;
use std::alloc::Global;
use std::process::Abort;
use std::test::Fail;
use std::thread::Threads;

/// A stream of the samples.
fn stream_of<R: Threads + Sync>(
    rt: &R,
    alloc: Global,
    series: &[Sample],
    m: u32,
) -> Result<Stream, Fail>
    requires shortest { MIN_WINDOW ≤ m }
    requires longest { m ≤ MAX_WINDOW }
{
    let samples = Samples::of(alloc, series)?;
    Ok(Stream::from(rt, alloc, samples, m, 256, 4, &OpenGate)?)
}

/// Appends the sample, and looks at the reads.
fn append(rt: &impl Abort, stream: &mut Stream, sample: Sample) -> Result<(), Fail> {
    let before = stream.reads();
    stream.append(sample)?;
    let windows = (stream.len() + 1).saturating_sub(u64::from(stream.window()));
    let most = 4 * (u128::from(windows) + u128::from(stream.window()));
    assert!(rt; stream.reads().saturating_sub(before) <= most);
    Ok(())
}

/// Expects the profile of 1 2 3 1 2 3.
fn expect_twice(rt: &impl Abort, stream: &Stream) {
    let profile = stream.profile();
    let (left, right) = ([Some((6, 0)), Some((0, 0))], [Some((0, 3)), Some((6, 3))]);
    expect_slots(rt, profile.all(), &[right[0], right[1], left[0], left[1]]);
    expect_slots(rt, profile.left(), &[None, None, left[0], left[1]]);
    expect_slots(rt, profile.right(), &[right[0], right[1], None, None]);
}

const TWICE: [i64; 6] = [1, 2, 3, 1, 2, 3];

/// Makes room in a stream without samples, and appends six.
fn append_six(rt: &impl Abort, stream: &mut Stream) -> Result<(), Fail> {
    assert_eq!(rt; stream.profile().len(), 0);
    stream.reserve(3)?;
    assert!(rt; 3 <= stream.spare());
    for number in &TWICE {
        append(rt, stream, sample(*number))?;
    }
    Ok(())
}

#[test]
fn samples_one_by_one(rt: HostRuntime) -> Result<(), Fail> {
    let mut stream = stream_of(&rt, rt.alloc(), &[], 3)?;
    append_six(&rt, &mut stream)?;
    expect_twice(&rt, &stream);
    Ok(())
}

#[test]
fn a_whole_series(rt: HostRuntime) -> Result<(), Fail> {
    let twice = samples_of(rt.alloc(), &TWICE)?;
    let stream = stream_of(&rt, rt.alloc(), twice.as_slice(), 3)?;
    expect_twice(&rt, &stream);
    Ok(())
}

/// Compares the profile with the one that compares every pair.
fn expect_whole(rt: &impl Abort, alloc: Global, stream: &mut Stream) -> Result<(), Fail> {
    let m = stream.window();
    let whole = profile(alloc, stream.lend(), m)?;
    assert_eq!(rt; stream.profile().all(), whole.all.as_slice());
    assert_eq!(rt; stream.profile().left(), whole.left.as_slice());
    assert_eq!(rt; stream.profile().right(), whole.right.as_slice());
    Ok(())
}

/// Appends the samples, and compares the profile after each.
fn append_each(
    rt: &impl Abort,
    alloc: Global,
    stream: &mut Stream,
    samples: &[Sample],
) -> Result<(), Fail> {
    expect_whole(rt, alloc, stream)?;
    for sample in samples {
        append(rt, stream, *sample)?;
        expect_whole(rt, alloc, stream)?;
    }
    Ok(())
}

/// Expects the profile of a whole series to be what every pair gives, and to stay so while it grows.
fn expect_growth<R: Abort + AllocGlobal + Threads + Sync>(
    rt: &R,
    whole: &[Sample],
    samples: &[Sample],
    m: u32,
) -> Result<(), Fail>
    requires shortest { MIN_WINDOW ≤ m }
    requires longest { m ≤ MAX_WINDOW }
{
    let mut stream = stream_of(rt, rt.alloc(), whole, m)?;
    append_each(rt, rt.alloc(), &mut stream, samples)
}

/// Numbers of the whole range of 32 bits.
const WIDE: [Option<i64>; 8] = [
    None,
    Some(-2_147_483_648),
    Some(2_147_483_647),
    Some(1_234_567_890),
    Some(-1),
    Some(0),
    Some(0),
    Some(2),
];

#[test]
fn ties_and_missing_samples(rt: HostRuntime) -> Result<(), Fail> {
    for m in 3..21 {
        let samples = drawn(rt.alloc(), &TIED, 90, u64::from(m))?;
        expect_growth(&rt, &[], samples.as_slice(), m)?;
    }
    Ok(())
}

#[test]
fn a_range_that_outgrows_64_bits(rt: HostRuntime) -> Result<(), Fail> {
    for m in [3, 4, 9, 20] {
        let narrow = drawn(rt.alloc(), &TIED, 60, u64::from(m))?;
        let wide = drawn(rt.alloc(), &WIDE, 60, u64::from(m))?;
        expect_growth(&rt, narrow.as_slice(), wide.as_slice(), m)?;
        expect_growth(&rt, wide.as_slice(), narrow.as_slice(), m)?;
    }
    Ok(())
}

#[test]
fn a_range_that_outgrows_79_bits(rt: HostRuntime) -> Result<(), Fail> {
    for m in [3, 20] {
        let tied = drawn(rt.alloc(), &TIED, 30, u64::from(m))?;
        let wide = drawn(rt.alloc(), &WIDE, 30, u64::from(m))?;
        let widest = drawn(rt.alloc(), &WIDEST, 60, u64::from(m))?;
        expect_growth(&rt, tied.as_slice(), widest.as_slice(), m)?;
        expect_growth(&rt, wide.as_slice(), widest.as_slice(), m)?;
        expect_growth(&rt, widest.as_slice(), tied.as_slice(), m)?;
    }
    Ok(())
}

/// At windows of 8 samples. 8 times the square of 2^30 is 2^63.
#[test]
fn ranges_about_the_greatest_sum_of_64_bits(rt: HostRuntime) -> Result<(), Fail> {
    for greatest in [(1 << 30) - 1, 1 << 30, 2_147_483_647] {
        let (zero, most) = (Some(0), Some(greatest));
        let choices = [
            zero,
            most,
            most,
            most,
            Some(1),
            Some(987_654),
            Some(20_000),
            zero,
        ];
        let samples = drawn(rt.alloc(), &choices, 60, 7)?;
        expect_growth(&rt, &[], samples.as_slice(), 8)?;
    }
    Ok(())
}

const LOW: i64 = -2_147_483_648;

const HIGH: i64 = 2_147_483_647;

const ENDS: [i64; 10] = [5, -3, LOW, LOW, LOW, HIGH, HIGH, HIGH, 5, -3];

#[test]
fn the_ends_of_32_bits(rt: HostRuntime) -> Result<(), Fail> {
    let samples = samples_of(rt.alloc(), &ENDS)?;
    expect_growth(&rt, &[], samples.as_slice(), 3)
}

#[test]
fn two_workers_of_a_stream_meet(rt: HostRuntime) -> Result<(), Fail> {
    let zeros = vec![in rt.alloc(); sample(0); 2_000]?;
    let samples = Samples::of(rt.alloc(), zeros.as_slice())?;
    let gate = MeetGate::new();
    let stream = Stream::from(&rt, rt.alloc(), samples, 8, 64, 2, &gate)?;
    assert!(rt; gate.met());
    assert_eq!(rt; stream.len(), 2_000);
    Ok(())
}
