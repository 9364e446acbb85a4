//! Centres of random lists of series, beside those that the joins of each two of them give.

ghost use Rattle.std.specs.Prelude.{◌≡◌, ◌<◌, ◌≤◌, length, vec_len, All, IfOk};
ghost use Rattle.mp_series.specs.declared.limits.TheConstants.{MAX_SAMPLES};

use crate::numbers::sample;
use mp_consensus::consensus;
use mp_nums::{Centre, Memory, Sample, Slot, Sq};
use mp_outside::OpenGate;
use mp_series::{Bundle, MAX_SAMPLES};
use mp_tiles::join;
use std::alloc::{AllocError, Global};
use std::process::Abort;
use std::test::Fail;
use std::thread::Threads;

/// The length of a window.
const WINDOW: u32 = 4;

/// Numbers that look as if they had nothing to do with each other.
#[derive(Drop)]
struct Random {
    state: u64,
}

impl Random {
    fn new(state: u64) -> Random {
        Random { state }
    }

    /// The next number, below `end`.
    fn below(&mut self, end: u64) -> u64
        requires { 1 ≤ end }
        ensures { result < end }
    {
        self.state = self
            .state
            .wrapping_mul(6_364_136_223_846_793_005)
            .wrapping_add(1_442_695_040_888_963_407);
        (self.state >> 33) % end
    }

    /// A sample of few values, so that many windows are equally far, and now and then a missing one.
    fn sample(&mut self) -> Sample {
        if self.below(20) == 0 {
            return Sample::Missing;
        }
        sample(Some(self.below(5) as i32))
    }

    /// So many samples.
    fn series(&mut self, alloc: Global, count: u64) -> Result<Vec<Sample>, AllocError>
        requires { count ≤ MAX_SAMPLES }
        ensures { IfOk result (λ samples. vec_len samples ≤ MAX_SAMPLES) }
    {
        let mut samples = Vec::new(alloc);
        for _ in 0..count {
            samples.push(self.sample())?;
        }
        Ok(samples)
    }

    /// So many series of `least` samples or some more, of which some stand twice and few have no window.
    fn list(&mut self, alloc: Global, count: u64, least: u64) -> Result<Bundle, Fail>
        requires { least ≤ 1000 }
        ensures count { IfOk result (λ list. length list ≡ count) }
        ensures samples { IfOk result (λ list. All (λ series. length series ≤ MAX_SAMPLES) list) }
    {
        let mut list = Bundle::new(alloc);
        let mut series = self.series(alloc, least)?;
        for _ in 0..count {
            if self.below(4) != 0 {
                let samples = if self.below(200) == 0 {
                    3
                } else {
                    least + self.below(90)
                };
                series = self.series(alloc, samples)?;
            }
            list.add(series.as_slice())?;
        }
        Ok(list)
    }
}

/// A centre, but for the nearest windows.
#[derive(Clone, Copy, Debug, PartialEq, Eq)]
struct Found {
    radius: Sq,
    series: u64,
    start: u64,
}

/// Keeps the farther of both of each window, none where one of them is none.
fn keep_farther(reaches: &mut [Option<Sq>], slots: &[Slot]) {
    for (reach, slot) in reaches.iter_mut().zip(slots) {
        *reach = match (*reach, *slot) {
            (Some(reach), Some(near)) => Some(reach.max(near.dist)),
            _ => None,
        };
    }
}

/// The window of a series that reaches least far, where that is less far than the best one.
fn lesser(best: Option<Found>, series: u64, reaches: &[Option<Sq>]) -> Option<Found> {
    let mut best = best;
    let mut start: u64 = 0;
    for reach in reaches {
        if let Some(radius) = *reach {
            let is_less = match &best {
                Some(found) => radius < found.radius,
                None => true,
            };
            if is_less {
                best = Some(Found {
                    radius,
                    series,
                    start,
                });
            }
        }
        start = start.wrapping_add(1);
    }
    best
}

/// How far the windows of a series reach, by its joins with all others.
fn reaches_of(alloc: Global, list: &Bundle, place: u64) -> Result<Vec<Option<Sq>>, Memory>
    requires samples { All (λ series. length series ≤ MAX_SAMPLES) list.now }
    requires place { place < length list.now }
{
    let series = list.series(place);
    let windows = (series.len() + 1).saturating_sub(WINDOW as usize);
    let mut reaches = vec![in alloc; Some(Sq(0)); windows]?;
    for other in 0..list.count() {
        if other != place {
            let slots = join(alloc, series, list.series(other), WINDOW, 256)?;
            keep_farther(reaches.as_mut_slice(), slots.as_slice());
        }
    }
    Ok(reaches)
}

/// The centre by the joins of each two series.
fn by_joins(alloc: Global, list: &Bundle) -> Result<Option<Found>, Memory>
    requires { All (λ series. length series ≤ MAX_SAMPLES) list.now }
{
    let mut best = None;
    for place in 0..list.count() {
        let reaches = reaches_of(alloc, list, place)?;
        best = lesser(best, place, reaches.as_slice());
    }
    Ok(best)
}

fn found_of(centre: &Centre) -> Found {
    Found {
        radius: centre.radius,
        series: centre.series,
        start: centre.start,
    }
}

/// Expects the centre that the joins give, by so many workers.
fn expect_centre<R: Abort + AllocGlobal + Threads + Sync>(
    rt: &R,
    list: &Bundle,
    expected: Option<Found>,
    workers: u32,
) -> Result<(), Fail>
    requires two { 2 ≤ length list.now }
    requires few { length list.now ≤ 64 }
    requires samples { All (λ series. length series ≤ MAX_SAMPLES) list.now }
    requires workers { 1 ≤ workers }
    requires few_workers { workers ≤ 32 }
{
    let found = consensus(rt, rt.alloc(), list, WINDOW, workers, &OpenGate)?;
    assert_eq!(rt; found.as_ref().map(found_of), expected);
    if let Some(centre) = &found {
        assert_eq!(rt; centre.nearest.as_slice().len() as u64, list.count());
    }
    Ok(())
}

/// Expects so many times that as many series have the centre that their joins give.
fn expect_centres<R: Abort + AllocGlobal + Threads + Sync>(
    rt: &R,
    random: &mut Random,
    count: u64,
    times: u64,
) -> Result<(), Fail>
    requires two { 2 ≤ count }
    requires few { count ≤ 64 }
{
    for _ in 0..times {
        let list = random.list(rt.alloc(), count, 20)?;
        let expected = by_joins(rt.alloc(), &list)?;
        expect_centre(rt, &list, expected, 1)?;
        expect_centre(rt, &list, expected, 4)?;
    }
    Ok(())
}

#[test]
fn centres_are_those_of_the_joins(rt: HostRuntime) -> Result<(), Fail> {
    let mut random = Random::new(1);
    expect_centres(&rt, &mut random, 2, 60)?;
    expect_centres(&rt, &mut random, 3, 40)?;
    expect_centres(&rt, &mut random, 7, 12)?;
    expect_centres(&rt, &mut random, 64, 1)
}

#[test]
fn a_thousand_runs_of_eight_workers_have_one_centre(rt: HostRuntime) -> Result<(), Fail> {
    let mut random = Random::new(2);
    let list = random.list(rt.alloc(), 4, 380)?;
    let expected = by_joins(rt.alloc(), &list)?;
    for _ in 0..1_000 {
        expect_centre(&rt, &list, expected, 8)?;
    }
    Ok(())
}
