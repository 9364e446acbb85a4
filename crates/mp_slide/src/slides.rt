//! A pattern slid along a series.

ghost use Rattle.std.specs.Prelude.{◌≡◌, ◌+◌, ◌-◌, ◌<◌, ◌≤◌, ◌↔◌, ◌⊎◌, length, map, IfOk, IsErrOf, IsTrue, Contains};
ghost use Rattle.std.specs.List.{range_with_len};
ghost use Rattle.mp_nums.specs.declared.samples.Sample.TheVariants.{Missing};
ghost use Rattle.mp_defs.specs.Limits.{max_window, min_window};
ghost use Rattle.mp_defs.specs.Series.{series_of};
ghost use Rattle.mp_results.specs.Slide.{distances_of};
ghost use Rattle.mp_sums.specs.Ranges.{AreWithin, SumsFit};
ghost use Rattle.mp_slide.specs.declared.kernels.TheConstants.{PART};
ghost use Rattle.mp_slide.specs.Plain.{AreGaps, IsShort, plain_distance, plain_numbers};

use crate::kernels::{PART, parted_sum};
use crate::plain::{gaps_of, numbers_of};
use crate::refusal::SlideRefusal;
use mp_nums::{Items, Sample, Sq, SqList, Whole};
use mp_series::{MAX_WINDOW, MIN_WINDOW, windows};
use mp_sums::{Range, window_sum};
use rayon::prelude::*;
use std::alloc::{AllocError, Global};
use std::thread::Threads;

/// A pattern and a series, ready to be compared: their numbers, how many samples of the series are missing before each
/// place, the range of all numbers, and whether 64 bits hold the sums of its parts.
#[derive(Drop)]
struct Slide {
    pattern: Vec<Whole>,
    numbers: Vec<Whole>,
    gaps: Vec<usize>,
    range: Range,
    is_narrow: bool,
    ghost short: { IsShort pattern.items },
    ghost counted: { length gaps.items ≡ length numbers.items + 1 },
    ghost of_pattern: { AreWithin range pattern.items },
    ghost of_numbers: { AreWithin range numbers.items },
    ghost narrow: { IsTrue is_narrow ↔ SumsFit PART 64 range },
}

impl Slide {
    /// Reads samples, of which the pattern's are all there.
    fn of(alloc: Global, pattern: &[Sample], series: &[Sample]) -> Result<Slide, AllocError>
        requires { length pattern.now ≤ max_window }
        ensures pattern { IfOk result (λ slide. slide.pattern.items ≡ plain_numbers pattern.now) }
        ensures numbers { IfOk result (λ slide. slide.numbers.items ≡ plain_numbers series.now) }
        ensures gaps { IfOk result (λ slide. AreGaps (series_of series.now) slide.gaps.items) }
    {
        let pattern = numbers_of(alloc, pattern)?;
        let numbers = numbers_of(alloc, series)?;
        let gaps = gaps_of(alloc, series)?;
        let range = Range::of(pattern.as_slice()).with_numbers(numbers.as_slice());
        let is_narrow = range.sums_fit(PART as u32, 64);
        Ok(Slide {
            pattern,
            numbers,
            gaps,
            range,
            is_narrow,
        })
    }

    /// The distance of the pattern to the window at this start, none where the window isn't free.
    fn distance_at(&self, start: usize) -> Option<Sq>
        requires { start + length self.now.pattern.items ≤ length self.now.numbers.items }
        ensures { result ≡ plain_distance self.now.pattern.items self.now.numbers.items self.now.gaps.items start }
    {
        let end = start + self.pattern.len();
        if self.gaps[start] != self.gaps[end] {
            return None;
        }
        let pattern = self.pattern.as_slice();
        let window = &self.numbers[start..end];
        let sum = if self.is_narrow {
            parted_sum(pattern, window)
        } else {
            window_sum(pattern, window)
        };
        Some(Sq(sum))
    }
}

/// The distance of the pattern to each of the first `count` windows, by as many threads as there are processors.
fn distances_by_start(
    rt: &(impl Threads + Sync),
    alloc: Global,
    slide: &Slide,
    count: usize,
) -> Result<Vec<Option<Sq>>, AllocError>
    requires { count ≤ length slide.now.numbers.items + 1 - length slide.now.pattern.items }
    ensures { IfOk result (λ list. list.items
        ≡ map (plain_distance slide.now.pattern.items slide.now.numbers.items slide.now.gaps.items)
        (range_with_len 0 count)) }
{
    (0..count)
        .into_par_iter()
        .map(
            |start: usize| -> Option<Sq>
                requires { start + length slide.now.pattern.items ≤ length slide.now.numbers.items }
                ensures { result ≡ plain_distance slide.entry.now.pattern.items slide.entry.now.numbers.items
                    slide.entry.now.gaps.items start }
            { slide.distance_at(start) },
        )
        .collect(rt, alloc)
}

/// The distance profile of the pattern: its distance to each window of the series at the pattern's length, none where
/// the window isn't free. The windows are compared by as many threads as there are processors.
pub fn distances(
    rt: &(impl Threads + Sync),
    alloc: Global,
    pattern: &[Sample],
    series: &[Sample],
) -> Result<SqList, SlideRefusal>
    ensures distances { IfOk result (λ list.
        list.items ≡ distances_of (series_of pattern.now) (series_of series.now)) }
    ensures length { IsErrOf result SlideRefusal.Length
        ↔ ((length pattern.now < min_window) ⊎ (max_window < length pattern.now)) }
    ensures missing { IsErrOf result SlideRefusal.Missing
        ↔ ((min_window ≤ length pattern.now) × (length pattern.now ≤ max_window) × Contains pattern.now Missing) }
{
    let length = pattern.len() as u64;
    if length < u64::from(MIN_WINDOW) || u64::from(MAX_WINDOW) < length {
        return Err(SlideRefusal::Length);
    }
    if pattern.contains(&Sample::Missing) {
        return Err(SlideRefusal::Missing);
    }
    let slide = Slide::of(alloc, pattern, series)?;
    let count = windows(series.len() as u64, length as u32);
    let list = distances_by_start(rt, alloc, &slide, count as usize)?;
    Ok(Items::from(list))
}
