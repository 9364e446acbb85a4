//! Appends the numbers of its input to a series one by one, and prints a number that tells the profile that was kept.
//! With the word `timed` it also prints the time that the appends took. With the number of samples that are kept and one
//! of rounds it appends them in each round to a store of the last samples, and prints a number that tells the profile of
//! its live windows, and the time that the last round took.
#![tactic(auto)]

ghost use Rattle.std.specs.Prelude.{◌≤◌};
ghost use Rattle.mp_series.specs.declared.limits.TheConstants.{MAX_WINDOW, MIN_WINDOW};

mod kept;
mod sums;
mod words;

use anyhow::{Context, Result};
use kept::run_kept;
use mp_nums::{Sample, Whole};
use mp_outside::OpenGate;
use mp_series::Samples;
use mp_stream::Stream;
use std::rt::{Clock, Env};
use std::thread::Threads;
use std::time::{Duration, Instant};
use std::{env, io};
use sums::sum_of_columns;
use words::Words;

fn main(rt: HostRuntime) -> Result<()> {
    run(&rt)
}

fn run<R: AllocGlobal + Clock + Env + Input + Print + Threads + Sync>(rt: &R) -> Result<()> {
    let words = read_words(rt)?;
    let samples = read_samples(rt)?;
    if let Some(last) = words.last {
        return run_kept(rt, words.window, last, samples.as_slice());
    }
    let empty = Samples::new(rt.alloc());
    let mut stream = Stream::from(rt, rt.alloc(), empty, words.window, 256, 1, &OpenGate)?;
    let time = timed_appends(rt, &mut stream, samples.as_slice())?;
    report(rt, &stream, words.timed, time)
}

fn read_words<R: AllocGlobal + Env>(rt: &R) -> Result<Words> {
    let mut texts = Vec::new(rt.alloc());
    for text in env::args(rt)?.skip(1) {
        texts.push(text)?;
    }
    Words::read(texts.as_slice())
}

/// The whole numbers of the input, one on each line.
fn read_samples<R: AllocGlobal + Input>(rt: &R) -> Result<Vec<Sample>> {
    let text = io::read_to_string(rt.alloc(), rt.reader())?;
    let mut samples = Vec::new(rt.alloc());
    for line in text.as_str().lines() {
        let number = line.parse::<i64>().context("a number")?;
        let whole = Whole::new(number).context("a number of 48 bits")?;
        samples.push(Sample::Value(whole))?;
    }
    Ok(samples)
}

/// Appends the samples, and tells how long that took.
fn timed_appends(rt: &impl Clock, stream: &mut Stream, samples: &[Sample]) -> Result<Duration> {
    stream.reserve(samples.len() as u64)?;
    let start = Instant::now(rt)?;
    append_each(stream, samples)?;
    Ok(start.elapsed(rt)?)
}

fn append_each(stream: &mut Stream, samples: &[Sample]) -> Result<()> {
    for sample in samples {
        stream.append(*sample)?;
    }
    Ok(())
}

fn report(rt: &impl Print, stream: &Stream, timed: bool, time: Duration) -> Result<()> {
    let profile = stream.profile();
    let sum = sum_of_columns(profile.all(), profile.left(), profile.right());
    println!(rt; "{sum:032x}")?;
    if timed {
        println!(rt; "{} nanoseconds", time.as_nanos())?;
    }
    Ok(())
}
