//! Covers diagonals of the series of its input, so many at once and so often, or computes its whole profile by tiles,
//! and prints how long that took, where a further word asks for it. Where samples are appended to the covered
//! diagonals, it prints how long these took.
#![tactic(auto)]

mod words;

use anyhow::{Context, Result};
use mp_anytime::Anytime;
use mp_nums::{Sample, Whole};
use mp_outside::OpenGate;
use mp_series::Samples;
use mp_stream::Stream;
use std::rt::{Clock, Env};
use std::thread::Threads;
use std::time::{Duration, Instant};
use std::{env, io};
use words::Words;

fn main(rt: HostRuntime) -> Result<()> {
    run(&rt)
}

fn run<R: AllocGlobal + Clock + Env + Input + Print + Threads + Sync>(rt: &R) -> Result<()> {
    let words = read_words(rt)?;
    let samples = read_samples(rt)?;
    let time = time(rt, words, samples.as_slice())?;
    if words.timed {
        println!(rt; "{} nanoseconds", time.as_nanos())?;
    }
    Ok(())
}

fn read_words<R: AllocGlobal + Env>(rt: &R) -> Result<Words> {
    let mut texts = Vec::new(rt.alloc());
    for text in env::args(rt)?.skip(1) {
        texts.push(text)?;
    }
    Words::read(texts.as_slice())
}

/// The whole numbers of the input, one on each line, where `?` is a missing sample.
fn read_samples<R: AllocGlobal + Input>(rt: &R) -> Result<Vec<Sample>> {
    let text = io::read_to_string(rt.alloc(), rt.reader())?;
    let mut samples = Vec::new(rt.alloc());
    for line in text.as_str().lines() {
        samples.push(read_sample(line)?)?;
    }
    Ok(samples)
}

fn read_sample(line: &str) -> Result<Sample> {
    if line == "?" {
        return Ok(Sample::Missing);
    }
    let number = line.parse::<i64>().context("a number")?;
    let whole = Whole::new(number).context("a number of 48 bits")?;
    Ok(Sample::Value(whole))
}

/// How long it takes what is asked for.
fn time<R: AllocGlobal + Clock + Threads + Sync>(
    rt: &R,
    words: Words,
    samples: &[Sample],
) -> Result<Duration> {
    if words.appends > 0 {
        return time_appends(rt, words, samples);
    }
    let samples = Samples::of(rt.alloc(), samples)?;
    let start = Instant::now(rt)?;
    if words.times == 0 {
        whole_profile(rt, words, samples)?;
    } else {
        cover(rt, words, samples)?;
    }
    Ok(start.elapsed(rt)?)
}

/// How long it takes to append the first samples of the series once more to its covered diagonals.
fn time_appends<R: AllocGlobal + Clock + Threads + Sync>(
    rt: &R,
    words: Words,
    samples: &[Sample],
) -> Result<Duration> {
    let series = Samples::of(rt.alloc(), samples)?;
    let mut anytime = Anytime::from(rt.alloc(), series, words.window)?;
    cover_each(rt, words, &mut anytime)?;
    anytime.reserve(words.appends)?;
    let start = Instant::now(rt)?;
    append_each(&mut anytime, samples, words.appends)?;
    Ok(start.elapsed(rt)?)
}

fn append_each(anytime: &mut Anytime, samples: &[Sample], count: u64) -> Result<()> {
    for sample in samples.iter().take(count as usize) {
        anytime.append(*sample)?;
    }
    Ok(())
}

fn whole_profile<R: AllocGlobal + Threads + Sync>(
    rt: &R,
    words: Words,
    samples: Samples,
) -> Result<()> {
    let _stream = Stream::from(rt, rt.alloc(), samples, words.window, 256, 1, &OpenGate)?;
    Ok(())
}

fn cover<R: AllocGlobal + Threads + Sync>(rt: &R, words: Words, samples: Samples) -> Result<()> {
    let mut anytime = Anytime::from(rt.alloc(), samples, words.window)?;
    cover_each(rt, words, &mut anytime)
}

fn cover_each<R: AllocGlobal + Threads + Sync>(
    rt: &R,
    words: Words,
    anytime: &mut Anytime,
) -> Result<()> {
    for _ in 0..words.times {
        anytime.advance(rt, rt.alloc(), words.diagonals, 1, &OpenGate)?;
    }
    Ok(())
}
