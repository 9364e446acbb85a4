//! Computes the profile of the samples of its input, or joins their halves, and prints a number that tells what was
//! found. With the word `timed` it also prints the time that it took.
#![tactic(auto)]

ghost use Rattle.std.specs.Prelude.{◌≤◌, length};
ghost use Rattle.mp_series.specs.declared.limits.TheConstants.{MAX_SAMPLES};

mod bodies;
mod words;

use anyhow::{Context, Result, ensure};
use mp_nums::{Sample, Whole};
use mp_series::MAX_SAMPLES;
use std::rt::{Clock, Env};
use std::thread::Threads;
use std::time::{Duration, Instant};
use std::{env, io};
use words::{Body, Words};

fn main(rt: HostRuntime) -> Result<()> {
    run(&rt)
}

fn run<R: AllocGlobal + Clock + Env + Input + Print + Threads + Sync>(rt: &R) -> Result<()> {
    let words = read_words(rt)?;
    let samples = read_samples(rt)?;
    let samples = samples.as_slice();
    ensure!(
        samples.len() as u64 <= MAX_SAMPLES,
        "{} samples",
        samples.len()
    );
    match words.body {
        Body::Each => {
            time(rt, words.with(Body::Workers), samples)?;
            time(rt, words.with(Body::Tiles), samples)?;
            time(rt, words.with(Body::Pairs), samples)
        }
        _ => time(rt, words, samples),
    }
}

fn read_words<R: AllocGlobal + Env>(rt: &R) -> Result<Words> {
    let mut texts = Vec::new(rt.alloc());
    for text in env::args(rt)?.skip(1) {
        texts.push(text)?;
    }
    Words::read(texts.as_slice())
}

/// The whole numbers of the input, one on each line, where `?` is a missing sample.
fn read_samples<R: AllocGlobal + Input>(rt: &R) -> Result<Vec<Sample>> {
    let text = io::read_to_string(rt.alloc(), rt.reader())?;
    let mut samples = Vec::new(rt.alloc());
    for line in text.as_str().lines() {
        samples.push(read_sample(line)?)?;
    }
    Ok(samples)
}

fn read_sample(line: &str) -> Result<Sample> {
    if line == "?" {
        return Ok(Sample::Missing);
    }
    let number = line.parse::<i64>().context("a number")?;
    let whole = Whole::new(number).context("a number of 48 bits")?;
    Ok(Sample::Value(whole))
}

/// Does what is asked for, and prints what it took.
fn time<R: AllocGlobal + Clock + Print + Threads + Sync>(
    rt: &R,
    words: Words,
    samples: &[Sample],
) -> Result<()>
    requires { length samples.now ≤ MAX_SAMPLES }
{
    let start = Instant::now(rt)?;
    let found = bodies::find(rt, &words, samples)?;
    let time = start.elapsed(rt)?;
    report(rt, found.sum(), words.timed, time)
}

fn report(rt: &impl Print, sum: u128, timed: bool, time: Duration) -> Result<()> {
    println!(rt; "{sum:032x}")?;
    if timed {
        println!(rt; "{} nanoseconds", time.as_nanos())?;
    }
    Ok(())
}
