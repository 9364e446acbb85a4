//! Finds the centre of the samples of its input, cut into series of one length, or joins each two of these and takes
//! the centre of the joins. It prints the centre. With the word `timed` it also prints the time that this took.
#![tactic(auto)]

mod bodies;
mod lists;
mod words;

ghost use Rattle.std.specs.Prelude.{◌≡◌, ◌≤◌, length, All};
ghost use Rattle.mp_series.specs.declared.limits.TheConstants.{MAX_SAMPLES};

use anyhow::{Context, Result};
use bodies::{Found, centre, centre_of_joins};
use lists::list_of;
use mp_nums::{Sample, Whole};
use mp_series::Bundle;
use std::rt::{Clock, Env};
use std::thread::Threads;
use std::time::{Duration, Instant};
use std::{env, io};
use words::{Body, Words};

fn main(rt: HostRuntime) -> Result<()> {
    run(&rt)
}

fn run<R: AllocGlobal + Clock + Env + Input + Print + Threads + Sync>(rt: &R) -> Result<()> {
    let words = read_words(rt)?;
    let samples = read_samples(rt)?;
    let list = list_of(rt.alloc(), samples.as_slice(), words.series)?;
    time(rt, words, &list)
}

fn read_words<R: AllocGlobal + Env>(rt: &R) -> Result<Words> {
    let mut texts = Vec::new(rt.alloc());
    for text in env::args(rt)?.skip(1) {
        texts.push(text)?;
    }
    Words::read(texts.as_slice())
}

/// The whole numbers of the input, one on each line, where `?` is a missing sample.
fn read_samples<R: AllocGlobal + Input>(rt: &R) -> Result<Vec<Sample>> {
    let text = io::read_to_string(rt.alloc(), rt.reader())?;
    let mut samples = Vec::new(rt.alloc());
    for line in text.as_str().lines() {
        samples.push(read_sample(line)?)?;
    }
    Ok(samples)
}

fn read_sample(line: &str) -> Result<Sample> {
    if line == "?" {
        return Ok(Sample::Missing);
    }
    let number = line.parse::<i64>().context("a number")?;
    let whole = Whole::new(number).context("a number of 48 bits")?;
    Ok(Sample::Value(whole))
}

/// Does what is asked for, and prints what it took.
fn time<R: AllocGlobal + Clock + Print + Threads + Sync>(
    rt: &R,
    words: Words,
    list: &Bundle,
) -> Result<()>
    requires count { length list.now ≡ words.series }
    requires samples { All (λ series. length series ≤ MAX_SAMPLES) list.now }
{
    let start = Instant::now(rt)?;
    let found = match words.body {
        Body::Consensus => centre(rt, &words, list)?,
        Body::Joins => centre_of_joins(rt, &words, list)?,
    };
    report(rt, found, words.timed, start.elapsed(rt)?)
}

fn report(rt: &impl Print, found: Option<Found>, timed: bool, time: Duration) -> Result<()> {
    match found {
        Some(found) => println!(rt; "{} {} {}", found.radius, found.series, found.start)?,
        None => println!(rt; "none")?,
    }
    if timed {
        println!(rt; "{} nanoseconds", time.as_nanos())?;
    }
    Ok(())
}
