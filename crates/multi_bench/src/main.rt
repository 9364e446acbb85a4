//! Computes the profile of several channels together, or that of each alone, and prints a number that tells what was
//! found. The samples of its input are those of one channel after another, as many of each. With the word `timed` it
//! also prints the time that it took.
#![tactic(auto)]

ghost use Rattle.std.specs.Prelude.{◌≡◌, ◌≤◌, All, length};
ghost use Rattle.mp_series.specs.declared.limits.TheConstants.{MAX_SAMPLES};

mod channels;
mod words;

use anyhow::{Context, Result, ensure};
use channels::channels_of;
use mp_multi::multi;
use mp_nums::{Memory, Sample, Slot, Whole};
use mp_outside::OpenGate;
use mp_series::{Bundle, MAX_SAMPLES};
use mp_workers::self_join;
use std::rt::{Clock, Env};
use std::thread::Threads;
use std::time::Instant;
use std::{env, io};
use words::{Body, Words};

/// How many diagonals a tile has.
const TILE: u32 = 256;

fn main(rt: HostRuntime) -> Result<()> {
    run(&rt)
}

fn run<R: AllocGlobal + Clock + Env + Input + Print + Threads + Sync>(rt: &R) -> Result<()> {
    let words = read_words(rt)?;
    let samples = read_samples(rt)?;
    let count = samples.len() as u64 / words.channels;
    ensure!(count <= MAX_SAMPLES, "{count} samples in a channel");
    let channels = channels_of(rt.alloc(), samples.as_slice(), words.channels, count)?;
    let start = Instant::now(rt)?;
    let sum = sum(rt, &words, &channels, count)?;
    let time = start.elapsed(rt)?;
    println!(rt; "{sum:032x}")?;
    if words.timed {
        println!(rt; "{} nanoseconds", time.as_nanos())?;
    }
    Ok(())
}

fn read_words<R: AllocGlobal + Env>(rt: &R) -> Result<Words> {
    let mut texts = Vec::new(rt.alloc());
    for text in env::args(rt)?.skip(1) {
        texts.push(text)?;
    }
    Words::read(texts.as_slice())
}

/// The whole numbers of the input, one on each line, where `?` is a missing sample.
fn read_samples<R: AllocGlobal + Input>(rt: &R) -> Result<Vec<Sample>> {
    let text = io::read_to_string(rt.alloc(), rt.reader())?;
    let mut samples = Vec::new(rt.alloc());
    for line in text.as_str().lines() {
        samples.push(read_sample(line)?)?;
    }
    Ok(samples)
}

fn read_sample(line: &str) -> Result<Sample> {
    if line == "?" {
        return Ok(Sample::Missing);
    }
    let number = line.parse::<i64>().context("a number")?;
    let whole = Whole::new(number).context("a number of 48 bits")?;
    Ok(Sample::Value(whole))
}

/// A number that tells what is found from something else, but for chance.
fn sum<R: AllocGlobal + Threads + Sync>(
    rt: &R,
    words: &Words,
    channels: &Bundle,
    count: u64,
) -> Result<u128, Memory>
    requires channels { length channels.now ≡ words.now.channels }
    requires each { All (λ channel. length channel ≡ count) channels.now }
    requires count { count ≤ MAX_SAMPLES }
{
    match words.body {
        Body::Multi => sum_of_multi(rt, words, channels, count),
        Body::Each => sum_of_each(rt, words, channels, count),
    }
}

fn sum_of_multi<R: AllocGlobal + Threads + Sync>(
    rt: &R,
    words: &Words,
    channels: &Bundle,
    count: u64,
) -> Result<u128, Memory>
    requires channels { length channels.now ≡ words.now.channels }
    requires each { All (λ channel. length channel ≡ count) channels.now }
    requires count { count ≤ MAX_SAMPLES }
{
    let (m, k, workers) = (words.window, words.k, words.workers);
    let found = multi(rt, rt.alloc(), channels, m, k, TILE, workers, &OpenGate)?;
    Ok(sum_of_column(found.as_slice()))
}

fn sum_of_each<R: AllocGlobal + Threads + Sync>(
    rt: &R,
    words: &Words,
    channels: &Bundle,
    count: u64,
) -> Result<u128, Memory>
    requires each { All (λ channel. length channel ≡ count) channels.now }
    requires count { count ≤ MAX_SAMPLES }
{
    let (m, workers) = (words.window, words.workers);
    let mut sum: u128 = 0;
    for c in 0..channels.count() {
        let profile = self_join(
            rt,
            rt.alloc(),
            channels.series(c),
            m,
            TILE,
            workers,
            &OpenGate,
        )?;
        sum = sum
            .wrapping_mul(31)
            .wrapping_add(sum_of_column(profile.all()));
    }
    Ok(sum)
}

fn sum_of_column(slots: &[Slot]) -> u128 {
    let mut sum: u128 = 0;
    for slot in slots {
        sum = sum.wrapping_mul(31).wrapping_add(sum_of_slot(slot));
    }
    sum
}

/// A number that tells two slots apart, but for chance.
fn sum_of_slot(slot: &Slot) -> u128 {
    match slot {
        Some(near) => near
            .dist
            .0
            .wrapping_mul(31)
            .wrapping_add(u128::from(near.index))
            .wrapping_add(1),
        None => 0,
    }
}
