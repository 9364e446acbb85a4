//! Finds the nearest pair of windows and the most unusual window at all lengths of a range, together or by the profile
//! of each length, and prints a number that tells what was found. With the word `timed` it also prints the time that it
//! took.
#![tactic(auto)]

ghost use Rattle.std.specs.Prelude.{◌≤◌, length};
ghost use Rattle.mp_series.specs.declared.limits.TheConstants.{MAX_SAMPLES, MAX_WINDOW, MIN_WINDOW};
ghost use Rattle.mp_partial.specs.declared.limits.TheConstants.{MAX_WORKERS};

mod words;

use anyhow::{Context, Result, ensure};
use mp_nums::{Discord, Memory, Near, PanRow, Sample, Slot, Whole};
use mp_outside::OpenGate;
use mp_pan::pan;
use mp_partial::MAX_WORKERS;
use mp_series::{MAX_SAMPLES, MAX_WINDOW, MIN_WINDOW};
use mp_workers::self_join;
use std::rt::{Clock, Env};
use std::thread::Threads;
use std::time::Instant;
use std::{env, io};
use words::{Body, Words};

/// How many diagonals a tile has.
const TILE: u32 = 256;

fn main(rt: HostRuntime) -> Result<()> {
    run(&rt)
}

fn run<R: AllocGlobal + Clock + Env + Input + Print + Threads + Sync>(rt: &R) -> Result<()> {
    let words = read_words(rt)?;
    let samples = read_samples(rt)?;
    let samples = samples.as_slice();
    let count = samples.len() as u64;
    ensure!(count <= MAX_SAMPLES, "{count} samples");
    let start = Instant::now(rt)?;
    let sum = sum(rt, &words, samples)?;
    let time = start.elapsed(rt)?;
    println!(rt; "{sum:032x}")?;
    if words.timed {
        println!(rt; "{} nanoseconds", time.as_nanos())?;
    }
    Ok(())
}

fn read_words<R: AllocGlobal + Env>(rt: &R) -> Result<Words> {
    let mut texts = Vec::new(rt.alloc());
    for text in env::args(rt)?.skip(1) {
        texts.push(text)?;
    }
    Words::read(texts.as_slice())
}

/// The whole numbers of the input, one on each line, where `?` is a missing sample.
fn read_samples<R: AllocGlobal + Input>(rt: &R) -> Result<Vec<Sample>> {
    let text = io::read_to_string(rt.alloc(), rt.reader())?;
    let mut samples = Vec::new(rt.alloc());
    for line in text.as_str().lines() {
        samples.push(read_sample(line)?)?;
    }
    Ok(samples)
}

fn read_sample(line: &str) -> Result<Sample> {
    if line == "?" {
        return Ok(Sample::Missing);
    }
    let number = line.parse::<i64>().context("a number")?;
    let whole = Whole::new(number).context("a number of 48 bits")?;
    Ok(Sample::Value(whole))
}

/// A number that tells what is found from something else, but for chance.
fn sum<R: AllocGlobal + Threads + Sync>(
    rt: &R,
    words: &Words,
    samples: &[Sample],
) -> Result<u128, Memory>
    requires { length samples.now ≤ MAX_SAMPLES }
{
    match words.body {
        Body::Pan => sum_of_pan(rt, words, samples),
        Body::Each => sum_of_each(rt, words, samples),
    }
}

fn sum_of_pan<R: AllocGlobal + Threads + Sync>(
    rt: &R,
    words: &Words,
    samples: &[Sample],
) -> Result<u128, Memory>
    requires { length samples.now ≤ MAX_SAMPLES }
{
    let (lo, hi, workers) = (words.lo, words.hi, words.workers);
    let rows = pan(rt, rt.alloc(), samples, lo, hi, workers, &OpenGate)?;
    Ok(sum_of_rows(rows.as_slice()))
}

fn sum_of_rows(rows: &[PanRow]) -> u128 {
    let mut sum: u128 = 0;
    for row in rows {
        sum = sum.wrapping_mul(31).wrapping_add(sum_of_row(row));
    }
    sum
}

fn sum_of_row(row: &PanRow) -> u128 {
    let best = match row.best {
        Some(pair) => sum_of_window(pair.start, &pair.near),
        None => 0,
    };
    best.wrapping_mul(31)
        .wrapping_add(sum_of_discord(&row.discord))
}

fn sum_of_each<R: AllocGlobal + Threads + Sync>(
    rt: &R,
    words: &Words,
    samples: &[Sample],
) -> Result<u128, Memory>
    requires { length samples.now ≤ MAX_SAMPLES }
{
    let mut sum: u128 = 0;
    for m in words.lo..words.hi + 1 {
        let here = sum_of_length(rt, m, words.workers, samples)?;
        sum = sum.wrapping_mul(31).wrapping_add(here);
    }
    Ok(sum)
}

/// Of the windows of a length the best one and the first discord.
fn sum_of_length<R: AllocGlobal + Threads + Sync>(
    rt: &R,
    m: u32,
    workers: u32,
    samples: &[Sample],
) -> Result<u128, Memory>
    requires shortest { MIN_WINDOW ≤ m }
    requires longest { m ≤ MAX_WINDOW }
    requires some { 1 ≤ workers }
    requires workers { workers ≤ MAX_WORKERS }
    requires samples { length samples.now ≤ MAX_SAMPLES }
{
    let profile = self_join(rt, rt.alloc(), samples, m, TILE, workers, &OpenGate)?;
    let mut best = None;
    let mut discord = None;
    for (start, slot) in profile.all().iter().enumerate() {
        best = better(best, start as u64, slot);
        discord = farther(discord, start as u64, slot);
    }
    Ok(
        sum_of_discord(&best)
            .wrapping_mul(31)
            .wrapping_add(sum_of_discord(&discord)),
    )
}

/// The nearer of a window and of one that starts earlier.
fn better(earlier: Option<Discord>, start: u64, slot: &Slot) -> Option<Discord> {
    match (slot, earlier) {
        (Some(near), Some(other)) if near.dist < other.near.dist => {
            Some(Discord { start, near: *near })
        }
        (Some(near), None) => Some(Discord { start, near: *near }),
        _ => earlier,
    }
}

/// The farther of a window and of one that starts earlier.
fn farther(earlier: Option<Discord>, start: u64, slot: &Slot) -> Option<Discord> {
    match (slot, earlier) {
        (Some(near), Some(other)) if near.dist > other.near.dist => {
            Some(Discord { start, near: *near })
        }
        (Some(near), None) => Some(Discord { start, near: *near }),
        _ => earlier,
    }
}

fn sum_of_discord(discord: &Option<Discord>) -> u128 {
    match discord {
        Some(window) => sum_of_window(window.start, &window.near),
        None => 0,
    }
}

/// A number that tells two windows apart, but for chance.
fn sum_of_window(start: u64, near: &Near) -> u128 {
    near.dist
        .0
        .wrapping_mul(31)
        .wrapping_add(u128::from(near.index))
        .wrapping_mul(31)
        .wrapping_add(u128::from(start))
        .wrapping_add(1)
}
