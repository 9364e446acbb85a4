//! Finds the distances of a pattern in a series that it makes itself, the windows that match it, and the discords of a
//! profile that it makes too. Each line has a number that tells what was found. With the word `timed` it also has the
//! time that this took.
#![tactic(auto)]

mod series;
mod sums;
mod words;

use anyhow::Result;
use mp_motifs::{discords, matches};
use mp_nums::Sq;
use mp_series::excl;
use mp_slide::distances;
use std::env;
use std::rt::{Clock, Env};
use std::thread::Threads;
use std::time::{Duration, Instant};
use sums::{sum_of_discords, sum_of_distances, sum_of_nears};
use words::Words;

fn main(rt: HostRuntime) -> Result<()> {
    run(&rt)
}

fn run<R: AllocGlobal + Clock + Env + Print + Threads + Sync>(rt: &R) -> Result<()> {
    let words = read_words(rt)?;
    search_series(rt, words)?;
    search_profile(rt, words)
}

fn read_words<R: AllocGlobal + Env>(rt: &R) -> Result<Words> {
    let mut texts = Vec::new(rt.alloc());
    for text in env::args(rt)?.skip(1) {
        texts.push(text)?;
    }
    Words::read(texts.as_slice())
}

/// The distances of the first window to all, and all windows that match it.
fn search_series<R>(rt: &R, words: Words) -> Result<()>
where
    R: AllocGlobal + Clock + Print + Threads + Sync,
{
    let samples = series::noise(rt.alloc(), words.samples)?;
    let pattern = &samples.as_slice()[..words.window as usize];
    let start = Instant::now(rt)?;
    let dist = distances(rt, rt.alloc(), pattern, samples.as_slice())?;
    let time = start.elapsed(rt)?;
    let sum = sum_of_distances(dist.as_slice());
    report(rt, words, "distances", sum, time)?;

    let zone = excl(words.window);
    let all = words.samples;
    let start = Instant::now(rt)?;
    let found = matches(rt.alloc(), dist.as_slice(), zone, None, Sq(u128::MAX), all)?;
    let time = start.elapsed(rt)?;
    report(rt, words, "matches", sum_of_nears(found.as_slice()), time)
}

/// The first discords of a profile.
fn search_profile<R: AllocGlobal + Clock + Print>(rt: &R, words: Words) -> Result<()> {
    let profile = series::entries(rt.alloc(), words.samples)?;
    let zone = excl(words.window);
    let start = Instant::now(rt)?;
    let found = discords(rt.alloc(), profile.as_slice(), zone, 3)?;
    let time = start.elapsed(rt)?;
    let sum = sum_of_discords(found.as_slice());
    report(rt, words, "discords", sum, time)
}

fn report(rt: &impl Print, words: Words, name: &str, sum: u128, time: Duration) -> Result<()> {
    if words.timed {
        println!(rt; "{name} {sum:032x} {} nanoseconds", time.as_nanos())?;
    } else {
        println!(rt; "{name} {sum:032x}")?;
    }
    Ok(())
}
