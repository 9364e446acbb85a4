//! Makes the runs that are stored in folders, and compares what each writes and how it ends with what is wanted.
#![tactic(auto)]

ghost use Rattle.std.specs.Prelude.{◌≡◌, ◌+◌, ◌≤◌, length, IfOk};

mod outcomes;
mod stored;
mod tallies;

use anyhow::{Context, Result};
use mp_outside::{CalmSink, CalmSource, DiskShelf, OpenGate};
use mp_session::top::serve;
use outcomes::{Difference, Outcome, first_difference};
use std::alloc::{AllocError, Global};
use std::process::ExitCode;
use std::rt::{Env, Files};
use std::thread::Threads;
use std::{env, fs};
use stored::StoredRun;
use tallies::Tally;

/// The most bytes of an output.
const ROOM: u64 = 1 << 20;

/// How many bytes of an input are read at once, at most. Each run is made once with each of these.
const STEPS: [usize; 3] = [1, 7, 65_536];

fn main(rt: HostRuntime) -> Result<ExitCode> {
    let list = fs::read_to_string(&rt, "runs.txt").context("reading runs.txt")?;
    let names = names_of(rt.alloc(), list.as_str())?;
    if check_all(&rt, names.as_slice())?.is_good() {
        Ok(ExitCode::SUCCESS)
    } else {
        Ok(ExitCode::FAILURE)
    }
}

/// The names of a list: its lines but the empty ones and those that begin with `#`.
fn names_of<'a>(alloc: Global, list: &'a str) -> Result<Vec<&'a str>, AllocError> {
    let mut names = Vec::new(alloc);
    for line in list.lines() {
        if !line.is_empty() && !line.starts_with('#') {
            names.push(line)?;
        }
    }
    Ok(names)
}

/// Makes each of the runs and prints a line of it.
fn check_all<R: AllocGlobal + Clone + Env + Files + Print + Threads + Sync>(
    rt: &R,
    names: &[&str],
) -> Result<Tally>
    ensures { IfOk result (λ tally. tally.same + tally.differing ≡ length names.now) }
{
    let mut tally = Tally::new();
    for name in names {
        tally.add(check_in_folder(rt, name)?);
    }
    Ok(tally)
}

/// Makes the run in its folder, where its files are found, and answers whether it gave what is wanted.
fn check_in_folder<R: AllocGlobal + Clone + Env + Files + Print + Threads + Sync>(
    rt: &R,
    name: &str,
) -> Result<bool> {
    env::set_current_dir(rt, name).context(format_args!("the folder {name}"))?;
    let is_same = check(rt, name).context(format_args!("the run {name}"))?;
    env::set_current_dir(rt, "..")?;
    Ok(is_same)
}

/// Makes the run of the working folder with each line of its words, up to the first that gives something else than what
/// is wanted.
fn check<R: AllocGlobal + Clone + Files + Print + Threads + Sync>(
    rt: &R,
    name: &str,
) -> Result<bool> {
    let run = StoredRun::read(rt)?;
    for words in run.lines_of_words() {
        for step in STEPS {
            if let Some(difference) = make(rt, &run, words, step)? {
                println!(rt;
                    "{name} differs: {difference}, with the words {words:?}, reading {step} bytes at once"
                )?;
                return Ok(false);
            }
        }
    }
    println!(rt; "{name} ok")?;
    Ok(true)
}

/// Makes the run once, and tells where it differs from what is wanted.
fn make<R: AllocGlobal + Clone + Files + Threads + Sync>(
    rt: &R,
    run: &StoredRun,
    words: &str,
    step: usize,
) -> Result<Option<Difference>>
    requires { 1 ≤ step }
{
    let alloc = rt.alloc();
    let words = split_words(alloc, words)?;
    let input = run.input().to_vec(alloc)?;
    let mut out = CalmSink::new(alloc, ROOM)?;
    let mut shelf = DiskShelf::new(rt)?;
    let mut input = CalmSource::new(input, step);
    let status = serve(
        rt,
        alloc,
        words.as_slice(),
        &mut shelf,
        &mut input,
        &mut out,
        &OpenGate,
    );
    let made = Outcome {
        output: out.bytes(),
        status: status as u8,
    };
    Ok(first_difference(&run.wanted(), &made))
}

/// The words of a line, with blanks between two.
fn split_words(alloc: Global, line: &str) -> Result<Vec<String>, AllocError> {
    line.split_ascii_whitespace()
        .map(|word| String::from_str(alloc, word))
        .try_collect(alloc)
}
