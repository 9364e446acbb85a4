//! What a run is given and what it answers.

ghost use Rattle.std.specs.Prelude.{◌≡◌, ◌^◌, ◌≤◌};

use mp_outside::{MemShelf, MemSink, MemSource, OpenGate, Shelf, Sink, Source};
use mp_session::top::{serve, serve_within};
use std::process::Abort;
use std::thread::Threads;

/// How many bytes of output are kept: more than any run here writes.
const ROOM: u64 = 1_048_576;

/// A whole run with one file, where a call of the outside may fail. The calls of each kind are counted from
/// 0, the writes and flushes together.
#[derive(Clone, Copy)]
pub(crate) struct Run<'a> {
    pub(crate) shows: &'a str,
    /// The words behind the program's name, with one space between two.
    pub(crate) words: &'a str,
    /// The name of the file.
    pub(crate) name: &'a [u8],
    pub(crate) file: &'a [u8],
    pub(crate) input: &'a [u8],
    /// The most bytes of an input, where they aren't those of the program.
    pub(crate) limit: Option<u32>,
    /// How many bytes one read gives, at most.
    pub(crate) read_step: usize,
    pub(crate) failing_read: Option<u64>,
    pub(crate) failing_fetch: Option<u64>,
    /// How many bytes one write takes, at most.
    pub(crate) write_step: usize,
    pub(crate) failing_write: Option<u64>,
    pub(crate) output: &'a [u8],
    /// The number of the status.
    pub(crate) status: u8,
    /// Whether a flush behind the run fails, since the run made no further call.
    pub(crate) next_flush_fails: bool,
}

/// A run in which nothing fails.
pub(crate) const CALM: Run = Run {
    shows: "",
    words: "--window 3",
    name: b"table.csv",
    file: b"1\n2\n3\n",
    input: b"append 0 1 2 3\nprofile 0\n",
    limit: None,
    read_step: 8,
    failing_read: None,
    failing_fetch: None,
    write_step: 128,
    failing_write: None,
    output: b"",
    status: 0,
    next_flush_fails: false,
};

pub(crate) fn check<R: Abort + AllocGlobal + Threads + Sync>(rt: &R, run: &Run<'_>) {
    let mut out = served(rt, run);
    check_output(rt, run, &mut out);
}

/// Makes the run and compares its status.
pub(crate) fn served<R: Abort + AllocGlobal + Threads + Sync>(rt: &R, run: &Run<'_>) -> MemSink {
    let mut shelf = shelf_of(rt, run);
    let mut input = source_of(rt, run);
    let mut out = sink_of(rt, run);
    let status = serve_words(rt, run.words, run.limit, &mut shelf, &mut input, &mut out);
    assert_eq!(rt; status, run.status, "{}", run.shows);
    out
}

pub(crate) fn check_all<R: Abort + AllocGlobal + Threads + Sync>(rt: &R, table: &[Run<'_>]) {
    for run in table {
        check(rt, run);
    }
}

/// Compares what was written, and whether a flush fails.
fn check_output(rt: &impl Abort, run: &Run<'_>, out: &mut MemSink) {
    assert_eq!(rt; out.bytes(), run.output, "{}", run.shows);
    assert_eq!(rt; out.flush().is_err(), run.next_flush_fails, "{}", run.shows);
}

/// Serves the input under the limit, and answers the number of the status.
pub(crate) fn serve_words<R: Abort + AllocGlobal + Threads + Sync, H: Shelf, S: Source, K: Sink>(
    rt: &R,
    words: &str,
    limit: Option<u32>,
    shelf: &mut H,
    input: &mut S,
    out: &mut K,
) -> u8
    requires { S.given input.old ≤ 2 ^ 127 }
{
    let alloc = rt.alloc();
    let words: Result<Vec<String>, _> = words
        .split_ascii_whitespace()
        .map(|word| String::from_str(alloc, word))
        .try_collect(alloc);
    let words = words.expect(rt, "memory is short");
    let words = words.as_slice();
    let status = match limit {
        None => serve(rt, alloc, words, shelf, input, out, &OpenGate),
        Some(limit) => {
            serve_within(
                rt,
                alloc,
                words,
                shelf,
                input,
                out,
                &OpenGate,
                u64::from(limit),
            )
        }
    };
    status as u8
}

/// The number of the one call that fails.
fn plan<R: Abort + AllocGlobal>(rt: &R, failing: Option<u64>) -> Vec<u64> {
    let mut plan = Vec::new(rt.alloc());
    if let Some(number) = failing {
        assert!(rt; plan.push(number).is_ok());
    }
    plan
}

fn bytes_of<R: Abort + AllocGlobal>(rt: &R, bytes: &[u8]) -> Vec<u8> {
    bytes.to_vec(rt.alloc()).expect(rt, "memory is short")
}

pub(crate) fn shelf_of<R: Abort + AllocGlobal>(rt: &R, run: &Run<'_>) -> MemShelf {
    let mut shelf = MemShelf::new(rt.alloc(), plan(rt, run.failing_fetch));
    let put = shelf.put(bytes_of(rt, run.name), bytes_of(rt, run.file));
    assert!(rt; put.is_ok());
    shelf
}

pub(crate) fn source_of<R: Abort + AllocGlobal>(rt: &R, run: &Run<'_>) -> MemSource
    ensures { ⟦<MemSource as Source>⟧.given result ≡ 0 }
{
    MemSource::new(
        bytes_of(rt, run.input),
        run.read_step.max(1),
        plan(rt, run.failing_read),
    )
}

pub(crate) fn sink_of<R: Abort + AllocGlobal>(rt: &R, run: &Run<'_>) -> MemSink {
    let plan = plan(rt, run.failing_write);
    MemSink::new(rt.alloc(), ROOM, run.write_step.max(1), plan).expect(rt, "memory is short")
}
