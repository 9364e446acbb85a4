//! The order of the calls that a run makes of its input and its output.

use crate::run::{CALM, Run, serve_words, shelf_of, sink_of, source_of};
use mp_outside::{Failed, MemSink, MemSource, Sink, Source};
use std::cell::RefCell;
use std::process::Abort;
use std::thread::Threads;

/// A letter for each call, in their order: `r` for a read, `w` for a write and `f` for a flush.
type Log = RefCell<Vec<u8>>;

fn note(log: &Log, call: u8) {
    if let Ok(mut calls) = log.try_borrow_mut() {
        let _ = calls.push(call);
    }
}

/// A source or a sink that notes its calls.
#[derive(Drop)]
struct Noted<'a, T> {
    stream: T,
    log: &'a Log,
}

impl<'a, S: Source> Source for Noted<'a, S> {
    ghost left = { λ it. S.left it.stream };

    ghost given = { λ it. S.given it.stream };

    ghost faults = { λ it. S.faults it.stream };

    ghost given_fits = { λ it. S.given_fits it.stream };

    ghost faults_fit = { λ it. S.faults_fit it.stream };

    fn read(&mut self, buf: &mut [u8]) -> Result<usize, Failed> {
        note(self.log, b'r');
        self.stream.read(buf)
    }
}

impl<'a, K: Sink> Sink for Noted<'a, K> {
    ghost written = { λ it. K.written it.stream };

    ghost room = { λ it. K.room it.stream };

    ghost flushed = { λ it. K.flushed it.stream };

    ghost faults = { λ it. K.faults it.stream };

    ghost faults_fit = { λ it. K.faults_fit it.stream };

    fn write(&mut self, bytes: &[u8]) -> Result<usize, Failed> {
        note(self.log, b'w');
        self.stream.write(bytes)
    }

    fn flush(&mut self) -> Result<(), Failed> {
        note(self.log, b'f');
        self.stream.flush()
    }
}

/// An input, how many bytes one read gives and one write takes at most, and the calls.
static RUNS: [(&[u8], usize, usize, &[u8]); 10] = [
    (b"x\nx\nx\n", 2, 128, b"rwfrwfrwfr"),
    (b"x\nx\nx\n", 1, 128, b"rrwfrrwfrrwfr"),
    (b"x\nx\nx\n", 6, 128, b"rwfwfwfr"),
    (b"x\nx\nx\n", 3, 128, b"rwfrwfwfr"),
    (b"x\nx\n", 2, 9, b"rwwfrwwfr"),
    (b"#\nx\n\nx\n", 2, 128, b"rrwfrrwfr"),
    (b"x\nend\nx\n", 2, 128, b"rwfrrwf"),
    (b"x\nx", 2, 128, b"rwfrrwf"),
    (b"append 0 1 2 3\nprofile 0\n", 15, 64, b"rwfrwfr"),
    (b"#\n#\n#", 2, 128, b"rrrr"),
];

/// Makes the run, and notes its calls.
fn note_calls<'a, R: Abort + AllocGlobal + Threads + Sync>(rt: &R, run: &Run<'_>, log: &'a Log) {
    let mut shelf = shelf_of(rt, run);
    let mut input: Noted<'a, MemSource> = Noted {
        stream: source_of(rt, run),
        log,
    };
    let mut out: Noted<'a, MemSink> = Noted {
        stream: sink_of(rt, run),
        log,
    };
    serve_words(rt, run.words, None, &mut shelf, &mut input, &mut out);
}

fn calls_of<R: Abort + AllocGlobal + Threads + Sync>(rt: &R, run: &Run<'_>) -> Vec<u8> {
    let log = RefCell::new(Vec::new(rt.alloc()));
    note_calls(rt, run, &log);
    log.into_inner()
}

// A report that is held back until the next line, or isn't flushed, shows in the order of the calls.
#[test]
fn a_report_is_written_and_flushed_before_another_byte_is_asked_for(rt: HostRuntime) {
    for (input, read_step, write_step, calls) in RUNS {
        let run = Run {
            input,
            read_step,
            write_step,
            ..CALM
        };
        assert_eq!(rt; calls_of(&rt, &run).as_slice(), calls);
    }
}
