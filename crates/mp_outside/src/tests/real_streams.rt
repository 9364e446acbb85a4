use super::{read_four, read_to_end, write_and_flush};
use crate::disk_shelves::bytes_within;
use crate::{Failed, ShelfAnswer, Sink, Source, StdSink, StdSource};
use std::alloc::Allocator;
use std::cell::RefCell;
use std::fmt::Display;
use std::io::{self, BufRead, ErrorKind, Lines, Print, Read, Write};
use std::process::Abort;
use std::test::Fail;

// What a reader of these tests does at one read.
#[derive(Clone, Copy)]
enum Turn {
    Gives(&'static [u8]),
    IsInterrupted,
    WouldBlock,
    Fails,
}

// A reader that takes its turns, and is then at its end.
#[derive(Drop)]
struct Script {
    turns: &'static [Turn],
}

impl Read for Script {
    fn read(&mut self, buf: &mut [u8]) -> io::Result<usize> {
        let Some((turn, rest)) = self.turns.split_first() else {
            return Ok(0);
        };
        self.turns = rest;
        match turn {
            Turn::Gives(bytes) => {
                let count = bytes.len().min(buf.len());
                buf[..count].copy_from_slice(&bytes[..count]);
                Ok(count)
            }
            Turn::IsInterrupted => Err(ErrorKind::Interrupted.into()),
            Turn::WouldBlock => Err(ErrorKind::WouldBlock.into()),
            Turn::Fails => Err(ErrorKind::BrokenPipe.into()),
        }
    }
}

#[test]
fn a_failed_read_is_no_end(rt: HostRuntime) -> Result<(), Fail> {
    let turns = &[Turn::Gives(b"ab"), Turn::Fails, Turn::Gives(b"cd")];
    let mut source = StdSource::over(Script { turns });
    assert_eq!(rt; read_four(&mut source), Ok(*b"ab.."));
    assert_eq!(rt; read_four(&mut source), Err(Failed));
    assert_eq!(rt; read_four(&mut source), Ok(*b"cd.."));
    assert_eq!(rt; source.read(&mut [0; 4]), Ok(0));
    Ok(())
}

#[test]
fn an_interrupted_read_is_tried_again(rt: HostRuntime) -> Result<(), Fail> {
    let turns = &[
        Turn::IsInterrupted,
        Turn::Gives(b"ab"),
        Turn::IsInterrupted,
        Turn::IsInterrupted,
        Turn::Fails,
        Turn::IsInterrupted,
    ];
    let mut source = StdSource::over(Script { turns });
    assert_eq!(rt; read_four(&mut source), Ok(*b"ab.."));
    assert_eq!(rt; read_four(&mut source), Err(Failed));
    assert_eq!(rt; source.read(&mut [0; 4]), Ok(0));
    Ok(())
}

// A call that is made again gets what comes behind.
#[test]
fn a_read_that_would_block_fails(rt: HostRuntime) -> Result<(), Fail> {
    let turns = &[Turn::WouldBlock, Turn::Gives(b"ab")];
    let mut source = StdSource::over(Script { turns });
    assert_eq!(rt; read_four(&mut source), Err(Failed));
    assert_eq!(rt; read_four(&mut source), Ok(*b"ab.."));
    let mut script = Script { turns };
    let blocked = bytes_within(rt.alloc(), &mut script, 4);
    assert_eq!(rt; blocked.err(), Some(ShelfAnswer::Failed));
    let bytes = bytes_within(rt.alloc(), &mut script, 4)?;
    assert_eq!(rt; bytes.as_slice(), b"ab".as_slice());
    Ok(())
}

// A writer that would block at its first write.
#[derive(Drop)]
struct Busy {
    writes: u32,
}

impl Write for Busy {
    fn write(&mut self, bytes: &[u8]) -> io::Result<usize> {
        self.writes = self.writes.saturating_add(1);
        if self.writes == 1 {
            return Err(ErrorKind::WouldBlock.into());
        }
        Ok(bytes.len())
    }

    fn flush(&mut self) -> io::Result<()> {
        Ok(())
    }
}

#[test]
fn a_write_that_would_block_fails(rt: HostRuntime) {
    let mut busy = Busy { writes: 0 };
    let mut sink = StdSink::over(&mut busy);
    assert_eq!(rt; sink.write(b"01"), Err(Failed));
    assert_eq!(rt; sink.write(b"01"), Ok(2));
}

// A writer that notes what it is given, three bytes at a time. Its second write finds it full, its third is interrupted
// and its fifth takes nothing. Its first flush fails.
#[derive(Drop)]
struct Notebook {
    noted: Vec<u8>,
    writes: u32,
    flushes: u32,
}

impl Write for Notebook {
    fn write(&mut self, bytes: &[u8]) -> io::Result<usize> {
        self.writes = self.writes.saturating_add(1);
        match self.writes {
            2 => Err(ErrorKind::StorageFull.into()),
            3 => Err(ErrorKind::Interrupted.into()),
            5 => Ok(0),
            _ => {
                let count = bytes.len().min(3);
                self.noted.extend_from_slice(&bytes[..count])?;
                Ok(count)
            }
        }
    }

    fn flush(&mut self) -> io::Result<()> {
        self.flushes = self.flushes.saturating_add(1);
        if self.flushes == 1 {
            return Err(ErrorKind::StorageFull.into());
        }
        Ok(())
    }
}

// Writes until the writer is full, is interrupted, and takes nothing, and flushes in vain.
fn expect_faults<K: Sink>(rt: &impl Abort, sink: &mut K) {
    assert_eq!(rt; sink.write(b"012345"), Ok(3));
    assert_eq!(rt; sink.write(b"345"), Err(Failed));
    assert_eq!(rt; sink.write(b"345"), Ok(3));
    assert_eq!(rt; sink.write(b"67"), Err(Failed));
    assert_eq!(rt; sink.flush(), Err(Failed));
}

fn expect_rest<K: Sink>(rt: &impl Abort, sink: &mut K) {
    assert_eq!(rt; write_and_flush(sink, b"6789"), Ok(3));
    assert_eq!(rt; sink.write(b""), Ok(0));
    assert_eq!(rt; write_and_flush(sink, b"9"), Ok(1));
}

#[test]
fn what_a_sink_takes_reaches_its_writer(rt: HostRuntime) {
    let mut notebook = Notebook {
        noted: Vec::new(rt.alloc()),
        writes: 0,
        flushes: 0,
    };
    let mut sink = StdSink::over(&mut notebook);
    expect_faults(&rt, &mut sink);
    expect_rest(&rt, &mut sink);
    assert_eq!(rt; notebook.noted.as_slice(), b"0123456789".as_slice());
    assert_eq!(rt; (notebook.writes, notebook.flushes), (7, 3));
}

// A runtime whose standard input holds bytes.
#[derive(Drop)]
struct Keyboard {
    typed: &'static [u8],
}

impl Input for Keyboard {
    type Reader = &'static [u8];

    fn read_line<A: Allocator + Clone>(&self, buf: &mut String<A>) -> io::Result<usize> {
        self.reader().read_line(buf)
    }

    fn lines<A: Allocator>(&self, alloc: A) -> Lines<&'static [u8], A> {
        self.reader().lines(alloc)
    }

    fn reader(&self) -> &'static [u8] {
        self.typed
    }
}

fn expect_all<R: Abort + AllocGlobal, S: Source>(rt: &R, source: &mut S, bytes: &[u8]) {
    let all = read_to_end(rt.alloc(), source).expect(rt, "memory is short");
    assert_eq!(rt; all.expect(rt, "no read fails").as_slice(), bytes);
}

// Tests run with nothing on the system's standard input.
#[test]
fn standard_input_is_read_to_its_end(rt: HostRuntime) {
    let keyboard = Keyboard {
        typed: b"matrix profile",
    };
    let mut typed = StdSource::new(&keyboard).expect(&rt, "memory is short");
    expect_all(&rt, &mut typed, b"matrix profile");
    let mut none = StdSource::new(&rt).expect(&rt, "memory is short");
    expect_all(&rt, &mut none, b"");
}

// A runtime that prints on paper, four bytes at a time, until it is full.
#[derive(Drop)]
struct Paper {
    printed: RefCell<Vec<u8>>,
    room: usize,
}

impl Print for Paper {
    fn print<D: Display + Drop>(&self, _value: D) -> io::Result<()> {
        Err(ErrorKind::Unsupported.into())
    }

    fn println<D: Display + Drop>(&self, _value: D) -> io::Result<()> {
        Err(ErrorKind::Unsupported.into())
    }

    fn write_all(&self, _bytes: &[u8]) -> io::Result<()> {
        Err(ErrorKind::Unsupported.into())
    }

    fn write_some(&self, bytes: &[u8]) -> io::Result<usize> {
        let Ok(mut printed) = self.printed.try_borrow_mut() else {
            return Err(ErrorKind::ResourceBusy.into());
        };
        let count = bytes.len().min(4);
        if printed.len().saturating_add(count) > self.room {
            return Err(ErrorKind::StorageFull.into());
        }
        printed.extend_from_slice(&bytes[..count])?;
        Ok(count)
    }
}

// Writes to paper for eight bytes.
fn expect_eight<K: Sink>(rt: &impl Abort, sink: &mut K) {
    assert_eq!(rt; write_and_flush(sink, b"012345"), Ok(4));
    assert_eq!(rt; write_and_flush(sink, b"45"), Ok(2));
    assert_eq!(rt; write_and_flush(sink, b"6789"), Err(Failed));
    assert_eq!(rt; write_and_flush(sink, b"67"), Ok(2));
}

#[test]
fn standard_output_takes_bytes(rt: HostRuntime) {
    let line = b"a line on standard output\n";
    let mut out = StdSink::new(&rt).expect(&rt, "memory is short");
    assert_eq!(rt; write_and_flush(&mut out, line), Ok(line.len()));
}

#[test]
fn what_is_printed_stands_on_paper(rt: HostRuntime) {
    let paper = Paper {
        printed: RefCell::new(Vec::new(rt.alloc())),
        room: 8,
    };
    let mut sink = StdSink::new(&paper).expect(&rt, "memory is short");
    expect_eight(&rt, &mut sink);
    let printed = paper.printed.into_inner();
    assert_eq!(rt; printed.as_slice(), b"01234567".as_slice());
}
