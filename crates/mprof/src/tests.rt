use crate::serve_shell;
use std::alloc::Allocator;
use std::cell::RefCell;
use std::env::{Env, FillError};
use std::fmt::Display;
use std::io;
use std::io::{BufRead, ErrorKind, Input, Lines, Print};
use std::process::{Abort, ExitCode};
use std::rt::Files;
use std::thread::Threads;

/// A shell whose words and standard input are known, and which keeps what is printed.
#[derive(Drop)]
struct Shell {
    words: &'static [&'static [u8]],
    typed: &'static [u8],
    printed: RefCell<Vec<u8>>,
}

impl Env for Shell {
    fn arg(&self, i: usize, buf: &mut [u8]) -> Result<usize, FillError> {
        let Some(word) = self.words.get(i) else {
            return Err(FillError::NotPresent);
        };
        if word.len() > buf.len() {
            return Err(FillError::TooLong);
        }
        buf[..word.len()].copy_from_slice(word);
        Ok(word.len())
    }

    fn var(&self, _name: &str, _buf: &mut [u8]) -> Result<usize, FillError> {
        Err(FillError::NotPresent)
    }

    fn var_at(&self, _i: usize, _buf: &mut [u8]) -> Result<usize, FillError> {
        Err(FillError::NotPresent)
    }
}

impl Input for Shell {
    type Reader = &'static [u8];

    fn read_line<A: Allocator + Clone>(&self, buf: &mut String<A>) -> io::Result<usize> {
        self.reader().read_line(buf)
    }

    fn lines<A: Allocator>(&self, alloc: A) -> Lines<&'static [u8], A> {
        self.reader().lines(alloc)
    }

    fn reader(&self) -> &'static [u8] {
        self.typed
    }
}

impl Print for Shell {
    fn print<D: Display + Drop>(&self, _value: D) -> io::Result<()> {
        Err(ErrorKind::Unsupported.into())
    }

    fn println<D: Display + Drop>(&self, _value: D) -> io::Result<()> {
        Err(ErrorKind::Unsupported.into())
    }

    fn write_all(&self, _bytes: &[u8]) -> io::Result<()> {
        Err(ErrorKind::Unsupported.into())
    }

    fn write_some(&self, bytes: &[u8]) -> io::Result<usize> {
        let Ok(mut printed) = self.printed.try_borrow_mut() else {
            return Err(ErrorKind::ResourceBusy.into());
        };
        printed.extend_from_slice(bytes)?;
        Ok(bytes.len())
    }
}

/// The words of a shell, what is typed, what is printed, and the status that the program exits with.
type Row = (&'static [&'static [u8]], &'static [u8], &'static [u8], u8);

const WINDOW_OF_3: &[&[u8]] = &[b"mprof", b"--window", b"3"];

const USAGE: &[u8] =
    b"mprof: words: --window M [--scale D] [--tile T] [--workers W] [--generate NUMBER --count N]\n";

static ROWS: [Row; 9] = [
    (
        &[b"mprof", b"--window", b"3", b"--scale", b"1"],
        b"append 0 1 2.5 3\nwindow 0 0\nend\n",
        b"ok 1 3\nwindow 2 0 1.0 2.5 3.0\nok 3\n",
        0,
    ),
    (WINDOW_OF_3, b"append 0 1 x\n", b"refused 1 sample 2\n", 1),
    (
        WINDOW_OF_3,
        b"load 0 there/is/no/such.csv 0\n",
        b"refused 1 file\n",
        1,
    ),
    (
        &[b"mprof", b"--count=3", b"--generate=0", b"--window=3"],
        b"append 0 1 2 3\n",
        b"generated 3 1\nbest -\ndiscord -\nsegment -\n",
        0,
    ),
    (&[], b"append 0 1 2 3\n", USAGE, 2),
    (&[b"mprof"], b"append 0 1 2 3\n", USAGE, 2),
    (&[b"mprof", b"--window"], b"append 0 1 2 3\n", USAGE, 2),
    (
        &[b"mprof", b"--window", b"3", b"4"],
        b"append 0 1 2 3\n",
        USAGE,
        2,
    ),
    (
        &[b"mprof", b"--window", b"\xff"],
        b"append 0 1 2 3\n",
        USAGE,
        2,
    ),
];

#[test]
fn words_and_input_are_those_of_the_shell(rt: HostRuntime) {
    for row in ROWS {
        check(&rt, &row);
    }
}

/// Runs the program in a shell.
fn check<R: Abort + AllocGlobal + Clone + Files + Threads + Sync>(rt: &R, row: &Row) {
    let (words, typed, printed, status) = *row;
    let shell = Shell {
        words,
        typed,
        printed: RefCell::new(Vec::new(rt.alloc())),
    };
    assert_eq!(rt; serve_shell(rt, &shell), ExitCode::from(status));
    let text = shell.printed.into_inner();
    assert_eq!(rt; text.as_slice(), printed);
}
