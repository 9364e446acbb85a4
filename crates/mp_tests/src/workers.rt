//! How many workers a line has, and at which gate.

ghost use Rattle.std.specs.Prelude.{◌≡◌, ◌+◌, ◌-◌, ◌^◌, ◌<◌, ◌≤◌};

use crate::run::{CALM, Run, shelf_of};
use mp_outside::{Gate, MeetGate, MemShelf, OpenGate};
use mp_session::{Session, Settings, read_words};
use std::process::Abort;
use std::thread::Threads;

/// How many records the table has: enough for several workers.
const RECORDS: usize = 2_000;

fn long_table<R: Abort + AllocGlobal>(rt: &R) -> MemShelf {
    let file = b"1\n"
        .repeat(rt.alloc(), RECORDS)
        .expect(rt, "memory is short");
    let run = Run {
        file: file.as_slice(),
        ..CALM
    };
    shelf_of(rt, &run)
}

/// The settings that the words ask for, with spaces between two.
fn settings_of<R: Abort + AllocGlobal>(rt: &R, words: &str) -> Settings {
    let alloc = rt.alloc();
    let words: Result<Vec<String>, _> = words
        .split_ascii_whitespace()
        .map(|word| String::from_str(alloc, word))
        .try_collect(alloc);
    let words = words.expect(rt, "memory is short");
    read_words(alloc, words.as_slice())
        .expect(rt, "they are within the grammar")
        .settings
}

fn new_session<R: Abort + AllocGlobal + Threads + Sync>(rt: &R, words: &str) -> Session
    ensures { result.lines ≡ 0 }
{
    Session::new(rt, rt.alloc(), settings_of(rt, words)).expect(rt, "memory is short")
}

/// Runs a line and compares how its report begins.
fn expect_report<R: Abort + AllocGlobal + Threads + Sync, G: Gate>(
    rt: &R,
    session: &mut Session,
    line: &str,
    gate: &G,
    start: &str,
)
    requires { session.old.lines < 2 ^ 64 - 1 }
    ensures { session.new.lines ≤ session.old.lines + 1 }
{
    let mut shelf = long_table(rt);
    let reply = session.run(rt, rt.alloc(), line.as_bytes(), &mut shelf, gate);
    let reply = reply.expect(rt, line);
    assert!(rt;
        reply.text.as_slice().starts_with(start.as_bytes()),
        "{line}"
    );
}

/// Whether the first two workers of a load meet at its gate.
fn meet_in_a_load<R: Abort + AllocGlobal + Threads + Sync>(rt: &R, words: &str) -> bool {
    let gate = MeetGate::new();
    let mut session = new_session(rt, words);
    expect_report(rt, &mut session, "load 0 table.csv 0", &gate, "ok 1 2000\n");
    gate.met()
}

/// Whether those of a join do.
fn meet_in_a_join<R: Abort + AllocGlobal + Threads + Sync>(rt: &R, words: &str) -> bool {
    let gate = MeetGate::new();
    let mut session = new_session(rt, words);
    expect_report(
        rt,
        &mut session,
        "load 0 table.csv 0",
        &OpenGate,
        "ok 1 2000\n",
    );
    expect_report(rt, &mut session, "join 0 0", &gate, "join 2 1998\n0 0 0\n");
    gate.met()
}

// A worker alone gives up waiting for the other.
#[test]
fn a_line_has_as_many_workers_as_the_words_say(rt: HostRuntime) {
    for (words, met) in [
        ("--window 3 --workers 1", false),
        ("--window 3 --workers 2", true),
    ] {
        assert_eq!(rt; meet_in_a_load(&rt, words), met, "{words}");
        assert_eq!(rt; meet_in_a_join(&rt, words), met, "{words}");
    }
}
