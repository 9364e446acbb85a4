//! Files that are cut off or damaged in one byte.

use crate::run::{CALM, Run, check};
use std::process::Abort;
use std::thread::Threads;

/// Two columns behind a first one, with a gap in the one and an empty text in the other.
const TABLE: &[u8] = b"\
time,load,temp
0,1.0,7.5
1,2.0,7.5
2,,7.5
3,1.0,7.5
4,2.0,\"\"
5,3.0,7.5
6,1.0,7.5
7,2.0,7.5
8,3.0,7.5
";

/// A load into a slot with samples.
const LOAD: &[u8] = b"open 1 2\nappend 1 1,2 3,4 5,6\nload 1 day.csv 1,2 header\n";

/// The same, and lines that report of the slot behind it.
const LOAD_AND_LOOK: &[u8] = b"\
open 1 2
append 1 1,2 3,4 5,6
load 1 day.csv 1,2 header
window 1.0 0
window 1.1 0
profile 1.0
";

/// What these lines report where the load has changed nothing.
const SLOT_AS_BEFORE: &str = "\
window 4 0 1.0 3.0 5.0
window 5 0 2.0 4.0 6.0
profile 6 1
0 - - - -
";

/// What the tables below say of a file whose first bad record is K: this and K.
const REFUSED: u8 = 100;

// How many samples a damaged file gives, or its first bad record, by the place of the damage. They were computed by a
// plain program that is no part of this project.

/// Cut off before the byte at this place, or behind the last one.
const CUT: &[u8] = &[
    0, 0, 0, 0, 0, 0, 0, 0, 0, 0, 0, 0, 0, 0, 0, 0, 101, 101, 101, 101, 101, 1, 1, 1, 1, 1, 102,
    102, 102, 102, 102, 2, 2, 2, 2, 2, 103, 103, 3, 3, 3, 3, 3, 104, 104, 104, 104, 104, 4, 4, 4,
    4, 4, 105, 105, 105, 105, 105, 5, 5, 5, 5, 106, 106, 106, 106, 106, 6, 6, 6, 6, 6, 107, 107,
    107, 107, 107, 7, 7, 7, 7, 7, 108, 108, 108, 108, 108, 8, 8, 8, 8, 8, 109, 109, 109, 109, 109,
    9, 9, 9, 9, 9,
];

const QUOTE: &[u8] = &[
    0, 9, 9, 9, 9, 0, 9, 9, 9, 9, 0, 9, 9, 9, 8, 101, 101, 101, 101, 101, 101, 101, 101, 101, 101,
    102, 102, 102, 102, 102, 102, 102, 102, 102, 102, 103, 103, 103, 103, 103, 103, 103, 104, 104,
    104, 104, 104, 104, 104, 104, 104, 104, 105, 105, 105, 105, 105, 105, 9, 9, 105, 106, 106, 106,
    106, 106, 106, 106, 106, 106, 106, 107, 107, 107, 107, 107, 107, 107, 107, 107, 107, 108, 108,
    108, 108, 108, 108, 108, 108, 108, 108, 109, 109, 109, 109, 109, 109, 109, 109, 109, 109,
];

const COMMA: &[u8] = &[
    9, 9, 9, 9, 9, 9, 9, 9, 9, 9, 9, 9, 9, 9, 8, 9, 9, 9, 9, 9, 9, 9, 9, 9, 8, 9, 9, 9, 9, 9, 9, 9,
    9, 9, 8, 9, 9, 9, 9, 9, 9, 8, 9, 9, 9, 9, 9, 9, 9, 9, 9, 8, 9, 9, 9, 9, 9, 9, 5, 105, 8, 9, 9,
    9, 9, 9, 9, 9, 9, 9, 8, 9, 9, 9, 9, 9, 9, 9, 9, 9, 8, 9, 9, 9, 9, 9, 9, 9, 9, 9, 8, 9, 9, 9, 9,
    9, 9, 9, 9, 9, 9,
];

const CR: &[u8] = &[
    9, 101, 101, 101, 101, 101, 101, 101, 101, 101, 101, 101, 101, 9, 9, 9, 101, 101, 101, 101,
    101, 102, 102, 9, 9, 9, 102, 102, 102, 102, 102, 103, 103, 9, 9, 9, 103, 103, 104, 104, 9, 9,
    9, 104, 104, 104, 104, 104, 105, 105, 9, 9, 9, 105, 105, 105, 105, 105, 106, 105, 9, 9, 106,
    106, 106, 106, 106, 107, 107, 9, 9, 9, 107, 107, 107, 107, 107, 108, 108, 9, 9, 9, 108, 108,
    108, 108, 108, 109, 109, 9, 9, 9, 109, 109, 109, 109, 109, 110, 110, 9, 9,
];

const LF: &[u8] = &[
    9, 101, 101, 101, 101, 101, 101, 101, 101, 101, 101, 101, 101, 9, 9, 9, 101, 101, 101, 101,
    101, 102, 102, 9, 9, 9, 102, 102, 102, 102, 102, 103, 103, 9, 9, 9, 103, 103, 104, 104, 9, 9,
    9, 104, 104, 104, 104, 104, 105, 105, 9, 9, 9, 105, 105, 105, 105, 105, 106, 105, 9, 9, 106,
    106, 106, 106, 106, 107, 107, 9, 9, 9, 107, 107, 107, 107, 107, 108, 108, 9, 9, 9, 108, 108,
    108, 108, 108, 109, 109, 9, 9, 9, 109, 109, 109, 109, 109, 110, 110, 9, 9,
];

const NUL: &[u8] = &[
    9, 9, 9, 9, 9, 9, 9, 9, 9, 9, 9, 9, 9, 9, 8, 9, 101, 101, 101, 101, 101, 101, 101, 101, 101, 9,
    102, 102, 102, 102, 102, 102, 102, 102, 102, 9, 103, 103, 103, 103, 103, 103, 9, 104, 104, 104,
    104, 104, 104, 104, 104, 104, 9, 105, 105, 105, 105, 105, 105, 105, 105, 9, 106, 106, 106, 106,
    106, 106, 106, 106, 106, 9, 107, 107, 107, 107, 107, 107, 107, 107, 107, 9, 108, 108, 108, 108,
    108, 108, 108, 108, 108, 9, 109, 109, 109, 109, 109, 109, 109, 109, 109,
];

const NO_TEXT: &[u8] = &[
    9, 9, 9, 9, 9, 9, 9, 9, 9, 9, 9, 9, 9, 9, 8, 9, 101, 101, 101, 101, 101, 101, 101, 101, 101, 9,
    102, 102, 102, 102, 102, 102, 102, 102, 102, 9, 103, 103, 103, 103, 103, 103, 9, 104, 104, 104,
    104, 104, 104, 104, 104, 104, 9, 105, 105, 105, 105, 105, 105, 105, 105, 9, 106, 106, 106, 106,
    106, 106, 106, 106, 106, 9, 107, 107, 107, 107, 107, 107, 107, 107, 107, 9, 108, 108, 108, 108,
    108, 108, 108, 108, 108, 9, 109, 109, 109, 109, 109, 109, 109, 109, 109,
];

/// The byte that is put in the place of another, and what becomes of the file.
static REPLACED: [(u8, &[u8]); 6] = [
    (b'"', QUOTE),
    (b',', COMMA),
    (b'\r', CR),
    (b'\n', LF),
    (b'\0', NUL),
    (b'\xff', NO_TEXT),
];

/// A load of a file of these bytes into a slot with samples.
fn load_of<'a>(file: &'a [u8], input: &'a [u8], reports: &'a str, status: u8) -> Run<'a> {
    Run {
        shows: reports,
        words: "--window 3 --scale 1",
        name: b"day.csv",
        file,
        input,
        read_step: 128,
        output: reports.as_bytes(),
        status,
        ..CALM
    }
}

/// Loads a file that gives so many samples.
fn check_accepted<R: Abort + AllocGlobal + Threads + Sync>(rt: &R, file: &[u8], samples: u8) {
    let reports: Result<_, _> = format!(in rt.alloc(); "ok 1 0\nok 2 3\nok 3 {samples}\n");
    let reports = reports.expect(rt, "memory is short");
    check(rt, &load_of(file, LOAD, reports.as_str(), 0));
}

/// Loads a file of which a record is bad, which leaves the slot as it was.
fn check_refused<R: Abort + AllocGlobal + Threads + Sync>(rt: &R, file: &[u8], record: u8) {
    let reports: Result<_, _> = format!(in rt.alloc();
        "ok 1 0\nok 2 3\nrefused 3 record {record}\n{SLOT_AS_BEFORE}"
    );
    let reports = reports.expect(rt, "memory is short");
    check(rt, &load_of(file, LOAD_AND_LOOK, reports.as_str(), 1));
}

fn check_load<R: Abort + AllocGlobal + Threads + Sync>(rt: &R, file: &[u8], outcome: u8) {
    match outcome.checked_sub(REFUSED) {
        None => check_accepted(rt, file, outcome),
        Some(record) => check_refused(rt, file, record),
    }
}

#[test]
fn a_file_may_be_cut_anywhere(rt: HostRuntime) {
    for (cut, outcome) in CUT.iter().enumerate() {
        check_load(&rt, &TABLE[..cut.min(TABLE.len())], *outcome);
    }
}

/// The table with another byte in each place in turn.
fn check_replaced<R: Abort + AllocGlobal + Threads + Sync>(rt: &R, byte: u8, outcomes: &[u8]) {
    for (place, outcome) in outcomes.iter().enumerate() {
        let mut file = TABLE.to_vec(rt.alloc()).expect(rt, "memory is short");
        if let Some(damaged) = file.get_mut(place) {
            *damaged = byte;
        }
        check_load(rt, file.as_slice(), *outcome);
    }
}

#[test]
fn any_byte_of_a_file_may_be_another(rt: HostRuntime) {
    for (byte, outcomes) in REPLACED {
        check_replaced(&rt, byte, outcomes);
    }
}
