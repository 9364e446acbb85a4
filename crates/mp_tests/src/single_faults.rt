//! A session in which one call of the outside after the other fails.

use crate::run::{CALM, Run, check};
use std::process::Abort;
use std::thread::Threads;

/// A table with a gap in the one column and an empty text in the other.
const TABLE: &[u8] = b"\
time,load,temp
0,1.0,7.5
1,2.0,7.5
2,,7.5
3,1.0,7.5
4,2.0,\"\"
5,3.0,7.5
6,1.0,7.5
7,2.0,7.5
8,3.0,7.5
";

const INPUT: &[u8] = b"\
open 1 2
load 1 day.csv 1,2 header
profile 1.0
discords 1.0 1
entry 1.1 0
";

const REPORTS: &[u8] = b"\
ok 1 0
ok 2 9
profile 3 7
0 - - - -
1 - - - -
2 - - - -
3 0 6 - 6
4 600 6 - 6
5 600 3 3 -
6 0 3 3 -
discords 4 1
4 600 6
entry 5 0 0 5 - 5
";

/// The session where nothing fails.
const DAY: Run = Run {
    shows: "",
    words: "--window 3 --scale 1",
    name: b"day.csv",
    file: TABLE,
    input: INPUT,
    output: REPORTS,
    ..CALM
};

/// The calls of which one fails.
#[derive(Clone, Copy, Debug)]
enum Failing {
    Read,
    Fetch,
    /// A write or a flush, which are counted together.
    Write,
}

/// How many bytes of the reports are written where a call fails, by the number of the call. A call behind these isn't
/// made.
#[derive(Clone, Copy)]
struct Faults<'a> {
    failing: Failing,
    /// How many bytes a read gives or a write takes, at most.
    step: usize,
    status: u8,
    written: &'a [u8],
}

// A read fails behind as many bytes as reads. The last one would tell the end.
const READS_OF_A_BYTE: &[u8] = &[
    0, 0, 0, 0, 0, 0, 0, 0, 0, 7, 7, 7, 7, 7, 7, 7, 7, 7, 7, 7, 7, 7, 7, 7, 7, 7, 7, 7, 7, 7, 7, 7,
    7, 7, 7, 14, 14, 14, 14, 14, 14, 14, 14, 14, 14, 14, 14, 100, 100, 100, 100, 100, 100, 100,
    100, 100, 100, 100, 100, 100, 100, 100, 121, 121, 121, 121, 121, 121, 121, 121, 121, 121, 121,
    121, 139,
];

const READS_OF_SEVEN_BYTES: &[u8] = &[0, 0, 7, 7, 7, 14, 14, 100, 100, 121, 121, 139];

// Behind the writes of each report comes a flush.
const WRITES_OF_A_BYTE: &[u8] = &[
    0, 1, 2, 3, 4, 5, 6, 7, 7, 8, 9, 10, 11, 12, 13, 14, 14, 15, 16, 17, 18, 19, 20, 21, 22, 23,
    24, 25, 26, 27, 28, 29, 30, 31, 32, 33, 34, 35, 36, 37, 38, 39, 40, 41, 42, 43, 44, 45, 46, 47,
    48, 49, 50, 51, 52, 53, 54, 55, 56, 57, 58, 59, 60, 61, 62, 63, 64, 65, 66, 67, 68, 69, 70, 71,
    72, 73, 74, 75, 76, 77, 78, 79, 80, 81, 82, 83, 84, 85, 86, 87, 88, 89, 90, 91, 92, 93, 94, 95,
    96, 97, 98, 99, 100, 100, 101, 102, 103, 104, 105, 106, 107, 108, 109, 110, 111, 112, 113, 114,
    115, 116, 117, 118, 119, 120, 121, 121, 122, 123, 124, 125, 126, 127, 128, 129, 130, 131, 132,
    133, 134, 135, 136, 137, 138, 139,
];

const WRITES_OF_SEVEN_BYTES: &[u8] = &[
    0, 7, 7, 14, 14, 21, 28, 35, 42, 49, 56, 63, 70, 77, 84, 91, 98, 100, 100, 107, 114, 121, 121,
    128, 135, 139,
];

static FAULTS: [Faults; 5] = [
    Faults {
        failing: Failing::Read,
        step: 1,
        status: 3,
        written: READS_OF_A_BYTE,
    },
    Faults {
        failing: Failing::Read,
        step: 7,
        status: 3,
        written: READS_OF_SEVEN_BYTES,
    },
    Faults {
        failing: Failing::Fetch,
        step: 7,
        status: 3,
        written: &[7],
    },
    Faults {
        failing: Failing::Write,
        step: 1,
        status: 4,
        written: WRITES_OF_A_BYTE,
    },
    Faults {
        failing: Failing::Write,
        step: 7,
        status: 4,
        written: WRITES_OF_SEVEN_BYTES,
    },
];

/// The session in which the call of this number fails.
fn failing_at(faults: &Faults<'_>, number: u64) -> Run<'static> {
    let step = faults.step;
    match faults.failing {
        Failing::Read => Run {
            read_step: step,
            failing_read: Some(number),
            ..DAY
        },
        Failing::Fetch => Run {
            failing_fetch: Some(number),
            ..DAY
        },
        Failing::Write => Run {
            write_step: step,
            failing_write: Some(number),
            ..DAY
        },
    }
}

/// So many bytes of the reports.
fn front(count: u8) -> &'static [u8] {
    &REPORTS[..usize::from(count).min(REPORTS.len())]
}

/// Makes the session once for each call that fails.
fn check_each<R: Abort + AllocGlobal + Threads + Sync>(rt: &R, faults: &Faults<'_>) {
    for (number, written) in faults.written.iter().enumerate() {
        let run = Run {
            output: front(*written),
            status: faults.status,
            ..failing_at(faults, number as u64)
        };
        check(rt, &run);
    }
}

/// Makes it with a failing call behind the last one that is made.
fn check_behind<R: Abort + AllocGlobal + Threads + Sync>(rt: &R, faults: &Faults<'_>) {
    let run = Run {
        next_flush_fails: matches!(faults.failing, Failing::Write),
        ..failing_at(faults, faults.written.len() as u64)
    };
    check(rt, &run);
}

#[test]
fn a_run_ends_at_each_call_that_fails(rt: HostRuntime) {
    for faults in FAULTS {
        check_each(&rt, &faults);
        check_behind(&rt, &faults);
    }
}
