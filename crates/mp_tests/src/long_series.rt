//! Series longer than those of most tests, loaded and made.

use crate::run::{CALM, Run, check};
use std::process::Abort;

/// How many samples they have.
const SAMPLES: u64 = 65_536;

/// A table of one column, a sample each record.
fn table<R: Abort + AllocGlobal>(rt: &R) -> String {
    let mut table = String::new(rt.alloc());
    for k in 0..SAMPLES {
        let record: Result<_, _> = format!(in rt.alloc(); "{}\n", k * k % 65_537);
        let record = record.expect(rt, "memory is short");
        assert!(rt; table.push_str(record.as_str()).is_ok());
    }
    table
}

// The reports were computed by a plain program.
#[test]
fn a_long_series_is_loaded(rt: HostRuntime) {
    let table = table(&rt);
    let run = Run {
        shows: "a profile of 65,534 windows",
        file: table.as_bytes(),
        input: b"load 0 table.csv 0\ndiscords 0 1\nsegments 0 1 5\n",
        output: b"ok 1 65536\ndiscords 2 1\n22636 534776 22865\nsegments 3 1\n4399 319871454/537865730\n",
        ..CALM
    };
    check(&rt, &run);
}

#[test]
fn a_long_series_is_made(rt: HostRuntime) {
    let run = Run {
        shows: "a profile of 65,409 windows",
        words: "--window 128 --generate 7 --count 65536",
        output: b"\
generated 65536 65409
best 19576 7149 25229
discord 41594 60923 36923
segment 3029 247769292/377898040
",
        ..CALM
    };
    check(&rt, &run);
}
