//! A session that reports behind each sample.

use crate::run::{CALM, Run, served};
use std::process::Abort;

/// How many samples are appended one by one.
const SAMPLES: u64 = 10_000;

/// Lines that append a sample each, and ask for a discord behind it.
fn lines<R: Abort + AllocGlobal>(rt: &R) -> String {
    let mut lines = String::new(rt.alloc());
    for k in 0..SAMPLES {
        let sample = k * k % 65_537;
        let both = format!(in rt.alloc(); "append 0 {sample}\ndiscords 0 1\n");
        let both = both.expect(rt, "memory is short");
        assert!(rt; lines.push_str(both.as_str()).is_ok());
    }
    lines
}

// The last report was computed by a plain program. A session that computed the profile anew for each report would
// compare some thousand times as many windows, and this test would not end within its time.
#[test]
fn discords_are_reported_behind_each_sample(rt: HostRuntime) {
    let lines = lines(&rt);
    let run = Run {
        words: "--window 3 --workers 1",
        input: lines.as_bytes(),
        read_step: 65_536,
        ..CALM
    };
    let out = served(&rt, &run);
    assert!(rt;
        out.bytes()
            .ends_with(b"\ndiscords 20000 1\n9938 1916355 9674\n")
    );
}
