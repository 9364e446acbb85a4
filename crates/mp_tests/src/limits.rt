//! The longest lines, the longest series and the largest files.

use crate::run::{CALM, Run, check};
use std::process::Abort;
use std::thread::Threads;

/// The most bytes of a line.
const LINE: usize = 1_048_576;

/// The most samples of a series.
const SERIES: usize = 262_144;

/// The most bytes of a file.
const FILE: usize = 67_108_864;

/// How many bytes are read at once.
const READ_STEP: usize = 65_536;

/// The start, so many pieces behind it, and the end.
fn long<R: Abort + AllocGlobal>(
    rt: &R,
    start: &str,
    piece: &str,
    count: usize,
    end: &str,
) -> String {
    let pieces = piece
        .repeat(rt.alloc(), count)
        .expect(rt, "memory is short");
    let mut text = String::from_str(rt.alloc(), start).expect(rt, "memory is short");
    assert!(rt; text.push_str(pieces.as_str()).is_ok());
    assert!(rt; text.push_str(end).is_ok());
    text
}

/// Serves the input, with a file of these bytes.
fn check_long<'a, R: Abort + AllocGlobal + Threads + Sync>(
    rt: &R,
    file: &'a str,
    input: &'a str,
    output: &'a str,
    status: u8,
) {
    let run = Run {
        shows: output,
        file: file.as_bytes(),
        input: input.as_bytes(),
        read_step: READ_STEP,
        output: output.as_bytes(),
        status,
        ..CALM
    };
    check(rt, &run);
}

/// What begins a line, what fills it how often, what ends it, its report, and the status.
static LINES: [(&str, &str, usize, &str, &str, u8); 7] = [
    ("", "#", LINE, "\n", "", 0),
    ("", "#", LINE - 1, "\r\n", "", 0),
    ("", "#", LINE + 1, "\n", "refused 1 long\n", 1),
    ("", "#", LINE, "\r\n", "refused 1 long\n", 1),
    (
        "",
        "#",
        3 * LINE,
        "\nappend 0 1",
        "refused 1 long\nok 2 1\n",
        1,
    ),
    ("append 0", " 0", SERIES + 1, "\n", "refused 1 full\n", 1),
    (
        "append 0",
        " 0",
        SERIES,
        " x\n",
        "refused 1 sample 262145\n",
        1,
    ),
];

#[test]
fn a_line_and_a_series_have_a_greatest_length(rt: HostRuntime) {
    for (start, piece, count, end, output, status) in LINES {
        let input = long(&rt, start, piece, count, end);
        check_long(&rt, "", input.as_str(), output, status);
    }
}

/// Lines that are refused, and the reports of each where it is one byte too long, where it isn't, and of an end.
static REFUSED: [(&str, &str); 9] = [
    ("session 3", "refused 1 long\nrefused 2 version\nok 3\n"),
    ("frob", "refused 1 long\nrefused 2 unknown\nok 3\n"),
    ("open", "refused 1 long\nrefused 2 fields\nok 3\n"),
    ("append x 1", "refused 1 long\nrefused 2 number\nok 3\n"),
    ("profile 1", "refused 1 long\nrefused 2 slot\nok 3\n"),
    ("profile 0.1", "refused 1 long\nrefused 2 channel\nok 3\n"),
    ("append 0 x", "refused 1 long\nrefused 2 sample 1\nok 3\n"),
    (
        "load 0 none.csv 0",
        "refused 1 long\nrefused 2 file\nok 3\n",
    ),
    ("entry 0 0", "refused 1 long\nrefused 2 index\nok 3\n"),
];

#[test]
fn too_long_comes_before_every_other_refusal(rt: HostRuntime) {
    for (line, output) in REFUSED {
        let blanks = LINE.saturating_sub(line.len());
        let longest = long(&rt, line, " ", blanks, "\nend\n");
        let input = long(&rt, line, " ", blanks + 1, "\n");
        let input = long(&rt, input.as_str(), longest.as_str(), 1, "");
        check_long(&rt, "", input.as_str(), output, 1);
    }
}

/// Lines that load a file between appends.
const LOAD: &str = "append 0 1 2 3\nload 0 table.csv 0\nload 0 table.csv 0,1\nwindow 0 0\n";

/// What begins a file, what fills it how often, what ends it, the reports of the lines, and the status.
static FILES: [(&str, &str, usize, &str, &str, u8); 5] = [
    (
        "",
        "0\n",
        SERIES + 1,
        "",
        "ok 1 3\nrefused 2 rows\nrefused 3 channel\nwindow 4 0 1 2 3\n",
        1,
    ),
    (
        "",
        "0\n",
        SERIES,
        "x\n",
        "ok 1 3\nrefused 2 rows\nrefused 3 channel\nwindow 4 0 1 2 3\n",
        1,
    ),
    (
        "",
        "0\n",
        SERIES - 1,
        "x\n0\n",
        "ok 1 3\nrefused 2 record 262144\nrefused 3 channel\nwindow 4 0 1 2 3\n",
        1,
    ),
    (
        "7\n8\n9",
        "\n",
        FILE - 5,
        "",
        "ok 1 3\nok 2 3\nrefused 3 channel\nwindow 4 0 7 8 9\n",
        1,
    ),
    (
        "",
        "x",
        FILE + 1,
        "",
        "ok 1 3\nrefused 2 file-size\nrefused 3 channel\nwindow 4 0 1 2 3\n",
        1,
    ),
];

#[test]
fn a_file_has_a_greatest_length(rt: HostRuntime) {
    for (start, piece, count, end, output, status) in FILES {
        let file = long(&rt, start, piece, count, end);
        check_long(&rt, file.as_str(), LOAD, output, status);
    }
}
