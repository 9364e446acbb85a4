//! Runs that a failed read, fetch or write or the input's limit ends early.

use crate::run::{CALM, Run, check, check_all, serve_words, shelf_of, sink_of};
use mp_outside::LoopSource;

static READS: [Run; 12] = [
    Run {
        shows: "the first read fails",
        failing_read: Some(0),
        status: 3,
        ..CALM
    },
    Run {
        shows: "the second read fails, before the first line is whole",
        failing_read: Some(1),
        status: 3,
        ..CALM
    },
    Run {
        shows: "the third read fails, and the line before it is reported",
        failing_read: Some(2),
        output: b"ok 1 3\n",
        status: 3,
        ..CALM
    },
    Run {
        shows: "a whole line is read and no byte behind it",
        read_step: 15,
        failing_read: Some(1),
        output: b"ok 1 3\n",
        status: 3,
        ..CALM
    },
    Run {
        shows: "of the second line all but its LF is read, and it isn't run",
        read_step: 24,
        failing_read: Some(1),
        output: b"ok 1 3\n",
        status: 3,
        ..CALM
    },
    Run {
        shows: "both lines are read, and the read that would tell the end fails",
        read_step: 25,
        failing_read: Some(1),
        output: b"ok 1 3\nprofile 2 1\n0 - - - -\n",
        status: 3,
        ..CALM
    },
    Run {
        shows: "of three lines all but the last LF is read",
        input: b"append 0 1 2 3 1 2 3\nprofile 0\nentry 0 0\n",
        read_step: 40,
        failing_read: Some(1),
        output: b"ok 1 6\nprofile 2 4\n0 0 3 - 3\n1 6 3 - 3\n2 6 0 0 -\n3 0 0 0 -\n",
        status: 3,
        ..CALM
    },
    Run {
        shows: "behind an accepted end nothing is read",
        input: b"#ab\nend\nfrob\n",
        read_step: 4,
        failing_read: Some(2),
        output: b"ok 2\n",
        ..CALM
    },
    Run {
        shows: "behind an accepted end nothing is read, also where a line was refused",
        input: b"fro\nend\nfrob\n",
        read_step: 4,
        failing_read: Some(2),
        output: b"refused 1 unknown\nok 2\n",
        status: 1,
        ..CALM
    },
    Run {
        shows: "behind an end in the first line nothing is read",
        input: b"end\n#ab\nfrob\n",
        read_step: 4,
        failing_read: Some(1),
        output: b"ok 1\n",
        ..CALM
    },
    Run {
        shows: "behind a line that is no end the run goes on",
        input: b"#ab\nEnd\nend\n",
        read_step: 4,
        failing_read: Some(2),
        output: b"refused 2 unknown\n",
        status: 3,
        ..CALM
    },
    Run {
        shows: "an end whose LF is not read isn't run",
        input: b"#ab\nend",
        read_step: 4,
        failing_read: Some(2),
        status: 3,
        ..CALM
    },
];

/// Three lines that each ask for the file, and the end.
const LOADS: &[u8] = b"load 0 table.csv 0\nload 0 table.csv 0 header\nload 0 table.csv 1\nend\n";

/// Lines that ask for no file, or are refused without it, and then one that asks for it.
const LINES_WITHOUT_A_FILE: &[u8] = b"\
load
load 0 table.csv
load 0 table.csv 0 heading
load x table.csv 0
load 0 table.csv x
load 0 table.csv 65536
load 0 table.csv 0,0,0,0,0,0,0,0,0
load 8 table.csv 0
load 1 table.csv 0
load 0 table.csv 0,1
load 0 none.csv 0,1
#load 0 table.csv 0
append 0 1 2 3
profile 0
open 1 1
load 1 table.csv 0
append 0 1
";

const REPORTS_WITHOUT_A_FILE: &[u8] = b"\
refused 1 fields
refused 2 fields
refused 3 fields
refused 4 number
refused 5 number
refused 6 number
refused 7 number
refused 8 slot
refused 9 slot
refused 10 channel
refused 11 channel
ok 13 3
profile 14 1
0 - - - -
ok 15 0
";

static FETCHES: [Run; 7] = [
    Run {
        shows: "the fetch of a file that isn't there fails",
        input: b"load 0 none.csv 0\nappend 0 1\n",
        failing_fetch: Some(0),
        status: 3,
        ..CALM
    },
    Run {
        shows: "a second fetch would fail, and isn't made",
        input: b"load 0 none.csv 0\nappend 0 1\n",
        failing_fetch: Some(1),
        output: b"refused 1 file\nok 2 1\n",
        status: 1,
        ..CALM
    },
    Run {
        shows: "the fetch of the first load fails",
        input: LOADS,
        failing_fetch: Some(0),
        status: 3,
        ..CALM
    },
    Run {
        shows: "the fetch of the second load fails, and the first one made one alone",
        input: LOADS,
        failing_fetch: Some(1),
        output: b"ok 1 3\n",
        status: 3,
        ..CALM
    },
    Run {
        shows: "the fetch of the third load fails, and the second one made one alone",
        input: LOADS,
        failing_fetch: Some(2),
        output: b"ok 1 3\nok 2 2\n",
        status: 3,
        ..CALM
    },
    Run {
        shows: "a fourth fetch would fail, and isn't made",
        input: LOADS,
        failing_fetch: Some(3),
        output: b"ok 1 3\nok 2 2\nrefused 3 record 1\nok 4\n",
        status: 1,
        ..CALM
    },
    Run {
        shows: "a line that is no load or is refused without its file fetches none",
        input: LINES_WITHOUT_A_FILE,
        failing_fetch: Some(0),
        output: REPORTS_WITHOUT_A_FILE,
        status: 3,
        ..CALM
    },
];

static WRITES: [Run; 11] = [
    Run {
        shows: "the first write fails",
        write_step: 4,
        failing_write: Some(0),
        status: 4,
        ..CALM
    },
    Run {
        shows: "the second write of a report fails",
        write_step: 4,
        failing_write: Some(1),
        output: b"ok 1",
        status: 4,
        ..CALM
    },
    Run {
        shows: "the flush of a report fails",
        write_step: 4,
        failing_write: Some(2),
        output: b"ok 1 3\n",
        status: 4,
        ..CALM
    },
    Run {
        shows: "the first write of the second report fails",
        write_step: 4,
        failing_write: Some(3),
        output: b"ok 1 3\n",
        status: 4,
        ..CALM
    },
    Run {
        shows: "the second write of the second report fails",
        write_step: 4,
        failing_write: Some(4),
        output: b"ok 1 3\nprof",
        status: 4,
        ..CALM
    },
    Run {
        shows: "a report that is written at once fails, and the one before it is whole",
        input: b"append 0 1 2 3 1 2 3\nprofile 0\n",
        read_step: 65_536,
        failing_write: Some(2),
        output: b"ok 1 6\n",
        status: 4,
        ..CALM
    },
    Run {
        shows: "quiet lines leave the sink alone",
        input: b"# nothing to report\n\n  \n#\r\n# the last",
        write_step: 4,
        failing_write: Some(0),
        next_flush_fails: true,
        ..CALM
    },
    Run {
        shows: "a quiet line behind a report of two writes and a flush makes no fourth call",
        input: b"x\n# nothing to report\n\n",
        write_step: 9,
        failing_write: Some(3),
        output: b"refused 1 unknown\n",
        status: 1,
        next_flush_fails: true,
        ..CALM
    },
    Run {
        shows: "words that are refused read no input and fetch no file, and their line can fail to be written",
        words: "--window 2",
        failing_read: Some(0),
        failing_fetch: Some(0),
        write_step: 6,
        failing_write: Some(1),
        output: b"mprof:",
        status: 4,
        ..CALM
    },
    Run {
        shows: "a made series reads no input and fetches no file, and its summary is flushed behind two writes",
        words: "--window 3 --generate 0 --count 3",
        input: b"load 0 table.csv 0\n",
        failing_read: Some(0),
        failing_fetch: Some(0),
        write_step: 32,
        failing_write: Some(3),
        output: b"generated 3 1\nbest -\ndiscord -\nsegment -\n",
        next_flush_fails: true,
        ..CALM
    },
    Run {
        shows: "the summary of a made series can fail to be written",
        words: "--window 3 --generate 0 --count 3",
        write_step: 9,
        failing_write: Some(1),
        output: b"generated",
        status: 4,
        ..CALM
    },
];

/// Lines of 35 bytes up to an end, and more bytes behind it.
/// What stands behind `end` is neither read nor counted.
const ENDED: &[u8] = b"append 0 1 2 3 1 2 3\nprofile 0\nend\n\
    ####################################################################################################\
    ####################################################################################################\
    ####################################################################################################\
    ####################################################################################################\
    ####################################################################################################\
    ####################################################################################################\
    ####################################################################################################\
    ####################################################################################################\
    ####################################################################################################\
    ####################################################################################################";

const ENDED_REPORTS: &[u8] =
    b"ok 1 6\nprofile 2 4\n0 0 3 - 3\n1 6 3 - 3\n2 6 0 0 -\n3 0 0 0 -\nok 3\n";

const TWO_REPORTS: &[u8] = b"ok 1 6\nprofile 2 4\n0 0 3 - 3\n1 6 3 - 3\n2 6 0 0 -\n3 0 0 0 -\n";

/// Limits on inputs, and what a run of each writes and ends with.
static LIMITS: [(u32, &[u8], &[u8], u8); 24] = [
    (0, b"", b"", 0),
    (0, b"\n", b"", 5),
    (14, b"append 0 1 2 3", b"ok 1 3\n", 0),
    (13, b"append 0 1 2 3", b"", 5),
    (15, b"append 0 1 2 3\n", b"ok 1 3\n", 0),
    (14, b"append 0 1 2 3\n", b"", 5),
    (15, b"append 0 1 2 3\n#", b"ok 1 3\n", 5),
    (16, b"append 0 1 2 3\n#", b"ok 1 3\n", 0),
    (6, b"frob\n#", b"refused 1 unknown\n", 1),
    (5, b"frob\n#", b"refused 1 unknown\n", 5),
    (4, b"end\nfrob\n", b"ok 1\n", 0),
    (3, b"end\nfrob\n", b"", 5),
    (4, b"end\n", b"ok 1\n", 0),
    (3, b"end\n", b"", 5),
    (3, b"end", b"ok 1\n", 0),
    (2, b"end", b"", 5),
    (6, b"#\nend\n#", b"ok 2\n", 0),
    (5, b"#\nend\n#", b"", 5),
    (10, b"end 1\nend\n#", b"refused 1 fields\nok 2\n", 1),
    (9, b"end 1\nend\n#", b"refused 1 fields\n", 5),
    (30, b"append 0 1 2 3 1 2 3\nprofile 0\n", b"ok 1 6\n", 5),
    (31, b"append 0 1 2 3 1 2 3\nprofile 0\n", TWO_REPORTS, 0),
    (
        40,
        b"append 0 1 2 3 1 2 3\nprofile 0\nentry 0 0\n",
        TWO_REPORTS,
        5,
    ),
    (35, ENDED, ENDED_REPORTS, 0),
];

#[test]
fn a_failed_read_ends_the_run(rt: HostRuntime) {
    check_all(&rt, &READS);
}

#[test]
fn a_failed_fetch_ends_the_run(rt: HostRuntime) {
    check_all(&rt, &FETCHES);
}

#[test]
fn a_failed_write_or_flush_ends_the_run(rt: HostRuntime) {
    check_all(&rt, &WRITES);
}

#[test]
fn an_input_without_end_ends_at_the_limit(rt: HostRuntime) {
    let mut shelf = shelf_of(&rt, &CALM);
    let mut input = LoopSource::new(b'#');
    let mut out = sink_of(&rt, &CALM);
    let status = serve_words(&rt, "--window 3", None, &mut shelf, &mut input, &mut out);
    assert_eq!(rt; status, 5);
    assert!(rt; out.bytes().is_empty());
}

// Each input is read by one byte, by seven, and all at once.
#[test]
fn a_run_ends_at_a_limit_of_its_own(rt: HostRuntime) {
    for (limit, input, output, status) in LIMITS {
        for read_step in [1, 7, 64] {
            let run = Run {
                limit: Some(limit),
                input,
                read_step,
                output,
                status,
                ..CALM
            };
            check(&rt, &run);
        }
    }
}
