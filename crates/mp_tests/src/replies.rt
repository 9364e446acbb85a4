//! The replies of a session, a line at a time.

ghost use Rattle.std.specs.Prelude.{◌+◌, ◌-◌, ◌^◌, ◌<◌, ◌≤◌};

use crate::run::{CALM, Run, shelf_of};
use mp_outside::{MemShelf, OpenGate};
use mp_session::ReplyKind::{Accepted, Ended, Quiet, Refused};
use mp_session::{Reply, ReplyKind, Session, Settings, Stop};
use std::process::Abort;
use std::thread::Threads;

/// By how much a line raises the reads of slots at most, or `None` for slots that are closed behind it.
type Rises<'a> = &'a [(u64, Option<u128>)];

/// A line, what became of it, its report, and what it reads.
type Turn<'a> = (&'a str, Result<ReplyKind, Stop>, &'a str, Rises<'a>);

/// The lines of a session with a file `table.csv` of three records.
#[derive(Clone, Copy)]
struct Talk<'a> {
    shows: &'a str,
    /// The fetch that fails, counted from 0.
    failing_fetch: Option<u64>,
    turns: &'a [Turn<'a>],
}

fn new_shelf<R: Abort + AllocGlobal>(rt: &R, failing: Option<u64>) -> MemShelf {
    let failing = Run {
        failing_fetch: failing,
        ..CALM
    };
    shelf_of(rt, &failing)
}

/// How often the samples of the slots were read.
fn reads_of<R: Abort + AllocGlobal>(
    rt: &R,
    session: &Session,
    rises: Rises<'_>,
) -> Vec<Option<u128>> {
    let mut reads = Vec::new(rt.alloc());
    for (slot, _) in rises {
        assert!(rt; reads.push(session.reads(*slot)).is_ok());
    }
    reads
}

/// Compares the reads with those before the line.
fn check_reads(
    rt: &impl Abort,
    session: &Session,
    before: &[Option<u128>],
    rises: Rises<'_>,
    line: &str,
) {
    for ((slot, most), before) in rises.iter().zip(before) {
        let risen = session
            .reads(*slot)
            .map(|reads| reads.saturating_sub(before.unwrap_or(0)));
        assert_eq!(rt; risen.is_some(), most.is_some(), "slot {slot}, {line}");
        assert!(rt; risen <= *most, "slot {slot}, {line}");
    }
}

/// Expects that a line at which the run stopped has lowered no count of reads.
fn check_kept(
    rt: &impl Abort,
    session: &Session,
    before: &[Option<u128>],
    rises: Rises<'_>,
    line: &str,
) {
    for ((slot, _), before) in rises.iter().zip(before) {
        assert!(rt; *before <= session.reads(*slot), "slot {slot}, {line}");
    }
}

fn check_answer(rt: &impl Abort, answer: &Result<Reply, Stop>, turn: &Turn<'_>) {
    let (line, kind, report, _) = *turn;
    match answer {
        Ok(reply) => {
            assert_eq!(rt; reply.text.as_slice(), report.as_bytes(), "{line}");
            assert_eq!(rt; Ok(reply.kind), kind, "{line}");
        }
        Err(stop) => assert_eq!(rt; Err(*stop), kind, "{line}"),
    }
}

fn check_turn<R: Abort + AllocGlobal + Threads + Sync>(
    rt: &R,
    session: &mut Session,
    shelf: &mut MemShelf,
    turn: &Turn<'_>,
)
    requires { session.old.lines < 2 ^ 64 - 1 }
    ensures { session.new.lines ≤ session.old.lines + 1 }
{
    let (line, _, _, rises) = *turn;
    let before = reads_of(rt, session, rises);
    let answer = session.run(rt, rt.alloc(), line.as_bytes(), shelf, &OpenGate);
    check_answer(rt, &answer, turn);
    if answer.is_err() {
        check_kept(rt, session, before.as_slice(), rises, line);
    }
    check_reads(rt, session, before.as_slice(), rises, line);
}

fn check<R: Abort + AllocGlobal + Threads + Sync>(rt: &R, talk: &Talk<'_>) {
    let settings = Settings::new(3, 0, 256, 4).expect(rt, "within the limits");
    let mut session = Session::new(rt, rt.alloc(), settings).expect(rt, "memory is short");
    assert_eq!(rt; session.reads(0), Some(0));
    assert_eq!(rt; session.reads(1), None);
    let mut shelf = new_shelf(rt, talk.failing_fetch);
    for turn in talk.turns {
        check_turn(rt, &mut session, &mut shelf, turn);
    }
}

static TALKS: [Talk; 10] = [
    Talk {
        shows: "lines are quiet, accepted or refused, or end the run",
        failing_fetch: None,
        turns: &[
            ("", Ok(Quiet), "", &[]),
            ("# lynx", Ok(Quiet), "", &[]),
            ("append 0 x", Ok(Refused), "refused 3 sample 1\n", &[]),
            ("profile 0", Ok(Accepted), "profile 4 0\n", &[]),
            ("end 1", Ok(Refused), "refused 5 fields\n", &[]),
            ("end", Ok(Ended), "ok 6\n", &[]),
        ],
    },
    Talk {
        shows: "a new session has one open slot",
        failing_fetch: None,
        turns: &[(
            "profile 0",
            Ok(Accepted),
            "profile 1 0\n",
            &[(0, Some(0)), (1, None), (7, None), (8, None)],
        )],
    },
    Talk {
        shows: "of n samples each is read n times by a line that computes from them",
        failing_fetch: None,
        turns: &[
            ("append 0 1 2 3 4", Ok(Accepted), "ok 1 4\n", &[]),
            (
                "window 0 1",
                Ok(Accepted),
                "window 2 1 2 3 4\n",
                &[(0, Some(16))],
            ),
            (
                "match 0 0 0 99 1",
                Ok(Accepted),
                "match 3 1\n0 0\n",
                &[(0, Some(32))],
            ),
        ],
    },
    Talk {
        shows: "an append reads four samples for each window and each sample of one",
        failing_fetch: None,
        turns: &[
            ("append 0 1", Ok(Accepted), "ok 1 1\n", &[(0, Some(12))]),
            ("append 0 2 3", Ok(Accepted), "ok 2 3\n", &[(0, Some(28))]),
            ("append 0 4", Ok(Accepted), "ok 3 4\n", &[(0, Some(20))]),
        ],
    },
    Talk {
        shows: "other lines read no sample",
        failing_fetch: None,
        turns: &[
            ("append 0 1 2 3", Ok(Accepted), "ok 1 3\n", &[]),
            (
                "profile 0",
                Ok(Accepted),
                "profile 2 1\n0 - - - -\n",
                &[(0, Some(0))],
            ),
            (
                "entry 0 0",
                Ok(Accepted),
                "entry 3 0 - - - -\n",
                &[(0, Some(0))],
            ),
            (
                "discords 0 1",
                Ok(Accepted),
                "discords 4 0\n",
                &[(0, Some(0))],
            ),
            (
                "chains 0",
                Ok(Accepted),
                "chains 5 1 0\n0\n",
                &[(0, Some(0))],
            ),
            (
                "window 0 1",
                Ok(Refused),
                "refused 6 index\n",
                &[(0, Some(0))],
            ),
            (
                "profile 0.1",
                Ok(Refused),
                "refused 7 channel\n",
                &[(0, Some(0))],
            ),
            (
                "append 0 4 x",
                Ok(Refused),
                "refused 8 sample 2\n",
                &[(0, Some(0))],
            ),
            (
                "load 0 none 0",
                Ok(Refused),
                "refused 9 file\n",
                &[(0, Some(0))],
            ),
            ("# window 0 0", Ok(Quiet), "", &[(0, Some(0))]),
        ],
    },
    Talk {
        shows: "reads are those of the open slots, of all their channels together",
        failing_fetch: None,
        turns: &[
            ("open 7 2", Ok(Accepted), "ok 1 0\n", &[(7, Some(0))]),
            (
                "append 7 1,4 2,5 3,6",
                Ok(Accepted),
                "ok 2 3\n",
                &[(7, Some(80)), (0, Some(0))],
            ),
            (
                "window 7.1 0",
                Ok(Accepted),
                "window 3 0 4 5 6\n",
                &[(7, Some(9)), (0, Some(0))],
            ),
            (
                "open 7 1",
                Ok(Accepted),
                "ok 4 0\n",
                &[(0, Some(0)), (6, None), (7, Some(0)), (8, None)],
            ),
        ],
    },
    Talk {
        shows: "a failed fetch leaves the session",
        failing_fetch: Some(1),
        turns: &[
            ("load 0 table.csv 0", Ok(Accepted), "ok 1 3\n", &[]),
            ("window 0 0", Ok(Accepted), "window 2 0 1 2 3\n", &[]),
            (
                "load 0 table.csv 0 header",
                Err(Stop::ShelfFault),
                "",
                &[(0, Some(0))],
            ),
            ("window 0 0", Ok(Accepted), "window 3 0 1 2 3\n", &[]),
            (
                "load 0 table.csv 0 header",
                Ok(Accepted),
                "ok 4 2\n",
                &[(0, Some(20))],
            ),
        ],
    },
    Talk {
        shows: "a load that was stopped leaves the slots and their reads",
        failing_fetch: Some(0),
        turns: &[
            ("append 0 1 2 3 4", Ok(Accepted), "ok 1 4\n", &[]),
            ("open 7 1", Ok(Accepted), "ok 2 0\n", &[]),
            ("append 7 5 6 7", Ok(Accepted), "ok 3 3\n", &[]),
            (
                "match 0 7 0 99 1",
                Ok(Accepted),
                "match 4 1\n27 1\n",
                &[(0, Some(16)), (7, Some(9))],
            ),
            (
                "load 7 table.csv 0",
                Err(Stop::ShelfFault),
                "",
                &[(0, Some(0)), (6, None), (7, Some(0))],
            ),
            (
                "window 7 0",
                Ok(Accepted),
                "window 5 0 5 6 7\n",
                &[(0, Some(0)), (7, Some(9))],
            ),
            (
                "window 0 1",
                Ok(Accepted),
                "window 6 1 2 3 4\n",
                &[(0, Some(16)), (7, Some(0))],
            ),
        ],
    },
    Talk {
        shows: "a load that was stopped is not accepted, and a version may be stated behind it",
        failing_fetch: Some(0),
        turns: &[
            ("load 0 table.csv 0", Err(Stop::ShelfFault), "", &[]),
            ("session 1", Ok(Accepted), "ok 1\n", &[]),
            ("load 0 table.csv 0", Ok(Accepted), "ok 2 3\n", &[]),
            ("session 1", Ok(Refused), "refused 3 version\n", &[]),
        ],
    },
    Talk {
        shows: "an append reads four samples for each covered diagonal and each sample of a window",
        failing_fetch: None,
        turns: &[
            ("lazy 0 table.csv 0", Ok(Accepted), "ok 1 3\n", &[]),
            ("append 0 4 5 6", Ok(Accepted), "ok 2 6\n", &[(0, Some(36))]),
            ("advance 0 1", Ok(Accepted), "advance 3 1 1\n", &[]),
            (
                "partial 0",
                Ok(Accepted),
                "partial 4 4 1\n0 12 2 - 2\n1 12 3 - 3\n2 12 0 0 -\n3 12 1 1 -\n",
                &[(0, Some(0))],
            ),
            (
                "profile 0",
                Ok(Refused),
                "refused 5 lazy\n",
                &[(0, Some(0))],
            ),
            ("advance 0 9", Ok(Accepted), "advance 6 1 0\n", &[]),
            ("append 0 7", Ok(Accepted), "ok 7 7\n", &[(0, Some(20))]),
            (
                "advance 0 0",
                Ok(Refused),
                "refused 8 number\n",
                &[(0, Some(0))],
            ),
            ("advance 0 1", Ok(Accepted), "advance 9 1 0\n", &[]),
        ],
    },
];

#[test]
fn a_session_answers_line_by_line(rt: HostRuntime) {
    for talk in TALKS {
        check(&rt, &talk);
    }
}
