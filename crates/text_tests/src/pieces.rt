//! The lines of an input that comes in pieces.

ghost use Rattle.std.specs.Prelude.{◌≡◌, false};

use mp_feed::{Fed, Feed};
use std::alloc::Global;
use std::process::Abort;

const INPUT: &[u8] = b"append 0 1 2 3 1 2 3\nprofile 0\n";

/// The most bytes of a line.
const LINE: usize = 1_048_576;

/// Adds the lines that the piece ends, each with `|` behind it.
fn feed_all(rt: &impl Abort, feed: &mut Feed, piece: &[u8], lines: &mut Vec<u8>)
    requires { feed.old.whole ≡ false }
    ensures { feed.new.whole ≡ false }
{
    let mut rest = piece;
    while !rest.is_empty() {
        let fed = feed.feed(rest);
        rest = &rest[fed.used..];
        if fed.whole {
            push_line(rt, feed.line(), lines);
            feed.next();
        }
    }
}

fn push_line(rt: &impl Abort, line: &[u8], lines: &mut Vec<u8>) {
    assert!(rt; lines.extend_from_slice(line).is_ok());
    assert!(rt; lines.push(b'|').is_ok());
}

/// The lines of two pieces.
fn lines_of(rt: &impl Abort, alloc: Global, first: &[u8], second: &[u8]) -> Vec<u8> {
    let mut lines = Vec::new(alloc);
    let mut feed = Feed::new(alloc).expect(rt, "memory is short");
    feed_all(rt, &mut feed, first, &mut lines);
    feed_all(rt, &mut feed, second, &mut lines);
    if feed.end() {
        push_line(rt, feed.line(), &mut lines);
    }
    lines
}

#[test]
fn an_input_cut_anywhere_gives_the_same_lines(rt: HostRuntime) {
    for cut in 0..=INPUT.len() {
        let (first, second) = INPUT.split_at(cut);
        let lines = lines_of(&rt, rt.alloc(), first, second);
        assert_eq!(rt;
            lines.as_slice(),
            b"append 0 1 2 3 1 2 3|profile 0|".as_slice(),
            "cut at {cut}"
        );
    }
}

#[test]
fn a_last_piece_without_lf_is_a_line(rt: HostRuntime) {
    let mut feed = Feed::new(rt.alloc()).expect(&rt, "memory is short");
    assert_eq!(rt;
        feed.feed(b"ab\nc"),
        Fed {
            used: 3,
            whole: true
        }
    );
    assert!(rt; feed.is_whole());
    assert_eq!(rt; feed.line(), b"ab".as_slice());
    feed.next();
    assert_eq!(rt;
        feed.feed(b"c"),
        Fed {
            used: 1,
            whole: false
        }
    );
    assert!(rt; feed.end());
    assert_eq!(rt; feed.line(), b"c".as_slice());
    feed.next();
    assert!(rt; !feed.end());
}

#[test]
fn one_byte_more_than_the_longest_line_is_kept(rt: HostRuntime) {
    for (length, kept) in [(LINE, LINE), (LINE + 1, LINE + 1), (LINE + 2, LINE + 1)] {
        let mut feed = Feed::new(rt.alloc()).expect(&rt, "memory is short");
        let line = vec![in rt.alloc(); b'#'; length].expect(&rt, "memory is short");
        assert_eq!(rt;
            feed.feed(line.as_slice()),
            Fed {
                used: length,
                whole: false
            }
        );
        assert_eq!(rt;
            feed.feed(b"\n"),
            Fed {
                used: 1,
                whole: true
            }
        );
        assert!(rt; feed.is_whole());
        assert_eq!(rt; feed.line().len(), kept);
    }
}
