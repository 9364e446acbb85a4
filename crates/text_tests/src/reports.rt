//! The writers of reports, each with ample memory.

use mp_nums::{
    Centre, Discord, Items, Memory, Motif, Near, NearList, Places, Ratio, Sample, Slot, Sq, Text,
    Whole,
};
use mp_partial::{Part, Profile};
use mp_report::{
    Cause, SlotsName, chain_text, chains_text, consensus_text, discords_text, entry_text,
    generated_text, match_text, motifs_text, mpdist_text, ok_text, profile_text, refused_text,
    segments_text, slots_text, window_text,
};
use std::alloc::Global;
use std::process::Abort;

fn check(rt: &impl Abort, written: Result<Text, Memory>, bytes: &[u8]) {
    let text = written.expect(rt, "memory is short");
    assert_eq!(rt; text.as_slice(), bytes, "{bytes:?}");
}

#[test]
fn accepted_lines_are_numbered(rt: HostRuntime) {
    for (line, samples, bytes) in [
        (1, Some(6), b"ok 1 6\n".as_slice()),
        (2, None, b"ok 2\n"),
        (u64::MAX, Some(262_144), b"ok 18446744073709551615 262144\n"),
    ] {
        check(&rt, ok_text(rt.alloc(), line, samples), bytes);
    }
}

#[test]
fn refused_lines_have_words(rt: HostRuntime) {
    for (line, cause, bytes) in [
        (1, Cause::Version, b"refused 1 version\n".as_slice()),
        (4, Cause::Unknown, b"refused 4 unknown\n"),
        (5, Cause::Fields, b"refused 5 fields\n"),
        (6, Cause::Number, b"refused 6 number\n"),
        (7, Cause::Slot, b"refused 7 slot\n"),
        (9, Cause::Channel, b"refused 9 channel\n"),
    ] {
        check(&rt, refused_text(rt.alloc(), line, cause), bytes);
    }
}

/// Compares what is written of one window that has no other.
fn check_profile(rt: &impl Abort, alloc: Global, profile: &Profile) {
    assert_eq!(rt; profile.len(), 1);
    check(
        rt,
        profile_text(alloc, 2, profile),
        b"profile 2 1\n0 - - - -\n",
    );
    check(rt, entry_text(alloc, 3, profile, 0), b"entry 3 0 - - - -\n");
    check(
        rt,
        generated_text(alloc, 3, profile, 1, None, &[]),
        b"generated 3 1\nbest -\ndiscord -\nsegment -\n",
    );
}

#[test]
fn a_profile_is_written(rt: HostRuntime) {
    let profile = Profile::unit(rt.alloc(), 1).expect(&rt, "memory is short");
    check_profile(&rt, rt.alloc(), &profile);
}

/// The sample of a number.
fn sample(number: i32) -> Sample {
    Sample::Value(Whole::from(number))
}

/// The windows of a join, each with the nearest one.
const JOINED: [Slot; 2] = [
    Some(Near {
        dist: Sq(0),
        index: 0,
    }),
    Some(Near {
        dist: Sq(0),
        index: 1,
    }),
];

/// The windows of two channels together.
const TOGETHER: [Slot; 5] = [
    None,
    None,
    Some(Near {
        dist: Sq(12),
        index: 4,
    }),
    None,
    Some(Near {
        dist: Sq(12),
        index: 2,
    }),
];

const MATCHES: [Near; 2] = [
    Near {
        dist: Sq(0),
        index: 0,
    },
    Near {
        dist: Sq(0),
        index: 3,
    },
];

const DISCORDS: [Discord; 1] = [Discord {
    start: 4,
    near: Near {
        dist: Sq(600),
        index: 6,
    },
}];

#[test]
fn samples_and_windows_are_written(rt: HostRuntime) {
    let alloc = rt.alloc();
    let samples = [sample(1_250), sample(1_250), sample(-50)];
    check(
        &rt,
        window_text(alloc, 3, 0, &samples, 2),
        b"window 3 0 12.50 12.50 -0.50\n",
    );
    check(
        &rt,
        slots_text(alloc, 4, SlotsName::Join, &JOINED),
        b"join 4 2\n0 0 0\n1 0 1\n",
    );
    check(
        &rt,
        slots_text(alloc, 4, SlotsName::Multi, &TOGETHER),
        b"multi 4 5\n0 - -\n1 - -\n2 12 4\n3 - -\n4 12 2\n",
    );
    check(
        &rt,
        match_text(alloc, 2, &MATCHES),
        b"match 2 2\n0 0\n0 3\n",
    );
    check(
        &rt,
        discords_text(alloc, 4, &DISCORDS),
        b"discords 4 1\n4 600 6\n",
    );
    check(&rt, mpdist_text(alloc, 5, Some(Sq(0))), b"mpdist 5 0\n");
}

fn nears(rt: &impl Abort, alloc: Global, list: &[Near]) -> NearList {
    Items::from(Vec::from_slice(alloc, list).expect(rt, "memory is short"))
}

fn places(rt: &impl Abort, alloc: Global, list: &[u64]) -> Places {
    Items::from(Vec::from_slice(alloc, list).expect(rt, "memory is short"))
}

#[test]
fn motifs_are_written(rt: HostRuntime) {
    let alloc = rt.alloc();
    let motif = Motif {
        start: 0,
        matches: nears(&rt, alloc, &MATCHES),
    };
    check(
        &rt,
        motifs_text(alloc, 3, &[motif]),
        b"motifs 3 1\nmotif 0 2\n0 0\n0 3\n",
    );
}

const NEAREST: [Near; 3] = [
    Near {
        dist: Sq(0),
        index: 0,
    },
    Near {
        dist: Sq(0),
        index: 1,
    },
    Near {
        dist: Sq(3),
        index: 0,
    },
];

#[test]
fn a_consensus_is_written(rt: HostRuntime) {
    let alloc = rt.alloc();
    let centre = Centre {
        radius: Sq(3),
        series: 0,
        start: 0,
        nearest: nears(&rt, alloc, &NEAREST),
    };
    check(
        &rt,
        consensus_text(alloc, 6, Some(&centre)),
        b"consensus 6 3 0 0\n0 0 0\n1 0 1\n2 3 0\n",
    );
    check(&rt, consensus_text(alloc, 8, None), b"consensus 8 -\n");
}

#[test]
fn chains_and_segments_are_written(rt: HostRuntime) {
    let alloc = rt.alloc();
    check(&rt, chain_text(alloc, 4, &[0, 3]), b"chain 4 2\n0\n3\n");
    let chains = [
        places(&rt, alloc, &[0, 2]),
        places(&rt, alloc, &[1]),
        places(&rt, alloc, &[3]),
    ];
    check(
        &rt,
        chains_text(alloc, 3, &chains, Some(0)),
        b"chains 3 3 0\n0 2\n1\n3\n",
    );
    let whole = Ratio::new(1, 1);
    let curve = [whole, whole, whole, Ratio::new(0, 6)];
    check(
        &rt,
        segments_text(alloc, 2, &[3], &curve),
        b"segments 2 1\n3 0/6\n",
    );
}
