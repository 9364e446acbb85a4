//! The writers of reports as JSON, each with ample memory.

use mp_nums::{
    Centre, Discord, Items, Memory, Motif, Near, NearList, Places, Ratio, Sample, Slot, Sq, Text,
    Whole,
};
use mp_partial::{Part, Profile};
use mp_report::{
    Cause, SlotsName, chain_json, chains_json, consensus_json, discords_json, entry_json,
    kept_profile_json, match_json, motifs_json, mpdist_json, nearest_json, ok_json, profile_json,
    refused_json, segments_json, slots_json, window_json,
};
use std::alloc::Global;
use std::process::Abort;

fn check(rt: &impl Abort, written: Result<Text, Memory>, bytes: &[u8]) {
    let text = written.expect(rt, "memory is short");
    assert_eq!(rt; text.as_slice(), bytes, "{bytes:?}");
}

const FAR: Near = Near {
    dist: Sq(340_282_366_920_938_463_463_374_607_431_768_211_455),
    index: 7,
};

const HERE: Near = Near {
    dist: Sq(0),
    index: 3,
};

#[test]
fn lines_are_answered_as_json(rt: HostRuntime) {
    let alloc = rt.alloc();
    check(
        &rt,
        ok_json(alloc, 1, None),
        b"{\"kind\":\"ok\",\"line\":1}\n",
    );
    check(
        &rt,
        ok_json(alloc, 2, Some(6)),
        b"{\"kind\":\"ok\",\"line\":2,\"samples\":6}\n",
    );
    check(
        &rt,
        refused_json(alloc, 4, Cause::Slot),
        b"{\"kind\":\"refused\",\"line\":4,\"word\":\"slot\"}\n",
    );
    check(
        &rt,
        refused_json(alloc, 4, Cause::Sample(12)),
        b"{\"kind\":\"refused\",\"line\":4,\"word\":\"sample 12\"}\n",
    );
    let samples = [
        Sample::Value(Whole::from(1_250)),
        Sample::Missing,
        Sample::Value(Whole::from(-50)),
    ];
    check(
        &rt,
        window_json(alloc, 3, 0, &samples, 2),
        b"{\"kind\":\"window\",\"line\":3,\"samples\":[\"12.50\",\"?\",\"-0.50\"],\"start\":0}\n",
    );
}

#[test]
fn windows_are_written_as_json(rt: HostRuntime) {
    let alloc = rt.alloc();
    check(
        &rt,
        mpdist_json(alloc, 5, Some(Sq(12))),
        b"{\"dist\":\"12\",\"kind\":\"mpdist\",\"line\":5}\n",
    );
    check(
        &rt,
        mpdist_json(alloc, 5, None),
        b"{\"dist\":null,\"kind\":\"mpdist\",\"line\":5}\n",
    );
    check(
        &rt,
        match_json(alloc, 2, &[HERE, FAR]),
        b"{\"kind\":\"match\",\"line\":2,\"matches\":[{\"dist\":\"0\",\"index\":3},\
        {\"dist\":\"340282366920938463463374607431768211455\",\"index\":7}]}\n",
    );
    check(
        &rt,
        match_json(alloc, 2, &[]),
        b"{\"kind\":\"match\",\"line\":2,\"matches\":[]}\n",
    );
    check(
        &rt,
        slots_json(alloc, 4, SlotsName::Join, &[Some(HERE), None]),
        b"{\"kind\":\"join\",\"line\":4,\"windows\":[{\"dist\":\"0\",\"index\":3,\"start\":0},{\"dist\":null,\
        \"index\":null,\"start\":1}]}\n",
    );
    check(
        &rt,
        slots_json(alloc, 4, SlotsName::Multi, &[]),
        b"{\"kind\":\"multi\",\"line\":4,\"windows\":[]}\n",
    );
    check(
        &rt,
        discords_json(
            alloc,
            4,
            &[Discord {
                start: 4,
                near: HERE,
            }],
        ),
        b"{\"discords\":[{\"dist\":\"0\",\"index\":3,\"start\":4}],\"kind\":\"discords\",\"line\":4}\n",
    );
    check(
        &rt,
        kept_profile_json(
            alloc,
            4,
            2,
            &[Some(HERE), None],
            &[Some(HERE), None],
            &[None, None],
        ),
        b"{\"kind\":\"profile\",\"line\":4,\"windows\":[{\"dist\":\"0\",\"index\":3,\"left\":3,\"right\":null,\
        \"start\":2},{\"dist\":null,\"index\":null,\"left\":null,\"right\":null,\"start\":3}]}\n",
    );
}

fn check_profile(rt: &impl Abort, alloc: Global, profile: &Profile) {
    assert_eq!(rt; profile.len(), 1);
    check(
        rt,
        profile_json(alloc, 2, profile),
        b"{\"kind\":\"profile\",\"line\":2,\"windows\":[{\"dist\":null,\"index\":null,\"left\":null,\
        \"right\":null,\"start\":0}]}\n",
    );
    check(
        rt,
        entry_json(alloc, 3, profile, 0),
        b"{\"kind\":\"entry\",\"line\":3,\"window\":{\"dist\":null,\"index\":null,\"left\":null,\"right\":null,\
        \"start\":0}}\n",
    );
}

#[test]
fn a_profile_is_written_as_json(rt: HostRuntime) {
    let profile = Profile::unit(rt.alloc(), 1).expect(&rt, "memory is short");
    check_profile(&rt, rt.alloc(), &profile);
}

fn nears(rt: &impl Abort, alloc: Global, list: &[Near]) -> NearList {
    Items::from(Vec::from_slice(alloc, list).expect(rt, "memory is short"))
}

fn places(rt: &impl Abort, alloc: Global, list: &[u64]) -> Places {
    Items::from(Vec::from_slice(alloc, list).expect(rt, "memory is short"))
}

#[test]
fn lists_are_written_as_json(rt: HostRuntime) {
    let alloc = rt.alloc();
    let motif = Motif {
        start: 0,
        matches: nears(&rt, alloc, &[HERE]),
    };
    check(
        &rt,
        motifs_json(alloc, 3, &[motif]),
        b"{\"kind\":\"motifs\",\"line\":3,\"motifs\":[{\"matches\":[{\"dist\":\"0\",\"index\":3}],\"start\":0}]}\n",
    );
    let lists = [nears(&rt, alloc, &[HERE]), nears(&rt, alloc, &[])];
    check(
        &rt,
        nearest_json(alloc, 2, &lists),
        b"{\"kind\":\"nearest\",\"line\":2,\"windows\":[{\"nearest\":[{\"dist\":\"0\",\"index\":3}],\"start\":0},\
        {\"nearest\":[],\"start\":1}]}\n",
    );
    check(
        &rt,
        chain_json(alloc, 4, &[0, 3]),
        b"{\"chain\":[0,3],\"kind\":\"chain\",\"line\":4}\n",
    );
    let chains = [places(&rt, alloc, &[0, 2]), places(&rt, alloc, &[1])];
    check(
        &rt,
        chains_json(alloc, 3, &chains, Some(0)),
        b"{\"chains\":[[0,2],[1]],\"kind\":\"chains\",\"line\":3,\"longest\":0}\n",
    );
    let whole = Ratio::new(1, 1);
    let curve = [whole, whole, whole, Ratio::new(0, 6)];
    check(
        &rt,
        segments_json(alloc, 2, &[3], &curve),
        b"{\"kind\":\"segments\",\"line\":2,\"segments\":[{\"den\":6,\"num\":0,\"place\":3}]}\n",
    );
}

#[test]
fn a_consensus_is_written_as_json(rt: HostRuntime) {
    let alloc = rt.alloc();
    let centre = Centre {
        radius: Sq(3),
        series: 0,
        start: 0,
        nearest: nears(&rt, alloc, &[HERE]),
    };
    check(
        &rt,
        consensus_json(alloc, 6, Some(&centre)),
        b"{\"centre\":{\"nearest\":[{\"dist\":\"0\",\"index\":3,\"place\":0}],\"radius\":\"3\",\"series\":0,\
        \"start\":0},\"kind\":\"consensus\",\"line\":6}\n",
    );
    check(
        &rt,
        consensus_json(alloc, 8, None),
        b"{\"centre\":null,\"kind\":\"consensus\",\"line\":8}\n",
    );
}
