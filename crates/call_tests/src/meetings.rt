//! Two workers that meet at a gate, through each call that starts workers.

use crate::numbers::sample;
use mp_consensus::consensus;
use mp_nums::Sample;
use mp_outside::{Gate, MeetGate};
use mp_series::{Bundle, MAX_SAMPLES};
use mp_tiles::profile;
use mp_workers::{ab_join, self_join};
use std::alloc::{AllocError, Global};
use std::test::Fail;

/// So many samples.
fn waves(alloc: Global, count: i32) -> Result<Vec<Sample>, AllocError> {
    let mut samples = Vec::new(alloc);
    for i in 0..count {
        samples.push(sample(Some(i % 97)))?;
    }
    Ok(samples)
}

/// So many samples that two workers are started for them.
fn long(alloc: Global) -> Result<Vec<Sample>, AllocError> {
    waves(alloc, 2_000)
}

#[test]
fn two_workers_of_a_profile_meet(rt: HostRuntime) -> Result<(), Fail> {
    let samples = long(rt.alloc())?;
    assert!(rt; samples.len() as u64 <= MAX_SAMPLES);
    let gate = MeetGate::new();
    let found = self_join(&rt, rt.alloc(), samples.as_slice(), 8, 64, 2, &gate)?;
    assert!(rt; gate.met());
    assert_eq!(rt; found.len(), 1_993);
    Ok(())
}

#[test]
fn two_workers_of_a_profile_in_coarse_sums_meet(rt: HostRuntime) -> Result<(), Fail> {
    let samples = waves(rt.alloc(), 4_200)?;
    assert!(rt; samples.len() as u64 <= MAX_SAMPLES);
    let gate = MeetGate::new();
    let found = self_join(&rt, rt.alloc(), samples.as_slice(), 16, 64, 2, &gate)?;
    assert!(rt; gate.met());
    assert_eq!(rt; found.len(), 4_185);
    Ok(())
}

/// Lets the pieces of a profile's near windows pass, two by two workers, and the first two of the others. It is a
/// meeting from then on.
#[derive(Drop)]
struct LateGate {
    meeting: MeetGate,
}

impl Gate for LateGate {
    fn pass(&self, worker: u32, piece: u64) {
        if piece >= 2 {
            self.meeting.pass(worker, piece);
        }
    }
}

#[test]
fn two_workers_of_a_profile_meet_behind_its_near_windows(rt: HostRuntime) -> Result<(), Fail> {
    let samples = long(rt.alloc())?;
    assert!(rt; samples.len() as u64 <= MAX_SAMPLES);
    let gate = LateGate {
        meeting: MeetGate::new(),
    };
    let found = self_join(&rt, rt.alloc(), samples.as_slice(), 8, 64, 2, &gate)?;
    assert!(rt; gate.meeting.met());
    let expected = profile(rt.alloc(), samples.as_slice(), 8, 64)?;
    assert!(rt; found.all() == expected.all());
    assert!(rt; found.left() == expected.left());
    assert!(rt; found.right() == expected.right());
    Ok(())
}

#[test]
fn two_workers_of_a_join_meet(rt: HostRuntime) -> Result<(), Fail> {
    let samples = long(rt.alloc())?;
    assert!(rt; samples.len() as u64 <= MAX_SAMPLES);
    let gate = MeetGate::new();
    let found = ab_join(
        &rt,
        rt.alloc(),
        samples.as_slice(),
        samples.as_slice(),
        8,
        64,
        2,
        &gate,
    )?;
    assert!(rt; gate.met());
    assert_eq!(rt; found.as_slice().len(), 1_993);
    Ok(())
}

#[test]
fn two_workers_of_a_join_in_coarse_sums_meet(rt: HostRuntime) -> Result<(), Fail> {
    let samples = long(rt.alloc())?;
    assert!(rt; samples.len() as u64 <= MAX_SAMPLES);
    let gate = MeetGate::new();
    let found = ab_join(
        &rt,
        rt.alloc(),
        samples.as_slice(),
        samples.as_slice(),
        16,
        64,
        2,
        &gate,
    )?;
    assert!(rt; gate.met());
    assert_eq!(rt; found.as_slice().len(), 1_985);
    Ok(())
}

#[test]
fn two_workers_of_a_consensus_meet(rt: HostRuntime) -> Result<(), Fail> {
    let samples = long(rt.alloc())?;
    assert!(rt; samples.len() as u64 <= MAX_SAMPLES);
    let mut list = Bundle::new(rt.alloc());
    list.add(samples.as_slice())?;
    list.add(samples.as_slice())?;
    let gate = MeetGate::new();
    let found = consensus(&rt, rt.alloc(), &list, 8, 2, &gate)?;
    assert!(rt; gate.met());
    assert!(rt; found.is_some());
    Ok(())
}
