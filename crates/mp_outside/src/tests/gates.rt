use crate::{Gate, HoldGate, MeetGate, OpenGate};
use std::thread::{Threads, join};

fn pass_often<G: Gate>(gate: &G, worker: u32) {
    for piece in 0..10_000 {
        gate.pass(worker, piece);
    }
}

fn pass_side_by_side<R: Threads + Sync, G: Gate>(rt: &R, gate: &G) {
    join(rt, || pass_often(gate, 0), || pass_often(gate, 1));
}

// With a gate that makes its workers wait, this test doesn't end in time.
#[test]
fn an_open_gate_holds_nobody_up(rt: HostRuntime) {
    pass_side_by_side(&rt, &OpenGate);
}

// Nor with one that holds up workers in later passes.
#[test]
fn workers_side_by_side_meet(rt: HostRuntime) {
    let gate = MeetGate::new();
    assert!(rt; !gate.met());
    pass_side_by_side(&rt, &gate);
    assert!(rt; gate.met());
}

#[test]
fn workers_one_after_the_other_never_meet(rt: HostRuntime) {
    let gate = MeetGate::new();
    pass_often(&gate, 0);
    pass_often(&gate, 1);
    pass_often(&gate, 2);
    pass_often(&gate, 0);
    assert!(rt; !gate.met());
}

#[test]
fn a_worker_is_held_up_while_another_goes_on(rt: HostRuntime) {
    let gate = HoldGate::new(7);
    assert!(rt; !gate.held());
    pass_side_by_side(&rt, &gate);
    assert!(rt; gate.held());
}

#[test]
fn a_worker_alone_is_not_held_up_for_ever(rt: HostRuntime) {
    let gate = HoldGate::new(7);
    pass_often(&gate, 0);
    pass_often(&gate, 1);
    assert!(rt; !gate.held());
}
