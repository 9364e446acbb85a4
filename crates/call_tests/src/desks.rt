//! Pieces that are drawn from one desk, by threads of the test's own and by workers.

ghost use Rattle.std.specs.Prelude.{◌≡◌, ◌<◌, ◌≤◌, [], length};
ghost use Rattle.mp_claims.specs.Marks.{mark_value, mark_has_columns};

use crate::marks::{Marks, expect_marks};
use mp_nums::{Slot, Slots};
use mp_outside::{Gate, HoldGate, OpenGate};
use mp_partial::{Kernel, Part};
use mp_workers::{Desk, Pass, run_all};
use std::process::Abort;
use std::sync::atomic::{AtomicU64, Ordering};
use std::test::Fail;
use std::thread::{Threads, join_mut};

/// Draws a number by each of two passes, in a thread each.
fn claim_by_two<R: Threads + Sync>(
    rt: &R,
    desk: &Desk,
    pass: &mut Pass,
    other: &mut Pass,
) -> (u64, u64)
    requires desk { pass.old.desk ≡ desk.now }
    requires unused { pass.old.drawn ≡ [] }
    requires weight { 0 < pass.old.weight }
    requires other_desk { other.old.desk ≡ desk.now }
    requires other_unused { other.old.drawn ≡ [] }
    requires other_weight { 0 < other.old.weight }
    ensures desk { pass.new.desk ≡ desk.now }
    ensures weight { pass.new.weight ≡ pass.old.weight }
    ensures other_desk { other.new.desk ≡ desk.now }
    ensures other_weight { other.new.weight ≡ other.old.weight }
{
    let (mut first, mut second) = (0, 0);
    join_mut(
        rt,
        &mut || first = desk.claim(pass),
        &mut || second = desk.claim(other),
    );
    (first, second)
}

#[test]
fn two_threads_draw_two_numbers(rt: HostRuntime) -> Result<(), Fail> {
    let (desk, mut pass) = Desk::new(rt.alloc(), 2)?;
    let mut other = desk.split(&mut pass);
    let (first, second) = claim_by_two(&rt, &desk, &mut pass, &mut other);
    desk.join(&mut pass, other);
    assert_eq!(rt; (first.min(second), first.max(second)), (0, 1));
    assert_eq!(rt; desk.close(pass), 2);
    Ok(())
}

/// Runs the pieces of a kernel by two passes, in a thread each.
fn work_by_two<R: Threads + Sync>(
    rt: &R,
    desk: &Desk,
    kernel: &Marks,
    pass: &mut Pass,
    found: &mut Slots,
    other: &mut Pass,
    others: &mut Slots,
)
    requires pieces { desk.now.pieces ≤ kernel.now.pieces }
    requires desk { pass.old.desk ≡ desk.now }
    requires unused { pass.old.drawn ≡ [] }
    requires weight { 0 < pass.old.weight }
    requires size { length found.old.items ≡ kernel.now.pieces }
    requires other_desk { other.old.desk ≡ desk.now }
    requires other_unused { other.old.drawn ≡ [] }
    requires other_weight { 0 < other.old.weight }
    requires other_size { length others.old.items ≡ kernel.now.pieces }
    ensures desk { pass.new.desk ≡ desk.now }
    ensures weight { pass.new.weight ≡ pass.old.weight }
    ensures other_desk { other.new.desk ≡ desk.now }
    ensures other_weight { other.new.weight ≡ other.old.weight }
{
    join_mut(
        rt,
        &mut || desk.work(pass, 0, kernel, found, &OpenGate),
        &mut || desk.work(other, 1, kernel, others, &OpenGate),
    );
}

/// The distance of a place, none where nothing was found.
fn distance_of(slot: &Slot) -> Option<u128> {
    slot.map(|near| near.dist.0)
}

/// Expects each place to be found in one of the two parts alone, at its own number for a distance.
fn expect_each_once(rt: &impl Abort, found: &[Slot], others: &[Slot]) {
    assert_eq!(rt; found.len(), others.len());
    for (place, (a, b)) in found.iter().zip(others.iter()).enumerate() {
        let pair = (distance_of(a), distance_of(b));
        let own = Some(place as u128);
        assert!(rt; pair == (own, None) || pair == (None, own), "at {place}");
    }
}

#[test]
fn two_threads_run_each_piece_once(rt: HostRuntime) -> Result<(), Fail> {
    let kernel = Marks { pieces: 8 };
    let (desk, mut pass) = Desk::new(rt.alloc(), 8)?;
    let mut other = desk.split(&mut pass);
    let mut found = Slots::unit(rt.alloc(), 8)?;
    let mut others = Slots::unit(rt.alloc(), 8)?;
    work_by_two(
        &rt,
        &desk,
        &kernel,
        &mut pass,
        &mut found,
        &mut other,
        &mut others,
    );
    expect_each_once(&rt, found.as_slice(), others.as_slice());
    Ok(())
}

// Where each of the two has a share of its own, the second passes four times alone.
#[test]
fn a_worker_that_is_held_up_leaves_its_pieces_to_others(rt: HostRuntime) -> Result<(), Fail> {
    let gate = HoldGate::new(7);
    let found = run_all(&rt, rt.alloc(), &Marks { pieces: 8 }, 8, 2, &gate)?;
    assert!(rt; gate.held());
    expect_marks(&rt, found.as_slice(), 8);
    Ok(())
}

/// Marks that look whether they were passed, and the gate at which they are.
#[derive(Drop)]
struct Watched {
    marks: Marks,
    passes: AtomicU64,
    passed: AtomicU64,
    unpassed: AtomicU64,
}

impl Watched {
    fn new(pieces: u64) -> Watched
        ensures { result.marks.pieces ≡ pieces }
    {
        Watched {
            marks: Marks { pieces },
            passes: AtomicU64::new(0),
            passed: AtomicU64::new(0),
            unpassed: AtomicU64::new(0),
        }
    }

    fn look(&self, piece: u64) {
        if self.passed.load(Ordering::SeqCst) & (1 << (piece % 64)) == 0 {
            self.unpassed.fetch_add(1, Ordering::SeqCst);
        }
    }
}

impl Gate for Watched {
    fn pass(&self, _worker: u32, piece: u64) {
        self.passes.fetch_add(1, Ordering::SeqCst);
        self.passed.fetch_or(1 << (piece % 64), Ordering::SeqCst);
    }
}

impl Kernel for Watched {
    type Out = Slots;

    ghost size_of = { λ watched. watched.marks.pieces };

    ghost pieces_of = { λ watched. watched.marks.pieces };

    ghost value_of = { λ watched piece. mark_value watched.marks.pieces piece };

    ghost has_values = { λ watched piece _. mark_has_columns watched.marks.pieces piece };

    fn size(&self) -> u64 {
        self.marks.size()
    }

    fn pieces(&self) -> u64 {
        self.marks.pieces()
    }

    fn run(&self, piece: u64, into: &mut Slots) {
        self.look(piece);
        self.marks.run(piece, into);
    }
}

#[test]
fn each_piece_is_passed_once_before_it_is_run(rt: HostRuntime) -> Result<(), Fail> {
    for workers in [1, 3, 8, 32] {
        let watched = Watched::new(20);
        let found = run_all(&rt, rt.alloc(), &watched, 20, workers, &watched)?;
        expect_marks(&rt, found.as_slice(), 20);
        assert_eq!(rt; watched.passes.load(Ordering::SeqCst), 20, "by {workers}");
        assert_eq!(rt;
            watched.passed.load(Ordering::SeqCst),
            (1 << 20) - 1,
            "by {workers}"
        );
        assert_eq!(rt; watched.unpassed.load(Ordering::SeqCst), 0, "by {workers}");
    }
    Ok(())
}
