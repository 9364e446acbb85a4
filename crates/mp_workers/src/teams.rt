//! Workers that run the pieces of a kernel side by side.

ghost use Rattle.std.specs.Prelude.{◌≡◌, ◌+◌, ◌<◌, ◌≤◌, ◌++◌, All, length, IfOk};
ghost use Rattle.std.specs.Thread.{IsSync, IsSend};
ghost use Rattle.mp_partial.specs.Values.{Value, merged_below};
ghost use Rattle.mp_workers.specs.Teams.{AreReady, HaveRun, found_first, with_pieces};

use crate::aside::run_aside;
use crate::begins::{Begin, begin_all};
use crate::desks::Desk;
use crate::workers::{Worker, gather, hand_on, hire, merge_first};
use mp_nums::Memory;
use mp_outside::Gate;
use mp_partial::{Kernel, MAX_PIECES, MAX_WORKERS, Part, units};
use std::alloc::Global;
use std::thread::{Threads, join_mut};

/// Runs a team of one worker, until no piece is left.
fn run_one<P: Part, K: Kernel<Out = P>, G: Gate>(
    desk: &Desk,
    kernel: &K,
    gate: &G,
    team: &mut [Worker<P>],
)
    requires one { length team.old ≡ 1 }
    requires pieces { desk.now.pieces ≤ K.pieces_of kernel.now }
    requires ready { AreReady P.is_value desk.now (K.size_of kernel.now) team.old }
    ensures { HaveRun desk.now (K.size_of kernel.now) (with_pieces P.merged (P.unit_of (K.size_of kernel.now))
        (K.value_of kernel.now) (found_first team.old)) team.new }
{
    team[0].work(desk, kernel, gate);
}

/// Runs the workers of a team side by side, each in a thread of its own, until no piece is left. The first one then has
/// what all of them found.
#[cycle(teams)]
fn run_some<R: Threads + Sync, P: Part, K: Kernel<Out = P>, G: Gate>(
    rt: &R,
    desk: &Desk,
    kernel: &K,
    gate: &G,
    team: &mut [Worker<P>],
)
    requires some { 0 < length team.old }
    requires pieces { desk.now.pieces ≤ K.pieces_of kernel.now }
    requires ready { AreReady P.is_value desk.now (K.size_of kernel.now) team.old }
    ensures { HaveRun desk.now (K.size_of kernel.now) (with_pieces P.merged (P.unit_of (K.size_of kernel.now))
        (K.value_of kernel.now) (found_first team.old)) team.new }
{
    if team.len() == 1 {
        let mut one = ||
            requires { (length team.now ≡ 1) × (desk.now.pieces ≤ K.pieces_of kernel.now)
                × AreReady P.is_value desk.now (K.size_of kernel.now) team.now }
            ensures { HaveRun desk.entry.now (K.size_of kernel.entry.now)
                (with_pieces P.merged (P.unit_of (K.size_of kernel.entry.now)) (K.value_of kernel.entry.now)
                (found_first team.entry.now)) team.exit.now }
        { run_one(desk, kernel, gate, team) };
        run_aside(rt, &mut one);
        return;
    }
    let (low, high) = team.split_at_mut(team.len() / 2);
    run_both(rt, desk, kernel, gate, low, high);
}

/// Runs two halves of a team side by side. The first worker of the first half then has what all of both found.
#[cycle(teams)]
fn run_both<R: Threads + Sync, P: Part, K: Kernel<Out = P>, G: Gate>(
    rt: &R,
    desk: &Desk,
    kernel: &K,
    gate: &G,
    low: &mut [Worker<P>],
    high: &mut [Worker<P>],
)
    requires some { 0 < length low.old }
    requires others { 0 < length high.old }
    requires pieces { desk.now.pieces ≤ K.pieces_of kernel.now }
    requires ready { AreReady P.is_value desk.now (K.size_of kernel.now) low.old }
    requires others_ready { AreReady P.is_value desk.now (K.size_of kernel.now) high.old }
    requires same { found_first high.old ≡ found_first low.old }
    ensures { HaveRun desk.now (K.size_of kernel.now) (with_pieces P.merged (P.unit_of (K.size_of kernel.now))
        (K.value_of kernel.now) (found_first low.old)) (low.new ++ high.new) }
{
    run_halves(rt, desk, kernel, gate, low, high);
    merge_first(low, high);
}

/// Runs two halves of a team side by side. The first worker of each then has what all of its half found.
#[cycle(teams)]
fn run_halves<R: Threads + Sync, P: Part, K: Kernel<Out = P>, G: Gate>(
    rt: &R,
    desk: &Desk,
    kernel: &K,
    gate: &G,
    low: &mut [Worker<P>],
    high: &mut [Worker<P>],
)
    requires some { 0 < length low.old }
    requires others { 0 < length high.old }
    requires pieces { desk.now.pieces ≤ K.pieces_of kernel.now }
    requires ready { AreReady P.is_value desk.now (K.size_of kernel.now) low.old }
    requires others_ready { AreReady P.is_value desk.now (K.size_of kernel.now) high.old }
    ensures low { HaveRun desk.now (K.size_of kernel.now) (with_pieces P.merged (P.unit_of (K.size_of kernel.now))
        (K.value_of kernel.now) (found_first low.old)) low.new }
    ensures high { HaveRun desk.now (K.size_of kernel.now) (with_pieces P.merged (P.unit_of (K.size_of kernel.now))
        (K.value_of kernel.now) (found_first high.old)) high.new }
{
    let mut front = ||
        requires { IsSync R.row × IsSync K.row × IsSync G.row × IsSend P.row × (0 < length low.now)
            × (desk.now.pieces ≤ K.pieces_of kernel.now)
            × AreReady P.is_value desk.now (K.size_of kernel.now) low.now }
        ensures { HaveRun desk.entry.now (K.size_of kernel.entry.now)
            (with_pieces P.merged (P.unit_of (K.size_of kernel.entry.now)) (K.value_of kernel.entry.now)
            (found_first low.entry.now)) low.exit.now }
    { run_some(rt, desk, kernel, gate, low) };
    let mut back = ||
        requires { IsSync R.row × IsSync K.row × IsSync G.row × IsSend P.row × (0 < length high.now)
            × (desk.now.pieces ≤ K.pieces_of kernel.now)
            × AreReady P.is_value desk.now (K.size_of kernel.now) high.now }
        ensures { HaveRun desk.entry.now (K.size_of kernel.entry.now)
            (with_pieces P.merged (P.unit_of (K.size_of kernel.entry.now)) (K.value_of kernel.entry.now)
            (found_first high.entry.now)) high.exit.now }
    { run_some(rt, desk, kernel, gate, high) };
    join_mut(rt, &mut front, &mut back);
}

/// Runs the workers of a team, several side by side. The first one then has what all of them found.
fn run_team<R: Threads + Sync, P: Part, K: Kernel<Out = P>, G: Gate>(
    rt: &R,
    desk: &Desk,
    kernel: &K,
    gate: &G,
    team: &mut [Worker<P>],
)
    requires some { 0 < length team.old }
    requires pieces { desk.now.pieces ≤ K.pieces_of kernel.now }
    requires ready { AreReady P.is_value desk.now (K.size_of kernel.now) team.old }
    ensures { HaveRun desk.now (K.size_of kernel.now) (with_pieces P.merged (P.unit_of (K.size_of kernel.now))
        (K.value_of kernel.now) (found_first team.old)) team.new }
{
    if team.len() == 1 {
        run_one(desk, kernel, gate, team);
    } else {
        run_some(rt, desk, kernel, gate, team);
    }
}

/// How many of the workers are started: no more than there are pieces, and at least one.
fn with_work(workers: u32, pieces: u64) -> u32
    requires { 1 ≤ workers }
    ensures some { 1 ≤ result }
    ensures within { result ≤ workers }
{
    u64::from(workers).min(pieces).max(1) as u32
}

/// Runs the pieces below a number by a worker for each of some parts, which begin with the same. What these had, with
/// what all pieces have, is handed over, and the other parts stand where all of them stood.
fn run_from<R: Threads + Sync, P: Part, K: Kernel<Out = P>, G: Gate>(
    rt: &R,
    alloc: Global,
    kernel: &K,
    pieces: u64,
    parts: &mut Vec<P>,
    gate: &G,
) -> Result<P, Memory>
    requires pieces { pieces ≤ MAX_PIECES }
    requires of_kernel { pieces ≤ K.pieces_of kernel.now }
    requires some { 0 < length parts.old.items }
    requires workers { length parts.old.items ≤ MAX_WORKERS }
    requires alike { (start : Value) × P.is_value (K.size_of kernel.now) start
        × All (λ part. (P.size_of part ≡ K.size_of kernel.now) × (P.value part ≡ start)) parts.old.items }
    ensures value { IfOk result (λ out. (start : Value) → P.is_value (K.size_of kernel.now) start
        → All (λ part. (P.size_of part ≡ K.size_of kernel.now) × (P.value part ≡ start)) parts.old.items
        → P.value out ≡ P.merged start
        (merged_below P.merged (P.unit_of (K.size_of kernel.now)) (K.value_of kernel.now) pieces)) }
    ensures size { IfOk result (λ out. P.size_of out ≡ K.size_of kernel.now) }
    ensures is_value { IfOk result (λ out. P.is_value (K.size_of kernel.now) (P.value out)) }
    ensures count { IfOk result (λ _. length parts.new.items + 1 ≡ length parts.old.items) }
    ensures sizes { IfOk result (λ _. All (λ part. P.size_of part ≡ K.size_of kernel.now) parts.new.items) }
{
    let (desk, mut pass) = Desk::new(alloc, pieces)?;
    let mut team = hire(alloc, &desk, &mut pass, parts)?;
    run_team(rt, &desk, kernel, gate, team.as_mut_slice());
    let found = gather(&desk, &mut pass, team, parts)?;
    // the passes are one again, and show that each piece was drawn
    let _next = desk.close(pass);
    Ok(found)
}

/// What the pieces below a number have together, run by so many workers side by side. Each worker draws the next piece,
/// passes the gate and runs it, until no piece is left. No more workers are started than there are pieces.
///
/// All memory is taken before the first thread is started. Each of several workers has a thread of its own, for which
/// the caller's thread waits; a worker whose thread can't be started is run by the one that would have started it.
pub fn run_all<R: Threads + Sync, K: Kernel, G: Gate>(
    rt: &R,
    alloc: Global,
    kernel: &K,
    pieces: u64,
    workers: u32,
    gate: &G,
) -> Result<K::Out, Memory>
    requires pieces { pieces ≤ MAX_PIECES }
    requires some { 1 ≤ workers }
    requires workers { workers ≤ MAX_WORKERS }
    requires of_kernel { pieces ≤ K.pieces_of kernel.now }
    ensures value { IfOk result (λ out. K.Out.value out
        ≡ merged_below K.Out.merged (K.Out.unit_of (K.size_of kernel.now)) (K.value_of kernel.now) pieces) }
    ensures size { IfOk result (λ out. K.Out.size_of out ≡ K.size_of kernel.now) }
    ensures is_value { IfOk result (λ out. K.Out.is_value (K.size_of kernel.now) (K.Out.value out)) }
{
    let mut parts = units(alloc, with_work(workers, pieces), kernel.size())?;
    run_from(rt, alloc, kernel, pieces, &mut parts, gate)
}

/// What the pieces of two kernels have together, run as by `run_all`: first those of the one, and then those of the
/// other, for which each worker begins with what the first ones have together. Where the one has no piece, nothing of
/// it is run.
pub fn run_one_after_another<
    R: Threads + Sync,
    P: Part,
    A: Kernel<Out = P>,
    K: Kernel<Out = P>,
    G: Gate,
>(rt: &R, alloc: Global, first: &A, second: &K, workers: u32, gate: &G) -> Result<P, Memory>
    requires first { A.pieces_of first.now ≤ MAX_PIECES }
    requires second { K.pieces_of second.now ≤ MAX_PIECES }
    requires some { 1 ≤ workers }
    requires workers { workers ≤ MAX_WORKERS }
    requires same_size { A.size_of first.now ≡ K.size_of second.now }
    ensures value { IfOk result (λ out. P.value out ≡ P.merged
        (merged_below P.merged (P.unit_of (A.size_of first.now)) (A.value_of first.now) (A.pieces_of first.now))
        (merged_below P.merged (P.unit_of (A.size_of first.now)) (K.value_of second.now)
        (K.pieces_of second.now))) }
    ensures size { IfOk result (λ out. P.size_of out ≡ A.size_of first.now) }
{
    let (ahead, pieces) = (first.pieces(), second.pieces());
    if ahead == 0 {
        return run_all(rt, alloc, second, pieces, workers, gate);
    }
    let mut parts = units(alloc, with_work(workers, pieces), first.size())?;
    let found = run_from(rt, alloc, first, ahead, &mut parts, gate)?;
    hand_on(&found, &mut parts);
    parts.push(found)?;
    run_from(rt, alloc, second, pieces, &mut parts, gate)
}

/// What the pieces of a kernel have together, run as by `run_all`, where the workers first find something of it ahead,
/// each a share, and then begin with what all of them found.
pub fn run_begun<R: Threads + Sync, P: Part, B: Begin<Out = P>, K: Kernel<Out = P>, G: Gate>(
    rt: &R,
    alloc: Global,
    ahead: &B,
    kernel: &K,
    workers: u32,
    gate: &G,
) -> Result<P, Memory>
    requires pieces { K.pieces_of kernel.now ≤ MAX_PIECES }
    requires some { 1 ≤ workers }
    requires workers { workers ≤ MAX_WORKERS }
    requires same_size { B.size_of ahead.now ≡ K.size_of kernel.now }
    requires whole { B.whole ahead.now ≡ merged_below P.merged (P.unit_of (K.size_of kernel.now))
        (K.value_of kernel.now) (K.pieces_of kernel.now) }
    ensures value { IfOk result (λ out. P.value out ≡ B.whole ahead.now) }
    ensures size { IfOk result (λ out. P.size_of out ≡ K.size_of kernel.now) }
{
    let pieces = kernel.pieces();
    let mut parts = units(alloc, with_work(workers, pieces), kernel.size())?;
    begin_all(rt, ahead, parts.as_mut_slice());
    let found = parts.swap_remove(0);
    hand_on(&found, &mut parts);
    parts.push(found)?;
    run_from(rt, alloc, kernel, pieces, &mut parts, gate)
}
