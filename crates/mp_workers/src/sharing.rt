//! Workers that share what they find while they run the pieces of a kernel.

ghost use Rattle.std.specs.Prelude.{◌≡◌, ℕ, ◌<◌, ◌≤◌, List, All, length, IfOk};
ghost use Rattle.std.specs.Thread.{IsSync, IsSend};
ghost use Rattle.mp_partial.specs.Values.{Value, merged_below};
ghost use Rattle.mp_workers.specs.Desks.{Drew, past};
ghost use Rattle.mp_workers.specs.Sharing.{AreReadyToShare, HasPieces, HaveShared};

use crate::aside::run_aside;
use crate::desks::Desk;
use crate::passes::Pass;
use crate::workers::{Worker, gather, hire, merge_first};
use mp_nums::Memory;
use mp_outside::Gate;
use mp_partial::{MAX_PIECES, MAX_WORKERS, Part, units};
use std::alloc::Global;
use std::thread::{Threads, join_mut};

/// Work that is cut into numbered pieces, and whose workers share what they find: behind a piece a worker may have
/// found more of the whole than the piece's value. Threads can share it.
pub trait Sharing: Sync {
    /// What the pieces are found in.
    type Out: Part;

    /// The size of every piece's value.
    ghost size_of: { Self → ℕ };

    /// The number of pieces.
    ghost pieces_of: { Self → ℕ };

    /// The value of a piece.
    ghost value_of: { Self → ℕ → Value };

    /// What all pieces have together.
    ghost whole: { Self → Value };

    /// The size of the parts that pieces are found in.
    fn size(&self) -> u64
        ensures { result ≡ size_of self.now };

    /// The number of pieces. They are numbered from 0.
    fn pieces(&self) -> u64
        ensures { result ≡ pieces_of self.now };

    /// Finds something of the whole ahead of the pieces, a share of so many. It takes no memory.
    fn begin(&self, share: u32, shares: u32, into: &mut Self::Out)
        requires some { 1 ≤ shares }
        requires size { Self.Out.size_of into.old ≡ size_of self.now }
        requires within { Self.Out.merged (Self.Out.value into.old) (whole self.now) ≡ whole self.now }
        ensures within { Self.Out.merged (Self.Out.value into.new) (whole self.now) ≡ whole self.now }
        ensures size { Self.Out.size_of into.new ≡ Self.Out.size_of into.old }
        ensures is_value { Self.Out.is_value (Self.Out.size_of into.new) (Self.Out.value into.new) }
        ensures room { Self.Out.room_of into.new ≡ Self.Out.room_of into.old };

    /// Finds the value of a piece, and what else of the whole others may have found. It takes no memory.
    fn run(&self, piece: u64, into: &mut Self::Out)
        requires piece { piece < pieces_of self.now }
        requires size { Self.Out.size_of into.old ≡ size_of self.now }
        requires within { Self.Out.merged (Self.Out.value into.old) (whole self.now) ≡ whole self.now }
        ensures piece { Self.Out.merged (Self.Out.value into.new) (value_of self.now piece)
            ≡ Self.Out.value into.new }
        ensures more { Self.Out.merged (Self.Out.value into.new) (Self.Out.value into.old)
            ≡ Self.Out.value into.new }
        ensures within { Self.Out.merged (Self.Out.value into.new) (whole self.now) ≡ whole self.now }
        ensures size { Self.Out.size_of into.new ≡ Self.Out.size_of into.old }
        ensures is_value { Self.Out.is_value (Self.Out.size_of into.new) (Self.Out.value into.new) }
        ensures room { Self.Out.room_of into.new ≡ Self.Out.room_of into.old };

    /// Each piece has a value of the size.
    ghost has_values: { (work : Self) (number : ℕ) → number < pieces_of work
        → Self.Out.is_value (size_of work) (value_of work number) };
}

impl Desk {
    /// Draws pieces and runs them, as `work` does, where a worker may find more than the values of its pieces.
    pub(crate) fn share<S: Sharing, G: Gate>(
        &self,
        pass: &mut Pass,
        worker: u32,
        work: &S,
        into: &mut S::Out,
        gate: &G,
    )
        requires desk { pass.old.desk ≡ self.now }
        requires room { past self.now.pieces pass.old.drawn < pass.old.weight }
        requires pieces { self.now.pieces ≤ S.pieces_of work.now }
        requires size { S.Out.size_of into.old ≡ S.size_of work.now }
        requires within { S.Out.merged (S.Out.value into.old) (S.whole work.now) ≡ S.whole work.now }
        ensures desk { pass.new.desk ≡ self.now }
        ensures weight { pass.new.weight ≡ pass.old.weight }
        ensures drawn { (numbers : List ℕ) × (last : ℕ)
            × Drew self.now.pieces pass.old.drawn numbers last pass.new.drawn
            × HasPieces S.Out.merged (S.value_of work.now) (S.whole work.now) (S.Out.value into.new) numbers }
        ensures size { S.Out.size_of into.new ≡ S.Out.size_of into.old }
        ensures is_value { S.Out.is_value (S.Out.size_of into.new) (S.Out.value into.new) }
    {
        // a part that tells its size has a value of that size
        let _places = into.size();
        let mut piece = self.claim(pass);
        while piece < self.pieces {
            gate.pass(worker, piece);
            work.run(piece, into);
            piece = self.claim(pass);
        }
    }
}

/// Has a team of one worker find its share ahead of the pieces, and then run pieces until none is left.
fn share_one<P: Part, S: Sharing<Out = P>, G: Gate>(
    desk: &Desk,
    work: &S,
    gate: &G,
    team: &mut [Worker<P>],
)
    requires one { length team.old ≡ 1 }
    requires pieces { desk.now.pieces ≤ S.pieces_of work.now }
    requires ready { AreReadyToShare P.is_value P.merged (S.whole work.now) desk.now (S.size_of work.now) team.old }
    ensures { HaveShared P.is_value P.merged (S.value_of work.now) (S.whole work.now) desk.now (S.size_of work.now)
        team.new }
{
    let worker = &mut team[0];
    worker.begin(desk, work);
    worker.share(desk, work, gate);
}

/// Has the workers of a team find their shares ahead of the pieces and then run pieces until none is left, side by
/// side, each in a thread of its own. The first one then has the values of all pieces that they drew.
#[cycle(sharing)]
fn share_team<R: Threads + Sync, P: Part, S: Sharing<Out = P>, G: Gate>(
    rt: &R,
    desk: &Desk,
    work: &S,
    gate: &G,
    team: &mut [Worker<P>],
)
    requires some { 0 < length team.old }
    requires pieces { desk.now.pieces ≤ S.pieces_of work.now }
    requires ready { AreReadyToShare P.is_value P.merged (S.whole work.now) desk.now (S.size_of work.now) team.old }
    ensures { HaveShared P.is_value P.merged (S.value_of work.now) (S.whole work.now) desk.now (S.size_of work.now)
        team.new }
{
    if team.len() == 1 {
        let mut one = ||
            requires { (length team.now ≡ 1) × (desk.now.pieces ≤ S.pieces_of work.now)
                × AreReadyToShare P.is_value P.merged (S.whole work.now) desk.now (S.size_of work.now) team.now }
            ensures { HaveShared P.is_value P.merged (S.value_of work.entry.now) (S.whole work.entry.now)
                desk.entry.now (S.size_of work.entry.now) team.exit.now }
        { share_one(desk, work, gate, team) };
        run_aside(rt, &mut one);
        return;
    }
    let (low, high) = team.split_at_mut(team.len() / 2);
    share_halves(rt, desk, work, gate, low, high);
    merge_first(low, high);
}

/// Runs two halves of a team side by side. The first worker of each then has the values of all pieces that its half
/// drew.
#[cycle(sharing)]
fn share_halves<R: Threads + Sync, P: Part, S: Sharing<Out = P>, G: Gate>(
    rt: &R,
    desk: &Desk,
    work: &S,
    gate: &G,
    low: &mut [Worker<P>],
    high: &mut [Worker<P>],
)
    requires some { 0 < length low.old }
    requires others { 0 < length high.old }
    requires pieces { desk.now.pieces ≤ S.pieces_of work.now }
    requires ready { AreReadyToShare P.is_value P.merged (S.whole work.now) desk.now (S.size_of work.now) low.old }
    requires others_ready { AreReadyToShare P.is_value P.merged (S.whole work.now) desk.now (S.size_of work.now)
        high.old }
    ensures low { HaveShared P.is_value P.merged (S.value_of work.now) (S.whole work.now) desk.now
        (S.size_of work.now) low.new }
    ensures high { HaveShared P.is_value P.merged (S.value_of work.now) (S.whole work.now) desk.now
        (S.size_of work.now) high.new }
{
    let mut front = ||
        requires { IsSync R.row × IsSync S.row × IsSync G.row × IsSend P.row × (0 < length low.now)
            × (desk.now.pieces ≤ S.pieces_of work.now)
            × AreReadyToShare P.is_value P.merged (S.whole work.now) desk.now (S.size_of work.now) low.now }
        ensures { HaveShared P.is_value P.merged (S.value_of work.entry.now) (S.whole work.entry.now) desk.entry.now
            (S.size_of work.entry.now) low.exit.now }
    { share_team(rt, desk, work, gate, low) };
    let mut back = ||
        requires { IsSync R.row × IsSync S.row × IsSync G.row × IsSend P.row × (0 < length high.now)
            × (desk.now.pieces ≤ S.pieces_of work.now)
            × AreReadyToShare P.is_value P.merged (S.whole work.now) desk.now (S.size_of work.now) high.now }
        ensures { HaveShared P.is_value P.merged (S.value_of work.entry.now) (S.whole work.entry.now) desk.entry.now
            (S.size_of work.entry.now) high.exit.now }
    { share_team(rt, desk, work, gate, high) };
    join_mut(rt, &mut front, &mut back);
}

/// Has the workers of a team find their shares ahead of the pieces and then run pieces until none is left, several side
/// by side.
fn run_team<R: Threads + Sync, P: Part, S: Sharing<Out = P>, G: Gate>(
    rt: &R,
    desk: &Desk,
    work: &S,
    gate: &G,
    team: &mut [Worker<P>],
)
    requires some { 0 < length team.old }
    requires pieces { desk.now.pieces ≤ S.pieces_of work.now }
    requires ready { AreReadyToShare P.is_value P.merged (S.whole work.now) desk.now (S.size_of work.now) team.old }
    ensures { HaveShared P.is_value P.merged (S.value_of work.now) (S.whole work.now) desk.now (S.size_of work.now)
        team.new }
{
    if team.len() == 1 {
        share_one(desk, work, gate, team);
    } else {
        share_team(rt, desk, work, gate, team);
    }
}

/// What all pieces have together, found by so many workers side by side that share what they find.
pub fn run_sharing<R: Threads + Sync, P: Part, S: Sharing<Out = P>, G: Gate>(
    rt: &R,
    alloc: Global,
    work: &S,
    workers: u32,
    gate: &G,
) -> Result<P, Memory>
    requires pieces { S.pieces_of work.now ≤ MAX_PIECES }
    requires some { 1 ≤ workers }
    requires workers { workers ≤ MAX_WORKERS }
    requires whole { S.whole work.now ≡ merged_below P.merged (P.unit_of (S.size_of work.now)) (S.value_of work.now)
        (S.pieces_of work.now) }
    ensures value { IfOk result (λ out. P.value out ≡ S.whole work.now) }
    ensures size { IfOk result (λ out. P.size_of out ≡ S.size_of work.now) }
{
    let mut parts = units(alloc, workers, work.size())?;
    run_sharing_in(rt, alloc, work, &mut parts, gate)
}

/// The same by a worker for each of some parts, in which nothing was found yet. Nothing is promised of the parts that
/// stand in the list afterwards.
pub fn run_sharing_in<R: Threads + Sync, P: Part, S: Sharing<Out = P>, G: Gate>(
    rt: &R,
    alloc: Global,
    work: &S,
    parts: &mut Vec<P>,
    gate: &G,
) -> Result<P, Memory>
    requires pieces { S.pieces_of work.now ≤ MAX_PIECES }
    requires some { 1 ≤ length parts.old.items }
    requires workers { length parts.old.items ≤ MAX_WORKERS }
    requires unfound { All (λ part. (P.size_of part ≡ S.size_of work.now)
        × (P.value part ≡ P.unit_of (S.size_of work.now))) parts.old.items }
    requires whole { S.whole work.now ≡ merged_below P.merged (P.unit_of (S.size_of work.now)) (S.value_of work.now)
        (S.pieces_of work.now) }
    ensures value { IfOk result (λ out. P.value out ≡ S.whole work.now) }
    ensures size { IfOk result (λ out. P.size_of out ≡ S.size_of work.now) }
{
    let (desk, mut pass) = Desk::new(alloc, work.pieces())?;
    let mut team = hire(alloc, &desk, &mut pass, parts)?;
    run_team(rt, &desk, work, gate, team.as_mut_slice());
    let found = gather(&desk, &mut pass, team, parts)?;
    // the passes are one again, and show that each piece was drawn
    let _next = desk.close(pass);
    Ok(found)
}
