//! Workers that tell each other at once what they find in the pieces of some work.

ghost use Rattle.std.specs.Prelude.{◌≡◌, ℕ, ◌+◌, ◌-◌, ◌<◌, ◌≤◌, [], All, length, IfOk};
ghost use Rattle.std.specs.Thread.{IsSync, IsSend};
ghost use Rattle.mp_partial.specs.declared.limits.TheConstants.{MAX_PIECES, MAX_WORKERS};
ghost use Rattle.mp_workers.specs.Desks.{whole};
ghost use Rattle.mp_workers.specs.Telling.{AreTold, HasTold, IsToTell};

use crate::aside::run_aside;
use crate::desks::Desk;
use crate::passes::Pass;
use mp_nums::Memory;
use mp_outside::Gate;
use mp_partial::{MAX_PIECES, MAX_WORKERS};
use std::alloc::Global;
use std::thread::{Threads, join_mut};

/// Work that is cut into numbered pieces, whose workers tell each other at once what they find. What one of them knows
/// of it is a hold, and what holds know can be put together. Threads can share it.
pub trait Telling: Sync {
    /// What a worker knows of what was told. It has a weight, as a pass has, and can move between threads.
    type Hold: Send + Drop;

    /// The number of pieces.
    ghost pieces_of: { Self → ℕ };

    /// It is a hold of this work, and has so much weight.
    ghost is_hold: { Self → ℕ → Self.Hold → Type 0 };

    /// By a hold it is known what a piece gives.
    ghost is_told: { Self → Self.Hold → ℕ → Type 0 };

    /// The number of pieces. They are numbered from 0.
    fn pieces(&self) -> u64
        ensures { result ≡ pieces_of self.now };

    /// Cuts off a hold of weight 1. It takes no memory.
    fn split(&self, hold: &mut Self::Hold) -> Self::Hold
        requires { (n : ℕ) × (2 ≤ n) × is_hold self.now n hold.old }
        ensures left { (n : ℕ) → is_hold self.now n hold.old → is_hold self.now (n - 1) hold.new }
        ensures other { is_hold self.now 1 result };

    /// Takes in another hold, with what is known by it.
    fn join(&self, hold: &mut Self::Hold, other: Self::Hold)
        requires hold { (n : ℕ) × is_hold self.now n hold.old }
        requires other { (n : ℕ) × is_hold self.now n other }
        ensures weight { (n k : ℕ) → is_hold self.now n hold.old → is_hold self.now k other
            → is_hold self.now (n + k) hold.new }
        ensures told { (piece : ℕ) → is_told self.now hold.old piece → is_told self.now hold.new piece }
        ensures others { (piece : ℕ) → is_told self.now other piece → is_told self.now hold.new piece };

    /// Tells something ahead of the pieces, a share of so many. It takes no memory.
    fn tell_ahead(&self, share: u32, shares: u32, hold: &mut Self::Hold)
        requires share { share < shares }
        requires hold { (n : ℕ) × (1 ≤ n) × is_hold self.now n hold.old }
        ensures { (n : ℕ) → is_hold self.now n hold.old → is_hold self.now n hold.new };

    /// Tells what a piece gives. It takes no memory.
    fn tell(&self, piece: u64, hold: &mut Self::Hold)
        requires piece { piece < pieces_of self.now }
        requires hold { (n : ℕ) × (1 ≤ n) × is_hold self.now n hold.old }
        ensures hold { (n : ℕ) → is_hold self.now n hold.old → is_hold self.now n hold.new }
        ensures told { is_told self.now hold.new piece }
        ensures more { (other : ℕ) → is_told self.now hold.old other → is_told self.now hold.new other };
}

/// A worker of some that tell each other what they find: its number, the right to draw pieces, and what it knows.
#[derive(Drop)]
struct Teammate<H: Send + Drop> {
    number: u32,
    pass: Pass,
    hold: H,
}

/// So many workers, each with a pass and a hold of weight 1, which are cut off.
fn hire<H: Send + Drop, T: Telling<Hold = H>>(
    alloc: Global,
    desk: &Desk,
    work: &T,
    pass: &mut Pass,
    hold: &mut H,
    count: u32,
) -> Result<Vec<Teammate<H>>, Memory>
    requires desk { pass.old.desk ≡ desk.now }
    requires unused { pass.old.drawn ≡ [] }
    requires weight { count < pass.old.weight }
    requires hold { T.is_hold work.now pass.old.weight hold.old }
    ensures desk { IfOk result (λ _. pass.new.desk ≡ desk.now) }
    ensures unused { IfOk result (λ _. pass.new.drawn ≡ []) }
    ensures weight { IfOk result (λ _. pass.new.weight + count ≡ pass.old.weight) }
    ensures hold { IfOk result (λ _. T.is_hold work.now pass.new.weight hold.new) }
    ensures count { IfOk result (λ team. length team.items ≡ count) }
    ensures ready { IfOk result (λ team. All (λ mate. (mate.number < count)
        × IsToTell desk.now (T.is_hold work.now) mate.pass mate.hold) team.items) }
{
    let mut team = Vec::with_capacity(alloc, count as usize)?;
    for number in 0..count {
        team.push(Teammate {
            number,
            pass: desk.split(pass),
            hold: work.split(hold),
        })?;
    }
    Ok(team)
}

/// Draws pieces and tells what they give, until the number that it draws is no piece. It takes no memory.
fn tell_pieces<H: Send + Drop, T: Telling<Hold = H>, G: Gate>(
    desk: &Desk,
    work: &T,
    gate: &G,
    worker: u32,
    pass: &mut Pass,
    hold: &mut H,
)
    requires pieces { desk.now.pieces ≤ T.pieces_of work.now }
    requires own { IsToTell desk.now (T.is_hold work.now) pass.old hold.old }
    ensures { HasTold desk.now (T.is_hold work.now) (T.is_told work.now) pass.new hold.new }
{
    let mut piece = desk.claim(pass);
    while piece < desk.pieces {
        gate.pass(worker, piece);
        work.tell(piece, hold);
        piece = desk.claim(pass);
    }
}

/// Has a team of one worker tell its share of what is told ahead, and then what the pieces give that it draws.
fn tell_one<H: Send + Drop, T: Telling<Hold = H>, G: Gate>(
    desk: &Desk,
    work: &T,
    gate: &G,
    workers: u32,
    team: &mut [Teammate<H>],
)
    requires one { length team.old ≡ 1 }
    requires pieces { desk.now.pieces ≤ T.pieces_of work.now }
    requires ready { All (λ mate. (mate.number < workers)
        × IsToTell desk.now (T.is_hold work.now) mate.pass mate.hold) team.old }
    ensures { All (λ mate. HasTold desk.now (T.is_hold work.now) (T.is_told work.now) mate.pass mate.hold) team.new }
{
    let own = &mut team[0];
    work.tell_ahead(own.number, workers, &mut own.hold);
    tell_pieces(desk, work, gate, own.number, &mut own.pass, &mut own.hold);
}

/// Has the workers of a team tell each other what they find side by side, each in a thread of its own.
#[cycle(telling)]
fn tell_some<R: Threads + Sync, H: Send + Drop, T: Telling<Hold = H>, G: Gate>(
    rt: &R,
    desk: &Desk,
    work: &T,
    gate: &G,
    workers: u32,
    team: &mut [Teammate<H>],
)
    requires some { 0 < length team.old }
    requires pieces { desk.now.pieces ≤ T.pieces_of work.now }
    requires ready { All (λ mate. (mate.number < workers)
        × IsToTell desk.now (T.is_hold work.now) mate.pass mate.hold) team.old }
    ensures { All (λ mate. HasTold desk.now (T.is_hold work.now) (T.is_told work.now) mate.pass mate.hold) team.new }
{
    if team.len() == 1 {
        let mut one = ||
            requires { (length team.now ≡ 1) × (desk.now.pieces ≤ T.pieces_of work.now)
                × All (λ mate. (mate.number < workers)
                × IsToTell desk.now (T.is_hold work.now) mate.pass mate.hold) team.now }
            ensures { All (λ mate. HasTold desk.entry.now (T.is_hold work.entry.now) (T.is_told work.entry.now)
                mate.pass mate.hold) team.exit.now }
        { tell_one(desk, work, gate, workers, team) };
        run_aside(rt, &mut one);
        return;
    }
    let (low, high) = team.split_at_mut(team.len() / 2);
    tell_halves(rt, desk, work, gate, workers, low, high);
}

/// The same of two halves side by side.
#[cycle(telling)]
fn tell_halves<R: Threads + Sync, H: Send + Drop, T: Telling<Hold = H>, G: Gate>(
    rt: &R,
    desk: &Desk,
    work: &T,
    gate: &G,
    workers: u32,
    low: &mut [Teammate<H>],
    high: &mut [Teammate<H>],
)
    requires some { 0 < length low.old }
    requires others { 0 < length high.old }
    requires pieces { desk.now.pieces ≤ T.pieces_of work.now }
    requires ready { All (λ mate. (mate.number < workers)
        × IsToTell desk.now (T.is_hold work.now) mate.pass mate.hold) low.old }
    requires others_ready { All (λ mate. (mate.number < workers)
        × IsToTell desk.now (T.is_hold work.now) mate.pass mate.hold) high.old }
    ensures low { All (λ mate. HasTold desk.now (T.is_hold work.now) (T.is_told work.now) mate.pass mate.hold)
        low.new }
    ensures high { All (λ mate. HasTold desk.now (T.is_hold work.now) (T.is_told work.now) mate.pass mate.hold)
        high.new }
{
    let mut front = ||
        requires { IsSync R.row × IsSync T.row × IsSync G.row × IsSend H.row × (0 < length low.now)
            × (desk.now.pieces ≤ T.pieces_of work.now)
            × All (λ mate. (mate.number < workers)
            × IsToTell desk.now (T.is_hold work.now) mate.pass mate.hold) low.now }
        ensures { All (λ mate. HasTold desk.entry.now (T.is_hold work.entry.now) (T.is_told work.entry.now) mate.pass
            mate.hold) low.exit.now }
    { tell_some(rt, desk, work, gate, workers, low) };
    let mut back = ||
        requires { IsSync R.row × IsSync T.row × IsSync G.row × IsSend H.row × (0 < length high.now)
            × (desk.now.pieces ≤ T.pieces_of work.now)
            × All (λ mate. (mate.number < workers)
            × IsToTell desk.now (T.is_hold work.now) mate.pass mate.hold) high.now }
        ensures { All (λ mate. HasTold desk.entry.now (T.is_hold work.entry.now) (T.is_told work.entry.now) mate.pass
            mate.hold) high.exit.now }
    { tell_some(rt, desk, work, gate, workers, high) };
    join_mut(rt, &mut front, &mut back);
}

/// Takes in the passes and holds of all workers of a team.
fn gather<H: Send + Drop, T: Telling<Hold = H>>(
    desk: &Desk,
    work: &T,
    pass: &mut Pass,
    hold: &mut H,
    mut team: Vec<Teammate<H>>,
)
    requires some { 0 < length team.items }
    requires desk { pass.old.desk ≡ desk.now }
    requires unused { pass.old.drawn ≡ [] }
    requires hold { T.is_hold work.now pass.old.weight hold.old }
    requires done { All (λ mate. HasTold desk.now (T.is_hold work.now) (T.is_told work.now) mate.pass mate.hold)
        team.items }
    ensures desk { pass.new.desk ≡ desk.now }
    ensures weight { pass.new.weight ≡ pass.old.weight + length team.items }
    ensures told { AreTold desk.now (T.is_hold work.now) (T.is_told work.now) pass.new hold.new }
{
    while let Some(mate) = team.pop() {
        let Teammate {
            pass: other,
            hold: known,
            ..
        } = mate;
        desk.join(pass, other);
        work.join(hold, known);
    }
}

/// Has so many workers tell each other what all pieces give, and first what they tell ahead, by a hold of the whole
/// weight of 64.
pub fn run_telling<R: Threads + Sync, H: Send + Drop, T: Telling<Hold = H>, G: Gate>(
    rt: &R,
    alloc: Global,
    work: &T,
    mut hold: H,
    workers: u32,
    gate: &G,
) -> Result<H, Memory>
    requires pieces { T.pieces_of work.now ≤ MAX_PIECES }
    requires hold { T.is_hold work.now whole hold }
    requires some { 1 ≤ workers }
    requires workers { workers ≤ MAX_WORKERS }
    ensures hold { IfOk result (λ hold. T.is_hold work.now whole hold) }
    ensures told { IfOk result (λ hold. (piece : ℕ) → piece < T.pieces_of work.now
        → T.is_told work.now hold piece) }
{
    let (desk, mut pass) = Desk::new(alloc, work.pieces())?;
    let mut team = hire(alloc, &desk, work, &mut pass, &mut hold, workers)?;
    tell_some(rt, &desk, work, gate, workers, team.as_mut_slice());
    gather(&desk, work, &mut pass, &mut hold, team);
    // the passes are one again, and show that each piece was drawn
    let _next = desk.close(pass);
    Ok(hold)
}
