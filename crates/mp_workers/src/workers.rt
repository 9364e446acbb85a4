//! Workers, each with a pass to a desk and a part of its own.

ghost use Rattle.std.specs.Prelude.{◌≡◌, ℕ, ◌+◌, ◌-◌, ◌<◌, ◌≤◌, [], All, IfOk, length, sum_by};
ghost use Rattle.std.specs.Prelude.{slice_get, slice_set, Some};
ghost use Rattle.mp_partial.specs.Values.{Value};
ghost use Rattle.mp_workers.specs.Desks.{pieces_among, times};
ghost use Rattle.mp_workers.specs.Sharing.{HasPieces, IsReadyToShare};
ghost use Rattle.mp_workers.specs.Teams.{IsDone, IsReady, WorkerState, with_first_of, with_pieces};

use crate::desks::Desk;
use crate::passes::Pass;
use crate::sharing::Sharing;
use mp_nums::Memory;
use mp_outside::Gate;
use mp_partial::{Kernel, MAX_WORKERS, Part};
use std::alloc::Global;
use std::marker::Model;

/// A worker: its number, its pass, and what it has found.
#[derive(Drop)]
pub(crate) struct Worker<P: Part> {
    number: u32,
    /// How many workers there are.
    of: u32,
    pass: Pass,
    found: P,
}

impl<P: Part> Model for Worker<P> {
    ghost use Rattle.mp_workers.specs.Teams.{WorkerState};

    ghost Value = { WorkerState };

    ghost view = { λ worker. record {
      pass = worker.pass;
      size = P.size_of worker.found;
      found = P.value worker.found;
    } };
}

impl<P: Part> Worker<P> {
    /// Runs pieces until none is left.
    pub(crate) fn work<K: Kernel<Out = P>, G: Gate>(&mut self, desk: &Desk, kernel: &K, gate: &G)
        requires ready { IsReady desk.now (K.size_of kernel.now) self.old.found self.old }
        requires pieces { desk.now.pieces ≤ K.pieces_of kernel.now }
        ensures done { IsDone desk.now (K.size_of kernel.now) self.new }
        ensures found { self.new.found ≡ with_pieces P.merged (P.unit_of (K.size_of kernel.now))
            (K.value_of kernel.now) self.old.found (pieces_among desk.now.pieces self.new.pass.drawn) }
    {
        desk.work(&mut self.pass, self.number, kernel, &mut self.found, gate);
    }

    /// Finds its share ahead of the pieces.
    pub(crate) fn begin<S: Sharing<Out = P>>(&mut self, desk: &Desk, work: &S)
        requires ready { IsReadyToShare P.is_value P.merged (S.whole work.now) desk.now (S.size_of work.now) self.old }
        ensures { IsReadyToShare P.is_value P.merged (S.whole work.now) desk.now (S.size_of work.now) self.new }
    {
        work.begin(self.number, self.of.max(1), &mut self.found);
    }

    /// Runs pieces until none is left.
    pub(crate) fn share<S: Sharing<Out = P>, G: Gate>(&mut self, desk: &Desk, work: &S, gate: &G)
        requires ready { IsReadyToShare P.is_value P.merged (S.whole work.now) desk.now (S.size_of work.now) self.old }
        requires pieces { desk.now.pieces ≤ S.pieces_of work.now }
        ensures done { IsDone desk.now (S.size_of work.now) self.new }
        ensures is_value { P.is_value (S.size_of work.now) self.new.found }
        ensures found { HasPieces P.merged (S.value_of work.now) (S.whole work.now) self.new.found
            (pieces_among desk.now.pieces self.new.pass.drawn) }
    {
        desk.share(&mut self.pass, self.number, work, &mut self.found, gate);
    }
}

/// A worker for each of some parts, which it begins with, each with a pass that is cut off from one with the whole
/// weight.
pub(crate) fn hire<P: Part>(
    alloc: Global,
    desk: &Desk,
    pass: &mut Pass,
    parts: &mut Vec<P>,
) -> Result<Vec<Worker<P>>, Memory>
    requires desk { pass.old.desk ≡ desk.now }
    requires unused { pass.old.drawn ≡ [] }
    requires weight { length parts.old.items < pass.old.weight }
    requires few { length parts.old.items ≤ MAX_WORKERS }
    ensures desk { IfOk result (λ team. pass.new.desk ≡ desk.now) }
    ensures unused { IfOk result (λ team. pass.new.drawn ≡ []) }
    ensures weight { IfOk result (λ team. pass.new.weight ≡ pass.old.weight - length parts.old.items) }
    ensures count { IfOk result (λ team. length team.items ≡ length parts.old.items) }
    ensures ready { IfOk result (λ team. (size : ℕ) (start : Value)
        → All (λ part. (P.size_of part ≡ size) × (P.value part ≡ start)) parts.old.items
        → All (IsReady desk.now size start) team.items) }
    ensures emptied { IfOk result (λ team. parts.new.items ≡ []) }
{
    let of = parts.len() as u32;
    let mut team = Vec::with_capacity(alloc, parts.len())?;
    while let Some(found) = parts.pop() {
        let number = team.len() as u32;
        let pass = desk.split(pass);
        team.push(Worker {
            number,
            of,
            pass,
            found,
        })?;
    }
    Ok(team)
}

/// Takes in the passes of all workers of a team, and hands over their parts.
fn join_passes<P: Part>(
    desk: &Desk,
    pass: &mut Pass,
    mut team: Vec<Worker<P>>,
    parts: &mut Vec<P>,
) -> Result<(), Memory>
    requires desk { pass.old.desk ≡ desk.now }
    requires of_desk { All (λ worker. worker.pass.desk ≡ desk.now) team.items }
    ensures desk { IfOk result (λ _. pass.new.desk ≡ desk.now) }
    ensures weight { IfOk result (λ _. pass.new.weight
        ≡ pass.old.weight + sum_by (λ worker. worker.pass.weight) team.items) }
    ensures drawn { IfOk result (λ _. (x : ℕ) → times x pass.new.drawn
        ≡ times x pass.old.drawn + sum_by (λ worker. times x worker.pass.drawn) team.items) }
    ensures count { IfOk result (λ _. length parts.new.items ≡ length parts.old.items + length team.items) }
    ensures sizes { IfOk result (λ _. (size : ℕ) → All (λ worker. worker.size ≡ size) team.items
        → All (λ part. P.size_of part ≡ size) parts.old.items
        → All (λ part. P.size_of part ≡ size) parts.new.items) }
{
    while let Some(worker) = team.pop() {
        let Worker {
            pass: other,
            found,
            ..
        } = worker;
        desk.join(pass, other);
        parts.push(found)?;
    }
    Ok(())
}

/// Takes in the passes of all workers of a team, and hands over what its first one has found. The parts of the others
/// are handed over too.
pub(crate) fn gather<P: Part>(
    desk: &Desk,
    pass: &mut Pass,
    mut team: Vec<Worker<P>>,
    parts: &mut Vec<P>,
) -> Result<P, Memory>
    requires some { 0 < length team.items }
    requires desk { pass.old.desk ≡ desk.now }
    requires of_desk { All (λ worker. worker.pass.desk ≡ desk.now) team.items }
    requires no_part { parts.old.items ≡ [] }
    ensures desk { IfOk result (λ _. pass.new.desk ≡ desk.now) }
    ensures weight { IfOk result (λ _. pass.new.weight
        ≡ pass.old.weight + sum_by (λ worker. worker.pass.weight) team.items) }
    ensures drawn { IfOk result (λ _. (x : ℕ) → times x pass.new.drawn
        ≡ times x pass.old.drawn + sum_by (λ worker. times x worker.pass.drawn) team.items) }
    ensures found { IfOk result (λ part. (first : WorkerState) → slice_get team.items 0 ≡ Some first
        → (P.value part ≡ first.found) × (P.size_of part ≡ first.size)) }
    ensures count { IfOk result (λ _. length parts.new.items + 1 ≡ length team.items) }
    ensures sizes { IfOk result (λ _. (size : ℕ) → All (λ worker. worker.size ≡ size) team.items
        → All (λ part. P.size_of part ≡ size) parts.new.items) }
{
    let Worker {
        pass: own,
        found,
        ..
    } = team.swap_remove(0);
    desk.join(pass, own);
    join_passes(desk, pass, team, parts)?;
    Ok(found)
}

/// Gives each part what was found, in place of what it has. It takes no memory.
pub(crate) fn hand_on<P: Part>(found: &P, parts: &mut Vec<P>)
    requires is_value { P.is_value (P.size_of found.now) (P.value found.now) }
    requires sizes { All (λ part. P.size_of part ≡ P.size_of found.now) parts.old.items }
    ensures count { length parts.new.items ≡ length parts.old.items }
    ensures alike { All (λ part. (P.size_of part ≡ P.size_of found.now) × (P.value part ≡ P.value found.now))
        parts.new.items }
{
    for part in parts.iter_mut() {
        part.take_over(found);
    }
}

/// Merges what the first of some workers has found with what the first of others has.
pub(crate) fn merge_first<P: Part>(low: &mut [Worker<P>], high: &[Worker<P>])
    requires { (first : WorkerState) × (other : WorkerState) × (slice_get low.old 0 ≡ Some first)
        × (slice_get high.now 0 ≡ Some other) × (other.size ≡ first.size) }
    ensures { (first other : WorkerState) → slice_get low.old 0 ≡ Some first → slice_get high.now 0 ≡ Some other
        → low.new ≡ slice_set low.old 0 (with_first_of P.merged first other) }
{
    let first = &mut low[0];
    let other = &high[0];
    first.found.merge(&other.found);
}
