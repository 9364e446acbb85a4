//! Searchers: workers that look for the centre, each with a pass to the pieces and a looker at the bound.

ghost use Rattle.std.specs.Prelude.{◌≡◌, ℕ, ◌<◌, IfOk, IfSome};
ghost use Rattle.mp_workers.specs.Teams.{HasPast};
ghost use Rattle.mp_consensus.specs.Blocks.{IsBlockOf};
ghost use Rattle.mp_consensus.specs.Bounds.{HasLeast};
ghost use Rattle.mp_consensus.specs.Searches.{Leads};
ghost use Rattle.mp_consensus.specs.Searchers.{HasFound, IsAtWork, IsDone, IsFound, IsReady, IsSearch};
ghost use Rattle.mp_consensus.specs.Searchers.{LeavesBlock, LeavesPiece};

use crate::blocks::{Block, best_of, block_at, search_block};
use crate::bounds::Bound;
use crate::candidates::Candidate;
use crate::lookers::Looker;
use mp_nums::Memory;
use mp_outside::Gate;
use mp_series::Bundle;
use mp_workers::{Desk, Pass};
use std::alloc::Global;

/// What the workers of a search share: the series, the length of a window, the number of pieces, the desk that gives
/// them out, and the bound.
#[derive(Drop)]
pub(crate) struct Search<'a> {
    pub(crate) list: &'a Bundle,
    pub(crate) m: u32,
    pub(crate) pieces: u64,
    pub(crate) desk: Desk,
    pub(crate) bound: Bound<'a>,
}

/// A worker: its number, its pass, its looker, the best candidate that it has found, and whether it found memory.
#[derive(Drop)]
pub(crate) struct Searcher {
    pub(crate) number: u32,
    pub(crate) pass: Pass,
    pub(crate) looker: Looker,
    pub(crate) best: Option<Candidate>,
    pub(crate) outcome: Result<(), Memory>,
}

/// Tells the others of the radius of the best candidate.
fn tell(bound: &Bound, looker: &mut Looker, best: Option<Candidate>)
    requires bound { looker.old.bound ≡ bound.now }
    requires radius { IfSome best (λ c. HasLeast looker.old.least c.radius.0) }
    ensures bound { looker.new.bound ≡ bound.now }
    ensures least { looker.new.least ≡ looker.old.least }
{
    if let Some(best) = best {
        bound.lower(looker, best.radius);
    }
}

impl Searcher {
    /// Looks at the windows of a block, and tells the others of the best candidate.
    fn take_block(&mut self, alloc: Global, search: &Search, block: Block) -> Result<(), Memory>
        requires search { IsSearch search.now }
        requires block { IsBlockOf search.now.m search.now.list.now block }
        requires at_work { IsAtWork search.now self.old }
        requires sound { IfSome self.old.best (IsFound search.now) }
        ensures at_work { IsAtWork search.now self.new }
        ensures pass { self.new.pass ≡ self.old.pass }
        ensures sound { IfSome self.new.best (IsFound search.now) }
        ensures leads { (r p i : ℕ) → Leads self.old.best r p i → Leads self.new.best r p i }
        ensures searched { IfOk result (λ _. LeavesBlock search.now self.new.best block) }
    {
        let (list, m, bound) = (search.list, search.m, &search.bound);
        let reaches = search_block(alloc, list, m, block, bound, &mut self.looker)?;
        let best = best_of(self.best, block, reaches.as_slice());
        self.best = best;
        tell(bound, &mut self.looker, best);
        Ok(())
    }

    /// The same for a piece.
    fn search_piece(&mut self, alloc: Global, search: &Search, piece: u64) -> Result<(), Memory>
        requires search { IsSearch search.now }
        requires piece { piece < search.now.pieces }
        requires at_work { IsAtWork search.now self.old }
        requires sound { IfSome self.old.best (IsFound search.now) }
        ensures at_work { IsAtWork search.now self.new }
        ensures pass { self.new.pass ≡ self.old.pass }
        ensures sound { IfSome self.new.best (IsFound search.now) }
        ensures leads { (r p i : ℕ) → Leads self.old.best r p i → Leads self.new.best r p i }
        ensures searched { IfOk result (λ _. LeavesPiece search.now self.new.best piece) }
    {
        match block_at(search.list, search.m, piece) {
            Some(block) => self.take_block(alloc, search, block),
            None => Ok(()),
        }
    }

    /// Searches pieces until none is left. It passes the gate before each.
    fn work<G: Gate>(&mut self, alloc: Global, search: &Search, gate: &G) -> Result<(), Memory>
        requires search { IsSearch search.now }
        requires ready { IsReady search.now self.old }
        ensures at_work { IsAtWork search.now self.new }
        ensures found { IfOk result (λ _. HasFound search.now self.new.pass.drawn self.new.best) }
        ensures past { IfOk result (λ _. HasPast search.now.pieces self.new.pass.drawn) }
    {
        let mut piece = search.desk.claim(&mut self.pass);
        while piece < search.pieces {
            gate.pass(self.number, piece);
            self.search_piece(alloc, search, piece)?;
            piece = search.desk.claim(&mut self.pass);
        }
        Ok(())
    }

    /// The same, and keeps whether it found memory.
    pub(crate) fn run<G: Gate>(&mut self, alloc: Global, search: &Search, gate: &G)
        requires search { IsSearch search.now }
        requires ready { IsReady search.now self.old }
        ensures { IsDone search.now self.new }
    {
        self.outcome = self.work(alloc, search, gate);
    }
}
