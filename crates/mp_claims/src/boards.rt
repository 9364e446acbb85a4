//! A board: which worker has which piece.

ghost use Rattle.std.specs.Prelude.{◌≡◌, ◌+◌, ◌<◌, ◌≤◌, ◌↔◌, length, map, slice_get, IsTrue, IfOk, Some, None};
ghost use Rattle.mp_claims.specs.Cores.{EachOnce, IsComplete, claimed_by, delivered_by, finished_by, handed_over};
ghost use Rattle.mp_claims.specs.Cores.{held_by, refusal, start};

use crate::events::{CoreRefusal, Event};
use crate::states::{PieceState, WorkerState};
use mp_nums::Memory;
use mp_partial::{MAX_PIECES, MAX_WORKERS};
use std::alloc::Global;
use std::marker::Model;

/// Which worker has which piece, and which number comes next.
#[derive(Debug, Drop)]
pub(crate) struct Board {
    next: u64,
    workers: Vec<WorkerState>,
    pieces: Vec<PieceState>,
}

impl Model for Board {
    ghost use Rattle.mp_claims.specs.Cores.{CoreState};
    ghost use Rattle.mp_claims.specs.Boards.{IsBoard};

    ghost Value = { CoreState };

    ghost view = { λ board. record { next = board.next; workers = board.workers.items; pieces = board.pieces.items } };

    ghost invariant = { λ board. IsBoard board.next board.workers.items board.pieces.items };
}

/// Where a piece is once a worker has delivered what it had finished.
fn handed_over_by(w: u32, piece: PieceState) -> PieceState
    ensures { result ≡ handed_over w piece }
{
    match piece {
        PieceState::Finished(worker) if worker == w => PieceState::Delivered,
        other => other,
    }
}

fn deliver_each(pieces: &mut [PieceState], w: u32)
    ensures { pieces.new ≡ map (handed_over w) pieces.old }
{
    for piece in pieces.iter_mut() {
        *piece = handed_over_by(w, *piece);
    }
}

impl Board {
    /// Nothing is claimed, and every worker is free.
    pub(crate) fn new(alloc: Global, pieces: u64, workers: u32) -> Result<Board, Memory>
        requires pieces { pieces ≤ MAX_PIECES }
        requires workers { workers ≤ MAX_WORKERS }
        ensures state { IfOk result (λ board. board ≡ start pieces workers) }
        ensures once { IfOk result EachOnce }
    {
        Ok(Board {
            next: 0,
            workers: vec![in alloc; WorkerState::Free; workers as usize]?,
            pieces: vec![in alloc; PieceState::Unclaimed; pieces as usize]?,
        })
    }

    /// Why an event is refused, none where it isn't.
    pub(crate) fn refusal(&self, event: Event) -> Option<CoreRefusal>
        ensures refusal { result ≡ refusal self.now event }
        ensures once { EachOnce self.now }
    {
        let (Event::Claim(w) | Event::Finish(w) | Event::Deliver(w)) = event;
        let Some(worker) = self.workers.get(w as usize) else {
            return Some(CoreRefusal::Stranger);
        };
        match (event, worker) {
            (Event::Claim(_) | Event::Deliver(_), WorkerState::Holds(_)) => {
                Some(CoreRefusal::Holding)
            }
            (Event::Claim(_), WorkerState::Spent) => Some(CoreRefusal::Spent),
            (Event::Finish(_), WorkerState::Free | WorkerState::Spent) => Some(CoreRefusal::Idle),
            _ => None,
        }
    }

    /// Gives the next number to a worker.
    pub(crate) fn claim(&mut self, w: u32)
        requires { refusal self.old (Event.Claim w) ≡ None }
        ensures state { self.new ≡ claimed_by w self.old }
        ensures once { EachOnce self.new }
    {
        let piece = self.next;
        self.next += 1;
        if piece < self.pieces.len() as u64 {
            self.pieces[piece as usize] = PieceState::Held(w);
            self.workers[w as usize] = WorkerState::Holds(piece);
        } else {
            self.workers[w as usize] = WorkerState::Spent;
        }
    }

    /// The piece that a worker holds is finished.
    pub(crate) fn finish(&mut self, w: u32) -> u64
        requires { refusal self.old (Event.Finish w) ≡ None }
        ensures piece { slice_get self.old.workers w ≡ Some (WorkerState.Holds result) }
        ensures within { result < length self.old.pieces }
        ensures state { self.new ≡ finished_by w (Some result) self.old }
        ensures once { EachOnce self.new }
    {
        let WorkerState::Holds(piece) = self.workers[w as usize] else {
            unreachable!()
        };
        self.workers[w as usize] = WorkerState::Free;
        self.pieces[piece as usize] = PieceState::Finished(w);
        piece
    }

    /// The pieces that a worker has finished are delivered.
    pub(crate) fn deliver(&mut self, w: u32)
        ensures state { self.new ≡ delivered_by w self.old }
        ensures once { EachOnce self.new }
    {
        deliver_each(self.pieces.as_mut_slice(), w);
    }

    /// The piece that a worker holds.
    pub(crate) fn held(&self, w: u32) -> Option<u64>
        requires { w < length self.now.workers }
        ensures { result ≡ held_by (slice_get self.now.workers w) }
    {
        match self.workers[w as usize] {
            WorkerState::Holds(piece) => Some(piece),
            WorkerState::Free | WorkerState::Spent => None,
        }
    }

    /// Whether every piece is delivered.
    pub(crate) fn is_complete(&self) -> bool
        ensures { IsTrue result ↔ IsComplete self.now }
    {
        self.pieces
            .iter()
            .all(|piece| *piece == PieceState::Delivered)
    }
}
