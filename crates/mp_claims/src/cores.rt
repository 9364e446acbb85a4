//! A core: workers that claim pieces, finish and deliver them, and the total of what was delivered.

ghost use Rattle.std.specs.Prelude.{◌≡◌, ℕ, ◌<◌, ◌≤◌, ◌↔◌, [], length, slice_get, slice_index_or, slice_set, IsTrue};
ghost use Rattle.std.specs.Prelude.{IfOk, OnErr, OnOk, MatchResult, Some, None};
ghost use Rattle.mp_partial.specs.Values.{Value, merged_below, merged_over};
ghost use Rattle.mp_claims.specs.Cores.{EachOnce, IsComplete, accepted, after, claimed_by, delivered_by};
ghost use Rattle.mp_claims.specs.Cores.{delivered_pieces, held_by, refusal, start};
ghost use Rattle.mp_claims.specs.Standing.{MovesValues, StandsFor, TakesIn};

use crate::boards::Board;
use crate::events::{CoreRefusal, Event};
use mp_nums::Memory;
use mp_partial::{Kernel, MAX_PIECES, MAX_WORKERS, Part, units};
use std::alloc::Global;
use std::marker::Model;

/// Workers that claim the pieces of a kernel in their order, finish and deliver them, and the total of what they have
/// delivered. It is a machine of one thread, whose events may come in any order.
#[derive(Debug, Drop)]
pub struct Core<P: Part> {
    board: Board,
    size: u64,
    partials: Vec<P>,
    total: P,
}

impl<P: Part> Model for Core<P> {
    ghost use Rattle.std.specs.Prelude.{◌∷◌, map};
    ghost use Rattle.mp_claims.specs.Standing.{Cored};
    ghost use Rattle.mp_claims.specs.Sizes.{HaveSize};

    ghost Value = { Cored };

    ghost view = { λ core. record {
      state = core.board;
      size = core.size;
      total = P.value core.total;
      partials = map P.value core.partials.items;
      rooms = P.room_of core.total ∷ map P.room_of core.partials.items;
    } };

    ghost invariant = { λ core. HaveSize core.size core.board (P.size_of core.total)
        (map P.size_of core.partials.items) };
}

/// Merges a partial into a total, and leaves a partial in which nothing was found.
fn move_into<P: Part>(total: &mut P, partial: &mut P)
    requires { P.size_of partial.old ≡ P.size_of total.old }
    ensures total { P.value total.new ≡ P.merged (P.value total.old) (P.value partial.old) }
    ensures partial { P.value partial.new ≡ P.unit_of (P.size_of partial.old) }
    ensures total_size { P.size_of total.new ≡ P.size_of total.old }
    ensures partial_size { P.size_of partial.new ≡ P.size_of partial.old }
    ensures total_room { P.room_of total.new ≡ P.room_of total.old }
    ensures partial_room { P.room_of partial.new ≡ P.room_of partial.old }
{
    total.merge(partial);
    partial.clear();
}

impl<P: Part> Core<P> {
    /// A core of so many free workers and unclaimed pieces, whose values have this size.
    pub fn new(alloc: Global, pieces: u64, workers: u32, size: u64) -> Result<Core<P>, Memory>
        requires pieces { pieces ≤ MAX_PIECES }
        requires some { 1 ≤ workers }
        requires workers { workers ≤ MAX_WORKERS }
        ensures state { IfOk result (λ core. core.state ≡ start pieces workers) }
        ensures size { IfOk result (λ core. core.size ≡ size) }
        ensures once { IfOk result (λ core. EachOnce core.state) }
        ensures stands { IfOk result (λ core. (value : ℕ → Value) → StandsFor P.merged (P.unit_of size) value core) }
    {
        Ok(Core {
            board: Board::new(alloc, pieces, workers)?,
            size,
            partials: units(alloc, workers, size)?,
            total: P::unit(alloc, size)?,
        })
    }

    /// Gives the next number to a worker.
    fn claim(&mut self, w: u32)
        requires { refusal self.old.state (Event.Claim w) ≡ None }
        ensures state { self.new.state ≡ claimed_by w self.old.state }
        ensures size { self.new.size ≡ self.old.size }
        ensures once { EachOnce self.new.state }
        ensures total { self.new.total ≡ self.old.total }
        ensures partials { self.new.partials ≡ self.old.partials }
        ensures rooms { self.new.rooms ≡ self.old.rooms }
    {
        self.board.claim(w);
    }

    /// Merges the piece that a worker holds into its partial.
    fn finish<K: Kernel<Out = P>>(&mut self, w: u32, kernel: &K)
        requires holds { refusal self.old.state (Event.Finish w) ≡ None }
        requires size { K.size_of kernel.now ≡ self.old.size }
        requires pieces { length self.old.state.pieces ≤ K.pieces_of kernel.now }
        ensures state { self.new.state ≡ accepted self.old.state (Event.Finish w) }
        ensures size { self.new.size ≡ self.old.size }
        ensures once { EachOnce self.new.state }
        ensures total { self.new.total ≡ self.old.total }
        ensures partials { TakesIn P.merged (K.value_of kernel.now) w self.old self.new }
        ensures rooms { self.new.rooms ≡ self.old.rooms }
    {
        let piece = self.board.finish(w);
        kernel.run(piece, &mut self.partials[w as usize]);
    }

    /// Merges what a worker has finished into the total.
    fn deliver(&mut self, w: u32)
        requires { refusal self.old.state (Event.Deliver w) ≡ None }
        ensures state { self.new.state ≡ delivered_by w self.old.state }
        ensures size { self.new.size ≡ self.old.size }
        ensures once { EachOnce self.new.state }
        ensures total { self.new.total ≡ P.merged self.old.total (slice_index_or self.old.partials w []) }
        ensures partials { self.new.partials ≡ slice_set self.old.partials w (P.unit_of self.old.size) }
        ensures rooms { self.new.rooms ≡ self.old.rooms }
    {
        move_into(&mut self.total, &mut self.partials[w as usize]);
        self.board.deliver(w);
    }

    /// An event that isn't refused.
    fn accept<K: Kernel<Out = P>>(&mut self, event: Event, kernel: &K)
        requires accepted { refusal self.old.state event ≡ None }
        requires once { EachOnce self.old.state }
        requires size { K.size_of kernel.now ≡ self.old.size }
        requires pieces { length self.old.state.pieces ≤ K.pieces_of kernel.now }
        ensures state { self.new.state ≡ accepted self.old.state event }
        ensures size { self.new.size ≡ self.old.size }
        ensures once { EachOnce self.new.state }
        ensures values { MovesValues P.merged (P.unit_of self.old.size) (K.value_of kernel.now) event
            self.old self.new }
        ensures stands { StandsFor P.merged (P.unit_of self.old.size) (K.value_of kernel.now) self.old
            → StandsFor P.merged (P.unit_of self.old.size) (K.value_of kernel.now) self.new }
        ensures rooms { self.new.rooms ≡ self.old.rooms }
    {
        match event {
            Event::Claim(w) => self.claim(w),
            Event::Finish(w) => self.finish(w, kernel),
            Event::Deliver(w) => self.deliver(w),
        }
    }

    /// One event, where it isn't refused. A refused event changes nothing. It takes no memory.
    pub fn step<K: Kernel<Out = P>>(&mut self, event: Event, kernel: &K) -> Result<(), CoreRefusal>
        requires size { K.size_of kernel.now ≡ self.old.size }
        requires pieces { length self.old.state.pieces ≤ K.pieces_of kernel.now }
        ensures refusal { MatchResult result
            (λ _. refusal self.old.state event ≡ None) (λ why. refusal self.old.state event ≡ Some why) }
        ensures state { self.new.state ≡ after self.old.state event }
        ensures size { self.new.size ≡ self.old.size }
        ensures pieces { length self.new.state.pieces ≡ length self.old.state.pieces }
        ensures workers { length self.new.state.workers ≡ length self.old.state.workers }
        ensures unchanged { OnErr result (self.new ≡ self.old) }
        ensures once { EachOnce self.new.state }
        ensures values { OnOk result (MovesValues P.merged (P.unit_of self.old.size) (K.value_of kernel.now) event
            self.old self.new) }
        ensures stands { StandsFor P.merged (P.unit_of self.old.size) (K.value_of kernel.now) self.old
            → StandsFor P.merged (P.unit_of self.old.size) (K.value_of kernel.now) self.new }
        ensures rooms { self.new.rooms ≡ self.old.rooms }
    {
        if let Some(why) = self.board.refusal(event) {
            return Err(why);
        }
        self.accept(event, kernel);
        Ok(())
    }

    /// The merge of the values of the delivered pieces.
    pub fn total(&self) -> &P
        ensures value { P.value result.now ≡ self.now.total }
        ensures size { P.size_of result.now ≡ self.now.size }
        ensures delivered { (value : ℕ → Value) → StandsFor P.merged (P.unit_of self.now.size) value self.now
            → P.value result.now
            ≡ merged_over P.merged (P.unit_of self.now.size) value (delivered_pieces self.now.state) }
        ensures complete { (value : ℕ → Value) → StandsFor P.merged (P.unit_of self.now.size) value self.now
            → IsComplete self.now.state
            → P.value result.now
            ≡ merged_below P.merged (P.unit_of self.now.size) value (length self.now.state.pieces) }
    {
        &self.total
    }

    /// The piece that a worker holds, none where it holds none.
    pub fn held(&self, w: u32) -> Option<u64>
        requires { w < length self.now.state.workers }
        ensures { result ≡ held_by (slice_get self.now.state.workers w) }
    {
        self.board.held(w)
    }

    /// Whether every piece is delivered.
    pub fn complete(&self) -> bool
        ensures { IsTrue result ↔ IsComplete self.now.state }
    {
        self.board.is_complete()
    }
}
