//! A desk that hands out the numbers of pieces.

ghost use Rattle.std.specs.Prelude.{◌≡◌, ℕ, ◌+◌, ◌-◌, ◌<◌, ◌≤◌, List, [], ◌∷◌, ◌++◌, All, IfOk};
ghost use Rattle.mp_partial.specs.declared.limits.TheConstants.{MAX_PIECES};
ghost use Rattle.mp_workers.specs.Desks.{Drew, HasEachBelow, past, whole};
ghost use Rattle.mp_partial.specs.Values.{merged_over};

use crate::passes::{Claim, CutOff, FairRule, Pass, PassView, Together};
use atomic_table::Table;
use mp_nums::Memory;
use mp_outside::Gate;
use mp_partial::{Kernel, MAX_PIECES, Part};
use std::alloc::Global;
use std::marker::Model;

/// Hands out the numbers from 0 on, each once, to any number of threads, of which each has a pass of its own. The
/// numbers below `pieces` are pieces of work. Two threads of a caller's own share the pieces of a kernel so:
///
/// ```
/// let (desk, mut pass) = Desk::new(alloc, kernel.pieces())?;
/// let mut other = desk.split(&mut pass);
/// join_mut(
///     rt,
///     &mut || desk.work(&mut pass, 0, &kernel, &mut found, &OpenGate),
///     &mut || desk.work(&mut other, 1, &kernel, &mut others, &OpenGate),
/// );
/// desk.join(&mut pass, other);
/// desk.close(pass);
/// found.merge(&others);
/// ```
///
/// Where `found` and `others` were units, `found` then has what all pieces have together.
#[derive(Drop)]
pub struct Desk {
    table: Table<(), PassView, u64, FairRule, Global>,
    pub(crate) pieces: u64,
}

impl Model for Desk {
    ghost use Rattle.std.specs.Prelude.{◌≡◌, ◌≤◌};
    ghost use Rattle.mp_partial.specs.declared.limits.TheConstants.{MAX_PIECES};
    ghost use Rattle.mp_workers.specs.Desks.{DeskId, IsDesk};

    ghost Value = { DeskId };

    ghost view = { λ desk. record { table = desk.table.shared.table_id; pieces = desk.pieces } };

    ghost invariant = { λ desk. IsDesk desk.table.shared.table_id desk.table.shared.key desk.pieces };
}

impl Desk {
    /// A desk that has handed out no number, and a pass with the whole weight of 64.
    pub fn new(alloc: Global, pieces: u64) -> Result<(Desk, Pass), Memory>
        requires { pieces ≤ MAX_PIECES }
        ensures pieces { IfOk result (λ made. made.0.pieces ≡ pieces) }
        ensures desk { IfOk result (λ made. made.1.desk ≡ made.0) }
        ensures weight { IfOk result (λ made. made.1.weight ≡ whole) }
        ensures drawn { IfOk result (λ made. made.1.drawn ≡ []) }
    {
        let (table, seat) = Table::of_words(alloc, &[0], &pieces)?;
        Ok((Desk { table, pieces }, Pass { seat }))
    }

    /// Cuts off a pass of weight 1. It takes no memory.
    pub fn split(&self, pass: &mut Pass) -> Pass
        requires desk { pass.old.desk ≡ self.now }
        requires unused { pass.old.drawn ≡ [] }
        requires weight { 2 ≤ pass.old.weight }
        ensures desk { pass.new.desk ≡ self.now }
        ensures left { pass.new.weight ≡ pass.old.weight - 1 }
        ensures still_unused { pass.new.drawn ≡ [] }
        ensures of_desk { result.desk ≡ self.now }
        ensures weight { result.weight ≡ 1 }
        ensures unused { result.drawn ≡ [] }
    {
        Pass {
            seat: self.table.shared.split_seat::<CutOff>(&mut pass.seat),
        }
    }

    /// Draws the next number. It is a piece where it is below the number of pieces. It waits for nobody, and takes no
    /// memory.
    pub fn claim(&self, pass: &mut Pass) -> u64
        requires desk { pass.old.desk ≡ self.now }
        requires room { past self.now.pieces pass.old.drawn < pass.old.weight }
        ensures desk { pass.new.desk ≡ self.now }
        ensures weight { pass.new.weight ≡ pass.old.weight }
        ensures drawn { pass.new.drawn ≡ pass.old.drawn ++ result ∷ [] }
        ensures greatest { All (λ number. number < result) pass.old.drawn }
        ensures bound { result < self.now.pieces + whole }
    {
        self.table.shared.fetch_add::<Claim>(&mut pass.seat, 0, 1)
    }

    /// Draws pieces and runs them, until the number that it draws is no piece. It passes the gate before each piece. It
    /// waits for nobody, and takes no memory.
    pub fn work<K: Kernel, G: Gate>(
        &self,
        pass: &mut Pass,
        worker: u32,
        kernel: &K,
        into: &mut K::Out,
        gate: &G,
    )
        requires desk { pass.old.desk ≡ self.now }
        requires room { past self.now.pieces pass.old.drawn < pass.old.weight }
        requires pieces { self.now.pieces ≤ K.pieces_of kernel.now }
        requires size { K.Out.size_of into.old ≡ K.size_of kernel.now }
        ensures desk { pass.new.desk ≡ self.now }
        ensures weight { pass.new.weight ≡ pass.old.weight }
        ensures drawn { (numbers : List ℕ) × (last : ℕ)
            × Drew self.now.pieces pass.old.drawn numbers last pass.new.drawn
            × (K.Out.value into.new ≡ K.Out.merged (K.Out.value into.old)
            (merged_over K.Out.merged (K.Out.unit_of (K.size_of kernel.now)) (K.value_of kernel.now) numbers)) }
        ensures size { K.Out.size_of into.new ≡ K.Out.size_of into.old }
        ensures is_value { K.Out.is_value (K.Out.size_of into.new) (K.Out.value into.new) }
        ensures room { K.Out.room_of into.new ≡ K.Out.room_of into.old }
    {
        // a part that tells its size has a value of that size
        let _places = into.size();
        let mut piece = self.claim(pass);
        while piece < self.pieces {
            gate.pass(worker, piece);
            kernel.run(piece, into);
            piece = self.claim(pass);
        }
    }

    /// Takes in another pass.
    pub fn join(&self, pass: &mut Pass, other: Pass)
        requires desk { pass.old.desk ≡ self.now }
        requires other { other.desk ≡ self.now }
        ensures desk { pass.new.desk ≡ self.now }
        ensures weight { pass.new.weight ≡ pass.old.weight + other.weight }
        ensures drawn { pass.new.drawn ≡ pass.old.drawn ++ other.drawn }
    {
        let Pass { seat } = other;
        self.table
            .shared
            .join_seat::<Together>(&mut pass.seat, seat);
    }

    /// The next number, once all passes are one again.
    pub fn close(self, pass: Pass) -> u64
        requires desk { pass.desk ≡ self }
        requires weight { pass.weight ≡ whole }
        ensures { HasEachBelow result pass.drawn }
    {
        let Desk { table, pieces: _ } = self;
        let Pass { seat } = pass;
        let closed = table.close_with(seat);
        let next = closed.word(0);
        closed.free();
        next
    }
}
