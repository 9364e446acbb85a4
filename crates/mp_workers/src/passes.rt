//! Passes, what each one knows, and the steps that change it.

ghost use Rattle.mp_workers.specs.Desks.{IsFair, Claims, both_views, cut_left, cut_off, pass_view, spent_view, whole};
ghost use Rattle.std.specs.Prelude.{[]};

use atomic_table::{Join, Play, Seat, Split, TableRule};
use std::collections::LinkedList;
use std::marker::Model;

/// What a pass knows: the number of pieces, its weight, and the numbers that it drew. No value of it is made.
pub struct PassView {
    pub pieces: u64,
    pub weight: u64,
    pub drawn: LinkedList<u64>,
}

/// What holds of a desk's word and of its passes between any two steps.
pub struct FairRule;

impl TableRule<(), PassView, u64> for FairRule {
    ghost holds = { IsFair };

    ghost first = { λ pieces. pass_view pieces whole [] };
}

/// The step that draws a number.
pub struct Claim;

impl Play<(), PassView> for Claim {
    ghost then = { Claims };
}

/// The step that cuts off a pass.
pub struct CutOff;

impl Split<PassView> for CutOff {
    ghost left = { cut_left };

    ghost right = { cut_off };
}

/// The step that puts two passes together.
pub struct Together;

impl Join<PassView> for Together {
    ghost both = { both_views };

    ghost spent = { spent_view };
}

/// The right to draw numbers from a desk. It has no bytes, and can move between threads.
#[derive(Drop)]
pub struct Pass {
    pub(crate) seat: Seat<(), PassView>,
}

impl Model for Pass {
    ghost use Rattle.std.specs.Prelude.{◌≡◌, ◌<◌, []};
    ghost use Rattle.mp_workers.specs.Desks.{PassState};

    ghost Value = { PassState };

    ghost view = { λ pass. record {
      desk = record { table = pass.seat.table_id; pieces = pass.seat.me.0.pieces };
      weight = pass.seat.me.0.weight;
      drawn = pass.seat.me.0.drawn;
    } };

    ghost invariant = { λ pass. (pass.seat.me.1 ≡ []) × (0 < pass.seat.me.0.weight) };
}
