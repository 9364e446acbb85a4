//! Lookers, what each one knows, and the steps that change it.

ghost use Rattle.std.specs.Prelude.{◌≡◌};
ghost use Rattle.mp_consensus.specs.Bounds.{IsShared, Reads, Lowers, first_view};

use atomic_table::{Play, Seat, Split, TableRule};
use mp_series::Bundle;
use std::marker::Model;

/// What a looker knows: the least bound that it has seen, and the least radius of any window of the list, none where no
/// window has one. No value of it is made.
pub struct LookerView {
    pub seen: u64,
    pub least: Option<u128>,
}

/// The series whose windows have radii, and the length of a window.
#[derive(Drop)]
pub struct Compared<'a> {
    list: &'a Bundle,
    m: u32,
}

impl<'a> Model for Compared<'a> {
    ghost use Rattle.mp_consensus.specs.Bounds.{ComparedState};

    ghost Value = { ComparedState };

    ghost view = { λ compared. record { list = compared.list.now; m = compared.m } };
}

impl<'a> Compared<'a> {
    pub(crate) fn of(list: &'a Bundle, m: u32) -> Compared<'a>
        ensures list { result.list ≡ list.now }
        ensures m { result.m ≡ m }
    {
        Compared { list, m }
    }
}

/// What holds of a bound's word and of its lookers between any two steps.
pub struct SharedRule;

impl<'a> TableRule<(), LookerView, Compared<'a>> for SharedRule {
    ghost holds = { λ _ bound. IsShared bound };

    ghost first = { first_view };
}

/// The step that looks at the word.
pub struct Read;

impl Play<(), LookerView> for Read {
    ghost then = { Reads };
}

/// The step that lowers the word to a radius, where it is higher.
pub struct Lower;

impl Play<(), LookerView> for Lower {
    ghost then = { Lowers };
}

/// The step that makes another looker, which knows the same.
pub struct Another;

impl Split<LookerView> for Another {
    ghost left = { λ view. view };

    ghost right = { λ view. view };
}

/// The right to look at a bound and to lower it. It has no bytes, and can move between threads.
#[derive(Drop)]
pub struct Looker {
    pub(crate) seat: Seat<(), LookerView>,
}

impl Model for Looker {
    ghost use Rattle.std.specs.Prelude.{◌≡◌, ◌≤◌, []};
    ghost use Rattle.mp_consensus.specs.Bounds.{LookerState, no_bound};

    ghost Value = { LookerState };

    ghost view = { λ looker. record {
      bound = record { table = looker.seat.table_id };
      seen = looker.seat.me.0.seen;
      least = looker.seat.me.0.least;
    } };

    ghost invariant = { λ looker. (looker.seat.me.1 ≡ []) × (looker.seat.me.0.seen ≤ no_bound) };
}
