//! A kernel whose pieces can be told apart.

ghost use Rattle.std.specs.Prelude.{◌≡◌, ◌<◌, length};
ghost use Rattle.mp_partial.specs.Values.{offered};
ghost use Rattle.mp_claims.specs.Marks.{mark, mark_value, mark_has_columns};

use mp_nums::{Near, Slot, Slots, Sq, nearer};
use mp_partial::Kernel;
use std::process::Abort;

/// Each piece finds window 0 at a place of its own, at a distance of its own.
#[derive(Drop)]
pub(crate) struct Marks {
    pub(crate) pieces: u64,
}

impl Kernel for Marks {
    type Out = Slots;

    ghost size_of = { λ marks. marks.pieces };

    ghost pieces_of = { λ marks. marks.pieces };

    ghost value_of = { λ marks piece. mark_value marks.pieces piece };

    ghost has_values = { λ marks piece _. mark_has_columns marks.pieces piece };

    fn size(&self) -> u64 {
        self.pieces
    }

    fn pieces(&self) -> u64 {
        self.pieces
    }

    fn run(&self, piece: u64, into: &mut Slots) {
        offer_mark(into.as_mut_slice(), piece as usize);
    }
}

fn offer_mark(slots: &mut [Slot], piece: usize)
    requires { piece < length slots.old }
    ensures { slots.new ≡ offered slots.old piece (mark piece) }
{
    let found = Near {
        dist: Sq(piece as u128),
        index: 0,
    };
    slots[piece] = nearer(slots[piece], Some(found));
}

/// Expects what all pieces of so many find.
pub(crate) fn expect_marks(rt: &impl Abort, slots: &[Slot], pieces: u64) {
    assert_eq!(rt; slots.len() as u64, pieces);
    for (place, slot) in slots.iter().enumerate() {
        assert_eq!(rt;
            slot.map(|near| (near.dist.0, near.index)),
            Some((place as u128, 0))
        );
    }
}
