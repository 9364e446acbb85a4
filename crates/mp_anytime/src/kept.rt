//! A profile of before as the pieces of a kernel.

ghost use Rattle.std.specs.Prelude.{◌≡◌};

use crate::found::Found;
use mp_partial::{Kernel, Profile};
use mp_sums::Rounding;
use std::marker::Model;

/// What is kept of the diagonals that were covered before, once for each of so many pieces of a kernel: as many as
/// there are workers, so that all of them come to the gate together. Workers that begin with it have its bounds from
/// their first pair on.
#[derive(Drop)]
pub(crate) struct Kept<'a> {
    pub(crate) profile: &'a Profile,
    /// How samples are rounded of whose residues bounds are made.
    pub(crate) rounding: Rounding,
    pub(crate) pieces: u64,
}

impl<'a> Model for Kept<'a> {
    ghost use Rattle.mp_anytime.specs.Bounds.{KeptPieces};

    ghost Value = { KeptPieces };

    ghost view = { λ kept. record { profile = kept.profile.now; pieces = kept.pieces } };
}

impl<'a> Kept<'a> {
    /// A profile, with the rounding of samples whose residues bounds are made of.
    pub(crate) fn new(profile: &'a Profile, rounding: Rounding, pieces: u64) -> Kept<'a>
        ensures profile { result.profile ≡ profile.now }
        ensures pieces { result.pieces ≡ pieces }
    {
        Kept {
            profile,
            rounding,
            pieces,
        }
    }
}

impl<'a> Kernel for Kept<'a> {
    ghost use Rattle.std.specs.Prelude.{length};
    ghost use Rattle.mp_anytime.specs.Bounds.{columns_of, has_number, kept_sides};
    ghost use Rattle.mp_anytime.specs.DiagonalLaws.{kept_have_places};

    type Out = Found;

    ghost size_of = { λ kept. length kept.profile.all };

    ghost pieces_of = { λ kept. kept.pieces };

    ghost value_of = { λ kept _. columns_of (kept_sides has_number kept.profile) };

    ghost has_values = { λ kept _ _. kept_have_places has_number kept.profile };

    fn size(&self) -> u64 {
        self.profile.len()
    }

    fn pieces(&self) -> u64 {
        self.pieces
    }

    fn run(&self, _piece: u64, into: &mut Found) {
        into.take_profile(self.profile, &self.rounding);
    }
}
