//! Diagonals of a series whose residues tell the distances, and a profile of before, as the pieces of kernels.

ghost use Rattle.std.specs.Prelude.{◌≡◌, length, All};
ghost use Rattle.mp_defs.specs.Window.{windows as windows_in};
ghost use Rattle.mp_anytime.specs.Kept.{IsDiagonal};

use crate::narrow::Narrow;
use crate::residue_found::ResidueFound;
use mp_partial::{Kernel, Part, Profile};
use std::marker::Model;

/// The diagonals of a series whose residues tell the distances, on which windows start so far apart.
#[derive(Drop)]
pub(crate) struct ResidueDiagonals<'a> {
    /// The windows, each a row and a column.
    narrow: Narrow<'a>,
    offsets: &'a [u64],
}

impl<'a> Model for ResidueDiagonals<'a> {
    ghost use Rattle.std.specs.Prelude.{length};
    ghost use Rattle.mp_anytime.specs.Diagonals.{Along, IsAlong};

    ghost Value = { Along };

    ghost view = { λ d. record {
      samples = d.narrow.plan.grid.rows.now;
      m = d.narrow.plan.grid.m;
      offsets = d.offsets.now;
    } };

    ghost invariant = { λ d. IsAlong (length d.narrow.free.now) d.offsets.now };
}

impl<'a> ResidueDiagonals<'a> {
    /// The diagonals on which windows of a series start so far apart.
    pub(crate) fn new(narrow: Narrow<'a>, offsets: &'a [u64]) -> ResidueDiagonals<'a>
        requires { All (IsDiagonal narrow.plan.grid.m
            (windows_in (length narrow.plan.grid.rows.now) narrow.plan.grid.m)) offsets.now }
        ensures samples { result.samples ≡ narrow.entry.plan.grid.rows.now }
        ensures m { result.m ≡ narrow.entry.plan.grid.m }
        ensures offsets { result.offsets ≡ offsets.now }
    {
        ResidueDiagonals { narrow, offsets }
    }
}

impl<'a> Kernel for ResidueDiagonals<'a> {
    ghost use Rattle.std.specs.Prelude.{length, slice_index};
    ghost use Rattle.mp_anytime.specs.Scanning.{lie_apart};
    ghost use Rattle.mp_anytime.specs.Diagonals.{along_size, along_value};
    ghost use Rattle.mp_anytime.specs.DiagonalLaws.{columns_have_places};

    type Out = ResidueFound;

    ghost size_of = { along_size };

    ghost pieces_of = { λ along. length along.offsets };

    ghost value_of = { along_value };

    ghost has_values = { λ along piece _.
        columns_have_places (lie_apart (slice_index along.offsets piece)) along.m along.samples };

    fn size(&self) -> u64 {
        self.narrow.free.len() as u64
    }

    fn pieces(&self) -> u64 {
        self.offsets.len() as u64
    }

    fn run(&self, piece: u64, into: &mut ResidueFound) {
        let _windows = into.size();
        into.take_along(&self.narrow, self.offsets[piece as usize] as usize);
    }
}

/// What is kept of the diagonals that were covered before, as far as its distances have residues, once for each of so
/// many pieces.
#[derive(Drop)]
pub(crate) struct ResidueKept<'a> {
    profile: &'a Profile,
    pieces: u64,
}

impl<'a> Model for ResidueKept<'a> {
    ghost use Rattle.mp_anytime.specs.Bounds.{KeptPieces};

    ghost Value = { KeptPieces };

    ghost view = { λ kept. record { profile = kept.profile.now; pieces = kept.pieces } };
}

impl<'a> ResidueKept<'a> {
    /// A profile, once for each piece.
    pub(crate) fn new(profile: &'a Profile, pieces: u64) -> ResidueKept<'a>
        ensures profile { result.profile ≡ profile.now }
        ensures pieces { result.pieces ≡ pieces }
    {
        ResidueKept { profile, pieces }
    }
}

impl<'a> Kernel for ResidueKept<'a> {
    ghost use Rattle.std.specs.Prelude.{length};
    ghost use Rattle.mp_anytime.specs.Bounds.{columns_of, has_residue, kept_sides};
    ghost use Rattle.mp_anytime.specs.DiagonalLaws.{kept_have_places};

    type Out = ResidueFound;

    ghost size_of = { λ kept. length kept.profile.all };

    ghost pieces_of = { λ kept. kept.pieces };

    ghost value_of = { λ kept _. columns_of (kept_sides has_residue kept.profile) };

    ghost has_values = { λ kept _ _. kept_have_places has_residue kept.profile };

    fn size(&self) -> u64 {
        self.profile.len()
    }

    fn pieces(&self) -> u64 {
        self.pieces
    }

    fn run(&self, _piece: u64, into: &mut ResidueFound) {
        into.take_profile(self.profile);
    }
}
