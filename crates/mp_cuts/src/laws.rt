//! What holds of the cuts, as the contracts of functions that do nothing.

ghost use Rattle.std.specs.Prelude.{◌≡◌};
ghost use Rattle.mp_cuts.specs.declared.cuts.TheConstants.{MAX_ROWS, MAX_TILE};
ghost use Rattle.mp_cuts.specs.Limits.{band_rows, max_tile};
ghost use Rattle.mp_cuts.specs.Laws.{CutsHoldEachPairOnce};

/// Each pair that is cut lies in exactly one tile and no other pair in any, however long the series are and however
/// wide the tiles.
pub fn cuts_hold_each_pair_once()
    ensures { CutsHoldEachPairOnce }
{}

/// The program's tiles and bands are as wide and as high as those of the definitions.
pub fn limits_are_as_defined()
    ensures tile { MAX_TILE ≡ max_tile }
    ensures rows { MAX_ROWS ≡ band_rows }
{}
