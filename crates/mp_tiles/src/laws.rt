//! What tiles give together, as the contracts of functions that do nothing.

ghost use Rattle.mp_tiles.specs.Laws.{TilesMakeTheProfile, TilesMakeTheJoin, ProfilesAreOfBothSides};

/// By any test of pairs that compares no window with itself and of two windows each with the other, the values of tiles
/// that hold each pair exactly once, merged from a unit, are the profile. So the values of the tiles outside the
/// exclusion zone are the matrix profile, however wide the tiles are.
pub fn tiles_make_the_profile()
    ensures { TilesMakeTheProfile }
{}

/// By any test of pairs that compares no window with itself, the nearest window is the lesser of the nearest ones on
/// both sides. So it is in the matrix profile.
pub fn profiles_are_of_both_sides()
    ensures { ProfilesAreOfBothSides }
{}

/// From one series to another, the values of tiles that hold each pair of windows exactly once, merged from a unit, are
/// the AB-join. The tiles of all pairs are such tiles, however wide they are.
pub fn tiles_make_the_join()
    ensures { TilesMakeTheJoin }
{}
