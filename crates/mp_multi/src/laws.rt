//! Laws of the multidimensional profile, each the contract of a function that does nothing.

ghost use Rattle.mp_multi.specs.Laws.{SumIsLeast, EntryIsNearest};
ghost use Rattle.mp_multi.specs.Tiles.{TilesMakeTheMulti};

/// A pair's value is the sum of its distances in some `k` channels, and no choice of `k` channels sums to less. A pair
/// has none only where no `k` channels have distances.
pub fn sum_is_least()
    ensures { SumIsLeast }
{}

/// An entry is a window outside the exclusion zone. No such window has a lesser value, and of those with the same none
/// starts earlier. There is no entry only where no such window has a value.
pub fn entry_is_nearest()
    ensures { EntryIsNearest }
{}

/// The multidimensional profiles of the pairs of tiles that hold each pair once are together that of all pairs, and so
/// those of the tiles outside the exclusion zone are the multidimensional profile.
pub fn tiles_make_the_multi()
    ensures { TilesMakeTheMulti }
{}
