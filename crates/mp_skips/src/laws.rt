//! What sums of successive samples tell of distances, as the contracts of functions that do nothing.

ghost use Rattle.mp_skips.specs.Bounds.{CoreIsBelow, SquareOfSumIsBelow, GroupsAreBelow, FloorsAreSafe};

/// The samples that successive pairs of a diagonal share bound the distance of each of these pairs.
pub fn core_is_below()
    ensures { CoreIsBelow }
{}

/// The square of a sum of numbers is at most their count times the sum of their squares.
pub fn square_of_sum_is_below()
    ensures { SquareOfSumIsBelow }
{}

/// The sums of groups of successive samples bound the squared distance.
pub fn groups_are_below()
    ensures { GroupsAreBelow }
{}

/// Sums that are rounded down and lie far enough above a limit tell that the squared distance is above it.
pub fn floors_are_safe()
    ensures { FloorsAreSafe }
{}
