//! Laws of the centre, each the contract of a function that does nothing.

ghost use Rattle.mp_consensus.specs.Laws.{RadiusIsGreatest, CentreIsLeast};

/// In a list of two series or more, the radius of a window is the greatest of its distances to the nearest windows at
/// the other places. It has none where another place has no window that it can be compared with.
pub fn radius_is_greatest()
    ensures { RadiusIsGreatest }
{}

/// Each place has a window within the centre's radius of it. No window has a lesser radius, and among those with the
/// same none stands at an earlier place, or at the same one and starts earlier. There is no centre only where no window
/// has a radius.
pub fn centre_is_least()
    ensures { CentreIsLeast }
{}
