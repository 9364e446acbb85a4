//! Laws of arcs, their curve and regimes, each the contract of a function that does nothing.

ghost use Rattle.mp_results.specs.Arcs.{ArcsAreFew};
ghost use Rattle.mp_arcs.specs.Laws.{ArcsComeAndGo, CurveIsAtMostOne, RegimesAreDescribed, RegimesAreOfParts};

/// From one place to the next, the arcs whose lesser end is there come, and those whose greater end is there go.
pub fn arcs_come_and_go()
    ensures { ArcsComeAndGo }
{}

/// No more arcs pass over a place than there are windows.
pub fn arcs_are_few()
    ensures { ArcsAreFew }
{}

/// No value of the curve is above one, and none has the denominator 0.
pub fn curve_is_at_most_one()
    ensures { CurveIsAtMostOne }
{}

/// One list of places alone is described as that of the regimes: the one that is chosen step by step.
pub fn regimes_are_described()
    ensures { RegimesAreDescribed }
{}

/// The two numbers of each fraction tell the regimes.
pub fn regimes_are_of_parts()
    ensures { RegimesAreOfParts }
{}
