//! A law of repeated patterns, the contract of a function that does nothing.

ghost use Rattle.mp_motifs.specs.Laws.{MoreRoundsChangeNothing};

/// The search for motifs is over after as many rounds as there are candidates: more of them change nothing.
pub fn more_rounds_change_nothing()
    ensures { MoreRoundsChangeNothing }
{}
