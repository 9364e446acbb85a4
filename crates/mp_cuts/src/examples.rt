//! Worked examples: the definitions give what was computed by hand.

ghost use Rattle.mp_cuts.specs.Examples.{WorkedCuts};

/// Cuts of one series and of two, with rows in one band and in two.
pub fn worked_cuts()
    ensures { WorkedCuts }
{}
