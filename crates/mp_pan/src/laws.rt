//! What holds of the lengths of a range, the contract of a function that does nothing.

ghost use Rattle.mp_pan.specs.Laws.{BestPairsRise};

/// Where a length has a best pair, the length one below has one too, and its windows are no farther apart.
pub fn best_pairs_rise()
    ensures { BestPairsRise }
{}
