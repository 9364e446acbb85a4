//! Worked examples: the definitions give what was computed by hand.

ghost use Rattle.mp_topk.specs.Examples.{PlainRanks, TiedRanks};

/// The two nearest windows of each window of 1 2 3 1 2 3 at window length 3.
pub fn plain_ranks()
    ensures { PlainRanks }
{}

/// Among equal distances the smaller start comes first.
pub fn tied_ranks()
    ensures { TiedRanks }
{}
