//! Worked examples: the definitions give what was found by hand.

ghost use Rattle.mp_motifs.specs.Examples.{DiscordsByHand, MatchesByHand, MotifsByHand};

/// The matches among the distances 0 6 6 0.
pub fn matches_by_hand()
    ensures { MatchesByHand }
{}

/// The discords of 1 2 3 1 2 3.
pub fn discords_by_hand()
    ensures { DiscordsByHand }
{}

/// The motifs of 1 2 3 1 2 3, and of a series where a candidate that isn't kept shuts out others.
pub fn motifs_by_hand()
    ensures { MotifsByHand }
{}
