//! What holds of a series of which some diagonals are covered, each the contract of a function that does nothing.

ghost use Rattle.mp_anytime.specs.Laws.{CoversTheNext, EntriesNeverRise, WholeIsTheProfile};

/// The diagonals are covered one by one: each time the one whose number has the least reversal of those that aren't
/// covered, until none is left.
pub fn covers_the_next()
    ensures { CoversTheNext }
{}

/// As diagonals are covered, an entry stays or gives way to one that comes before it. So each entry of a part is an
/// upper bound of that of the whole: a motif only gets better, and a discord may vanish.
pub fn entries_never_rise()
    ensures { EntriesNeverRise }
{}

/// Where no diagonal is left, the profile is the matrix profile.
pub fn whole_is_the_profile()
    ensures { WholeIsTheProfile }
{}
