//! Laws of the choice, each the contract of a function that does nothing.

ghost use Rattle.mp_picks.specs.Laws.{PicksAreDescribed, PicksAreRetold};

/// At most so many are chosen of some candidates. Each comes before those behind it, and their places are further
/// apart than the zone. Every other candidate lies in the zone of a chosen one that comes before it, or comes after as
/// many as may be chosen. No other list is like that.
pub fn picks_are_described<T>()
    ensures { PicksAreDescribed T }
{}

/// What is chosen by the keys of a list's items may be told in other words, in the same order and at the same places:
/// these words are chosen by the same rule.
pub fn picks_are_retold<K, V, Y>()
    ensures { PicksAreRetold K V Y }
{}
