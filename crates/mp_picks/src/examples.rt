//! A worked example: the definition gives what was chosen by hand.

ghost use Rattle.mp_picks.specs.Examples.{ChosenByHand};

/// Of the keys 4 1 2 ? 2 1, the places in each other's zones and those outside.
pub fn chosen_by_hand()
    ensures { ChosenByHand }
{}
