ghost use Rattle.mp_gen.specs.Examples.{SamplesByHand};

/// The first samples of seed 0, and what they are made of, as computed by hand.
pub fn samples_by_hand()
    ensures { SamplesByHand }
{}
