ghost use Rattle.mp_consensus.specs.Examples.{WorkedCentres};

/// Centres of short series, as computed by hand.
pub fn worked_centres()
    ensures { WorkedCentres }
{}
