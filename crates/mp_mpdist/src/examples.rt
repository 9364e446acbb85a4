ghost use Rattle.mp_mpdist.specs.Examples.{WorkedDistances};

/// MPdist of small joins, as computed by hand.
pub fn worked_distances()
    ensures { WorkedDistances }
{}
