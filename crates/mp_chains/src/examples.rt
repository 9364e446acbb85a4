ghost use Rattle.mp_chains.specs.Examples.{WorkedChains};

/// Chains of small columns, as computed by hand.
pub fn worked_chains()
    ensures { WorkedChains }
{}
