ghost use Rattle.mp_arcs.specs.Examples.{WorkedArcs};

/// Arcs, curves and regimes of four places, as computed by hand.
pub fn worked_arcs()
    ensures { WorkedArcs }
{}
