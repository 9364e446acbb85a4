ghost use Rattle.mp_multi.specs.Examples.{WorkedProfiles};

/// Profiles of two short channels, as computed by hand.
pub fn worked_profiles()
    ensures { WorkedProfiles }
{}
