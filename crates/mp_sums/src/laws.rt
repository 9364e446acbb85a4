//! What holds of sums and of residues, as the contracts of functions that do nothing.

ghost use Rattle.mp_sums.specs.Laws.{SumsRunOn, DistancesAreSums, RangesBoundSums, RoundedSumsAreNear};
ghost use Rattle.mp_sums.specs.Laws.{ResiduesMoveOn, ResiduesTell, SumsTellTogether};

/// With one number more a sum grows by one square. One place on, one square goes and one comes in. The sums of two
/// parts are together the sum of both. It is the same from either side. The first squares alone are no more than all.
pub fn sums_run_on()
    ensures { SumsRunOn }
{}

/// Where two windows have a distance, it is the sum of the squared differences of their numbers.
pub fn distances_are_sums()
    ensures { DistancesAreSums }
{}

/// Two numbers in a range differ by no more than its ends. Where it holds the sums of so many squares in so many bits,
/// the sums of windows in it have these bits.
pub fn ranges_bound_sums()
    ensures { RangesBoundSums }
{}

/// Where the sum of two windows is within a limit, that of their rounded numbers is within the limit's threshold.
pub fn rounded_sums_are_near()
    ensures { RoundedSumsAreNear }
{}

/// Where a row and a column move on, the residue of their sum moves on by the changes of both, whatever the sum is.
pub fn residues_move_on()
    ensures { ResiduesMoveOn }
{}

/// A pair of windows within a limit passes: its residue is not above the limit's. So a pair whose residue is above that
/// of its row's limit and that of its column's lies beyond both.
pub fn residues_tell()
    ensures { ResiduesTell }
{}

/// Windows of several series that lie together within a limit pass together: the sum of what their residues are taken
/// for has a residue that is not above the limit's, whatever wrapped. So where it is above, they lie beyond the limit.
pub fn sums_tell_together()
    ensures { SumsTellTogether }
{}
