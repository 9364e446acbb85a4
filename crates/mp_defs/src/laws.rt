ghost use Rattle.mp_defs.specs.Laws.{
  SeriesAreOfSamples,
  GrowsByOneSample,
  DistanceIsOfFreeWindows,
  DistanceIsSymmetric,
  GrowsByOneCandidate,
  LeastIsFirst,
  EntriesAreNearest,
  NearestByChoice,
  ColumnsHavePlaces,
  ColumnsByChoice,
  ZoneIsMutual,
  EntriesAreOfBothSides,
};

/// A series has at each place the number that the sample there stands for, and none past the last sample. It has the
/// windows of as many samples.
pub fn series_are_of_samples()
    ensures { SeriesAreOfSamples }
{}

/// With each sample more a distance grows by one square, and a window is free where that sample is there too.
pub fn distance_grows_by_one_sample()
    ensures { GrowsByOneSample }
{}

/// Two windows have a distance exactly where no sample of either is missing.
pub fn distance_is_of_free_windows()
    ensures { DistanceIsOfFreeWindows }
{}

/// The distance of two windows is the same from either.
pub fn distance_is_symmetric()
    ensures { DistanceIsSymmetric }
{}

/// With each candidate more the least is the lesser of the least before and of that one.
pub fn least_grows_by_one_candidate()
    ensures { GrowsByOneCandidate }
{}

/// The least of some candidates is one of them, and none comes before it. There is none only where there is no
/// candidate.
pub fn least_is_first()
    ensures { LeastIsFirst }
{}

/// By any test of pairs, the entry of a window is the nearest window that it may be compared with, the smallest start
/// among equals. The left entry is the nearest of those that start earlier, the right entry of those that start later.
/// The entry in another series is the nearest of all its windows.
pub fn entries_are_nearest()
    ensures { EntriesAreNearest }
{}

/// Of windows that pass one of two tests, the nearest is the lesser of both nearest ones. Tests that agree choose the
/// same window, a test that no window passes chooses none, and one that a single window passes chooses that one.
pub fn nearest_is_by_choice()
    ensures { NearestByChoice }
{}

/// A column has a place for each of its windows.
pub fn columns_have_places()
    ensures { ColumnsHavePlaces }
{}

/// By one of two tests a column of nearest windows has place by place the lesser of both columns. By tests that
/// agree it is the same, and by a test that no pair passes it has none at any place.
pub fn columns_are_by_choice()
    ensures { ColumnsByChoice }
{}

/// A window lies in its own exclusion zone, and each of two windows lies in the other's, or neither.
pub fn zone_is_mutual()
    ensures { ZoneIsMutual }
{}

/// Where no window is compared with itself, an entry is the lesser of the left and the right one.
pub fn entries_are_of_both_sides()
    ensures { EntriesAreOfBothSides }
{}
