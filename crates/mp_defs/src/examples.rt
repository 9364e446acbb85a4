//! Worked examples: the definitions give what was computed by hand.

ghost use Rattle.mp_defs.specs.Examples.{
  PlainEntries,
  TiedEntries,
  ExtremeEntries,
  WidestEntries,
  MissingEntries,
  ShortSeries,
  JoinedEntries,
};

/// The entries of 1 2 3 1 2 3 at window length 3.
pub fn plain_entries()
    ensures { PlainEntries }
{}

/// Among equal distances the smallest index wins.
pub fn tied_entries()
    ensures { TiedEntries }
{}

/// The ends of 32 bits.
pub fn extreme_entries()
    ensures { ExtremeEntries }
{}

/// The ends of 48 bits.
pub fn widest_entries()
    ensures { WidestEntries }
{}

/// Windows with a missing sample have no entry, and are no entry's.
pub fn missing_entries()
    ensures { MissingEntries }
{}

/// A series that is shorter than the window has no windows.
pub fn short_series_has_no_windows()
    ensures { ShortSeries }
{}

/// The nearest windows of one series in another, without an exclusion zone.
pub fn joined_entries()
    ensures { JoinedEntries }
{}
