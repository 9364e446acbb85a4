//! Worked examples: the definitions give what was written down by hand.

ghost use Rattle.mp_replies.specs.Examples.{
  LinesEndOrNot,
  SpelledItems,
  SpelledReports,
  SpelledWords,
  AskedLines,
  BadItemIsNamed,
  FullSeriesIsRefused,
  FullKeptSeriesIsRefused,
  FullLazySeriesIsRefused,
  PlainOutput,
  ShortOutput,
  RefusedPieceOutput,
  EntryOutput,
  ScaledOutput,
  RefusalsOutput,
  KeptOutput,
  KeptRefusalsOutput,
  LazyOutput,
  LazyRefusalsOutput,
  FirstVersionOutput,
  WideJsonOutput,
  WideOutput,
  JsonOutput,
  LoadedFiles,
  LoadOutput,
  OpenOutput,
  EndOutput,
  JoinOutput,
  PatternOutput,
  ChainOutput,
  SegmentsOutput,
  MultiOutput,
  NearestOutput,
  PanOutput,
  ConsensusOutput,
  MadeOutput,
};

/// Lines and fields, with and without the last line's end.
pub fn lines_end_or_not()
    ensures { LinesEndOrNot }
{}

/// Items with one value and with two, good and bad.
pub fn spelled_items()
    ensures { SpelledItems }
{}

/// Reports as JSON, one of each kind, with and without what may be missing.
pub fn spelled_reports()
    ensures { SpelledReports }
{}

/// Words in the grammar, and outside it.
pub fn spelled_words()
    ensures { SpelledWords }
{}

/// Lines of every command, good and malformed.
pub fn asked_lines()
    ensures { AskedLines }
{}

/// The first bad item of a line is named by its number.
pub fn bad_item_is_named()
    ensures { BadItemIsNamed }
{}

/// A series that has all the samples that it can have takes no more.
pub fn full_series_is_refused()
    ensures { FullSeriesIsRefused }
{}

/// A series of which the last samples are kept takes no more than 4,294,967,296.
pub fn full_kept_series_is_refused()
    ensures { FullKeptSeriesIsRefused }
{}

/// A series with a profile in parts takes no more than other series.
pub fn full_lazy_series_is_refused()
    ensures { FullLazySeriesIsRefused }
{}

/// The profile of 1 2 3 1 2 3 at window length 3.
pub fn plain_output()
    ensures { PlainOutput }
{}

/// A series that is shorter than the window.
pub fn short_output()
    ensures { ShortOutput }
{}

/// A refused line changes nothing.
pub fn refused_piece_output()
    ensures { RefusedPieceOutput }
{}

/// A window without a nearest one, and a window that isn't there.
pub fn entry_output()
    ensures { EntryOutput }
{}

/// Samples at a scale, and the window that they make.
pub fn scaled_output()
    ensures { ScaledOutput }
{}

/// A refusal by each word from `version` to `channel`. `bad_item_is_named` has `sample`, `full_series_is_refused`
/// `full`, and `pattern_output` `index` and `missing`.
pub fn refusals_output()
    ensures { RefusalsOutput }
{}

/// The last samples of a slot, and their windows by the numbers that they had from the first sample on.
pub fn kept_output()
    ensures { KeptOutput }
{}

/// Why lines on a slot of which the last samples are kept are refused, and `open` in its place.
pub fn kept_refusals_output()
    ensures { KeptRefusalsOutput }
{}

/// A profile in parts, diagonal by diagonal.
pub fn lazy_output()
    ensures { LazyOutput }
{}

/// Why lines that ask for a profile in parts are refused on other slots.
pub fn lazy_refusals_output()
    ensures { LazyRefusalsOutput }
{}

/// A command of the second version in the first one.
pub fn first_version_output()
    ensures { FirstVersionOutput }
{}

/// All window lengths of a range.
pub fn pan_output()
    ensures { PanOutput }
{}

/// Samples of 48 bits, reported as JSON lines.
pub fn wide_json_output()
    ensures { WideJsonOutput }
{}

/// The greatest distance of three samples of 48 bits.
pub fn wide_output()
    ensures { WideOutput }
{}

/// Lines before a version line that asks for JSON, and behind it.
pub fn json_output()
    ensures { JsonOutput }
{}

/// The line that ends a run.
pub fn end_output()
    ensures { EndOutput }
{}

/// Columns of files, and why files are refused.
pub fn loaded_files()
    ensures { LoadedFiles }
{}

/// A column of a file, in place of what was appended.
pub fn load_output()
    ensures { LoadOutput }
{}

/// Two channels in place of one, and a channel that isn't there.
pub fn open_output()
    ensures { OpenOutput }
{}

/// Joins, also of a series with itself.
pub fn join_output()
    ensures { JoinOutput }
{}

/// Matches and repeated patterns.
pub fn pattern_output()
    ensures { PatternOutput }
{}

/// Chains and unusual windows where all are equally near.
pub fn chain_output()
    ensures { ChainOutput }
{}

/// A change of regime, and none within the margins.
pub fn segments_output()
    ensures { SegmentsOutput }
{}

/// Two channels together, where one of them has a missing sample.
pub fn multi_output()
    ensures { MultiOutput }
{}

/// The two nearest windows of each, where all pairs differ and where all are equally near.
pub fn nearest_output()
    ensures { NearestOutput }
{}

/// What three channels have in common.
pub fn consensus_output()
    ensures { ConsensusOutput }
{}

/// Series that are made, with and without a nearest window.
pub fn made_output()
    ensures { MadeOutput }
{}
