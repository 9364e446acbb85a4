//! What holds of every line and of every run, as the contracts of functions that do nothing.

ghost use Rattle.mp_replies.specs.Laws.{
  RefusedLinesChangeNothing,
  AnswersRefuseByCause,
  QuietLinesAreSilent,
  LongLinesAreCut,
  LongLinesAreRunCut,
  EndsAreAnswered,
  EndsAreOfEachVersion,
  OtherLinesReadNoFile,
  WordsStandInOrder,
  TileAndWorkersChangeNothing,
  BadItemsAreTheFirst,
  AppendsAddUp,
  LimitsAreKept,
};

/// A refused line changes nothing but the number of lines run, and its report names why.
pub fn refused_lines_change_nothing()
    ensures { RefusedLinesChangeNothing }
{}

/// A line is answered as refused exactly where it has a cause, and the answer names that cause.
pub fn answers_refuse_by_cause()
    ensures { AnswersRefuseByCause }
{}

/// A line is answered by nothing exactly where it is blank or a comment, and has at most 1,048,576 bytes.
pub fn quiet_lines_are_silent()
    ensures { QuietLinesAreSilent }
{}

/// Of a line, the first 1,048,577 bytes decide: what it asks for, why it is refused, the state behind it, its answer
/// and its report.
pub fn long_lines_are_cut()
    ensures asked { LongLinesAreCut }
    ensures run { LongLinesAreRunCut }
{}

/// A line ends the run exactly where it is accepted as the one that does, whatever the state.
pub fn ends_are_answered()
    ensures { EndsAreAnswered }
{}

/// By each version the same lines end the run.
pub fn ends_are_of_each_version()
    ensures { EndsAreOfEachVersion }
{}

/// Of a line that asks for no file, the files change neither the report nor the state behind it.
pub fn other_lines_read_no_file()
    ensures { OtherLinesReadNoFile }
{}

/// What a command is refused for is tested in the order of the words, so that of two that hold the earlier word is the
/// answer.
pub fn words_stand_in_order()
    ensures { WordsStandInOrder }
{}

/// What is written depends on the window and the scale alone, and on no tile and no number of workers.
pub fn tile_and_workers_change_nothing()
    ensures { TileAndWorkersChangeNothing }
{}

/// The item that is named as bad is bad, and each one before it is good.
pub fn bad_items_are_the_first()
    ensures { BadItemsAreTheFirst }
{}

/// Several appends to a slot give the state of one, however their samples are cut into lines, the number of lines run
/// aside.
pub fn appends_add_up()
    ensures { AppendsAddUp }
{}

/// The numbers that a line names lie within their limits.
pub fn limits_are_kept()
    ensures { LimitsAreKept }
{}
