//! Serving an input, from its first byte to its last.

ghost use Rattle.std.specs.Prelude.{◌≡◌, ◌⊎◌, ℕ, ◌+◌, ◌-◌, ◌^◌, ◌<◌, ◌≤◌, List, ◌++◌, length, map, string_bytes, Some};
ghost use Rattle.std.specs.Prelude.{true};
ghost use Rattle.mp_defs.specs.Limits.{max_samples};
ghost use Rattle.mp_feed.specs.Writing.{TellsPrefix};
ghost use Rattle.mp_outside.specs.Counts.{Rose};
ghost use Rattle.mp_replies.specs.Limits.{input_limit};
ghost use Rattle.mp_replies.specs.Output.{usage};
ghost use Rattle.mp_replies.specs.Summary.{summary_of};
ghost use Rattle.mp_replies.specs.Words.{job, session_job};
ghost use Rattle.mp_session.specs.Calls.{outside_at};
ghost use Rattle.mp_session.specs.Serving.{IsServed};
ghost use Rattle.mp_session.specs.Statuses.{status_by};

use crate::halts::Halt;
use crate::runs::{Resources, run_lines};
use crate::sessions::Session;
use mp_feed::write_report;
use mp_made::summary;
use mp_nums::Memory;
use mp_outside::{Failed, Gate, Shelf, Sink, Source};
use mp_words::{Job, Make, Settings, WordsAnswer, read_words};
use std::alloc::Global;
use std::thread::Threads;

/// The most bytes of an input.
pub const INPUT_LIMIT: u64 = 4_294_967_296;

/// What is written where the words are outside the grammar.
const USAGE: &[u8] =
    b"mprof: words: --window M [--scale D] [--tile T] [--workers W] [--generate NUMBER --count N]\n";

/// How a run ended. Its number is the program's exit status.
#[derive(Clone, Copy, Debug, PartialEq, Eq)]
pub enum Status {
    /// The input was read to its end, and no line was refused.
    Done = 0,
    /// The input was read to its end, and some line was refused.
    Refused = 1,
    /// The words are outside the grammar.
    Words = 2,
    /// A read of the input or of a file failed.
    ReadFault = 3,
    /// A write or a flush failed.
    WriteFault = 4,
    /// The input is longer than its limit, and no accepted `end` stands within it.
    InputLimit = 5,
    /// Out of memory.
    Memory = 6,
}

/// Runs the session that the words ask for on the whole input. The words are those behind the program's name. The
/// report of each line is written whole, and the sink flushed, before the next line is run. A line without a report
/// neither writes nor flushes. Words outside the grammar have the usage written and flushed, and no input is read.
/// Words that ask for a made series have its summary written and flushed, and no input is read either.
///
/// `rt` is what starts threads, `shelf` what fetches files, and `gate` what a worker passes before each piece of its
/// work. The profile of a line is shared among as many workers as the words say. An accepted `end` ends the run, and no
/// byte behind its line is looked at. The limit on input is `INPUT_LIMIT`.
pub fn serve<R: Threads + Sync, H: Shelf, S: Source, K: Sink, G: Gate>(
    rt: &R,
    alloc: Global,
    words: &[String],
    shelf: &mut H,
    input: &mut S,
    out: &mut K,
    gate: &G,
) -> Status
    requires given { S.given input.old ≤ 2 ^ 127 }
    ensures { IsServed (record {
      words = map string_bytes words.now;
      limit = input_limit;
      old = outside_at H.Shelf S.Source K.Sink shelf.old input.old out.old;
      new = outside_at H.Shelf S.Source K.Sink shelf.new input.new out.new;
      status = result;
    }) }
{
    serve_within(rt, alloc, words, shelf, input, out, gate, INPUT_LIMIT)
}

/// Does what `serve` does, with a limit on input of its own.
///
/// `InputLimit` comes exactly where the input has more than `limit` bytes, none of the lines that an LF ends within the
/// first `limit` bytes is an accepted `end`, and no fault and no want of memory ended the run before. So a source
/// without end, such as `LoopSource`, ends the run at the limit.
// (its arguments are those of `serve`, which users know, and the limit)
pub fn serve_within<R: Threads + Sync, H: Shelf, S: Source, K: Sink, G: Gate>(
    rt: &R,
    alloc: Global,
    words: &[String],
    shelf: &mut H,
    input: &mut S,
    out: &mut K,
    gate: &G,
    limit: u64,
) -> Status
    requires limit { limit < 2 ^ 64 - 1 }
    requires given { S.given input.old ≤ 2 ^ 127 }
    ensures { IsServed (record {
      words = map string_bytes words.now;
      limit = limit;
      old = outside_at H.Shelf S.Source K.Sink shelf.old input.old out.old;
      new = outside_at H.Shelf S.Source K.Sink shelf.new input.new out.new;
      status = result;
    }) }
{
    let Job { settings, make } = match read_words(alloc, words) {
        Ok(job) => job,
        Err(WordsAnswer::Words) => return refuse_words(out),
        Err(WordsAnswer::Memory) => return Status::Memory,
    };
    match make {
        Some(make) => write_summary(rt, alloc, settings, make, out, gate),
        None => {
            let with = Resources { rt, alloc, gate };
            run_session(&with, settings, shelf, input, out, limit)
        }
    }
}

/// Writes the summary of a made series and flushes the sink. Nothing is written where memory is short.
fn write_summary<R: Threads + Sync, K: Sink, G: Gate>(
    rt: &R,
    alloc: Global,
    settings: Settings,
    make: Make,
    out: &mut K,
    gate: &G,
) -> Status
    requires { make.count ≤ max_samples }
    ensures status { (result ≡ Status.Done) ⊎ ((result ≡ Status.WriteFault) ⊎ (result ≡ Status.Memory)) }
    ensures written { (before : List ℕ) → K.written out.old ≡ Some before
        → length before + length (summary_of settings.window make) ≤ K.room out.old
        → result ≡ Status.Done → K.written out.new ≡ Some (before ++ summary_of settings.window make) }
    ensures front { (before : List ℕ) → K.written out.old ≡ Some before
        → length before + length (summary_of settings.window make) ≤ K.room out.old
        → TellsPrefix (K.written out.new) before (summary_of settings.window make) }
    ensures flushed { result ≡ Status.Done → K.flushed out.new ≡ true }
    ensures unfinished { (before : List ℕ) → K.written out.old ≡ Some before
        → length before + length (summary_of settings.window make) ≤ K.room out.old → result ≡ Status.WriteFault
        → ¬ ((K.written out.new ≡ Some (before ++ summary_of settings.window make)) × (K.flushed out.new ≡ true)) }
    ensures memory { result ≡ Status.Memory → out.new ≡ out.old }
    ensures write_fault { result ≡ Status.WriteFault → Rose (K.faults out.old) (K.faults out.new) }
{
    let text = match summary(
        rt,
        alloc,
        settings.window(),
        settings.tile(),
        settings.workers(),
        make,
        gate,
    ) {
        Ok(text) => text,
        Err(Memory) => return Status::Memory,
    };
    match write_report(out, text.as_slice()) {
        Ok(()) => Status::Done,
        Err(Failed) => Status::WriteFault,
    }
}

fn refuse_words<K: Sink>(out: &mut K) -> Status
    ensures status { (result ≡ Status.Words) ⊎ (result ≡ Status.WriteFault) }
    ensures usage { (before : List ℕ) → K.written out.old ≡ Some before → length before + length usage ≤ K.room out.old
        → result ≡ Status.Words → K.written out.new ≡ Some (before ++ usage) }
    ensures front { (before : List ℕ) → K.written out.old ≡ Some before → length before + length usage ≤ K.room out.old
        → TellsPrefix (K.written out.new) before usage }
    ensures flushed { result ≡ Status.Words → K.flushed out.new ≡ true }
    ensures unfinished { (before : List ℕ) → K.written out.old ≡ Some before
        → length before + length usage ≤ K.room out.old
        → result ≡ Status.WriteFault → ¬ ((K.written out.new ≡ Some (before ++ usage)) × (K.flushed out.new ≡ true)) }
    ensures write_fault { result ≡ Status.WriteFault → Rose (K.faults out.old) (K.faults out.new) }
{
    match write_report(out, USAGE) {
        Ok(()) => Status::Words,
        Err(Failed) => Status::WriteFault,
    }
}

fn status_of(outcome: Result<bool, Halt>) -> Status
    ensures { result ≡ status_by outcome }
{
    match outcome {
        Ok(false) => Status::Done,
        Ok(true) => Status::Refused,
        Err(Halt::ReadFault | Halt::ShelfFault) => Status::ReadFault,
        Err(Halt::WriteFault) => Status::WriteFault,
        Err(Halt::InputLimit) => Status::InputLimit,
        Err(Halt::Memory) => Status::Memory,
    }
}

/// Runs a session of these settings on the input, for all words that ask for it.
fn run_session<R: Threads + Sync, H: Shelf, S: Source, K: Sink, G: Gate>(
    with: &Resources<'_, R, G>,
    settings: Settings,
    shelf: &mut H,
    input: &mut S,
    out: &mut K,
    limit: u64,
) -> Status
    requires limit { limit < 2 ^ 64 - 1 }
    requires given { S.given input.old ≤ 2 ^ 127 }
    ensures { (words : List (List ℕ)) → job words ≡ Some (session_job settings) → IsServed (record {
      words = words;
      limit = limit;
      old = outside_at H.Shelf S.Source K.Sink shelf.old input.old out.old;
      new = outside_at H.Shelf S.Source K.Sink shelf.new input.new out.new;
      status = result;
    }) }
{
    let Ok(mut session) = Session::new(with.rt, with.alloc, settings) else {
        return Status::Memory;
    };
    let outcome = run_lines(&mut session, with, shelf, input, out, limit);
    status_of(outcome)
}
