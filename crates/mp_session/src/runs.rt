//! Lines run one after another, each with its report.

ghost use Rattle.std.specs.Prelude.{◌≡◌, ◌⊎◌, ◌+◌, ◌-◌, ◌^◌, ◌<◌, ◌≤◌, [], ◌∷◌, ◌++◌, length, IfOk, OnErr, IsErrOf};
ghost use Rattle.std.specs.Prelude.{IsTrue, Some, false};
ghost use Rattle.mp_feed.specs.Reading.{IsFailed, IsNext, bit};
ghost use Rattle.mp_outside.specs.Counts.{Rose};
ghost use Rattle.mp_replies.specs.Line.{ends};
ghost use Rattle.mp_commands.specs.Preparing.{IsAsked};
ghost use Rattle.mp_session.specs.Running.{HaveAsked, RanAll, RanEnded, RanInto, RanSome, RanToFile};
ghost use Rattle.mp_session.specs.Running.{WasBegun, WasTaken, WereRun, course_at, next_by};
ghost use Rattle.mp_session.specs.Sessions.{AsksFile};

use crate::halts::Halt;
use crate::sessions::Session;
use mp_feed::{LineReader, Next, write_report};
use mp_outside::{Failed, Gate, Shelf, Sink, Source};
use mp_requests::Stop;
use std::alloc::Global;
use std::thread::Threads;

/// What lines are run with: what starts threads, where memory is from, and what workers pass before each piece of work.
#[derive(Drop)]
pub(crate) struct Resources<'a, R, G> {
    pub(crate) rt: &'a R,
    pub(crate) alloc: Global,
    pub(crate) gate: &'a G,
}

/// What became of a line.
#[derive(Clone, Copy)]
struct Ran {
    refused: bool,
    ends: bool,
}

/// Runs a line and writes its report.
fn run_line<R: Threads + Sync, H: Shelf, K: Sink, G: Gate>(
    session: &mut Session,
    with: &Resources<'_, R, G>,
    line: &[u8],
    shelf: &mut H,
    out: &mut K,
) -> Result<Ran, Halt>
    requires { session.old.lines < 2 ^ 64 - 1 }
    ensures run { (left : _) → IfOk result (λ ran. WereRun K.Sink (H.files shelf.old) (line.now ∷ [])
        (course_at session.old left out.old) (course_at session.new left out.new) ran.refused) }
    ensures ends { IfOk result (λ ran. ran.ends ≡ ends line.now) }
    ensures begun { (left : _) → IsErrOf result Halt.WriteFault
        → WasBegun K.Sink (H.files shelf.old) line.now (course_at session.old left out.old)
        (course_at session.new left out.new) }
    ensures memory { (left : _) → IsErrOf result Halt.Memory
        → WereRun K.Sink (H.files shelf.old) [] (course_at session.old left out.old)
        (course_at session.new left out.new) false }
    ensures write_fault { IsErrOf result Halt.WriteFault → Rose (K.faults out.old) (K.faults out.new) }
    ensures shelf_fault { (left : _) → IsErrOf result Halt.ShelfFault
        → WereRun K.Sink (H.files shelf.old) [] (course_at session.old left out.old)
        (course_at session.new left out.new) false }
    ensures shelf { IsAsked H.Shelf (AsksFile line.now session.old) (IsErrOf result Halt.ShelfFault) shelf.old
        shelf.new }
    ensures only { OnErr result ((result ≡ Err Halt.WriteFault)
        ⊎ ((result ≡ Err Halt.Memory) ⊎ (result ≡ Err Halt.ShelfFault))) }
{
    let reply = match session.run(with.rt, with.alloc, line, shelf, with.gate) {
        Ok(reply) => reply,
        Err(Stop::ShelfFault) => return Err(Halt::ShelfFault),
        Err(Stop::Memory) => return Err(Halt::Memory),
    };
    if let Err(Failed) = write_report(out, reply.text.as_slice()) {
        return Err(Halt::WriteFault);
    }
    Ok(Ran {
        refused: reply.kind.is_refused(),
        ends: reply.kind.is_ended(),
    })
}

/// Goes on to the next line of the input: whether it is the last one, which no LF ends, or none where there is none.
fn next_line<S: Source>(reader: &mut LineReader, input: &mut S) -> Result<Option<bool>, Halt>
    requires part { ¬ IsTrue reader.old.holding.whole }
    requires given { S.given input.old + reader.old.left < 2 ^ 128 - 1 }
    ensures next { IfOk result (λ last. IsNext reader.old reader.new (S.left input.old) (S.left input.new)
        (next_by last)) }
    ensures fewer { IfOk result (λ last. last ≡ Some false
        → length reader.new.unread + reader.new.left < length reader.old.unread + reader.old.left) }
    ensures past { IsErrOf result Halt.InputLimit
        → IsNext reader.old reader.new (S.left input.old) (S.left input.new) Next.PastLimit }
    ensures failed { IsErrOf result Halt.ReadFault
        → IsFailed reader.old reader.new (S.left input.old) (S.left input.new) }
    ensures given { S.given input.new + reader.new.left + bit reader.old.past
        ≡ S.given input.old + reader.old.left + bit reader.new.past }
    ensures faults { S.faults input.old ≤ S.faults input.new }
    ensures cause { IsErrOf result Halt.ReadFault → Rose (S.faults input.old) (S.faults input.new) }
    ensures only { OnErr result ((result ≡ Err Halt.ReadFault) ⊎ (result ≡ Err Halt.InputLimit)) }
{
    match reader.advance(input) {
        Err(Failed) => Err(Halt::ReadFault),
        Ok(Next::PastLimit) => Err(Halt::InputLimit),
        Ok(Next::End) => Ok(None),
        Ok(Next::Line { last }) => Ok(Some(last)),
    }
}

/// Reads the input, and runs its lines up to and with the first that ends the run. The report of each line is written
/// whole, and the sink flushed, before the next line is run. It answers whether some line was refused.
pub(crate) fn run_lines<R: Threads + Sync, H: Shelf, S: Source, K: Sink, G: Gate>(
    session: &mut Session,
    with: &Resources<'_, R, G>,
    shelf: &mut H,
    input: &mut S,
    out: &mut K,
    limit: u64,
) -> Result<bool, Halt>
    requires lines { session.old.lines + limit < 2 ^ 64 - 1 }
    requires given { S.given input.old ≤ 2 ^ 127 }

    ensures all { IfOk result (λ refused. (ran : RanAll K.Sink (H.files shelf.old) limit
        (course_at session.old (S.left input.old) out.old)
        (course_at session.new (S.left input.new) out.new) refused)
        × HaveAsked (H.files shelf.old) ran.lines session.old (H.fetches shelf.old) (H.fetches shelf.new)) }

    // What was run where the run ended early, and why it did.
    ensures read_fault { IsErrOf result Halt.ReadFault
        → RanEnded K.Sink (H.files shelf.old) 0 (course_at session.old (S.left input.old) out.old)
        (course_at session.new (S.left input.new) out.new) }
    ensures input_limit { IsErrOf result Halt.InputLimit
        → (ran : RanEnded K.Sink (H.files shelf.old) 1 (course_at session.old (S.left input.old) out.old)
        (course_at session.new (S.left input.new) out.new))
        × (length ran.taken ≡ limit) }
    ensures memory { IsErrOf result Halt.Memory
        → RanSome K.Sink (H.files shelf.old) (course_at session.old (S.left input.old) out.old)
        (course_at session.new (S.left input.new) out.new) }
    ensures write_fault { IsErrOf result Halt.WriteFault
        → (RanInto K.Sink (H.files shelf.old) (course_at session.old (S.left input.old) out.old)
        (course_at session.new (S.left input.new) out.new)) × Rose (K.faults out.old) (K.faults out.new) }
    ensures shelf_fault { IsErrOf result Halt.ShelfFault
        → (ran : RanToFile K.Sink (H.files shelf.old) (course_at session.old (S.left input.old) out.old)
        (course_at session.new (S.left input.new) out.new))
        × HaveAsked (H.files shelf.old) (ran.some.lines ++ ran.line ∷ []) session.old (H.fetches shelf.old)
        (H.fetches shelf.new) }

    ensures shelf { IsAsked H.Shelf (λ _. ⊥) (IsErrOf result Halt.ShelfFault) shelf.old shelf.new }
    ensures source { WasTaken S.Source limit result input.old input.new }
{
    let mut reader = LineReader::new(with.alloc, limit)?;
    let mut refused = false;
    loop {
        let Some(last) = next_line(&mut reader, input)? else {
            return Ok(refused);
        };
        let ran = run_line(session, with, reader.line(), shelf, out)?;
        refused |= ran.refused;
        if ran.ends || last {
            return Ok(refused);
        }
        reader.drop_line();
    }
}
