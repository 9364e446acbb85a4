//! Reports, written whole.

ghost use Rattle.std.specs.Prelude.{◌≡◌, ◌≢◌, ℕ, ◌+◌, ◌-◌, ◌^◌, ◌<◌, ◌≤◌, min, List, ◌++◌, length, Some, OnOk, OnErr};
ghost use Rattle.std.specs.Prelude.{false};
ghost use Rattle.mp_outside.specs.Counts.{Rose};
ghost use Rattle.mp_feed.specs.Writing.{TellsPrefix, WroteReport, WroteFront};

use mp_outside::{Failed, Sink};

/// Writes a report whole and flushes the sink. An empty report leaves the sink alone.
pub fn write_report<K: Sink>(out: &mut K, text: &[u8]) -> Result<(), Failed>
    ensures wrote { OnOk result (WroteReport K.Sink text.now out.old out.new) }
    ensures front { OnErr result (WroteFront K.Sink text.now out.old out.new) }
    ensures cause { OnErr result (Rose (K.faults out.old) (K.faults out.new)) }
{
    if text.is_empty() {
        return Ok(());
    }
    write_all(out, text)?;
    out.flush()
}

fn write_all<K: Sink>(out: &mut K, text: &[u8]) -> Result<(), Failed>
    ensures told { (before : List ℕ) → K.written out.old ≡ Some before
        → length before + length text.now ≤ K.room out.old
        → OnOk result (K.written out.new ≡ Some (before ++ text.now)) }
    ensures prefix { (before : List ℕ) → K.written out.old ≡ Some before
        → length before + length text.now ≤ K.room out.old
        → OnErr result (TellsPrefix (K.written out.new) before text.now) }
    ensures unfinished { (before : List ℕ) → K.written out.old ≡ Some before
        → length before + length text.now ≤ K.room out.old
        → OnErr result (K.written out.new ≢ Some (before ++ text.now)) }
    ensures unflushed { 0 < length text.now → OnOk result (K.flushed out.new ≡ false) }
    ensures room { K.room out.new ≡ K.room out.old }
    ensures faults { K.faults out.old ≤ K.faults out.new }
    ensures cause { OnErr result (Rose (K.faults out.old) (K.faults out.new)) }
{
    let mut sent = 0;
    while sent < text.len() {
        sent += out.write(&text[sent..])?;
    }
    Ok(())
}
