//! The system's streams. They tell no bytes. Their own contracts pass on what a reader or a writer tells, and those of
//! the system tell nothing.

ghost use Rattle.std.specs.Prelude.{◌≡◌, ◌+◌, ◌-◌, ◌^◌, ◌<◌, ◌≤◌, [], min, length, None, IfOk, OnOk, OnErr, false};
ghost use Rattle.std.specs.Prelude.{true};
ghost use Rattle.std.specs.Io.KnownBytes.{Keeps, ReadConsumes, WriteAppends};
ghost use Rattle.std.proofs.Common.{rules};

use crate::failures::Failed;
use crate::retries::{read_some, write_some};
use crate::sinks::Sink;
use crate::sources::Source;
use mp_nums::Memory;
use std::io::{self, Printer, Read, Write};
use std::marker::Model;

/// Standard input.
#[derive(Debug, Drop)]
pub struct StdSource<I> {
    input: I,
    given: u128,
    faults: u64,
}

impl<I> Model for StdSource<I> {
    ghost use Rattle.mp_outside.specs.States.{StdSourceState};

    ghost Value = { StdSourceState I };

    ghost view = { λ a. record { input = a.input; given = a.given; faults = a.faults } };
}

impl<I> StdSource<I> {
    /// What a reader has left, of which nothing was given and no read has failed.
    pub(crate) fn over(input: I) -> StdSource<I>
        ensures { result ≡ record { input = input; given = 0; faults = 0 } }
    {
        StdSource {
            input,
            given: 0,
            faults: 0,
        }
    }
}

impl<I: Read> StdSource<I> {
    /// The runtime's standard input, of which nothing was given and no read has failed. It takes no memory.
    pub fn new<R: Input<Reader = I>>(rt: &R) -> Result<StdSource<I>, Memory>
        ensures given { IfOk result (λ source. ⟦<StdSource<I> as Source>⟧.given source ≡ 0) }
        ensures faults { IfOk result (λ source. ⟦<StdSource<I> as Source>⟧.faults source ≡ 0) }
    {
        Ok(StdSource::over(rt.reader()))
    }
}

impl<I: Read> Source for StdSource<I> {
    ghost left = { λ _. None };

    ghost given = { λ source. min source.given (2 ^ 128 - 1) };

    ghost faults = { λ source. min source.faults (2 ^ 64 - 1) };

    ghost given_fits = { Prim.search rules };

    ghost faults_fit = { Prim.search rules };

    fn read(&mut self, buf: &mut [u8]) -> Result<usize, Failed>
        ensures within { IfOk result (λ count. count ≤ length buf.new) }
        ensures bytes { ReadConsumes (I.remaining self.old.input) (I.remaining self.new.input) result buf.new }
        ensures given { IfOk result (λ count. self.new.given ≡ min (self.old.given + count) (2 ^ 128 - 1)) }
        ensures failed_given { OnErr result (self.new.given ≡ self.old.given) }
        ensures calm { OnOk result (self.new.faults ≡ self.old.faults) }
        ensures counted { OnErr result (self.new.faults ≡ min (self.old.faults + 1) (2 ^ 64 - 1)) }
    {
        let Ok(count) = read_some(&mut self.input, buf) else {
            self.faults = self.faults.saturating_add(1);
            return Err(Failed);
        };
        self.given = self.given.saturating_add(count as u128);
        Ok(count)
    }
}

/// Standard output. Each write goes straight to the system.
#[derive(Debug, Drop)]
pub struct StdSink<O> {
    output: O,
    is_flushed: bool,
    faults: u64,
}

impl<O> Model for StdSink<O> {
    ghost use Rattle.mp_outside.specs.States.{StdSinkState};

    ghost Value = { StdSinkState O };

    ghost view = { λ a. record { output = a.output; flushed = a.is_flushed; faults = a.faults } };
}

impl<O> StdSink<O> {
    /// A writer, which is flushed and of which no write has failed.
    pub(crate) fn over(output: O) -> StdSink<O>
        ensures { result ≡ record { output = output; flushed = true; faults = 0 } }
    {
        StdSink {
            output,
            is_flushed: true,
            faults: 0,
        }
    }
}

impl<'a, P: Print> StdSink<Printer<'a, P>> {
    /// The runtime's standard output, which is flushed and of which no write has failed. It takes no memory.
    pub fn new(rt: &'a P) -> Result<StdSink<Printer<'a, P>>, Memory>
        ensures flushed { IfOk result (λ sink. ⟦<StdSink<Printer<'a, P>> as Sink>⟧.flushed sink ≡ true) }
        ensures faults { IfOk result (λ sink. ⟦<StdSink<Printer<'a, P>> as Sink>⟧.faults sink ≡ 0) }
    {
        Ok(StdSink::over(io::writer(rt)))
    }
}

impl<O: Write> Sink for StdSink<O> {
    ghost written = { λ _. None };

    ghost room = { λ _. 0 };

    ghost flushed = { λ sink. sink.flushed };

    ghost faults = { λ sink. min sink.faults (2 ^ 64 - 1) };

    ghost faults_fit = { Prim.search rules };

    fn write(&mut self, bytes: &[u8]) -> Result<usize, Failed>
        ensures within { IfOk result (λ count. count ≤ length bytes.now) }
        ensures some { 0 < length bytes.now → IfOk result (λ count. 0 < count) }
        ensures bytes { WriteAppends (O.contents self.old.output) (O.contents self.new.output) result bytes.now }
        ensures flushed { 0 < length bytes.now → OnOk result (self.new.flushed ≡ false) }
        ensures none_flushed { bytes.now ≡ [] → self.new.flushed ≡ self.old.flushed }
        ensures failed_flushed { OnErr result (self.new.flushed ≡ self.old.flushed) }
        ensures calm { OnOk result (self.new.faults ≡ self.old.faults) }
        ensures counted { OnErr result (self.new.faults ≡ min (self.old.faults + 1) (2 ^ 64 - 1)) }
    {
        if bytes.is_empty() {
            return Ok(0);
        }
        let Ok(count) = write_some(&mut self.output, bytes) else {
            self.faults = self.faults.saturating_add(1);
            return Err(Failed);
        };
        self.is_flushed = false;
        Ok(count)
    }

    fn flush(&mut self) -> Result<(), Failed>
        ensures flushed { OnOk result (self.new.flushed ≡ true) }
        ensures failed_flushed { OnErr result (self.new.flushed ≡ self.old.flushed) }
        ensures bytes { Keeps (O.contents self.old.output) (O.contents self.new.output) }
        ensures calm { OnOk result (self.new.faults ≡ self.old.faults) }
        ensures counted { OnErr result (self.new.faults ≡ min (self.old.faults + 1) (2 ^ 64 - 1)) }
    {
        if self.output.flush().is_err() {
            self.faults = self.faults.saturating_add(1);
            return Err(Failed);
        }
        self.is_flushed = true;
        Ok(())
    }
}
