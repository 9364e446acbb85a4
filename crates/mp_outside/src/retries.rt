//! Reads and writes that are tried again where a signal interrupts them.

ghost use Rattle.std.specs.Prelude.{◌<◌, ◌≤◌, length, IfOk};
ghost use Rattle.std.specs.Io.KnownBytes.{ReadConsumes, WriteAppends};

use std::io::{self, ErrorKind, Read, Write};

/// Reads bytes into the front of `buf` and answers how many. 0 at a `buf` that isn't empty is the end.
pub(crate) fn read_some<I: Read>(input: &mut I, buf: &mut [u8]) -> io::Result<usize>
    ensures within { IfOk result (λ count. count ≤ length buf.new) }
    ensures bytes { ReadConsumes (I.remaining input.old) (I.remaining input.new) result buf.new }
{
    for _ in 0..u64::MAX {
        match input.read(buf) {
            Ok(given) => return Ok(given),
            Err(error) if error.kind() == ErrorKind::Interrupted => {}
            Err(error) => return Err(error),
        }
    }
    Err(ErrorKind::Interrupted.into())
}

/// Writes bytes from the front of `bytes`, at least one, and answers how many. That none is taken is an error.
pub(crate) fn write_some<O: Write>(output: &mut O, bytes: &[u8]) -> io::Result<usize>
    ensures within { IfOk result (λ count. count ≤ length bytes.now) }
    ensures some { IfOk result (λ count. 0 < count) }
    ensures bytes { WriteAppends (O.contents output.old) (O.contents output.new) result bytes.now }
{
    for _ in 0..u64::MAX {
        match output.write(bytes) {
            Ok(0) => return Err(ErrorKind::WriteZero.into()),
            Ok(taken) => return Ok(taken),
            Err(error) if error.kind() == ErrorKind::Interrupted => {}
            Err(error) => return Err(error),
        }
    }
    Err(ErrorKind::Interrupted.into())
}
