ghost use Rattle.std.specs.Prelude.{◌≡◌, [], length, Some, Ok, IfOk, IsOk, true, unwrap_or};
ghost use Rattle.std.proofs.Common.{rules};
ghost use Rattle.mp_outside.specs.States.{after_writing};

use crate::failures::Failed;
use crate::sinks::Sink;
use mp_nums::Memory;
use std::alloc::Global;
use std::marker::Model;

/// Bytes written into memory without failing. Past its room it keeps their count alone.
#[derive(Debug, Drop)]
pub struct CalmSink {
    stored: Vec<u8>,
    room: u64,
    count: u128,
    is_flushed: bool,
}

impl Model for CalmSink {
    ghost use Rattle.mp_outside.specs.States.{SinkState};

    ghost Value = { SinkState };

    ghost use Rattle.std.specs.Prelude.{Some, None, nat_le, if◌then◌else◌, vec_capacity};

    ghost view = { λ a. record {
      written = if nat_le a.count a.room then Some a.stored.items else None;
      room = a.room;
      count = a.count;
      flushed = a.is_flushed;
    } };

    ghost use Rattle.mp_outside.specs.Stored.{IsStored};

    ghost invariant = { λ a. IsStored a.stored.items (vec_capacity a.stored) a.room a.count };
}

impl CalmSink {
    /// An empty sink that tells up to `room` bytes. It takes the memory for these now, and none later.
    pub fn new(alloc: Global, room: u64) -> Result<CalmSink, Memory>
        ensures written { IfOk result (λ sink. ⟦<CalmSink as Sink>⟧.written sink ≡ Some []) }
        ensures room { IfOk result (λ sink. ⟦<CalmSink as Sink>⟧.room sink ≡ room) }
        ensures flushed { IfOk result (λ sink. ⟦<CalmSink as Sink>⟧.flushed sink ≡ true) }
        ensures faults { IfOk result (λ sink. ⟦<CalmSink as Sink>⟧.faults sink ≡ 0) }
        ensures count { IfOk result (λ sink. sink.count ≡ 0) }
    {
        Ok(CalmSink {
            stored: Vec::with_capacity(alloc, room as usize)?,
            room,
            count: 0,
            is_flushed: true,
        })
    }

    /// The bytes written, or none where these are more than the room.
    pub fn bytes(&self) -> &[u8]
        ensures { result.now ≡ unwrap_or self.now.written [] }
    {
        self.stored.as_slice()
    }

    /// How many bytes were written.
    pub fn count(&self) -> u128
        ensures { result ≡ self.now.count }
    {
        self.count
    }
}

impl Sink for CalmSink {
    ghost written = { λ sink. sink.written };

    ghost room = { λ sink. sink.room };

    ghost flushed = { λ sink. sink.flushed };

    ghost faults = { λ _. 0 };

    ghost faults_fit = { Prim.search rules };

    fn write(&mut self, bytes: &[u8]) -> Result<usize, Failed>
        ensures count { result ≡ Ok (length bytes.now) }
        ensures after { self.new ≡ after_writing bytes.now self.old }
    {
        if bytes.is_empty() {
            return Ok(0);
        }
        self.count = self.count.saturating_add(bytes.len() as u128);
        if self.count <= u128::from(self.room) {
            self.stored.extend_from_slice(bytes).unwrap();
        } else {
            self.stored.clear();
        }
        self.is_flushed = false;
        Ok(bytes.len())
    }

    fn flush(&mut self) -> Result<(), Failed>
        ensures done { IsOk result }
        ensures after { self.new ≡ record self.old { flushed = true } }
    {
        self.is_flushed = true;
        Ok(())
    }
}
