ghost use Rattle.std.specs.Prelude.{◌≡◌, ◌≢◌, ◌+◌, ◌-◌, ◌^◌, ◌<◌, ◌≤◌, min, None, Ok, Err, vec_len, IfOk, IsErrOf};
ghost use Rattle.std.specs.Io.KnownBytes.{Consumes, IsAtEnd};
ghost use Rattle.std.specs.Str.{IsUtf8};
ghost use Rattle.std.proofs.Common.{rules};
ghost use Rattle.mp_outside.specs.Counts.{Rose, raised};
ghost use Rattle.mp_outside.specs.Taking.{TakesUpTo};
ghost use Rattle.mp_outside.specs.declared.disk_shelves.TheConstants.{PIECE};

use crate::failures::ShelfAnswer;
use crate::retries::read_some;
use crate::shelves::Shelf;
use mp_nums::Memory;
use std::alloc::{AllocError, Global};
use std::fs::File;
use std::io::{self, Read};
use std::marker::Model;
use std::rt::Files;

/// How many bytes of a file are read at once, at most.
const PIECE: usize = 65_536;

/// Files of the system, by their paths from the working folder. What they hold is open. A name is
/// absent where the system finds no such file or the name is no text. Any other error, as of a
/// folder or a missing permission, is a failure.
#[derive(Debug, Drop)]
pub struct DiskShelf<R> {
    rt: R,
    fetches: u128,
    faults: u64,
}

impl<R> Model for DiskShelf<R> {
    ghost use Rattle.mp_outside.specs.States.{DiskShelfState};

    ghost Value = { DiskShelfState };

    ghost view = { λ a. record { fetches = a.fetches; faults = a.faults } };
}

impl<R: Files + Clone> DiskShelf<R> {
    /// A shelf of the files that the runtime reaches, of which none was asked for. It keeps a copy of the runtime, for
    /// which there may be no memory.
    pub fn new(rt: &R) -> Result<DiskShelf<R>, Memory>
        ensures fetches { IfOk result (λ shelf. ⟦<DiskShelf<R> as Shelf>⟧.fetches shelf ≡ 0) }
        ensures faults { IfOk result (λ shelf. ⟦<DiskShelf<R> as Shelf>⟧.faults shelf ≡ 0) }
    {
        Ok(DiskShelf {
            rt: rt.clone()?,
            fetches: 0,
            faults: 0,
        })
    }
}

impl<R: Files> Shelf for DiskShelf<R> {
    ghost files = { λ _. None };

    ghost fetches = { λ shelf. min shelf.fetches (2 ^ 128 - 1) };

    ghost faults = { λ shelf. min shelf.faults (2 ^ 64 - 1) };

    ghost fetches_fit = { Prim.search rules };

    ghost faults_fit = { Prim.search rules };

    fn fetch(&mut self, alloc: Global, name: &[u8], limit: u64) -> Result<Vec<u8>, ShelfAnswer>
        ensures no_text { ¬ (IsUtf8 name.now) → IsErrOf result ShelfAnswer.Absent }
        ensures within { IfOk result (λ bytes. vec_len bytes ≤ limit) }
        ensures fetches { self.new.fetches ≡ raised 1 self.old.fetches }
        ensures faults { self.old.faults ≤ self.new.faults }
        ensures calm { ¬ IsErrOf result ShelfAnswer.Failed → self.new.faults ≡ self.old.faults }
        ensures cause { IsErrOf result ShelfAnswer.Failed → Rose self.old.faults self.new.faults }
    {
        self.fetches = self.fetches.saturating_add(1);
        let Ok(path) = str::from_utf8(name) else {
            return Err(ShelfAnswer::Absent);
        };
        match read_file(&self.rt, alloc, path, limit) {
            Ok(bytes) => Ok(bytes),
            Err(answer) => Err(self.counted(answer)),
        }
    }
}

impl<R> DiskShelf<R> {
    // The answer, which is counted where it is a failure.
    fn counted(&mut self, answer: ShelfAnswer) -> ShelfAnswer
        ensures answer { result ≡ answer }
        ensures fetches { self.new.fetches ≡ self.old.fetches }
        ensures faults { self.old.faults ≤ self.new.faults }
        ensures calm { answer ≢ ShelfAnswer.Failed → self.new.faults ≡ self.old.faults }
        ensures counted { answer ≡ ShelfAnswer.Failed → self.new.faults ≡ min (self.old.faults + 1) (2 ^ 64 - 1) }
    {
        if answer == ShelfAnswer::Failed {
            self.faults = self.faults.saturating_add(1);
        }
        answer
    }
}

// The bytes of a file, if there are at most `limit`.
fn read_file<R: Files>(
    rt: &R,
    alloc: Global,
    path: &str,
    limit: u64,
) -> Result<Vec<u8>, ShelfAnswer>
    ensures { IfOk result (λ bytes. vec_len bytes ≤ limit) }
{
    match File::open(rt, path) {
        Ok(mut file) => bytes_within(alloc, &mut file, limit),
        Err(error) => Err(ShelfAnswer::at_error(error.kind())),
    }
}

/// The bytes that a reader has left, if there are at most `limit`. However it answers, it takes no more than one byte
/// past these.
pub(crate) fn bytes_within<F: Read>(
    alloc: Global,
    file: &mut F,
    limit: u64,
) -> Result<Vec<u8>, ShelfAnswer>
    ensures within { IfOk result (λ bytes. vec_len bytes ≤ limit) }
    ensures taken { IfOk result (λ bytes. Consumes (F.remaining file.old) (F.remaining file.new) bytes.items) }
    ensures to_end { limit < 2 ^ 64 - 1 → IfOk result (λ _. IsAtEnd (F.remaining file.new)) }
    ensures most { TakesUpTo (limit + 1) (F.remaining file.old) (F.remaining file.new) }
{
    match first_bytes(alloc, file, limit.saturating_add(1)) {
        Ok(bytes) => kept_within(bytes, limit),
        Err(error) => Err(ShelfAnswer::at_error(error.kind())),
    }
}

// The bytes, unless there are more than the limit.
fn kept_within(bytes: Vec<u8>, limit: u64) -> Result<Vec<u8>, ShelfAnswer>
    ensures kept { vec_len bytes ≤ limit → result ≡ Ok bytes }
    ensures too_large { limit < vec_len bytes → result ≡ Err ShelfAnswer.TooLarge }
{
    if bytes.len() as u64 > limit {
        return Err(ShelfAnswer::TooLarge);
    }
    Ok(bytes)
}

// The first bytes that a reader has left, `count` at most. However it answers, it takes no byte more.
fn first_bytes<F: Read>(alloc: Global, file: &mut F, count: u64) -> io::Result<Vec<u8>>
    ensures within { IfOk result (λ bytes. vec_len bytes ≤ count) }
    ensures taken { IfOk result (λ bytes. Consumes (F.remaining file.old) (F.remaining file.new) bytes.items) }
    ensures to_end { IfOk result (λ bytes. vec_len bytes < count → IsAtEnd (F.remaining file.new)) }
    ensures most { TakesUpTo count (F.remaining file.old) (F.remaining file.new) }
{
    let mut bytes = Vec::new(alloc);
    let mut piece = room_for_a_piece(alloc)?;
    let mut left = count;
    while left > 0 {
        let most = left.min(PIECE as u64) as usize;
        let part = &mut piece[..most];
        let read = read_some(file, part)?;
        if read == 0 {
            return Ok(bytes);
        }
        bytes.extend_from_slice(&part[..read])?;
        left -= read as u64;
    }
    Ok(bytes)
}

fn room_for_a_piece(alloc: Global) -> Result<Vec<u8>, AllocError>
    ensures { IfOk result (λ piece. vec_len piece ≡ PIECE) }
{
    vec![in alloc; 0u8; PIECE]
}
