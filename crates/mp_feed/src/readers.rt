//! A reader of lines: the bytes of a source, up to a limit, cut into lines.

ghost use Rattle.std.specs.Prelude.{◌≡◌, ◌⊎◌, ℕ, ◌+◌, ◌-◌, ◌^◌, ◌<◌, ◌≤◌, min, List, [], length, drop, Option, Some};
ghost use Rattle.std.specs.Prelude.{IfOk, OnOk, OnErr, IsTrue, vec_len, true, false};
ghost use Rattle.mp_outside.specs.Counts.{Rose};
ghost use Rattle.mp_feed.specs.Feeding.{nothing, IsCutLine, has_lf, used_of, fed};
ghost use Rattle.mp_feed.specs.Reading.{Reading, at_start, after_line, bit, IsReadOf, Gave, IsDry, IsNext, IsFailed};

use crate::feeds::Feed;
use mp_nums::Memory;
use mp_outside::{Failed, Source};
use std::alloc::{AllocError, Global};
use std::marker::Model;

/// How many bytes are read at once.
const PIECE: usize = 65_536;

/// What comes next of an input.
#[derive(Clone, Copy, Debug, PartialEq, Eq)]
pub enum Next {
    /// A line, which is held. No LF ends the last one.
    Line { last: bool },
    /// Nothing more.
    End,
    /// A byte past the limit.
    PastLimit,
}

/// What a read gave.
#[derive(Clone, Copy)]
pub(crate) struct Piece {
    /// How many bytes within the limit.
    pub(crate) count: usize,
    /// Whether there was one past it.
    pub(crate) past_limit: bool,
}

/// Cuts what is read of a source into lines. It holds one line at a time, and no byte is read while another whole line
/// is at hand. Of a source it takes at most one byte past its limit.
#[derive(Debug, Drop)]
pub struct LineReader {
    feed: Feed,
    buffer: Vec<u8>,
    from: usize,
    to: usize,
    left: u64,
    past: bool,
}

impl Model for LineReader {
    ghost use Rattle.std.specs.Prelude.{◌≡◌, ◌-◌, ◌^◌, ◌<◌, ◌≤◌, take, drop, vec_len, true};
    ghost use Rattle.mp_feed.specs.Reading.{Reading};

    ghost Value = { Reading };

    ghost view = { λ r. record {
      holding = r.feed;
      unread = take (r.to - r.from) (drop r.from r.buffer.items);
      left = r.left;
      past = r.past;
    } };

    ghost invariant = { λ r. (r.from ≤ r.to) × (r.to ≤ vec_len r.buffer) × (vec_len r.buffer ≡ 65536)
        × (r.left < 2 ^ 64 - 1) × (r.past ≡ true → r.left ≡ 0) };
}

impl LineReader {
    /// A reader that takes up to `limit` bytes of a source, and one more that shows that there are more. It takes all
    /// the room that it needs.
    pub fn new(alloc: Global, limit: u64) -> Result<LineReader, Memory>
        requires { limit < 2 ^ 64 - 1 }
        ensures { IfOk result (λ reader. reader ≡ at_start limit) }
    {
        Ok(LineReader {
            feed: Feed::new(alloc)?,
            buffer: piece_buffer(alloc)?,
            from: 0,
            to: 0,
            left: limit,
            past: false,
        })
    }

    /// The line that is held, without its LF. Of a longer line than 1,048,576 bytes it is the first 1,048,577.
    pub fn line(&self) -> &[u8]
        requires { IsTrue self.now.holding.whole }
        ensures { result.now ≡ self.now.holding.kept }
    {
        self.feed.line()
    }

    /// Drops the line that is held.
    pub fn drop_line(&mut self)
        requires { IsTrue self.old.holding.whole }
        ensures { self.new ≡ after_line self.old }
    {
        self.feed.next();
    }

    /// Goes on to the next line, which it holds, or to where there is none. It reads only where no line is at hand.
    pub fn advance<S: Source>(&mut self, input: &mut S) -> Result<Next, Failed>
        requires part { ¬ IsTrue self.old.holding.whole }
        requires given { S.given input.old + self.old.left < 2 ^ 128 - 1 }
        ensures next { IfOk result (IsNext self.old self.new (S.left input.old) (S.left input.new)) }
        ensures failed { OnErr result (IsFailed self.old self.new (S.left input.old) (S.left input.new)) }

        // So going on comes to an end.
        ensures fewer { IfOk result (λ next. next ≡ Next.Line false
            → length self.new.unread + self.new.left < length self.old.unread + self.old.left) }
        ensures given { S.given input.new + self.new.left + bit self.old.past
            ≡ S.given input.old + self.old.left + bit self.new.past }
        ensures faults { S.faults input.old ≤ S.faults input.new }
        ensures cause { OnErr result (Rose (S.faults input.old) (S.faults input.new)) }
    {
        loop {
            if self.feed_on() {
                return Ok(Next::Line { last: false });
            }
            if self.past {
                return Ok(Next::PastLimit);
            }
            if !self.fill(input)? {
                return Ok(self.end());
            }
        }
    }

    /// Cuts what is at hand up to the first LF, and answers whether there was one.
    fn feed_on(&mut self) -> bool
        requires { ¬ IsTrue self.old.holding.whole }
        ensures held { self.new.holding ≡ fed self.old.holding self.old.unread }
        ensures unread { self.new.unread ≡ drop (used_of self.old.unread) self.old.unread }
        ensures left { self.new.left ≡ self.old.left }
        ensures past { self.new.past ≡ self.old.past }
        ensures lf { result ≡ has_lf self.old.unread }
        ensures was_cut { IsCutLine self.old.holding.kept }
        ensures is_cut { IsCutLine self.new.holding.kept }
        ensures some { result ≡ true → length self.new.unread < length self.old.unread }
    {
        let fed = self.feed.feed(&self.buffer[self.from..self.to]);
        self.from += fed.used;
        fed.whole
    }

    /// Reads more bytes, and answers whether there were any.
    fn fill<S: Source>(&mut self, input: &mut S) -> Result<bool, Failed>
        requires unread { self.old.unread ≡ [] }
        requires past { self.old.past ≡ false }
        requires given { S.given input.old + self.old.left < 2 ^ 128 - 1 }
        ensures gave { OnOk result (Gave [] self.old self.new (S.left input.old) (S.left input.new)) }
        ensures holding { self.new.holding ≡ self.old.holding }
        ensures some { IfOk result (λ some. some ≡ true → self.new.left < self.old.left + bit self.new.past) }
        ensures dry { IfOk result (λ some. some ≡ false
            → (self.new.unread ≡ []) × (self.new.past ≡ false) × IsDry (S.left input.old) (S.left input.new)) }
        ensures count { OnOk result (length self.new.unread + self.new.left ≡ self.old.left) }
        ensures given { S.given input.new + self.new.left ≡ S.given input.old + self.old.left + bit self.new.past }
        ensures failed { OnErr result ((self.new ≡ self.old) × (S.left input.new ≡ S.left input.old)) }
        ensures faults { S.faults input.old ≤ S.faults input.new }
        ensures cause { OnErr result (Rose (S.faults input.old) (S.faults input.new)) }
    {
        let piece = read_piece(input, self.buffer.as_mut_slice(), self.left)?;
        self.from = 0;
        self.to = piece.count;
        self.left -= piece.count as u64;
        self.past = piece.past_limit;
        Ok(piece.count > 0 || piece.past_limit)
    }

    /// What comes at the end of the source: a last line that no LF ends, or nothing.
    fn end(&mut self) -> Next
        requires part { ¬ IsTrue self.old.holding.whole }
        requires unread { self.old.unread ≡ [] }
        requires past { self.old.past ≡ false }
        ensures next { (first : Reading) (left later : Option (List ℕ)) → IsDry left later
            → Gave [] first self.old left later
            → IsNext first self.new left later result }
        ensures not_a_line { result ≡ Next.Line false → ⊥ }
        ensures left { self.new.left ≡ self.old.left }
        ensures past { self.new.past ≡ self.old.past }
    {
        if self.feed.end() {
            Next::Line { last: true }
        } else {
            Next::End
        }
    }
}

/// Reads bytes into the front of the buffer, at most one more than is left up to the limit.
fn read_piece<S: Source>(input: &mut S, buffer: &mut [u8], left: u64) -> Result<Piece, Failed>
    requires room { 0 < length buffer.old }
    requires limit { left < 2 ^ 64 - 1 }
    ensures within { IfOk result (λ piece. piece.count ≤ length buffer.new) }
    ensures within_limit { IfOk result (λ piece. piece.count ≤ left) }
    ensures past { IfOk result (λ piece. piece.past_limit ≡ true → piece.count ≡ left) }
    ensures told { (bytes : List ℕ) → S.left input.old ≡ Some bytes
        → IfOk result (IsReadOf bytes buffer.new (S.left input.new)) }
    ensures given { IfOk result (λ piece. S.given input.new
        ≡ min (S.given input.old + (piece.count + bit piece.past_limit)) (2 ^ 128 - 1)) }
    ensures failed_left { OnErr result (S.left input.new ≡ S.left input.old) }
    ensures failed_given { OnErr result (S.given input.new ≡ S.given input.old) }
    ensures faults { S.faults input.old ≤ S.faults input.new }
    ensures cause { OnErr result (Rose (S.faults input.old) (S.faults input.new)) }
{
    let most = buffer.len().min((left + 1) as usize);
    let given = input.read(&mut buffer[..most])?;
    let count = given.min(left as usize);
    Ok(Piece {
        count,
        past_limit: count < given,
    })
}

fn piece_buffer(alloc: Global) -> Result<Vec<u8>, AllocError>
    ensures { IfOk result (λ buffer. vec_len buffer ≡ PIECE) }
{
    vec![in alloc; 0u8; PIECE]
}
