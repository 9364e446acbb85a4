//! The lines of an input that comes in pieces.

ghost use Rattle.std.specs.Prelude.{◌≡◌, ◌≢◌, ◌+◌, ◌<◌, ◌≤◌, ◌↔◌, ◌++◌, [], All, IsTrue, IfOk, length, take};
ghost use Rattle.std.specs.Prelude.{vec_capacity};

use memchr::memchr;
use mp_nums::Memory;
use std::alloc::Global;
use std::marker::Model;

/// How many bytes of a line are kept: one more than the longest line has, so that a line that is too long still shows
/// as one.
const KEPT: usize = 1_048_577;

/// Cuts an input that comes in pieces into its lines. It holds one line at a time, in room that it takes once.
#[derive(Debug, Drop)]
pub struct Feed {
    kept: Vec<u8>,
    whole: bool,
}

impl Model for Feed {
    ghost use Rattle.std.specs.Prelude.{◌≤◌, vec_capacity};
    ghost use Rattle.mp_feed.specs.Feeding.{Holding, IsCutLine};
    ghost use Rattle.mp_bytes.specs.Lines.{most_kept};

    ghost Value = { Holding };

    ghost view = { λ a. record { kept = a.kept.items; whole = a.whole } };

    ghost invariant = { λ a. IsCutLine a.kept.items × (most_kept ≤ vec_capacity a.kept) };
}

/// What `Feed::feed` took of a piece.
#[derive(Clone, Copy, Debug, PartialEq, Eq)]
pub struct Fed {
    /// How many bytes it took from the front.
    pub used: usize,
    /// Whether they end a line, which is held now.
    pub whole: bool,
}

impl Feed {
    ghost use Rattle.mp_feed.specs.Feeding.{nothing, has_lf, used_of, fed, ended, IsCutLine};
    ghost use Rattle.mp_bytes.specs.Lines.{most_kept};
    ghost use Rattle.mp_bytes.specs.Bytes.{line_feed};

    /// Takes all the room that a `Feed` ever needs.
    pub fn new(alloc: Global) -> Result<Feed, Memory>
        ensures { IfOk result (λ feed. feed ≡ nothing) }
    {
        let kept = Vec::with_capacity(alloc, KEPT)?;
        Ok(Feed { kept, whole: false })
    }

    /// Whether a whole line is held.
    pub fn is_whole(&self) -> bool
        ensures { result ≡ self.now.whole }
    {
        self.whole
    }

    /// Takes bytes up to and with the piece's first LF, or the whole piece where it has none. Of a line, the first
    /// 1,048,577 bytes are kept.
    pub fn feed(&mut self, piece: &[u8]) -> Fed
        requires { ¬ IsTrue self.old.whole }
        ensures held { self.new ≡ fed self.old piece.now }
        ensures whole { result.whole ≡ has_lf piece.now }
        ensures used { result.used ≡ used_of piece.now }

        // So what is left of the piece is `&piece[used..]`, and feeding on what is left comes to an end.
        ensures within { result.used ≤ length piece.now }
        ensures some { 0 < length piece.now → 0 < result.used }

        // What is kept of a line never has an LF, and is never longer than a line is cut.
        ensures was_cut { IsCutLine self.old.kept }
        ensures is_cut { IsCutLine self.new.kept }
    {
        let lf = memchr(b'\n', piece);
        let line_end = lf.unwrap_or(piece.len());
        keep(&mut self.kept, &piece[..line_end]);
        self.whole = lf.is_some();
        Fed {
            used: line_end + usize::from(self.whole),
            whole: self.whole,
        }
    }

    /// Makes a line of the bytes that are held without an LF, and answers whether there were any.
    pub fn end(&mut self) -> bool
        requires { ¬ IsTrue self.old.whole }
        ensures held { self.new ≡ ended self.old }
        ensures some { IsTrue result ↔ (0 < length self.old.kept) }
        ensures whole { result ≡ self.new.whole }
        ensures was_cut { IsCutLine self.old.kept }
    {
        self.whole = !self.kept.is_empty();
        self.whole
    }

    /// The line that is held, without its LF.
    pub fn line(&self) -> &[u8]
        requires { IsTrue self.now.whole }
        ensures kept { result.now ≡ self.now.kept }
        ensures no_lf { All (λ b. b ≢ line_feed) result.now }
        ensures short { length result.now ≤ most_kept }
    {
        self.kept.as_slice()
    }

    /// Drops the line that is held.
    pub fn next(&mut self)
        requires { IsTrue self.old.whole }
        ensures { self.new ≡ nothing }
    {
        self.kept.clear();
        self.whole = false;
    }
}

// Appends the bytes, up to as many as are kept of a line.
fn keep(kept: &mut Vec<u8>, bytes: &[u8])
    requires room { KEPT ≤ vec_capacity kept.old }
    requires short { length kept.old.items ≤ KEPT }
    ensures kept { kept.new.items ≡ take KEPT (kept.old.items ++ bytes.now) }
    ensures room { vec_capacity kept.old ≤ vec_capacity kept.new }
{
    let fits = bytes.len().min(KEPT - kept.len());
    kept.extend_from_slice(&bytes[..fits]).unwrap();
}
