//! What is found ahead of the pieces of a kernel, by workers side by side.

ghost use Rattle.std.specs.Prelude.{◌≡◌, ℕ, ◌+◌, ◌<◌, ◌≤◌, length};
ghost use Rattle.std.specs.Thread.{IsSync, IsSend};
ghost use Rattle.mp_partial.specs.Values.{Value};
ghost use Rattle.mp_workers.specs.Begins.{AreAhead};

use crate::aside::run_aside;
use mp_partial::{MAX_WORKERS, Part};
use std::thread::{Threads, join_mut};

/// What of a whole is found ahead of its pieces, so that less is left to be found when these are run. It is cut into
/// shares, one for each worker. Threads can share it.
pub trait Begin: Sync {
    /// What the shares are found in.
    type Out: Part;

    /// The size of the whole.
    ghost size_of: { Self → ℕ };

    /// What all pieces have together.
    ghost whole: { Self → Value };

    /// Finds a share, of so many shares. With the whole it makes what the part made with it before. It takes no memory.
    fn begin(&self, share: u32, shares: u32, into: &mut Self::Out)
        requires share { share < shares }
        requires size { Self.Out.size_of into.old ≡ size_of self.now }
        ensures whole { Self.Out.merged (Self.Out.value into.new) (whole self.now)
            ≡ Self.Out.merged (Self.Out.value into.old) (whole self.now) }
        ensures size { Self.Out.size_of into.new ≡ Self.Out.size_of into.old }
        ensures is_value { Self.Out.is_value (Self.Out.size_of into.new) (Self.Out.value into.new) }
        ensures room { Self.Out.room_of into.new ≡ Self.Out.room_of into.old };
}

/// A share by its number, and how many there are.
#[derive(Clone, Copy)]
pub(crate) struct Share {
    pub(crate) number: u32,
    pub(crate) of: u32,
}

/// Finds a share for the first of some parts.
fn begin_one<P: Part, B: Begin<Out = P>>(ahead: &B, share: &Share, parts: &mut [P])
    requires some { 0 < length parts.old }
    requires shares { share.now.number + length parts.old ≤ share.now.of }
    requires kept { AreAhead P.size_of P.is_value P.value P.merged (B.size_of ahead.now) (B.whole ahead.now) parts.old }
    ensures { AreAhead P.size_of P.is_value P.value P.merged (B.size_of ahead.now) (B.whole ahead.now) parts.new }
{
    ahead.begin(share.number, share.of, &mut parts[0]);
}

/// Finds a share for each of some parts, from one on, side by side, each in a thread of its own. The first part then
/// has what all of them found.
#[cycle(begins)]
fn begin_some<R: Threads + Sync, P: Part, B: Begin<Out = P>>(
    rt: &R,
    ahead: &B,
    share: &Share,
    parts: &mut [P],
)
    requires some { 0 < length parts.old }
    requires shares { share.now.number + length parts.old ≤ share.now.of }
    requires kept { AreAhead P.size_of P.is_value P.value P.merged (B.size_of ahead.now) (B.whole ahead.now) parts.old }
    ensures { AreAhead P.size_of P.is_value P.value P.merged (B.size_of ahead.now) (B.whole ahead.now) parts.new }
{
    if parts.len() == 1 {
        let mut one = ||
            requires { (0 < length parts.now) × (share.now.number + length parts.now ≤ share.now.of)
                × AreAhead P.size_of P.is_value P.value P.merged (B.size_of ahead.now) (B.whole ahead.now) parts.now }
            ensures { AreAhead P.size_of P.is_value P.value P.merged (B.size_of ahead.entry.now)
                (B.whole ahead.entry.now) parts.exit.now }
        { begin_one(ahead, share, parts) };
        run_aside(rt, &mut one);
        return;
    }
    let (low, high) = parts.split_at_mut(parts.len() / 2);
    let next = Share {
        number: share.number + low.len() as u32,
        of: share.of,
    };
    begin_both(rt, ahead, share, &next, low, high);
    low[0].merge(&high[0]);
}

/// Finds a share for each part of two halves, from one on for each half, side by side. The first part of each then has
/// what all of its half found.
#[cycle(begins)]
fn begin_both<R: Threads + Sync, P: Part, B: Begin<Out = P>>(
    rt: &R,
    ahead: &B,
    share: &Share,
    next: &Share,
    low: &mut [P],
    high: &mut [P],
)
    requires some { 0 < length low.old }
    requires others { 0 < length high.old }
    requires shares { share.now.number + length low.old ≤ share.now.of }
    requires next_shares { next.now.number + length high.old ≤ next.now.of }
    requires kept { AreAhead P.size_of P.is_value P.value P.merged (B.size_of ahead.now) (B.whole ahead.now) low.old }
    requires others_kept { AreAhead P.size_of P.is_value P.value P.merged (B.size_of ahead.now) (B.whole ahead.now)
        high.old }
    ensures low { AreAhead P.size_of P.is_value P.value P.merged (B.size_of ahead.now) (B.whole ahead.now) low.new }
    ensures high { AreAhead P.size_of P.is_value P.value P.merged (B.size_of ahead.now) (B.whole ahead.now) high.new }
{
    let mut front = ||
        requires { IsSync R.row × IsSync B.row × IsSend P.row × (0 < length low.now)
            × (share.now.number + length low.now ≤ share.now.of)
            × AreAhead P.size_of P.is_value P.value P.merged (B.size_of ahead.now) (B.whole ahead.now) low.now }
        ensures { AreAhead P.size_of P.is_value P.value P.merged (B.size_of ahead.entry.now)
            (B.whole ahead.entry.now) low.exit.now }
    { begin_some(rt, ahead, share, low) };
    let mut back = ||
        requires { IsSync R.row × IsSync B.row × IsSend P.row × (0 < length high.now)
            × (next.now.number + length high.now ≤ next.now.of)
            × AreAhead P.size_of P.is_value P.value P.merged (B.size_of ahead.now) (B.whole ahead.now) high.now }
        ensures { AreAhead P.size_of P.is_value P.value P.merged (B.size_of ahead.entry.now)
            (B.whole ahead.entry.now) high.exit.now }
    { begin_some(rt, ahead, next, high) };
    join_mut(rt, &mut front, &mut back);
}

/// Finds a share for each of some parts, side by side. The first part then has what all of them found.
pub(crate) fn begin_all<R: Threads + Sync, P: Part, B: Begin<Out = P>>(
    rt: &R,
    ahead: &B,
    parts: &mut [P],
)
    requires some { 0 < length parts.old }
    requires few { length parts.old ≤ MAX_WORKERS }
    requires kept { AreAhead P.size_of P.is_value P.value P.merged (B.size_of ahead.now) (B.whole ahead.now) parts.old }
    ensures { AreAhead P.size_of P.is_value P.value P.merged (B.size_of ahead.now) (B.whole ahead.now) parts.new }
{
    let first = Share {
        number: 0,
        of: parts.len() as u32,
    };
    if parts.len() == 1 {
        begin_one(ahead, &first, parts);
    } else {
        begin_some(rt, ahead, &first, parts);
    }
}
