//! The row of the last window in 64 bits, and what it makes of the entries.

ghost use Rattle.std.specs.Prelude.{◌≡◌, ℕ, ◌+◌, ◌<◌, ◌≤◌, length, max, slice_index, None};
ghost use Rattle.mp_defs.specs.Least.{near};
ghost use Rattle.mp_stream.specs.Limits.{limit_of};
ghost use Rattle.mp_stream.specs.Moves.{AreMoved, AreOfferedBy, last_moved, moved_by, moved_candidate};
ghost use Rattle.mp_stream.specs.Offers.{IsReady};

use crate::bests::Best;
use crate::entries::Entries;
use crate::limits::GREATEST;
use crate::moves::Moves;
use crate::narrow_sums::{move_below, move_rest};
use crate::taking::take;
use mp_nums::Slot;

/// How many windows are tested at once.
const GROUP: usize = 32;

/// Moves the sums of the windows from `first` on and before `end`, and offers the last window to these where one of
/// these sums may be nearer than what is known. Else no entry changes.
#[inline]
fn take_group(
    moves: &Moves,
    first: usize,
    end: usize,
    sums: &mut [u64],
    entries: &mut Entries,
    best: &mut Best,
)
    requires moved { AreMoved moves.now first sums.old }
    requires after { 1 ≤ first }
    requires ordered { first ≤ end }
    requires within { end ≤ last_moved moves.now }
    requires ready { IsReady limit_of (last_moved moves.now) entries.old }
    requires best { best.old.found ≡ near (moved_candidate moves.now) first }
    ensures moved { AreMoved moves.now end sums.new }
    ensures offered { AreOfferedBy moves.now first end entries.old entries.new }
    ensures best { best.new.found ≡ near (moved_candidate moves.now) end }
{
    let limits = entries.limits.as_slice();
    let is_below = move_below(moves, first, end, sums, limits, best.limit);
    if is_below {
        take(sums, moves.free, first, end, entries, best);
    }
}

/// The same of the windows from window 1 on and before `end`, in groups.
#[inline]
fn take_groups(moves: &Moves, end: usize, sums: &mut [u64], entries: &mut Entries, best: &mut Best)
    requires moved { AreMoved moves.now 1 sums.old }
    requires ordered { 1 ≤ end }
    requires within { end ≤ last_moved moves.now }
    requires ready { IsReady limit_of (last_moved moves.now) entries.old }
    requires best { best.old.found ≡ near (moved_candidate moves.now) 1 }
    ensures moved { AreMoved moves.now end sums.new }
    ensures offered { AreOfferedBy moves.now 1 end entries.old entries.new }
    ensures best { best.new.found ≡ near (moved_candidate moves.now) end }
{
    let groups = (end - 1) / GROUP;
    for g in 0..groups {
        let first = 1 + g * GROUP;
        take_group(moves, first, first + GROUP, sums, entries, best);
    }
    take_group(moves, 1 + groups * GROUP, end, sums, entries, best);
}

/// The same from window 0 on. The result is the nearest of these windows.
fn take_some(moves: &Moves, end: usize, sums: &mut [u64], entries: &mut Entries) -> Slot
    requires moved { AreMoved moves.now 1 sums.old }
    requires ordered { 1 ≤ end }
    requires within { end ≤ last_moved moves.now }
    requires ready { IsReady limit_of (last_moved moves.now) entries.old }
    ensures moved { AreMoved moves.now end sums.new }
    ensures offered { AreOfferedBy moves.now 0 end entries.old entries.new }
    ensures best { result ≡ near (moved_candidate moves.now) end }
{
    let mut best = Best {
        found: None,
        limit: GREATEST,
    };
    take(sums, moves.free, 0, 1, entries, &mut best);
    take_groups(moves, end, sums, entries, &mut best);
    best.found
}

/// The same where there are any.
fn take_any(moves: &Moves, end: usize, sums: &mut [u64], entries: &mut Entries) -> Slot
    requires moved { AreMoved moves.now 1 sums.old }
    requires within { end ≤ last_moved moves.now }
    requires ready { IsReady limit_of (last_moved moves.now) entries.old }
    ensures moved { AreMoved moves.now (max 1 end) sums.new }
    ensures offered { AreOfferedBy moves.now 0 end entries.old entries.new }
    ensures best { result ≡ near (moved_candidate moves.now) end }
{
    if end == 0 {
        return None;
    }
    take_some(moves, end, sums, entries)
}

/// Moves the row to the last window, and offers this to each free window before `end` on the right. The result is the
/// nearest of these.
pub(crate) fn take_row(moves: &Moves, end: usize, sums: &mut [u64], entries: &mut Entries) -> Slot
    requires places { length sums.old ≡ last_moved moves.now + 1 }
    requires within { end ≤ last_moved moves.now }
    requires ready { IsReady limit_of (last_moved moves.now) entries.old }
    ensures row { (i : ℕ) → i < length sums.old → slice_index sums.new i ≡ moved_by moves.now i }
    ensures offered { AreOfferedBy moves.now 0 end entries.old entries.new }
    ensures best { result ≡ near (moved_candidate moves.now) end }
{
    sums[0] = moves.first;
    let best = take_any(moves, end, sums, entries);
    move_rest(moves, end.max(1), sums);
    best
}
