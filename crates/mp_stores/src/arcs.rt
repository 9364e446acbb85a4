//! Arcs that follow a profile as it changes.

ghost use Rattle.std.specs.Prelude.{◌≡◌, ℕ, ◌+◌, ◌*◌, ◌<◌, ◌≤◌, false, true, length, min, slice_index_or, slice_set};
ghost use Rattle.std.specs.Prelude.{IfSome, None};
ghost use Rattle.mp_results.specs.Arcs.{index_of, indices_of, NameWithin};
ghost use Rattle.mp_defs.specs.Limits.{max_samples};
ghost use Rattle.mp_stores.specs.Channels.{IsNamed, NameUnmarked};
ghost use Rattle.mp_stream.specs.Blocks.{block_count};

use mp_arcs::ArcBoard;
use mp_nums::Slot;
use mp_stream::BLOCK;

/// Names for each window its nearest one in a profile, in place of those that fewer windows had before. A window that
/// keeps its nearest one isn't touched.
pub(crate) fn follow(board: &mut ArcBoard, profile: &[Slot])
    requires fewer { length board.old.items ≤ length profile.now }
    requires room { length profile.now ≤ length board.old.items + board.old.spare }
    requires few { length profile.now ≤ max_samples }
    requires named { NameWithin (indices_of profile.now) }
    ensures { board.new.items ≡ indices_of profile.now }
{
    grow_to(board, profile.len() as u64);
    name_part(board, profile, 0, profile.len());
}

/// The same where the windows of all blocks that aren't marked name their nearest ones already. It goes over the marked
/// blocks alone.
pub(crate) fn follow_changes(board: &mut ArcBoard, profile: &[Slot], changed: &[bool])
    requires fewer { length board.old.items ≤ length profile.now }
    requires room { length profile.now ≤ length board.old.items + board.old.spare }
    requires few { length profile.now ≤ max_samples }
    requires named { NameWithin (indices_of profile.now) }
    requires blocks { length changed.now ≡ block_count (length profile.now) }
    requires unmarked { NameUnmarked profile.now changed.now board.old.items }
    ensures { board.new.items ≡ indices_of profile.now }
{
    grow_to(board, profile.len() as u64);
    name_marked(board, profile, changed);
}

/// Adds windows up to so many, for which there is room. They name none.
fn grow_to(board: &mut ArcBoard, count: u64)
    requires fewer { length board.old.items ≤ count }
    requires room { count ≤ length board.old.items + board.old.spare }
    requires few { count ≤ max_samples }
    ensures long { length board.new.items ≡ count }
    ensures same { (i : ℕ) → slice_index_or board.new.items i None ≡ slice_index_or board.old.items i None }
{
    for _ in board.len()..count {
        board.grow();
    }
}

/// Names for each window of the marked blocks its nearest one.
fn name_marked(board: &mut ArcBoard, profile: &[Slot], changed: &[bool])
    requires places { length board.old.items ≡ length profile.now }
    requires few { length profile.now ≤ max_samples }
    requires named { NameWithin (indices_of profile.now) }
    requires blocks { length changed.now ≡ block_count (length profile.now) }
    requires unmarked { NameUnmarked profile.now changed.now board.old.items }
    ensures { board.new.items ≡ indices_of profile.now }
{
    for block in 0..changed.len() {
        name_block(board, profile, block, changed[block]);
    }
}

/// Names for each window of a block its nearest one, where the block is marked.
fn name_block(board: &mut ArcBoard, profile: &[Slot], block: usize, is_marked: bool)
    requires places { length board.old.items ≡ length profile.now }
    requires few { length profile.now ≤ max_samples }
    requires named { NameWithin (indices_of profile.now) }
    requires block { block < block_count (length profile.now) }
    ensures marked { is_marked ≡ true
        → IsNamed profile.now (block * 32) (min (length profile.now) (block * 32 + 32)) board.old.items
        board.new.items }
    ensures unmarked { is_marked ≡ false → board.new.items ≡ board.old.items }
{
    if is_marked {
        let first = block * BLOCK as usize;
        let end = profile.len().min(first + BLOCK as usize);
        name_part(board, profile, first, end);
    }
}

/// Names for each window from `first` on and before `end` its nearest one.
fn name_part(board: &mut ArcBoard, profile: &[Slot], first: usize, end: usize)
    requires places { length board.old.items ≡ length profile.now }
    requires named { NameWithin (indices_of profile.now) }
    requires ordered { first ≤ end }
    requires within { end ≤ length profile.now }
    ensures { IsNamed profile.now first end board.old.items board.new.items }
{
    for i in first..end {
        name(board, i as u64, index_of(profile[i]));
    }
}

fn index_of(slot: Slot) -> Option<u64>
    ensures { result ≡ index_of slot }
{
    slot.map(|near| near.index)
}

/// Names a window for window `i`, where this named another one.
fn name(board: &mut ArcBoard, i: u64, nearest: Option<u64>)
    requires window { i < length board.old.items }
    requires named { IfSome nearest (λ j. j < length board.old.items) }
    ensures { board.new.items ≡ slice_set board.old.items i nearest }
{
    if board.get(i) != nearest {
        board.change(i, nearest);
    }
}
