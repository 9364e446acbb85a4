//! What moves a row of sums one place on.

ghost use Rattle.std.specs.Prelude.{◌≡◌, ℕ, ◌+◌, ◌^◌, ◌<◌, ◌≤◌, length};
ghost use Rattle.mp_stream.specs.Rows.{AreClose, CanMove, moved_row};

use mp_nums::Whole;

/// The sums of all windows with the one before the last, the numbers that enter these windows and those that leave
/// them, the sum of the first window with the last one, and which of all windows are free.
#[derive(Clone, Copy)]
pub(crate) struct Moves<'a> {
    pub(crate) first: u64,
    pub(crate) before: &'a [u64],
    pub(crate) enters: &'a [Whole],
    pub(crate) leaves: &'a [Whole],
    pub(crate) free: &'a [bool],
    ghost can: { CanMove (2 ^ 64) before.now enters.now leaves.now },
    ghost close: { AreClose (2 ^ 62) enters.now leaves.now },
    ghost small: { (i : ℕ) → i ≤ length before.now → moved_row first before.now enters.now leaves.now i < 2 ^ 63 },
    ghost frees: { length free.now ≡ length before.now + 1 },
}
