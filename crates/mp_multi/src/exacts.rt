//! What exact values are made of, brought along diagonals.

ghost use Rattle.std.specs.Prelude.{◌≡◌, ℕ, ◌+◌, ◌-◌, ◌≤◌, [], length, map, slice_index_or, true, IfSome};
ghost use Rattle.std.specs.Option.{option_map};
ghost use Rattle.mp_defs.specs.Series.{series_of};
ghost use Rattle.mp_results.specs.Multi.{pair_value};
ghost use Rattle.mp_results.specs.Slide.{square};
ghost use Rattle.mp_multi.specs.Running.{AreRunning};

use crate::channels::Channels;
use crate::running::Running;
use mp_nums::Sq;

/// Whether a row comes so soon behind another that what is kept of this is brought along sooner than made anew.
#[inline]
fn is_near(from: usize, row: usize, m: usize) -> bool
    ensures { result ≡ true → from ≤ row }
{
    from <= row && row - from <= m / 2
}

/// Brings what is kept of a diagonal to a row and its column, from that of the row that is named.
#[inline]
fn bring<const D: usize>(
    channels: &Channels,
    kept: Option<usize>,
    running: &mut [Running; D],
    row: usize,
    column: usize,
)
    requires channels { length channels.now.list.now ≡ D }
    requires order { row ≤ column }
    requires column { column + channels.now.m ≤ length (slice_index_or channels.now.list.now 0 []) }
    requires kept { IfSome kept (λ from. AreRunning channels.now.m channels.now.list.now from (from + (column - row))
        running.old) }
    ensures { AreRunning channels.now.m channels.now.list.now row column running.new }
{
    match kept {
        Some(from) if is_near(from, row, channels.m as usize) => {
            let apart = column - row;
            for i in from..row {
                channels.move_on(running, i as u64, (i + apart) as u64);
            }
        }
        _ => *running = channels.at(row as u64, column as u64),
    }
}

/// The value of a row and its column on a diagonal. What it is made of is kept then.
pub(crate) fn value_at<const D: usize>(
    channels: &Channels,
    kept: &mut Option<usize>,
    running: &mut [Running; D],
    row: usize,
    column: usize,
) -> Option<Sq>
    requires channels { length channels.now.list.now ≡ D }
    requires order { row ≤ column }
    requires column { column + channels.now.m ≤ length (slice_index_or channels.now.list.now 0 []) }
    requires kept { IfSome kept.old (λ from. AreRunning channels.now.m channels.now.list.now from
        (from + (column - row)) running.old) }
    ensures kept { IfSome kept.new (λ from. AreRunning channels.now.m channels.now.list.now from
        (from + (column - row)) running.new) }
    ensures value { result ≡ option_map square (pair_value channels.now.m channels.now.k
        (map series_of channels.now.list.now) row column) }
{
    bring(channels, *kept, running, row, column);
    *kept = Some(row);
    channels.value(running)
}
