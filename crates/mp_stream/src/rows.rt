//! The row of the last window: its distances to all windows, in which a missing sample counts as 0.

ghost use Rattle.std.specs.Prelude.{◌≡◌, ℕ, ◌+◌, ◌-◌, ◌*◌, ◌^◌, ◌<◌, ◌≤◌, length, slice_index, true, IfOk};
ghost use Rattle.mp_defs.specs.Least.{near};
ghost use Rattle.mp_defs.specs.Window.{windows};
ghost use Rattle.mp_series.specs.Samples.{numbers_in};
ghost use Rattle.mp_series.specs.declared.limits.TheConstants.{MAX_WINDOW};
ghost use Rattle.mp_sums.specs.Ranges.{AreWithin};
ghost use Rattle.mp_stream.specs.Limits.{limit_of};
ghost use Rattle.mp_stream.specs.Offers.{AreOffered, IsReady};
ghost use Rattle.mp_stream.specs.Reads.{OnlyReads};
ghost use Rattle.mp_stream.specs.Rows.{sum_at, HavePlaces, IsBefore, IsRow, LieClose, last_place};
ghost use Rattle.mp_stream.specs.Rows.{distance_from, row_candidate};
ghost use Rattle.mp_stream.specs.Streams.{IsTurned, wide_room};

use crate::entries::Entries;
use crate::limits::COARSE_BITS;
use crate::moves::Moves;
use crate::narrow::Narrow;
use crate::narrow_rows::take_row;
use crate::queues::Queue;
use crate::sums::move_sums;
use crate::wide::Wide;
use mp_nums::{Memory, Slot, Whole};
use mp_series::Samples;
use mp_sums::{Range, window_sum};
use std::alloc::Global;
use std::mem::swap;

/// The sum of windows `i` and `j`.
fn sum_of(samples: &mut Samples, m: u32, i: u64, j: u64) -> u128
    requires first { i + m ≤ length samples.old.items }
    requires second { j + m ≤ length samples.old.items }
    requires width { m ≤ MAX_WINDOW }
    ensures sum { result ≡ sum_at (numbers_in samples.old.items) m i j }
    ensures read { OnlyReads (2 * m) samples.old samples.new }
{
    let (first, second) = samples.parts(i, j, u64::from(m));
    window_sum(first, second)
}

/// The sum of the first window and the one at the last place.
fn first_sum(numbers: &[Whole], m: u32, last: usize) -> u128
    requires long { length numbers.now ≡ last + m }
    requires width { m ≤ MAX_WINDOW }
    ensures { result ≡ sum_at numbers.now m 0 last }
{
    window_sum(&numbers[..m as usize], &numbers[last..])
}

/// Makes the row of the last window in 128 bits from the row of the window before it. The result is whether the range
/// of the numbers tells that its sums have no more than `COARSE_BITS`.
pub(crate) fn next_wide_row(numbers: &[Whole], m: u32, range: &Range, wide: &mut Wide) -> bool
    requires before { IsBefore m numbers.now (last_place m numbers.now) wide.old.sums.items wide.old.next.items }
    requires range { AreWithin range.now numbers.now }
    ensures places { HavePlaces (last_place m numbers.now + 1) wide.new.sums.items wide.new.next.items }
    ensures row { IsRow numbers.now m (last_place m numbers.now) wide.new.sums.items }
    ensures small { result ≡ true → (i : ℕ) → i < length wide.new.sums.items
        → slice_index wide.new.sums.items i < 2 ^ 79 }
    ensures room { wide_room wide.new ≡ wide_room wide.old }
{
    let is_coarse = range.sums_fit(m, COARSE_BITS);
    let is_close = range.sums_fit(1, 64);
    let last = wide.sums.as_slice().len() - 1;
    let first = first_sum(numbers, m, last);
    let leaves = &numbers[..last];
    let enters = &numbers[m as usize..];
    let before = &wide.sums.as_slice()[..last];
    let next = wide.next.as_mut_slice();
    move_sums(first, before, enters, leaves, is_close, next);
    swap(&mut wide.sums, &mut wide.next);
    is_coarse
}

/// Makes the row of the last window in 64 bits from the row of the window before it, and offers the last window to each
/// free window before `end` on the right. The result is the nearest of these.
pub(crate) fn next_narrow_row(
    numbers: &[Whole],
    m: u32,
    narrow: &mut Narrow,
    free: &[bool],
    end: usize,
    entries: &mut Entries,
) -> Slot
    requires before { IsBefore m numbers.now (last_place m numbers.now) narrow.old.sums.items narrow.old.next.items }
    requires close { LieClose m numbers.now }
    requires frees { length free.now ≡ last_place m numbers.now + 1 }
    requires within { end ≤ last_place m numbers.now }
    requires ready { IsReady limit_of (last_place m numbers.now) entries.old }
    ensures turned { IsTurned m numbers.now (last_place m numbers.now) narrow.old narrow.new }
    ensures offered { AreOffered limit_of free.now (distance_from m numbers.now (last_place m numbers.now))
        (last_place m numbers.now) 0 end entries.old entries.new }
    ensures best { result
        ≡ near (row_candidate free.now (distance_from m numbers.now (last_place m numbers.now))) end }
{
    let last = narrow.sums.as_slice().len() - 1;
    let first = first_sum(numbers, m, last) as u64;
    let moves = Moves {
        first,
        before: &narrow.sums.as_slice()[..last],
        enters: &numbers[m as usize..],
        leaves: &numbers[..last],
        free,
    };
    let best = take_row(&moves, end, narrow.next.as_mut_slice(), entries);
    swap(&mut narrow.sums, &mut narrow.next);
    best
}

/// The row of the last of so many windows.
pub(crate) fn last_row(
    alloc: Global,
    samples: &mut Samples,
    m: u32,
    count: u64,
) -> Result<Queue<u128>, Memory>
    requires least { 1 ≤ m }
    requires width { m ≤ MAX_WINDOW }
    requires count { count ≡ windows (length samples.old.items) m }
    ensures places { IfOk result (λ row. length row.items ≡ count) }
    ensures row { IfOk result (λ row. IsRow (numbers_in samples.old.items) m (count - 1) row.items) }
    ensures items { samples.new.items ≡ samples.old.items }
    ensures reads_rise { samples.old.reads ≤ samples.new.reads }
    ensures reads { samples.new.reads ≤ samples.old.reads + length samples.old.items * (2 * m) }
{
    let mut row = Queue::new(alloc);
    row.reserve(count)?;
    for i in 0..count {
        row.push(sum_of(samples, m, i, count - 1))?;
    }
    Ok(row)
}
