//! The scan of a tile of pairs of windows.

ghost use Rattle.std.specs.Prelude.{◌≡◌, ◌+◌, ◌-◌, ◌<◌, ◌≤◌, length, map, slice_index_or, [], Option};
ghost use Rattle.std.specs.Option.{option_map};
ghost use Rattle.mp_defs.specs.Series.{series_of};
ghost use Rattle.mp_defs.specs.Window.{windows, excl};
ghost use Rattle.mp_defs.specs.Least.{at_distance};
ghost use Rattle.mp_partial.specs.Values.{merged_column};
ghost use Rattle.mp_cuts.specs.Pairs.{has_pair, IsTileBetween};
ghost use Rattle.mp_tiles.specs.Scanning.{taken};
ghost use Rattle.mp_multi.specs.Conditions.{AreChannels};
ghost use Rattle.mp_multi.specs.Among.{multi_among, on_diagonal, TakesAmong};

use crate::channels::Channels;
use crate::running::Running;
use mp_cuts::Tile;
use mp_nums::{Slots, Sq};
use mp_partial::offer_at;
use mp_series::Bundle;

/// Offers two windows of this value to each other.
#[inline]
pub(crate) fn offer_both(into: &mut Slots, i: u64, j: u64, value: Option<Sq>)
    requires first { i < length into.old.items }
    requires second { j < length into.old.items }
    ensures items { into.new.items ≡ taken (taken into.old.items i (at_distance j (option_map (λ v. v.0) value))) j
        (at_distance i (option_map (λ v. v.0) value)) }
    ensures spare { into.new.spare ≡ into.old.spare }
{
    if let Some(value) = value {
        offer_at(into, i, j, value);
        offer_at(into, j, i, value);
    }
}

/// Offers the windows that start in the rows from `row` on and before `end`, each `apart` before the other.
fn scan_diagonal<const D: usize>(
    channels: &Channels,
    row: u64,
    end: u64,
    apart: u64,
    into: &mut Slots,
)
    requires count { length channels.now.list.now ≡ D }
    requires some { row < end }
    requires apart { 1 ≤ apart }
    requires last { end + apart ≤ length into.old.items }
    requires places { length into.old.items
        ≡ windows (length (slice_index_or channels.now.list.now 0 [])) channels.now.m }
    ensures items { TakesAmong (on_diagonal row end apart) channels.now.m channels.now.k channels.now.list.now
        into.old.items into.new.items }
    ensures spare { into.new.spare ≡ into.old.spare }
{
    let mut running: [Running; D] = channels.at(row, row + apart);
    offer_both(into, row, row + apart, channels.value(&running));
    for i in row..end - 1 {
        channels.move_on(&mut running, i, i + apart);
        offer_both(into, i + 1, i + 1 + apart, channels.value(&running));
    }
}

/// Offers each two windows of a pair of the tile to each other, where they have a value: where at least `k` of the `D`
/// channels have both without a missing sample, the sum of their `k` least squared distances. It takes no memory.
pub fn scan_multi<const D: usize>(channels: &Bundle, m: u32, k: u64, tile: &Tile, into: &mut Slots)
    requires channels { AreChannels channels.now m k }
    requires count { length channels.now ≡ D }
    requires tile { IsTileBetween (excl m + 1) (windows (length (slice_index_or channels.now 0 [])) m)
        (windows (length (slice_index_or channels.now 0 [])) m) tile.now }
    requires places { length into.old.items ≡ windows (length (slice_index_or channels.now 0 [])) m }
    ensures items { into.new.items
        ≡ merged_column into.old.items (multi_among (has_pair 0 tile.now) m k (map series_of channels.now)) }
    ensures places { length into.new.items ≡ length into.old.items }
    ensures spare { into.new.spare ≡ into.old.spare }
{
    let windows = into.as_slice().len() as u64;
    let channels = Channels {
        list: channels,
        m,
        k,
    };
    for apart in tile.first..tile.last + 1 {
        let end = (tile.last_row + 1).min(windows - apart);
        if tile.first_row < end {
            scan_diagonal::<D>(&channels, tile.first_row, end, apart, into);
        }
    }
}
