//! What is found at the lengths of a range, as a part.

ghost use Rattle.std.specs.Prelude.{◌≡◌, ℕ, ◌+◌, ◌-◌, ◌*◌, ◌<◌, ◌≤◌, length, slice_index_or, IfOk, None};
ghost use Rattle.mp_defs.specs.Series.{series_of};
ghost use Rattle.mp_defs.specs.Window.{windows};
ghost use Rattle.mp_partial.specs.Values.{HasColumns, empty_column, merged_column, merged_columns};
ghost use Rattle.mp_tiles.specs.Scanning.{taken};
ghost use Rattle.mp_pan.specs.declared.limits.TheConstants.{MAX_LENGTHS, SPAN};
ghost use Rattle.mp_pan.specs.Ranges.{AreForLengths, HaveTaken, best_at, found_value, from_to, lengths_value};
ghost use Rattle.mp_pan.specs.Ranges.{near_slot, start_slot, unusual_at, window_of, has_extremes, no_extremes};
ghost use Rattle.mp_pan.specs.RangeLaws.{extremes_merge};
ghost use Rattle.mp_pan.specs.Spans.{ArePlaced};

use crate::extremes::find_extremes;
use crate::lengths::Lengths;
use crate::limits::{MAX_LENGTHS, SPAN};
use crate::scans::fill;
use mp_nums::{Discord, Memory, Slot, Slots};
use mp_partial::{Part, offer_at};
use std::alloc::Global;
use std::marker::Model;

/// For each length of a range one window, and the nearest other one, both by their distance. A length has a place by
/// how much it is above the least one.
#[derive(Debug, Drop)]
pub(crate) struct ByLength {
    starts: Slots,
    nearest: Slots,
}

impl ByLength {
    /// No window at any length.
    fn none(alloc: Global) -> Result<ByLength, Memory>
        ensures starts { IfOk result (λ windows. windows.starts.items ≡ empty_column MAX_LENGTHS) }
        ensures nearest { IfOk result (λ windows. windows.nearest.items ≡ empty_column MAX_LENGTHS) }
    {
        let lengths = u64::from(MAX_LENGTHS);
        Ok(ByLength {
            starts: Slots::unit(alloc, lengths)?,
            nearest: Slots::unit(alloc, lengths)?,
        })
    }

    fn clear(&mut self)
        ensures starts { self.new.starts.items ≡ empty_column (length self.old.starts.items) }
        ensures nearest { self.new.nearest.items ≡ empty_column (length self.old.nearest.items) }
        ensures starts_spare { self.new.starts.spare ≡ self.old.starts.spare }
        ensures nearest_spare { self.new.nearest.spare ≡ self.old.nearest.spare }
    {
        self.starts.clear();
        self.nearest.clear();
    }

    fn merge(&mut self, other: &ByLength)
        requires starts { length other.now.starts.items ≡ length self.old.starts.items }
        requires nearest { length other.now.nearest.items ≡ length self.old.nearest.items }
        ensures starts { self.new.starts.items ≡ merged_column self.old.starts.items other.now.starts.items }
        ensures nearest { self.new.nearest.items ≡ merged_column self.old.nearest.items other.now.nearest.items }
        ensures starts_spare { self.new.starts.spare ≡ self.old.starts.spare }
        ensures nearest_spare { self.new.nearest.spare ≡ self.old.nearest.spare }
    {
        self.starts.merge(&other.starts);
        self.nearest.merge(&other.nearest);
    }

    /// Puts the window of a length, where there is one.
    fn put(&mut self, place: u64, window: Option<Discord>)
        requires starts { place < length self.old.starts.items }
        requires nearest { place < length self.old.nearest.items }
        ensures starts { self.new.starts.items ≡ taken self.old.starts.items place (start_slot window) }
        ensures nearest { self.new.nearest.items ≡ taken self.old.nearest.items place (near_slot window) }
        ensures starts_spare { self.new.starts.spare ≡ self.old.starts.spare }
        ensures nearest_spare { self.new.nearest.spare ≡ self.old.nearest.spare }
    {
        if let Some(found) = window {
            let near = found.near;
            offer_at(&mut self.starts, place, found.start, near.dist);
            offer_at(&mut self.nearest, place, near.index, near.dist);
        }
    }

    /// The window of a length.
    fn at(&self, place: u64) -> Option<Discord>
        requires starts { place < length self.now.starts.items }
        requires nearest { place < length self.now.nearest.items }
        ensures { result ≡ window_of (slice_index_or self.now.starts.items place None)
            (slice_index_or self.now.nearest.items place None) }
    {
        let place = place as usize;
        match (
            self.starts.as_slice()[place],
            self.nearest.as_slice()[place],
        ) {
            (Some(start), Some(near)) => Some(Discord {
                start: start.index,
                near,
            }),
            _ => None,
        }
    }
}

/// Takes over what the windows by their slots have at each of the lengths, which are those of a range from `lo` on.
fn take_each(
    lengths: &Lengths,
    lo: u32,
    slots: &[Slot],
    best: &mut ByLength,
    discord: &mut ByLength,
)
    requires least { lo ≤ lengths.now.least }
    requires last { lengths.now.least + lengths.now.count ≤ lo + MAX_LENGTHS }
    requires places { length slots.now ≡ SPAN * windows (length lengths.now.samples.now) lengths.now.least }
    requires entries { ArePlaced lengths.now slots.now }
    requires best { AreForLengths best.old }
    requires discord { AreForLengths discord.old }
    ensures best { HaveTaken (from_to (lengths.now.least - lo) (lengths.now.least - lo + lengths.now.count))
        (best_at lo (series_of lengths.now.samples.now)) best.old best.new }
    ensures discord { HaveTaken (from_to (lengths.now.least - lo) (lengths.now.least - lo + lengths.now.count))
        (unusual_at lo (series_of lengths.now.samples.now)) discord.old discord.new }
{
    let first = u64::from(lengths.least - lo);
    let windows = lengths.windows();
    for k in 0..lengths.count {
        let found = find_extremes(slots, windows, k);
        let place = first + k as u64;
        best.put(place, found.best);
        discord.put(place, found.discord);
    }
}

/// The same of the windows of a series, in room for their slots.
fn take_lengths(
    lengths: &Lengths,
    lo: u32,
    room: &mut [Slot],
    best: &mut ByLength,
    discord: &mut ByLength,
)
    requires least { lo ≤ lengths.now.least }
    requires last { lengths.now.least + lengths.now.count ≤ lo + MAX_LENGTHS }
    requires places { SPAN * windows (length lengths.now.samples.now) lengths.now.least ≤ length room.old }
    requires best { AreForLengths best.old }
    requires discord { AreForLengths discord.old }
    ensures places { length room.new ≡ length room.old }
    ensures best { HaveTaken (from_to (lengths.now.least - lo) (lengths.now.least - lo + lengths.now.count))
        (best_at lo (series_of lengths.now.samples.now)) best.old best.new }
    ensures discord { HaveTaken (from_to (lengths.now.least - lo) (lengths.now.least - lo + lengths.now.count))
        (unusual_at lo (series_of lengths.now.samples.now)) discord.old discord.new }
{
    let slots = &mut room[..SPAN * lengths.windows()];
    fill(lengths, slots);
    take_each(lengths, lo, slots, best, discord);
}

/// What was found at the lengths of a range: of each the best pair and the first discord. It is a part of as many
/// places as there are windows of the least length, for whose slots it has room.
#[derive(Debug, Drop)]
pub(crate) struct Found {
    windows: u64,
    /// Four slots for each window, to work on.
    room: Slots,
    best: ByLength,
    discord: ByLength,
}

impl Model for Found {
    ghost use Rattle.std.specs.Prelude.{◌+◌};
    ghost use Rattle.mp_pan.specs.Ranges.{FoundAt, IsFound};

    ghost Value = { FoundAt };

    ghost view = { λ found. record {
      windows = found.windows;
      best_starts = found.best.starts.items;
      best_nearest = found.best.nearest.items;
      discord_starts = found.discord.starts.items;
      discord_nearest = found.discord.nearest.items;
      spare = found.room.spare + (found.best.starts.spare + found.best.nearest.spare)
          + (found.discord.starts.spare + found.discord.nearest.spare);
    } };

    ghost invariant = { λ found. IsFound found.windows found.room.items found.best found.discord };
}

impl Found {
    /// Takes over the best pair and the first discord of each of the lengths, which are those of a range from `lo` on.
    pub(crate) fn take(&mut self, lo: u32, lengths: &Lengths)
        requires least { lo ≤ lengths.now.least }
        requires last { lengths.now.least + lengths.now.count ≤ lo + MAX_LENGTHS }
        requires windows { windows (length lengths.now.samples.now) lengths.now.least ≤ self.old.windows }
        ensures value { found_value self.new ≡ merged_columns (found_value self.old) (lengths_value
            (from_to (lengths.now.least - lo) (lengths.now.least - lo + lengths.now.count)) lo
            (series_of lengths.now.samples.now)) }
        ensures windows { self.new.windows ≡ self.old.windows }
        ensures is_value { HasColumns 4 MAX_LENGTHS (found_value self.new) }
        ensures spare { self.new.spare ≡ self.old.spare }
    {
        take_lengths(
            lengths,
            lo,
            self.room.as_mut_slice(),
            &mut self.best,
            &mut self.discord,
        );
    }

    /// The best pair of a length.
    pub(crate) fn best(&self, place: u64) -> Option<Discord>
        requires { place < MAX_LENGTHS }
        ensures { result ≡ window_of (slice_index_or self.now.best_starts place None)
            (slice_index_or self.now.best_nearest place None) }
    {
        self.best.at(place)
    }

    /// The first discord of a length.
    pub(crate) fn discord(&self, place: u64) -> Option<Discord>
        requires { place < MAX_LENGTHS }
        ensures { result ≡ window_of (slice_index_or self.now.discord_starts place None)
            (slice_index_or self.now.discord_nearest place None) }
    {
        self.discord.at(place)
    }
}

impl Part for Found {
    ghost value = { found_value };

    ghost size_of = { λ found. found.windows };

    ghost room_of = { λ found. found.spare };

    ghost is_value = { has_extremes };

    ghost unit_of = { no_extremes };

    ghost merged = { merged_columns };

    ghost laws = { extremes_merge };

    fn unit(alloc: Global, size: u64) -> Result<Self, Memory> {
        let places = size.checked_mul(SPAN as u64).ok_or(Memory)?;
        Ok(Found {
            windows: size,
            room: Slots::unit(alloc, places)?,
            best: ByLength::none(alloc)?,
            discord: ByLength::none(alloc)?,
        })
    }

    fn size(&self) -> u64 {
        self.windows
    }

    fn clear(&mut self) {
        self.best.clear();
        self.discord.clear();
    }

    fn merge(&mut self, other: &Self) {
        self.best.merge(&other.best);
        self.discord.merge(&other.discord);
    }
}
