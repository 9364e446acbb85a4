//! What stands in one slot.

ghost use Rattle.std.specs.Prelude.{◌≡◌, ◌↔◌, ◌+◌, ◌-◌, ◌^◌, ◌<◌, ◌≤◌, ◌++◌, ◌∷◌, [], length, min, take, drop};
ghost use Rattle.std.specs.Prelude.{false, true, IfOk, OnErr, OnOk, IsNone, IfNone, IfSome, None};
ghost use Rattle.mp_defs.specs.Limits.{max_samples};
ghost use Rattle.mp_partial.specs.declared.limits.TheConstants.{MAX_WORKERS};
ghost use Rattle.mp_stores.specs.Channels.{HasAdvanced, HasGrownBy, KeptHasGrown, PartHasAdvanced};
ghost use Rattle.mp_stores.specs.Channels.{PartHasGrown};
ghost use Rattle.mp_stores.specs.Seen.{held_of};
ghost use Rattle.mp_stores.specs.Stores as held;
ghost use Rattle.mp_stores.specs.Stores.{Closed, HasRoomIn, HasSpare, HoldsAsBefore, IsOfSamples, WasReadIn, is_lazy};
ghost use Rattle.mp_stores.specs.Stores.{keep_of, lasting_part, lent_of, lists_in, reads_of, stream_in, streams_in};
ghost use Rattle.mp_defs.specs.Limits.{max_appended};

use crate::channels::Channel;
use crate::groups::{add_all, reads_of, reserve_all};
use mp_anytime::Anytime;
use mp_nums::{Memory, Sample};
use mp_outside::Gate;
use mp_partial::MAX_WORKERS;
use mp_series::Bundle;
use mp_stream::Kept;
use std::alloc::Global;
use std::thread::Threads;

/// What stands in a slot.
#[derive(Debug, Drop)]
pub(crate) enum Store {
    Closed,
    /// Channels of the same length, counted from 0.
    Open(Vec<Channel>),
    /// One channel, of which the last samples are kept.
    Kept(Kept),
    /// One channel, whose profile is made in parts.
    Lazy(Anytime),
}

impl Store {
    /// Its channels, none where it isn't open.
    pub(crate) fn channels(&self) -> &[Channel]
        ensures { result.now ≡ streams_in (held_of self.now) }
    {
        match self {
            Store::Closed | Store::Kept(_) | Store::Lazy(_) => &[],
            Store::Open(channels) => channels.as_slice(),
        }
    }

    /// What is kept of its samples, `None` where all are.
    pub(crate) fn kept(&self) -> Option<&Kept>
        ensures some { IfSome result (λ kept. held_of self.now ≡ held.Kept kept.now) }
        ensures none { IfNone result (keep_of (held_of self.now) ≡ None) }
    {
        match self {
            Store::Closed | Store::Open(_) | Store::Lazy(_) => None,
            Store::Kept(kept) => Some(kept),
        }
    }

    /// Its channel, where its profile is made in parts.
    pub(crate) fn lazy(&self) -> Option<&Anytime>
        ensures some { IfSome result (λ part. held_of self.now ≡ held.Lazy part.now) }
        ensures none { IfNone result (is_lazy (held_of self.now) ≡ false) }
    {
        match self {
            Store::Closed | Store::Open(_) | Store::Kept(_) => None,
            Store::Lazy(part) => Some(part),
        }
    }

    /// How often samples were read, `None` where it is closed. The count stays at its greatest value.
    pub(crate) fn reads(&self) -> Option<u128>
        ensures closed { IsNone result ↔ (held_of self.now ≡ Closed) }
        ensures reads { IfSome result (λ reads. reads ≡ min (reads_of (held_of self.now)) (2 ^ 128 - 1)) }
    {
        match self {
            Store::Closed => None,
            Store::Open(channels) => Some(reads_of(channels.as_slice())),
            Store::Kept(kept) => Some(kept.reads()),
            Store::Lazy(part) => Some(part.reads()),
        }
    }

    /// A copy of the samples of a channel's window from `start` on, for which its samples are lent once.
    pub(crate) fn window(
        &mut self,
        alloc: Global,
        channel: u64,
        start: u64,
    ) -> Result<Vec<Sample>, Memory>
        requires channel { channel < length (streams_in (held_of self.old)) }
        requires window { start + (stream_in (held_of self.old) channel).m
            ≤ length (stream_in (held_of self.old) channel).items }
        ensures window { IfOk result (λ window. window.items
            ≡ take (stream_in (held_of self.old) channel).m (drop start (stream_in (held_of self.old) channel).items)) }
        ensures read { WasReadIn (lent_of (held_of self.old) channel) (held_of self.old) (held_of self.new) }
    {
        match self {
            Store::Closed | Store::Kept(_) | Store::Lazy(_) => unreachable!(),
            Store::Open(channels) => channels[channel as usize].window(alloc, start),
        }
    }

    /// Adds a copy of the samples of a channel to a bundle, for which they are lent once.
    pub(crate) fn copy_to(&mut self, channel: u64, bundle: &mut Bundle) -> Result<(), Memory>
        requires { channel < length (streams_in (held_of self.old)) }
        ensures ok { OnOk result (bundle.new ≡ bundle.old ++ (stream_in (held_of self.old) channel).items ∷ []) }
        ensures within { length (stream_in (held_of self.old) channel).items ≤ max_samples }
        ensures read { WasReadIn (lent_of (held_of self.old) channel) (held_of self.old) (held_of self.new) }
    {
        match self {
            Store::Closed | Store::Kept(_) | Store::Lazy(_) => unreachable!(),
            Store::Open(channels) => channels[channel as usize].copy_to(bundle),
        }
    }

    /// Makes room for so many more samples in each channel. A kept one needs none.
    pub(crate) fn reserve(&mut self, more: u64) -> Result<(), Memory>
        ensures ok { OnOk result (HasSpare more (held_of self.new)) }
        ensures read { WasReadIn 0 (held_of self.old) (held_of self.new) }
    {
        match self {
            Store::Closed | Store::Kept(_) => Ok(()),
            Store::Open(channels) => reserve_all(channels.as_mut_slice(), more),
            Store::Lazy(part) => part.reserve(more),
        }
    }

    /// Appends to each channel its samples, for which there is room.
    pub(crate) fn add(&mut self, added: &[Vec<Sample>])
        requires room { HasRoomIn (held_of self.old) (lists_in added.now) }
        requires kept { IsOfSamples (held_of self.old) }
        ensures { HasGrownBy (lists_in added.now) (held_of self.old) (held_of self.new) }
    {
        match self {
            Store::Closed => unreachable!(),
            Store::Open(channels) => add_all(channels.as_mut_slice(), added),
            Store::Kept(kept) => append_all(kept, added[0].as_slice()),
            Store::Lazy(part) => extend(part, added[0].as_slice()),
        }
    }

    /// Covers so many more diagonals, or all that are left, by so many workers.
    pub(crate) fn advance<R: Threads + Sync, G: Gate>(
        &mut self,
        rt: &R,
        alloc: Global,
        count: u64,
        workers: u32,
        gate: &G,
    ) -> Result<(), Memory>
        requires lazy { is_lazy (held_of self.old) ≡ true }
        requires some { 1 ≤ workers }
        requires workers { workers ≤ MAX_WORKERS }
        ensures ok { OnOk result (HasAdvanced count (held_of self.old) (held_of self.new)) }
        ensures err { OnErr result (HoldsAsBefore (held_of self.old) (held_of self.new)) }
        ensures rise { reads_of (held_of self.old) ≤ reads_of (held_of self.new) }
    {
        match self {
            Store::Closed | Store::Open(_) | Store::Kept(_) => unreachable!(),
            Store::Lazy(part) => advance(rt, alloc, part, count, workers, gate),
        }
    }
}

/// Appends the samples to those of which the last ones are kept.
fn append_all(kept: &mut Kept, samples: &[Sample])
    requires room { kept.old.count + length samples.now ≤ max_appended }
    requires kept { IsOfSamples (held.Kept kept.old) }
    ensures { KeptHasGrown samples.now kept.old kept.new }
{
    for sample in samples {
        kept.append(*sample).unwrap();
    }
}

/// Appends the samples to those of a series whose profile is made in parts.
fn extend(part: &mut Anytime, samples: &[Sample])
    requires room { length samples.now ≤ part.old.spare }
    requires fits { length part.old.items + length samples.now ≤ max_samples }
    ensures { PartHasGrown samples.now part.old part.new }
{
    for sample in samples {
        part.append(*sample).unwrap();
    }
}

/// Covers so many more diagonals of it.
fn advance<R: Threads + Sync, G: Gate>(
    rt: &R,
    alloc: Global,
    part: &mut Anytime,
    count: u64,
    workers: u32,
    gate: &G,
) -> Result<(), Memory>
    requires some { 1 ≤ workers }
    requires workers { workers ≤ MAX_WORKERS }
    ensures ok { OnOk result (PartHasAdvanced count part.old part.new) }
    ensures err { OnErr result (lasting_part part.new ≡ lasting_part part.old) }
    ensures rise { part.old.reads ≤ part.new.reads }
{
    part.advance(rt, alloc, count, workers, gate)?;
    Ok(())
}
