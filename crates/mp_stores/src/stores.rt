//! The stores.

ghost use Rattle.std.specs.Prelude.{◌≡◌, ◌≢◌, ◌==◌, ◌↔◌, ◌+◌, ◌-◌, ◌*◌, ◌^◌, ◌<◌, ◌≤◌, ℕ, List, [], ◌∷◌, ◌++◌, length};
ghost use Rattle.std.specs.Prelude.{map, min, sum_by, take, drop, replicate, All, IfOk, OnOk, IsNone, IfNone, IfSome};
ghost use Rattle.std.specs.Prelude.{None, OnErr, false, is_some, true};
ghost use Rattle.std.specs.Bool.{OnFalse};

use crate::channels::Channel;
use crate::store::Store;
use mp_anytime::Anytime;
use mp_nums::{Memory, Places, Sample};
use mp_outside::Gate;
use mp_partial::{MAX_WORKERS, Profile};
use mp_replies::Ref;
use mp_series::Bundle;
use mp_stream::Kept;
use std::alloc::Global;
use std::marker::Model;
use std::thread::Threads;

/// How many slots there are.
pub const SLOTS: u64 = 8;

/// The most channels of a slot.
pub const MAX_CHANNELS: u64 = 8;

/// The stores of a session, one in each slot, and the slots counted from 0. A slot is closed, or open with channels of
/// the same length, counted from 0, or kept, with one channel of which the last samples are kept, or lazy, with one
/// channel whose profile is made in parts. All channels have the same window length. They are seen as that length and
/// what stands in each slot.
#[derive(Debug, Drop)]
pub struct Stores {
    m: u32,
    stored: Vec<Store>,
}

impl Model for Stores {
    ghost use Rattle.std.specs.Prelude.{map};
    ghost use Rattle.mp_stores.specs.Stores.{AreStores, Stored};

    ghost Value = { Stored };

    ghost use Rattle.mp_stores.specs.Seen.{held_of};

    ghost view = { λ s. record { m = s.m; slots = map held_of s.stored.items } };

    ghost invariant = { λ s. AreStores (record { m = s.m; slots = map held_of s.stored.items }) };
}

impl Stores {
    ghost use Rattle.mp_results.specs.Arcs.{arcs_of, indices_of};
    ghost use Rattle.mp_defs.specs.Limits.{max_samples, max_window, min_window};
    ghost use Rattle.mp_defs.specs.Profile.{matrix_profile};
    ghost use Rattle.mp_defs.specs.Series.{series_of};
    ghost use Rattle.mp_defs.specs.Window.{is_free, windows};
    ghost use Rattle.mp_nums.specs.declared.samples.Sample.{Sample};
    ghost use Rattle.mp_replies.specs.AppendCommand.{most_samples};
    ghost use Rattle.mp_partial.specs.declared.limits.TheConstants.{MAX_WORKERS};
    ghost use Rattle.mp_replies.specs.Change.{AddSamples, CoverNext, PutChannels, PutKept, PutLazy};
    ghost use Rattle.mp_replies.specs.State as states;
    ghost use Rattle.mp_replies.specs.State.{channels_at, is_closed, keep_at, samples_in, store_at};
    ghost use Rattle.mp_replies.specs.Profiles.{columns_in};
    ghost use Rattle.mp_stores.specs.Stores as held;
    ghost use Rattle.mp_stores.specs.Stores.{HasRoomIn, HasSpare, channel_count, is_lazy, keep_of, sample_count};
    ghost use Rattle.mp_stream.specs.Kept.{StandsFor};
    ghost use Rattle.mp_stores.specs.Stores.{Closed, Open, AreChannels, AreEven, CanCover, CanKeep, CanOpen};
    ghost use Rattle.mp_stores.specs.Stores.{HaveWindow};
    ghost use Rattle.mp_stores.specs.Stores.{IsChannel};
    ghost use Rattle.mp_stores.specs.Stores.{StandAsBefore, StandChanged, StandFor, WasRead, channel_at};
    ghost use Rattle.mp_stores.specs.Stores.{channel_series};
    ghost use Rattle.mp_stores.specs.Stores.{count_in, lent_of, lent_once, lists_in, reads_at, reads_to_add, series_in};
    ghost use Rattle.mp_stores.specs.Stores.{slot_at, streams_at};

    /// Slot 0 is open with one empty channel, and the others are closed. Windows have `m` samples.
    pub fn new<R: Threads + Sync>(rt: &R, alloc: Global, m: u32) -> Result<Stores, Memory>
        requires shortest { min_window ≤ m }
        requires longest { m ≤ max_window }
        ensures stores { IfOk result (λ stores.
            StandFor stores (states.Open ([] ∷ []) ∷ replicate 7 states.Closed)) }
        ensures m { IfOk result (λ stores. stores.m ≡ m) }
        ensures reads { IfOk result (λ stores. (slot : ℕ) → reads_at stores slot ≡ 0) }
    {
        let mut first = Vec::new(alloc);
        first.push(Channel::empty(rt, alloc, m)?)?;
        let mut stored = Vec::new(alloc);
        stored.push(Store::Open(first))?;
        for _ in 1..SLOTS {
            stored.push(Store::Closed)?;
        }
        Ok(Stores { m, stored })
    }

    /// How many samples a window has, in all channels.
    pub fn window_len(&self) -> u32
        ensures m { result ≡ self.now.m }
        ensures shortest { min_window ≤ result }
        ensures longest { result ≤ max_window }
        ensures slots { length self.now.slots ≡ SLOTS }
    {
        self.m
    }

    /// The channels of a slot, none where it isn't open.
    fn channels(&self, slot: u64) -> &[Channel]
        ensures channels { result.now ≡ streams_at self.now slot }
        ensures closed { result.now ≡ [] → keep_of (slot_at self.now slot) ≡ None
            → is_lazy (slot_at self.now slot) ≡ false → slot_at self.now slot ≡ Closed }
        ensures few { length result.now ≤ MAX_CHANNELS }
        ensures open { 0 < length result.now → slot < SLOTS }
        ensures alike { AreChannels result.now }
        ensures window { HaveWindow self.now.m result.now }
    {
        match self.stored.get(slot as usize) {
            Some(store) => store.channels(),
            None => &[],
        }
    }

    /// A channel.
    fn channel(&self, at: Ref) -> &Channel
        requires { IsChannel self.now at }
        ensures channel { result.now ≡ channel_at self.now at }
        ensures m { result.now.m ≡ self.now.m }
    {
        &self.channels(at.slot)[at.channel as usize]
    }

    /// What is kept of the samples of a slot, `None` where all are.
    pub fn kept(&self, slot: u64) -> Option<&Kept>
        ensures some { IfSome result (λ kept. slot_at self.now slot ≡ held.Kept kept.now) }
        ensures within { IfSome result (λ kept. slot < SLOTS) }
        ensures stands { IfSome result (λ kept. CanKeep self.now.m kept.now) }
        ensures none { IfNone result (keep_of (slot_at self.now slot) ≡ None) }
    {
        match self.stored.get(slot as usize) {
            Some(store) => store.kept(),
            None => None,
        }
    }

    /// The series of a slot whose profile is made in parts, `None` for another slot.
    pub fn lazy(&self, slot: u64) -> Option<&Anytime>
        ensures some { IfSome result (λ part. slot_at self.now slot ≡ held.Lazy part.now) }
        ensures within { IfSome result (λ part. slot < SLOTS) }
        ensures stands { IfSome result (λ part. CanCover self.now.m part.now) }
        ensures none { IfNone result (is_lazy (slot_at self.now slot) ≡ false) }
    {
        match self.stored.get(slot as usize) {
            Some(store) => store.lazy(),
            None => None,
        }
    }

    /// Whether the last samples of a slot are kept, and no more.
    pub fn is_kept(&self, slot: u64) -> bool
        ensures kept { (stores : List states.Store) → StandFor self.now stores
            → result ≡ is_some (keep_at stores slot) }
        ensures all { OnFalse result (keep_of (slot_at self.now slot) ≡ None) }
    {
        self.kept(slot).is_some()
    }

    /// Whether the profile of a slot is made in parts.
    pub fn is_lazy(&self, slot: u64) -> bool
        ensures lazy { (stores : List states.Store) → StandFor self.now stores
            → result ≡ states.is_lazy (store_at stores slot) }
        ensures slot { result ≡ is_lazy (slot_at self.now slot) }
        ensures open { OnFalse result (keep_of (slot_at self.now slot) ≡ None
            → channel_count (slot_at self.now slot) ≡ length (streams_at self.now slot)) }
    {
        self.lazy(slot).is_some()
    }

    /// How many channels a slot has, 0 where it is closed.
    pub fn count(&self, slot: u64) -> u64
        ensures count { result ≡ channel_count (slot_at self.now slot) }
        ensures channels { (stores : List states.Store) → StandFor self.now stores
            → result ≡ length (channels_at stores slot) }
        ensures closed { (stores : List states.Store) → StandFor self.now stores
            → is_closed (store_at stores slot) ≡ (result == 0) }
        ensures few { result ≤ MAX_CHANNELS }
        ensures open { 0 < result → slot < SLOTS }
        ensures alike { AreChannels (streams_at self.now slot) }
    {
        match self.kept(slot) {
            Some(_) => 1,
            None => self.whole_count(slot),
        }
    }

    /// The same of a slot that isn't kept.
    fn whole_count(&self, slot: u64) -> u64
        requires { keep_of (slot_at self.now slot) ≡ None }
        ensures count { result ≡ channel_count (slot_at self.now slot) }
        ensures channels { (stores : List states.Store) → StandFor self.now stores
            → result ≡ length (channels_at stores slot) }
        ensures closed { (stores : List states.Store) → StandFor self.now stores
            → is_closed (store_at stores slot) ≡ (result == 0) }
        ensures few { result ≤ MAX_CHANNELS }
        ensures open { 0 < result → slot < SLOTS }
        ensures alike { AreChannels (streams_at self.now slot) }
    {
        match self.lazy(slot) {
            Some(_) => 1,
            None => self.channels(slot).len() as u64,
        }
    }

    /// How many samples each channel of a slot has, or were ever appended to a kept one.
    pub fn len(&self, slot: u64) -> u64
        ensures count { result ≡ sample_count (slot_at self.now slot) }
        ensures length { (stores : List states.Store) → StandFor self.now stores
            → result ≡ samples_in (channels_at stores slot) }
        ensures within { result ≤ most_samples (keep_of (slot_at self.now slot)) }
    {
        match self.kept(slot) {
            Some(kept) => kept.len(),
            None => self.whole_len(slot),
        }
    }

    /// How many samples each channel of a slot has that isn't kept.
    fn whole_len(&self, slot: u64) -> u64
        requires { keep_of (slot_at self.now slot) ≡ None }
        ensures count { result ≡ sample_count (slot_at self.now slot) }
        ensures length { (stores : List states.Store) → StandFor self.now stores
            → result ≡ samples_in (channels_at stores slot) }
        ensures within { result ≤ max_samples }
    {
        match self.lazy(slot) {
            Some(part) => part.len(),
            None => self.open_len(slot),
        }
    }

    /// How many samples each channel of a slot has, 0 where it isn't open.
    fn open_len(&self, slot: u64) -> u64
        ensures count { result ≡ count_in (streams_at self.now slot) }
        ensures within { result ≤ max_samples }
    {
        match self.channels(slot).first() {
            Some(channel) => channel.len(),
            None => 0,
        }
    }

    /// How many samples a channel has.
    pub fn channel_len(&self, at: Ref) -> u64
        requires { IsChannel self.now at }
        ensures length { result ≡ length (channel_series self.now at) }
        ensures within { result ≤ max_samples }
    {
        self.channel(at).len()
    }

    /// How often samples of a slot were read, of all its channels together, `None` where it is closed. The count stays
    /// at its greatest value.
    pub fn reads(&self, slot: u64) -> Option<u128>
        ensures closed { IsNone result ↔ (slot_at self.now slot ≡ Closed) }
        ensures reads { IfSome result (λ reads. reads ≡ min (reads_at self.now slot) (2 ^ 128 - 1)) }
    {
        match self.stored.get(slot as usize) {
            Some(store) => store.reads(),
            None => None,
        }
    }

    /// The matrix profile of a channel, which is kept: no sample is read.
    pub fn profile(&self, at: Ref) -> &Profile
        requires { IsChannel self.now at }
        ensures { columns_in result.now ≡ matrix_profile self.now.m (channel_series self.now at) }
    {
        self.channel(at).profile()
    }

    /// How many of the arcs from each window of a channel to its nearest one pass over each place. No sample is read.
    pub fn arcs(&self, at: Ref) -> Result<Places, Memory>
        requires { IsChannel self.now at }
        ensures { IfOk result (λ counts. counts.items
            ≡ arcs_of (indices_of (matrix_profile self.now.m (channel_series self.now at)).all)) }
    {
        self.channel(at).arcs()
    }

    /// Whether no sample of a channel's window from `start` on is missing. It is no read.
    pub fn is_free(&self, at: Ref, start: u64) -> bool
        requires channel { IsChannel self.now at }
        requires window { start < windows (length (channel_series self.now at)) self.now.m }
        ensures { result ≡ is_free self.now.m (channel_series self.now at) start }
    {
        self.channel(at).is_free(start)
    }

    /// A copy of the samples of a channel's window from `start` on, for which its samples are lent once.
    pub fn window(&mut self, alloc: Global, at: Ref, start: u64) -> Result<Vec<Sample>, Memory>
        requires channel { IsChannel self.old at }
        requires window { start + self.old.m ≤ length (channel_series self.old at) }
        ensures window { IfOk result (λ window. series_of window.items
            ≡ take self.old.m (drop start (channel_series self.old at))) }
        ensures read { WasRead self.old self.new at.slot (lent_of (slot_at self.old at.slot) at.channel) }
    {
        self.stored[at.slot as usize].window(alloc, at.channel, start)
    }

    /// Copies of the samples of some channels, in their order. A channel's samples are lent once each time that it is
    /// named.
    pub fn copies(&mut self, alloc: Global, refs: &[Ref]) -> Result<Bundle, Memory>
        requires { All (IsChannel self.old) refs.now }
        ensures series { IfOk result (λ bundle. map series_of bundle ≡ map (channel_series self.old) refs.now) }
        ensures small { IfOk result (λ bundle. All (λ samples. length samples ≤ max_samples) bundle) }
        ensures stands { StandAsBefore self.old self.new }
        ensures reads_rise { (slot : ℕ) → reads_at self.old slot ≤ reads_at self.new slot }
        ensures reads { (slot : ℕ) → reads_at self.new slot
            ≤ reads_at self.old slot + sum_by (λ at. lent_once self.old at slot) refs.now }
    {
        let mut bundle = Bundle::new(alloc);
        for at in refs {
            self.copy_to(*at, &mut bundle)?;
        }
        Ok(bundle)
    }

    /// Adds a copy of the samples of a channel to a bundle, for which they are lent once.
    fn copy_to(&mut self, at: Ref, bundle: &mut Bundle) -> Result<(), Memory>
        requires { IsChannel self.old at }
        ensures ok { OnOk result (bundle.new ≡ bundle.old ++ (channel_at self.old at).items ∷ []) }
        ensures within { length (channel_at self.old at).items ≤ max_samples }
        ensures read { WasRead self.old self.new at.slot (lent_of (slot_at self.old at.slot) at.channel) }
    {
        self.stored[at.slot as usize].copy_to(at.channel, bundle)
    }

    /// Makes room for so many more samples in each channel of a slot.
    pub fn reserve(&mut self, slot: u64, more: u64) -> Result<(), Memory>
        requires { slot < SLOTS }
        ensures ok { OnOk result (HasSpare more (slot_at self.new slot)) }
        ensures room { (added : List (List Sample)) → OnOk result (0 < length added
            → length added ≡ channel_count (slot_at self.old slot) → All (λ samples. length samples ≡ more) added
            → sample_count (slot_at self.old slot) + more ≤ most_samples (keep_of (slot_at self.old slot))
            → HasRoomIn (slot_at self.new slot) added) }
        ensures stands { StandAsBefore self.old self.new }
        ensures reads { (other : ℕ) → reads_at self.new other ≡ reads_at self.old other }
    {
        self.stored[slot as usize].reserve(more)
    }

    /// Appends to each channel of a slot its samples, as many to each, for which there is room. For each of them it
    /// reads no more than four samples for each window and for each sample of one, and in a kept slot no more than four
    /// for each sample that may be kept and for each sample of a window.
    pub fn add(&mut self, slot: u64, added: &[Vec<Sample>])
        requires slot { slot < SLOTS }
        requires room { HasRoomIn (slot_at self.old slot) (lists_in added.now) }
        requires same { AreEven (lists_in added.now) }
        ensures m { self.new.m ≡ self.old.m }
        ensures stands { StandChanged (AddSamples slot (map series_of (lists_in added.now))) self.old self.new }
        ensures reads_rise { reads_at self.old slot ≤ reads_at self.new slot }
        ensures reads { reads_at self.new slot
            ≤ reads_at self.old slot + reads_to_add self.old slot (lists_in added.now) }
        ensures others { (other : ℕ) → other ≢ slot → slot_at self.new other ≡ slot_at self.old other }
    {
        self.stored[slot as usize].add(added);
    }

    /// Puts channels of the same length, at the window length of all, in place of what stood in a slot.
    pub fn put(&mut self, slot: u64, channels: Vec<Channel>)
        requires slot { slot < SLOTS }
        requires channels { CanOpen self.old.m channels.items }
        ensures m { self.new.m ≡ self.old.m }
        ensures stands { StandChanged (PutChannels slot (series_in channels.items)) self.old self.new }
        ensures channels { slot_at self.new slot ≡ Open channels.items }
        ensures others { (other : ℕ) → other ≢ slot → slot_at self.new other ≡ slot_at self.old other }
    {
        self.stored[slot as usize] = Store::Open(channels);
    }

    /// Puts a channel without a sample, of which the last ones will be kept, in place of what stood in a slot.
    pub fn put_kept(&mut self, slot: u64, kept: Kept)
        requires slot { slot < SLOTS }
        requires window { kept.m ≡ self.old.m }
        requires empty { StandsFor [] kept }
        ensures m { self.new.m ≡ self.old.m }
        ensures stands { StandChanged (PutKept slot kept.keep) self.old self.new }
        ensures kept { slot_at self.new slot ≡ held.Kept kept }
        ensures others { (other : ℕ) → other ≢ slot → slot_at self.new other ≡ slot_at self.old other }
    {
        self.stored[slot as usize] = Store::Kept(kept);
    }
    /// Puts a series whose profile is made in parts, of which nothing is covered, in place of what stood in a slot.
    pub fn put_lazy(&mut self, slot: u64, part: Anytime)
        requires slot { slot < SLOTS }
        requires window { part.m ≡ self.old.m }
        requires uncovered { part.covered ≡ [] }
        ensures m { self.new.m ≡ self.old.m }
        ensures stands { StandChanged (PutLazy slot (series_of part.items)) self.old self.new }
        ensures lazy { slot_at self.new slot ≡ held.Lazy part }
        ensures others { (other : ℕ) → other ≢ slot → slot_at self.new other ≡ slot_at self.old other }
    {
        let _samples = part.len();
        self.stored[slot as usize] = Store::Lazy(part);
    }

    /// Covers so many more diagonals of a lazy slot, or all that are left, by so many workers. Where there is no
    /// memory, only samples were read.
    pub fn advance<R: Threads + Sync, G: Gate>(
        &mut self,
        rt: &R,
        alloc: Global,
        slot: u64,
        count: u64,
        workers: u32,
        gate: &G,
    ) -> Result<(), Memory>
        requires slot { slot < SLOTS }
        requires lazy { is_lazy (slot_at self.old slot) ≡ true }
        requires some { 1 ≤ workers }
        requires workers { workers ≤ MAX_WORKERS }
        ensures m { self.new.m ≡ self.old.m }
        ensures ok { OnOk result (StandChanged (CoverNext slot count) self.old self.new) }
        ensures err { OnErr result (StandAsBefore self.old self.new) }
        ensures rise { reads_at self.old slot ≤ reads_at self.new slot }
        ensures others { (other : ℕ) → other ≢ slot → slot_at self.new other ≡ slot_at self.old other }
    {
        self.stored[slot as usize].advance(rt, alloc, count, workers, gate)
    }
}
