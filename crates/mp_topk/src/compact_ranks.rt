//! Ranks in numbers, as scans keep them.

ghost use Rattle.std.specs.Prelude.{◌≡◌, ℕ, ◌+◌, ◌^◌, ◌<◌, ◌≤◌, length, map, slice_index_or};
ghost use Rattle.std.specs.Prelude.{All, IfOk, [], Some, false, vec_capacity};
ghost use Rattle.mp_nums.specs.declared.nearest.Near.{Near};
ghost use Rattle.mp_series.specs.declared.limits.TheConstants.{MAX_SAMPLES};
ghost use Rattle.mp_defs.specs.Least.{near_at};
ghost use Rattle.mp_sums.specs.Limits.{IsBeyond};
ghost use Rattle.mp_topk.specs.Ranking.{AreRanked, HasRanks, lists_in, merged_lists, merged_ranks, no_ranks, put_at};
ghost use Rattle.mp_topk.specs.Ranking.{slots_of, those_in, whole};
ghost use Rattle.mp_topk.specs.RankLaws.{ranks_merge};
ghost use Rattle.mp_tiles.specs.Compact.{slot_of_word};
ghost use Rattle.mp_topk.specs.Sharing.{GivesNone, put_slot_at};
ghost use Rattle.mp_topk.specs.TakingLaws.{GivesNothing};

use crate::compact_lists::{compact_lists_of, lists_of_none};
use crate::compact_merging::{merge_slots, put_unless_there};
use crate::compact_placing::{may_gain, put_compact};
use crate::offers::limit_at;
use crate::ranks::MAX_RANKS;
use mp_nums::{Memory, Near, NearList, Sq};
use mp_partial::Part;
use mp_sums::Limit;
use mp_tiles::{Compact, NO_WORD};
use std::alloc::Global;
use std::marker::Model;
use std::thread::Threads;

/// The same as `Ranks`, each slot in one number, a third of its bytes. The windows are those of one series: they start
/// before `MAX_SAMPLES`, and their distances have no more than 110 bits.
///
/// All memory is taken when it is made, and first written to when something is found: memory costs most where it is
/// used for the first time, and workers that each fill their own do so side by side.
#[derive(Debug, Drop)]
pub(crate) struct CompactRanks<const K: usize> {
    size: u64,
    /// The slots of all places, or of none as long as nothing was found.
    places: Vec<[Compact; K]>,
}

impl<const K: usize> Model for CompactRanks<K> {
    ghost use Rattle.std.specs.Prelude.{◌≡◌, ◌-◌, ◌<◌, ◌≤◌, All, length, map, vec_capacity};
    ghost use Rattle.mp_topk.specs.Ranking.{AreRanked, Ranked, those_in, whole};
    ghost use Rattle.mp_topk.specs.declared.ranks.TheConstants.{MAX_RANKS};

    ghost Value = { Ranked };

    ghost view = { λ ranks. record {
      lists = map those_in (whole K ranks.size ranks.places.items);
      spare = vec_capacity ranks.places - ranks.size;
    } };

    ghost invariant = { λ ranks. (K ≤ MAX_RANKS) × All (AreRanked K) ranks.places.items
        × (ranks.size ≤ vec_capacity ranks.places) × (length ranks.places.items ≤ ranks.size)
        × (0 < length ranks.places.items → length ranks.places.items ≡ ranks.size) };
}

impl<const K: usize> CompactRanks<K> {
    /// Window `j` is found at this distance from window `i`: place `i` keeps the first `K` of it and of those found
    /// before. It takes no memory.
    #[inline]
    pub(crate) fn offer(&mut self, i: u64, j: u64, dist: Sq)
        requires place { i < length self.old.lists }
        requires start { j < MAX_SAMPLES }
        requires small { dist.0 + 1 < 2 ^ 110 }
        ensures lists { self.new.lists ≡ put_at K self.old.lists i (near_at j dist.0) }
        ensures spare { self.new.spare ≡ self.old.spare }
    {
        put_in_places(
            &mut self.places,
            self.size,
            i as usize,
            Compact::of(Near { dist, index: j }),
        );
    }

    /// Whether window `j` may be among the first `K` of place `i` at this distance.
    #[inline]
    pub(crate) fn may_take(&self, i: u64, j: u64, dist: Sq) -> bool
        requires start { j < MAX_SAMPLES }
        requires small { dist.0 + 1 < 2 ^ 110 }
        ensures { result ≡ false → GivesNothing K (slice_index_or self.now.lists i []) (near_at j dist.0) }
    {
        may_take_at(
            self.places.as_slice(),
            i as usize,
            Compact::of(Near { dist, index: j }),
        )
    }

    /// Takes the window that a word tells for a rank of place `i`, which keeps the first `K` of it and of those found
    /// before. It takes no memory.
    #[inline]
    pub(crate) fn take_word(&mut self, i: u64, rank: usize, word: u64)
        requires place { i < length self.old.lists }
        requires rank { rank < K }
        ensures lists { self.new.lists ≡ put_slot_at K self.old.lists i (slot_of_word word) }
        ensures spare { self.new.spare ≡ self.old.spare }
    {
        let found = Compact::of_word(word);
        take_in_places(&mut self.places, self.size, i as usize, rank, found);
    }

    /// The window of a rank of place `i` in a word that threads may share.
    #[inline]
    pub(crate) fn word(&self, i: u64, rank: usize) -> u64
        requires { rank < K }
        ensures { GivesNone K (slice_index_or self.now.lists i []) (slot_of_word result) }
    {
        word_at(self.places.as_slice(), i as usize, rank)
    }

    /// For each place the list of its windows, made by so many workers.
    pub(crate) fn lists<R: Threads + Sync>(
        &self,
        rt: &R,
        alloc: Global,
        workers: u32,
    ) -> Result<Vec<NearList>, Memory>
        ensures { IfOk result (λ lists. lists_in lists.items ≡ self.now.lists) }
    {
        let places = self.places.as_slice();
        if places.is_empty() {
            lists_of_none(alloc, self.size)
        } else {
            compact_lists_of(rt, alloc, places, workers)
        }
    }

    /// Which distances of windows from `first` on may still give a place something.
    #[inline]
    pub(crate) fn limit(&self, i: u64, first: u64) -> Limit
        ensures { (index dist : ℕ) → first ≤ index → IsBeyond result dist
            → GivesNothing K (slice_index_or self.now.lists i []) (near_at index dist) }
    {
        limit_at(self.places.as_slice(), i, first)
    }
}

impl<const K: usize> Part for CompactRanks<K> {
    ghost value = { λ ranks. map slots_of ranks.lists };

    ghost size_of = { λ ranks. length ranks.lists };

    ghost room_of = { λ ranks. ranks.spare };

    ghost is_value = { HasRanks K };

    ghost unit_of = { no_ranks };

    ghost merged = { merged_ranks K };

    ghost laws = { ranks_merge K };

    /// For each place no window. There is no memory for more than `MAX_RANKS` ranks.
    fn unit(alloc: Global, size: u64) -> Result<Self, Memory> {
        if MAX_RANKS < K {
            return Err(Memory);
        }
        Ok(CompactRanks {
            size,
            places: Vec::with_capacity(alloc, size as usize)?,
        })
    }

    fn size(&self) -> u64 {
        self.size
    }

    fn clear(&mut self) {
        self.places.clear();
    }

    fn merge(&mut self, other: &Self) {
        let _places = self.size();
        let others = other.places.as_slice();
        if others.is_empty() {
            return;
        }
        merge_places(&mut self.places, self.size, others);
    }

    fn take_over(&mut self, other: &Self) {
        copy_places(&mut self.places, other.places.as_slice());
    }
}

/// Whether a window may be among those of a place.
#[inline]
fn may_take_at<const K: usize>(places: &[[Compact; K]], i: usize, found: Compact) -> bool
    requires { All (AreRanked K) places.now }
    ensures { (near : Near) → found ≡ Some near → result ≡ false
        → GivesNothing K (slice_index_or (map those_in places.now) i []) near }
{
    match places.get(i) {
        Some(slots) => may_gain(slots, found),
        None => true,
    }
}

/// Puts a window at a place.
#[inline]
fn put_place<const K: usize>(places: &mut [[Compact; K]], i: usize, found: Compact)
    requires place { i < length places.old }
    requires ranked { All (AreRanked K) places.old }
    ensures lists { (near : Near) → found ≡ Some near
        → map those_in places.new ≡ put_at K (map those_in places.old) i near }
    ensures ranked { All (AreRanked K) places.new }
{
    put_compact(&mut places[i], found);
}

/// The window of a rank in a word.
#[inline]
fn word_of<const K: usize>(slots: &[Compact; K], rank: usize) -> u64
    requires rank { rank < K }
    requires ranked { AreRanked K slots.now }
    ensures { GivesNone K (those_in slots.now) (slot_of_word result) }
{
    slots[rank].word()
}

/// The window of a rank of a place in a word, which tells nothing past the last place.
#[inline]
fn word_at<const K: usize>(places: &[[Compact; K]], i: usize, rank: usize) -> u64
    requires rank { rank < K }
    requires ranked { All (AreRanked K) places.now }
    ensures { GivesNone K (slice_index_or (map those_in places.now) i []) (slot_of_word result) }
{
    match places.get(i) {
        Some(slots) => word_of(slots, rank),
        None => NO_WORD,
    }
}

/// Puts a slot at a place, unless it stands at a rank of it.
#[inline]
fn take_there<const K: usize>(places: &mut [[Compact; K]], i: usize, rank: usize, found: Compact)
    requires place { i < length places.old }
    requires rank { rank < K }
    requires ranked { All (AreRanked K) places.old }
    ensures lists { map those_in places.new ≡ put_slot_at K (map those_in places.old) i found }
    ensures ranked { All (AreRanked K) places.new }
{
    put_unless_there(&mut places[i], rank, found);
}

/// Writes slots without a window behind the first places, for which there is room. It takes no memory.
fn fill_places<const K: usize>(places: &mut Vec<[Compact; K]>, size: u64)
    requires few { K ≤ MAX_RANKS }
    requires room { size ≤ vec_capacity places.old }
    requires within { length places.old.items ≤ size }
    ensures items { places.new.items ≡ whole K size places.old.items }
    ensures room { vec_capacity places.new ≡ vec_capacity places.old }
{
    let none = Compact::none();
    for _ in places.len()..size as usize {
        places.push_reserved([none; K]);
    }
}

/// Has a place be written to, and with it all others.
#[inline]
fn reach<const K: usize>(places: &mut Vec<[Compact; K]>, size: u64, i: usize)
    requires few { K ≤ MAX_RANKS }
    requires room { size ≤ vec_capacity places.old }
    requires within { length places.old.items ≤ size }
    requires all { 0 < length places.old.items → length places.old.items ≡ size }
    requires place { i < size }
    ensures items { places.new.items ≡ whole K size places.old.items }
    ensures room { vec_capacity places.new ≡ vec_capacity places.old }
{
    if places.len() <= i {
        fill_places(places, size);
    }
}

#[inline]
fn put_in_places<const K: usize>(
    places: &mut Vec<[Compact; K]>,
    size: u64,
    i: usize,
    found: Compact,
)
    requires few { K ≤ MAX_RANKS }
    requires room { size ≤ vec_capacity places.old }
    requires within { length places.old.items ≤ size }
    requires all { 0 < length places.old.items → length places.old.items ≡ size }
    requires place { i < size }
    requires ranked { All (AreRanked K) places.old.items }
    ensures lists { (near : Near) → found ≡ Some near
        → map those_in places.new.items ≡ put_at K (map those_in (whole K size places.old.items)) i near }
    ensures ranked { All (AreRanked K) places.new.items }
    ensures all { length places.new.items ≡ size }
    ensures room { vec_capacity places.new ≡ vec_capacity places.old }
{
    reach(places, size, i);
    put_place(places.as_mut_slice(), i, found);
}

/// The same of a slot that may stand at a rank of its place.
#[inline]
fn take_in_places<const K: usize>(
    places: &mut Vec<[Compact; K]>,
    size: u64,
    i: usize,
    rank: usize,
    found: Compact,
)
    requires few { K ≤ MAX_RANKS }
    requires room { size ≤ vec_capacity places.old }
    requires within { length places.old.items ≤ size }
    requires all { 0 < length places.old.items → length places.old.items ≡ size }
    requires place { i < size }
    requires rank { rank < K }
    requires ranked { All (AreRanked K) places.old.items }
    ensures lists { map those_in places.new.items
        ≡ put_slot_at K (map those_in (whole K size places.old.items)) i found }
    ensures ranked { All (AreRanked K) places.new.items }
    ensures all { length places.new.items ≡ size }
    ensures room { vec_capacity places.new ≡ vec_capacity places.old }
{
    reach(places, size, i);
    take_there(places.as_mut_slice(), i, rank, found);
}

/// Puts at each place the windows of the others.
fn merge_each<const K: usize>(places: &mut [[Compact; K]], others: &[[Compact; K]])
    requires count { length others.now ≡ length places.old }
    requires ranked { All (AreRanked K) places.old }
    requires others { All (AreRanked K) others.now }
    ensures lists { map those_in places.new ≡ merged_lists K (map those_in places.old) (map those_in others.now) }
    ensures ranked { All (AreRanked K) places.new }
{
    for i in 0..places.len() {
        merge_slots(&mut places[i], &others[i]);
    }
}

/// The same where there may be no slots so far.
fn merge_places<const K: usize>(places: &mut Vec<[Compact; K]>, size: u64, others: &[[Compact; K]])
    requires few { K ≤ MAX_RANKS }
    requires room { size ≤ vec_capacity places.old }
    requires within { length places.old.items ≤ size }
    requires count { length others.now ≡ size }
    requires ranked { All (AreRanked K) places.old.items }
    requires others { All (AreRanked K) others.now }
    ensures lists { map those_in places.new.items
        ≡ merged_lists K (map those_in (whole K size places.old.items)) (map those_in others.now) }
    ensures ranked { All (AreRanked K) places.new.items }
    ensures all { length places.new.items ≡ size }
    ensures room { vec_capacity places.new ≡ vec_capacity places.old }
{
    fill_places(places, size);
    merge_each(places.as_mut_slice(), others);
}

/// Puts the windows of the others in place of these, where there are as many places.
fn copy_each<const K: usize>(places: &mut [[Compact; K]], others: &[[Compact; K]])
    requires { length others.now ≡ length places.old }
    ensures { places.new ≡ others.now }
{
    places.copy_from_slice(others);
}

/// Puts the windows of the others in place of these, for which there is room. It takes no memory.
fn push_each<const K: usize>(places: &mut Vec<[Compact; K]>, others: &[[Compact; K]])
    requires { length others.now ≤ vec_capacity places.old }
    ensures items { places.new.items ≡ others.now }
    ensures room { vec_capacity places.new ≡ vec_capacity places.old }
{
    places.clear();
    for place in others {
        places.push_reserved(*place);
    }
}

/// The same, at once where there are as many slots so far.
fn copy_places<const K: usize>(places: &mut Vec<[Compact; K]>, others: &[[Compact; K]])
    requires { length others.now ≤ vec_capacity places.old }
    ensures items { places.new.items ≡ others.now }
    ensures room { vec_capacity places.new ≡ vec_capacity places.old }
{
    if places.len() == others.len() {
        copy_each(places.as_mut_slice(), others);
    } else {
        push_each(places, others);
    }
}
