//! Ranks as a part.

ghost use Rattle.std.specs.Prelude.{◌≡◌, ◌<◌, ◌≤◌, length, map, slice_index_or, slice_get, replicate};
ghost use Rattle.std.specs.Prelude.{All, IfOk, [], None};
ghost use Rattle.mp_defs.specs.Least.{near_at};
ghost use Rattle.mp_topk.specs.Ranking.{AreRanked, HasRanks, lists_in, merged_lists, merged_ranks, no_ranks, put_at};
ghost use Rattle.mp_topk.specs.Ranking.{slots_of, those_in};
ghost use Rattle.mp_topk.specs.RankLaws.{ranks_merge};

use crate::lists::lists_of;
use crate::placing::{put_each, put_found};
use mp_nums::{Items, Memory, Near, NearList, Slot, Sq};
use mp_partial::Part;
use std::alloc::Global;
use std::marker::Model;

/// The most ranks of a window.
pub const MAX_RANKS: usize = 4;

/// For each place at most `K` windows with their distances, the nearest first, and of those that are as near the one
/// with the smaller start first. It is seen as a list with one list of windows for each place, and how many more places
/// it could take without memory.
#[derive(Debug, Drop)]
pub struct Ranks<const K: usize> {
    places: Items<[Slot; K]>,
}

impl<const K: usize> Model for Ranks<K> {
    ghost use Rattle.std.specs.Prelude.{◌≤◌, All, map};
    ghost use Rattle.mp_topk.specs.Ranking.{AreRanked, Ranked, those_in};
    ghost use Rattle.mp_topk.specs.declared.ranks.TheConstants.{MAX_RANKS};

    ghost Value = { Ranked };

    ghost view = { λ ranks. record { lists = map those_in ranks.places.items; spare = ranks.places.spare } };

    ghost invariant = { λ ranks. (K ≤ MAX_RANKS) × All (AreRanked K) ranks.places.items };
}

impl<const K: usize> Ranks<K> {
    /// Window `j` is found at this distance from window `i`: place `i` keeps the first `K` of it and of those found
    /// before. It takes no memory.
    #[inline]
    pub fn offer(&mut self, i: u64, j: u64, dist: Sq)
        requires { i < length self.old.lists }
        ensures lists { self.new.lists ≡ put_at K self.old.lists i (near_at j dist.0) }
        ensures spare { self.new.spare ≡ self.old.spare }
    {
        put_in_places(&mut self.places, i as usize, Near { dist, index: j });
    }

    /// The window of a rank, counted from 0, none where there are no more.
    pub fn at(&self, i: u64, rank: u64) -> Slot
        requires { i < length self.now.lists }
        ensures { result ≡ slice_get (slice_index_or self.now.lists i []) rank }
    {
        slot_of(self.places.as_slice(), i as usize, rank as usize)
    }
}

impl<const K: usize> Ranks<K> {
    /// For each place the list of its windows.
    pub fn lists(&self, alloc: Global) -> Result<Vec<NearList>, Memory>
        ensures { IfOk result (λ lists. lists_in lists.items ≡ self.now.lists) }
    {
        lists_of(alloc, self.places.as_slice())
    }
}

impl<const K: usize> Part for Ranks<K> {
    ghost value = { λ ranks. map slots_of ranks.lists };

    ghost size_of = { λ ranks. length ranks.lists };

    ghost room_of = { λ ranks. ranks.spare };

    ghost is_value = { HasRanks K };

    ghost unit_of = { no_ranks };

    ghost merged = { merged_ranks K };

    ghost laws = { ranks_merge K };

    /// For each place no window. There is no memory for more than `MAX_RANKS` ranks.
    fn unit(alloc: Global, size: u64) -> Result<Self, Memory> {
        if MAX_RANKS < K {
            return Err(Memory);
        }
        Ok(Ranks {
            places: Items::from(no_places(alloc, size)?),
        })
    }

    fn size(&self) -> u64 {
        self.places.as_slice().len() as u64
    }

    fn clear(&mut self) {
        clear_places(&mut self.places);
    }

    fn merge(&mut self, other: &Self) {
        merge_places(&mut self.places, &other.places);
    }

    fn take_over(&mut self, other: &Self) {
        copy_places(&mut self.places, &other.places);
    }
}

/// So many places without a window.
fn no_places<const K: usize>(alloc: Global, size: u64) -> Result<Vec<[Slot; K]>, Memory>
    requires { K ≤ MAX_RANKS }
    ensures { IfOk result (λ places. places.items ≡ replicate size (replicate K None)) }
{
    let mut places = Vec::with_capacity(alloc, size as usize)?;
    for _ in 0..size {
        places.push_reserved([None; K]);
    }
    Ok(places)
}

/// The slot of a rank at a place, none where there are no more.
fn slot_of<const K: usize>(places: &[[Slot; K]], i: usize, rank: usize) -> Slot
    requires place { i < length places.now }
    requires ranked { All (AreRanked K) places.now }
    ensures { result ≡ slice_get (slice_index_or (map those_in places.now) i []) rank }
{
    let slots = &places[i];
    if rank < K { slots[rank] } else { None }
}

/// Puts a window at a place.
#[inline]
fn put_place<const K: usize>(places: &mut [[Slot; K]], i: usize, found: Near)
    requires place { i < length places.old }
    requires ranked { All (AreRanked K) places.old }
    ensures lists { map those_in places.new ≡ put_at K (map those_in places.old) i found }
    ensures ranked { All (AreRanked K) places.new }
{
    put_found(&mut places[i], found);
}

#[inline]
fn put_in_places<const K: usize>(places: &mut Items<[Slot; K]>, i: usize, found: Near)
    requires place { i < length places.old.items }
    requires ranked { All (AreRanked K) places.old.items }
    ensures lists { map those_in places.new.items ≡ put_at K (map those_in places.old.items) i found }
    ensures ranked { All (AreRanked K) places.new.items }
    ensures spare { places.new.spare ≡ places.old.spare }
{
    put_place(places.as_mut_slice(), i, found);
}

/// Forgets the windows of a place.
fn clear_place<const K: usize>(slots: &mut [Slot; K])
    ensures { slots.new ≡ replicate K None }
{
    for slot in slots.iter_mut() {
        *slot = None;
    }
}

/// Forgets the windows of each place.
fn clear_each<const K: usize>(places: &mut [[Slot; K]])
    ensures { places.new ≡ replicate (length places.old) (replicate K None) }
{
    for place in places.iter_mut() {
        clear_place(place);
    }
}

fn clear_places<const K: usize>(places: &mut Items<[Slot; K]>)
    ensures items { places.new.items ≡ replicate (length places.old.items) (replicate K None) }
    ensures spare { places.new.spare ≡ places.old.spare }
{
    clear_each(places.as_mut_slice());
}

/// Puts at each place the windows of the others.
fn merge_each<const K: usize>(places: &mut [[Slot; K]], others: &[[Slot; K]])
    requires count { length others.now ≡ length places.old }
    requires ranked { All (AreRanked K) places.old }
    ensures lists { map those_in places.new ≡ merged_lists K (map those_in places.old) (map those_in others.now) }
    ensures ranked { All (AreRanked K) places.new }
{
    for i in 0..places.len() {
        put_each(&mut places[i], &others[i]);
    }
}

fn merge_places<const K: usize>(places: &mut Items<[Slot; K]>, others: &Items<[Slot; K]>)
    requires count { length others.now.items ≡ length places.old.items }
    requires ranked { All (AreRanked K) places.old.items }
    ensures lists { map those_in places.new.items
        ≡ merged_lists K (map those_in places.old.items) (map those_in others.now.items) }
    ensures ranked { All (AreRanked K) places.new.items }
    ensures spare { places.new.spare ≡ places.old.spare }
{
    merge_each(places.as_mut_slice(), others.as_slice());
}

/// Puts the windows of the others in place of these.
fn copy_places<const K: usize>(places: &mut Items<[Slot; K]>, others: &Items<[Slot; K]>)
    requires count { length others.now.items ≡ length places.old.items }
    ensures items { places.new.items ≡ others.now.items }
    ensures spare { places.new.spare ≡ places.old.spare }
{
    places.as_mut_slice().copy_from_slice(others.as_slice());
}
