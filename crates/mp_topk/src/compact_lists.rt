//! The lists of places whose slots are numbers, made by workers side by side.

ghost use Rattle.std.specs.Prelude.{◌≡◌, [], map, replicate, IfOk};
ghost use Rattle.std.specs.Thread.{IsSync};
ghost use Rattle.mp_topk.specs.Ranking.{lists_in, those_in};

use crate::lists::push_slot;
use mp_nums::{Items, Memory, NearList};
use mp_tiles::Compact;
use mp_workers::run_aside;
use std::alloc::Global;
use std::thread::{Threads, join};

/// From how many places on several workers make the lists. Fewer take less time than the starts of these.
const PLACES_FOR_WORKERS: usize = 4_096;

/// The list of a place.
fn compact_list_of<const K: usize>(alloc: Global, slots: &[Compact; K]) -> Result<NearList, Memory>
    ensures { IfOk result (λ list. list.items ≡ those_in slots.now) }
{
    let mut list = Items::from(Vec::with_capacity(alloc, K)?);
    for slot in slots {
        push_slot(&mut list, slot.slot())?;
    }
    Ok(list)
}

/// For each place the list of its windows, one after another.
fn lists_in_order<const K: usize>(
    alloc: Global,
    places: &[[Compact; K]],
) -> Result<Vec<NearList>, Memory>
    ensures { IfOk result (λ lists. lists_in lists.items ≡ map those_in places.now) }
{
    let mut lists = Vec::with_capacity(alloc, places.len())?;
    for place in places {
        lists.push(compact_list_of(alloc, place)?)?;
    }
    Ok(lists)
}

/// For each place the list of its windows, by a worker in a thread of its own.
fn lists_aside<R: Threads, const K: usize>(
    rt: &R,
    alloc: Global,
    places: &[[Compact; K]],
) -> Result<Vec<NearList>, Memory>
    ensures { IfOk result (λ lists. lists_in lists.items ≡ map those_in places.now) }
{
    let mut own = || -> Result<Vec<NearList>, Memory>
        ensures { IfOk result (λ lists. lists_in lists.items ≡ map those_in places.entry.now) }
    { lists_in_order(alloc, places) };
    run_aside(rt, &mut own)
}

/// For each place the list of its windows, by two workers.
fn lists_by_two<R: Threads + Sync, const K: usize>(
    rt: &R,
    alloc: Global,
    places: &[[Compact; K]],
) -> Result<Vec<NearList>, Memory>
    ensures { IfOk result (λ lists. lists_in lists.items ≡ map those_in places.now) }
{
    let (low, high) = places.split_at(places.len() / 2);
    let front = move || -> Result<Vec<NearList>, Memory>
        ensures { IfOk result (λ lists. lists_in lists.items ≡ map those_in low.entry.now) }
    { lists_in_order(alloc, low) };
    let back = move || -> Result<Vec<NearList>, Memory>
        ensures { IfOk result (λ lists. lists_in lists.items ≡ map those_in high.entry.now) }
    { lists_aside(rt, alloc, high) };
    let (first, second) = join(rt, front, back);
    let mut lists = first?;
    let mut others = second?;
    lists.append(&mut others)?;
    Ok(lists)
}

/// For each place the list of its windows, by four workers.
fn lists_by_four<R: Threads + Sync, const K: usize>(
    rt: &R,
    alloc: Global,
    places: &[[Compact; K]],
) -> Result<Vec<NearList>, Memory>
    ensures { IfOk result (λ lists. lists_in lists.items ≡ map those_in places.now) }
{
    let (low, high) = places.split_at(places.len() / 2);
    let front = move || -> Result<Vec<NearList>, Memory>
        requires { IsSync R.row }
        ensures { IfOk result (λ lists. lists_in lists.items ≡ map those_in low.entry.now) }
    { lists_by_two(rt, alloc, low) };
    let back = move || -> Result<Vec<NearList>, Memory>
        requires { IsSync R.row }
        ensures { IfOk result (λ lists. lists_in lists.items ≡ map those_in high.entry.now) }
    { lists_by_two(rt, alloc, high) };
    let (first, second) = join(rt, front, back);
    let mut lists = first?;
    let mut others = second?;
    lists.append(&mut others)?;
    Ok(lists)
}

/// For each place the list of its windows. Where there are workers enough, several make them side by side: most of the
/// time goes into memory that is taken anew for each list.
pub(crate) fn compact_lists_of<R: Threads + Sync, const K: usize>(
    rt: &R,
    alloc: Global,
    places: &[[Compact; K]],
    workers: u32,
) -> Result<Vec<NearList>, Memory>
    ensures { IfOk result (λ lists. lists_in lists.items ≡ map those_in places.now) }
{
    if places.len() < PLACES_FOR_WORKERS {
        return lists_in_order(alloc, places);
    }
    match workers {
        0 | 1 => lists_in_order(alloc, places),
        2 | 3 => lists_by_two(rt, alloc, places),
        _ => lists_by_four(rt, alloc, places),
    }
}

/// So many lists without a window.
pub(crate) fn lists_of_none(alloc: Global, size: u64) -> Result<Vec<NearList>, Memory>
    ensures { IfOk result (λ lists. lists_in lists.items ≡ replicate size []) }
{
    let mut lists = Vec::with_capacity(alloc, size as usize)?;
    for _ in 0..size {
        lists.push(Items::new(alloc))?;
    }
    Ok(lists)
}
