//! The choice by a heap.

ghost use Rattle.std.specs.Prelude.{◌≡◌, map, IfOk};
ghost use Rattle.std.specs.BinaryHeap.{IsHeap, heap_items};
ghost use Rattle.std.specs.List.Sorted.{IsPermutation};
ghost use Rattle.mp_picks.specs.Candidates.{by_key, candidates, place_of, reversed};
ghost use Rattle.mp_picks.specs.Picks.{picks};

use crate::candidates::Candidate;
use crate::zones::shut_out;
use mp_nums::Memory;
use std::alloc::Global;
use std::cmp::Reverse;
use std::collections::BinaryHeap;

/// The places that have a key, as a heap takes them, whose greatest is the first.
fn candidates<K: Ord + Copy>(
    alloc: Global,
    keys: &[Option<K>],
) -> Result<Vec<Reverse<Candidate<K>>>, Memory>
    ensures { IfOk result (λ listed. listed.items ≡ map reversed (candidates keys.now)) }
{
    let listed = keys
        .iter()
        .enumerate()
        .filter_map(|(place, key)| {
            key.map(|key| Candidate {
                key,
                place: place as u64,
            })
        })
        .map(Reverse)
        .collect(alloc)?;
    Ok(listed)
}

/// At most `count` of the places that have a key: the first by its key, the smallest one of those with equal keys, then
/// of the places that are further from it than the zone the first one, and so on.
pub fn picks<K: Ord + Copy>(
    alloc: Global,
    keys: &[Option<K>],
    zone: u64,
    count: u64,
) -> Result<Vec<Candidate<K>>, Memory>
    ensures { IfOk result (λ chosen.
        chosen.items ≡ picks (by_key K.cmp) place_of zone count (candidates keys.now)) }
{
    let mut is_free = vec![in alloc; true; keys.len()]?;
    let mut waiting = BinaryHeap::from(candidates(alloc, keys)?);
    let mut chosen = Vec::new(alloc);
    while (chosen.len() as u64) < count {
        let Some(Reverse(first)) = waiting.pop() else {
            break;
        };
        if is_free[first.place as usize] {
            shut_out(is_free.as_mut_slice(), first.place, zone);
            chosen.push(first)?;
        }
    }
    Ok(chosen)
}
