//! Repeated patterns.

ghost use Rattle.std.specs.Prelude.{◌≡◌, ℕ, ◌+◌, ◌≤◌, ◌&&◌, false, nat_lt, map, length, slice_index_or, IfOk, IsTrue};
ghost use Rattle.std.specs.Int.{abs_diff};
ghost use Rattle.std.specs.List.{list_all};
ghost use Rattle.std.specs.List.Sorted.{IsPermutation, IsSorted};
ghost use Rattle.mp_defs.specs.Series.{series_of};
ghost use Rattle.mp_defs.specs.Window as window;
ghost use Rattle.mp_defs.specs.Profile.{matrix_profile};
ghost use Rattle.mp_results.specs.Order.{near_cmp};
ghost use Rattle.mp_results.specs.Motifs.{
  HasEntryDistance,
  distances_from,
  entry_within,
  within_cutoff,
  matches_of,
  motifs,
  repeated_of,
};

use crate::matching::matches;
use mp_defs::{distance_is_of_free_windows, entries_are_nearest};
use mp_nums::{Items, Memory, Motif, Near, NearList, Sample, Slot, Sq, SqList};
use mp_picks::shut_out;
use mp_series::{MAX_WINDOW, MIN_WINDOW, excl};
use mp_slide::{SlideRefusal, distances};
use std::alloc::{AllocError, Global};
use std::thread::Threads;

#[inline]
fn candidate(start: u64, slot: Slot, cutoff: Sq) -> Option<Near>
    ensures { result ≡ entry_within cutoff.0 (start, slot) }
{
    let near = slot?;
    if near.dist <= cutoff {
        Some(Near {
            dist: near.dist,
            index: start,
        })
    } else {
        None
    }
}

/// The windows that may be motifs, by start, each with the distance of its entry.
fn candidates_by_start(alloc: Global, profile: &[Slot], cutoff: Sq) -> Result<Vec<Near>, AllocError>
    ensures { IfOk result (λ listed. listed.items ≡ within_cutoff cutoff.0 profile.now) }
{
    profile
        .iter()
        .enumerate()
        .filter_map(|(start, slot)| candidate(start as u64, *slot, cutoff))
        .collect(alloc)
}

/// The same, in the order in which they are tried.
fn candidates(alloc: Global, profile: &[Slot], cutoff: Sq) -> Result<Vec<Near>, AllocError>
    ensures same { IfOk result (λ listed. IsPermutation (within_cutoff cutoff.0 profile.now) listed.items) }
    ensures sorted { IfOk result (λ listed. IsSorted near_cmp listed.items) }
{
    let mut listed = candidates_by_start(alloc, profile, cutoff)?;
    listed.sort_unstable();
    Ok(listed)
}

/// A free window of a series is as long as it must be, and no sample of it is missing.
fn want_of_memory(refusal: SlideRefusal) -> Memory
    requires { refusal ≡ SlideRefusal.Memory }
{
    match refusal {
        SlideRefusal::Memory => Memory,
        SlideRefusal::Length | SlideRefusal::Missing => unreachable!(),
    }
}

/// The distances of the window at `start` to all windows.
fn distances_to_all(
    rt: &(impl Threads + Sync),
    alloc: Global,
    series: &[Sample],
    m: u32,
    start: u64,
) -> Result<SqList, Memory>
    requires shortest { MIN_WINDOW ≤ m }
    requires longest { m ≤ MAX_WINDOW }
    requires within { start + m ≤ length series.now }
    requires free { IsTrue (window.is_free m (series_of series.now) start) }
    ensures { IfOk result (λ list. list.items ≡ distances_from m (series_of series.now) start) }
{
    let first = start as usize;
    let pattern = &series[first..first + m as usize];
    distances(rt, alloc, pattern, series).map_err(want_of_memory)
}

/// The windows that match a candidate, itself as the first.
fn windows_that_match(
    rt: &(impl Threads + Sync),
    alloc: Global,
    series: &[Sample],
    m: u32,
    candidate: Near,
    radius: Sq,
    max_matches: u64,
) -> Result<NearList, Memory>
    requires shortest { MIN_WINDOW ≤ m }
    requires longest { m ≤ MAX_WINDOW }
    requires entry { HasEntryDistance m (series_of series.now) candidate }
    requires max_matches { 1 ≤ max_matches }
    ensures { IfOk result (λ list.
        list.items ≡ matches_of m (series_of series.now) radius.0 max_matches candidate.index) }
{
    // a candidate's window is free, and its entry is the nearest window that could be listed beside it
    distance_is_of_free_windows();
    entries_are_nearest();
    if radius < candidate.dist {
        let itself = Near {
            dist: Sq(0),
            index: candidate.index,
        };
        return Ok(Items::from(vec![in alloc; itself]?));
    }
    let dist = distances_to_all(rt, alloc, series, m, candidate.index)?;
    let first = Some(candidate.index);
    matches(alloc, dist.as_slice(), excl(m), first, radius, max_matches)
}

/// Shuts out the zones of all of these.
fn shut_out_all(is_free: &mut [bool], found: &[Near], excl: u64)
    ensures { (other : ℕ) → slice_index_or is_free.new other false ≡ (slice_index_or is_free.old other false
        && list_all (λ near. nat_lt excl (abs_diff near.index other)) found.now) }
{
    for near in found {
        shut_out(is_free, near.index, excl);
    }
}

/// The windows that others repeat, at most `count`. Candidates are the windows whose entries are at most the cutoff
/// away, and they are tried in the order of their entries' distances, then of their starts. Each is listed with the
/// windows that match it within the radius, itself as the first and at most `max_matches` in all. It is kept where at
/// least `neighbours` others match it. Kept or not, the zones of all of its matches are then shut out.
pub fn motifs(
    rt: &(impl Threads + Sync),
    alloc: Global,
    series: &[Sample],
    profile: &[Slot],
    m: u32,
    cutoff: Sq,
    radius: Sq,
    neighbours: u64,
    max_matches: u64,
    count: u64,
) -> Result<Vec<Motif>, Memory>
    requires shortest { MIN_WINDOW ≤ m }
    requires longest { m ≤ MAX_WINDOW }
    requires profile { profile.now ≡ (matrix_profile m (series_of series.now)).all }
    requires max_matches { 1 ≤ max_matches }
    requires count { 1 ≤ count }
    ensures { IfOk result (λ found. map repeated_of found.items
        ≡ motifs m (series_of series.now) (record {
          cutoff = cutoff.0;
          radius = radius.0;
          neighbours = neighbours;
          max_matches = max_matches;
          count = count;
        })) }
{
    let zone = excl(m);
    let candidates = candidates(alloc, profile, cutoff)?;
    let mut is_free = vec![in alloc; true; profile.len()]?;
    let mut found = Vec::new(alloc);
    for candidate in &candidates {
        if count <= found.len() as u64 {
            break;
        }
        if is_free[candidate.index as usize] {
            let matches = windows_that_match(
                rt,
                alloc,
                series,
                m,
                *candidate,
                radius,
                max_matches,
            )?;
            let is_kept = neighbours < matches.as_slice().len() as u64;
            shut_out_all(is_free.as_mut_slice(), matches.as_slice(), zone);
            if is_kept {
                found.push(Motif {
                    start: candidate.index,
                    matches,
                })?;
            }
        }
    }
    Ok(found)
}
