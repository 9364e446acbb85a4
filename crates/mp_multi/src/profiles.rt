//! The multidimensional profile of several channels.

ghost use Rattle.std.specs.Prelude.{◌≡◌, ◌+◌, ◌≤◌, [], ◌∷◌, length, map, slice_index_or, IfOk, IfSome};
ghost use Rattle.std.specs.Thread.{IsSync};
ghost use Rattle.mp_defs.specs.Series.{series_of};
ghost use Rattle.mp_results.specs.Multi.{multi_of};
ghost use Rattle.mp_multi.specs.Conditions.{HaveOneLength};
ghost use Rattle.mp_multi.specs.Sharing.{AreUnfound, profile_of};
ghost use Rattle.mp_multi.specs.Tiling.{multi_size, multi_together};

use crate::entries::Entries;
use crate::kernels::MultiTiles;
use crate::limits::MAX_CHANNELS;
use crate::mates::Search;
use crate::shared::SharedMulti;
use crate::summed::{MultiSums, MultiUnits};
use crate::tiles::SummedMulti;
use mp_cuts::{MAX_TILE, MAX_TILES};
use mp_nums::{Memory, Slots};
use mp_outside::Gate;
use mp_partial::{Kernel, MAX_WORKERS, units};
use mp_series::{Bundle, MAX_SAMPLES, MAX_WINDOW, MIN_WINDOW};
use mp_tiles::summed_tile;
use mp_workers::{find_by_workers, run_all, run_one_after_another, run_sharing_in, workers_for};
use std::alloc::Global;
use std::thread::{Threads, join};

/// In how many parts the rows of a tile are cut that so many workers draw.
const PARTS: u32 = 16;

/// In how many parts tiles are cut that so many workers draw. One worker takes them whole.
fn parts_for(workers: u32) -> u32
    ensures least { 1 ≤ result }
    ensures greatest { result ≤ PARTS }
{
    if workers == 1 { 1 } else { PARTS }
}

/// Slots of so many windows for each of so many workers, in which nothing was found yet, made by as many. Memory costs
/// most where it is used for the first time.
#[cycle(slots)]
fn unfound_slots<R: Threads + Sync>(
    rt: &R,
    alloc: Global,
    workers: u32,
    windows: u64,
) -> Result<Vec<Slots>, Memory>
    ensures { IfOk result (λ slots. AreUnfound workers windows slots.items) }
{
    if workers <= 1 {
        return units(alloc, workers, windows);
    }
    let half = workers / 2;
    unfound_halves(rt, alloc, half, workers - half, windows)
}

/// The same for some workers and for others, side by side.
#[cycle(slots)]
fn unfound_halves<R: Threads + Sync>(
    rt: &R,
    alloc: Global,
    some: u32,
    others: u32,
    windows: u64,
) -> Result<Vec<Slots>, Memory>
    requires some { 1 ≤ some }
    requires others { 1 ≤ others }
    ensures { IfOk result (λ slots. AreUnfound (some + others) windows slots.items) }
{
    let front = move || -> Result<Vec<Slots>, Memory>
        requires { IsSync R.row }
        ensures { IfOk result (λ slots. AreUnfound some windows slots.items) }
    { unfound_slots(rt, alloc, some, windows) };
    let back = move || -> Result<Vec<Slots>, Memory>
        requires { IsSync R.row }
        ensures { IfOk result (λ slots. AreUnfound others windows slots.items) }
    { unfound_slots(rt, alloc, others, windows) };
    let (low, high) = join(rt, front, back);
    let (mut low, mut high) = (low?, high?);
    low.append(&mut high)?;
    Ok(low)
}

/// The coarse sums of channels, and slots of so many windows for each of so many workers, in which nothing was found
/// yet. Several workers make the ones while they make the others.
fn sums_and_slots<'a, R: Threads + Sync>(
    rt: &R,
    alloc: Global,
    units: &MultiUnits<'a>,
    windows: u64,
    workers: u32,
) -> Result<(MultiSums<'a>, Vec<Slots>), Memory>
    ensures plan { IfOk result (λ made. made.0.plan ≡ units.now.plan) }
    ensures slots { IfOk result (λ made. AreUnfound workers windows made.1.items) }
{
    if workers == 1 {
        let sums = MultiSums::of(rt, alloc, units, workers)?;
        return Ok((sums, unfound_slots(rt, alloc, workers, windows)?));
    }
    let front = move || -> Result<MultiSums, Memory>
        requires { IsSync R.row }
        ensures { IfOk result (λ sums. sums.plan ≡ units.entry.now.plan) }
    { MultiSums::of(rt, alloc, units, workers) };
    let back = move || -> Result<Vec<Slots>, Memory>
        requires { IsSync R.row }
        ensures { IfOk result (λ slots. AreUnfound workers windows slots.items) }
    { unfound_slots(rt, alloc, workers, windows) };
    let (sums, slots) = join(rt, front, back);
    Ok((sums?, slots?))
}

/// The pairs of windows that are likely near, and the entries that workers share: the ones are found while the others
/// are made. One worker shares with nobody.
fn pairs_and_entries<'a, R: Threads + Sync, const D: usize>(
    rt: &R,
    alloc: Global,
    summed: &SummedMulti<D>,
    tiles: &MultiTiles<'a, D>,
    workers: u32,
) -> Result<(Search<D>, Option<Entries<'a>>), Memory>
    requires some { 1 ≤ workers }
    requires few { workers ≤ MAX_WORKERS }
    ensures { IfOk result (λ made. IfSome made.1 (λ whole. whole ≡ profile_of tiles.now)) }
{
    let first = summed.search(alloc)?;
    if workers == 1 {
        return Ok((find_by_workers(rt, alloc, first, workers)?, None));
    }
    let front = move || -> Result<Search<D>, Memory>
        requires { IsSync R.row × (1 ≤ workers) × (workers ≤ MAX_WORKERS) }
    { find_by_workers(rt, alloc, first, workers) };
    let back = move || -> Result<Entries, Memory>
        ensures { IfOk result (λ whole. whole ≡ profile_of tiles.entry.now) }
    { tiles.entries(alloc) };
    let (search, entries) = join(rt, front, back);
    Ok((search?, Some(entries?)))
}

/// What the tiles have together, run in coarse sums by a worker for each of some slots, in which nothing was found yet.
/// They begin with pairs that these sums tell to be near, and share what they find, and tiles may have `summed_tile`
/// diagonals.
fn run_by_sums<R: Threads + Sync, G: Gate, const D: usize>(
    rt: &R,
    alloc: Global,
    tiles: &MultiTiles<D>,
    sums: &MultiSums,
    slots: &mut Vec<Slots>,
    tile: u32,
    workers: u32,
    gate: &G,
) -> Result<Slots, Memory>
    requires channels { sums.now.plan.channels.list.now ≡ tiles.now.channels }
    requires m { sums.now.plan.channels.m ≡ tiles.now.m }
    requires k { sums.now.plan.channels.k ≡ tiles.now.k }
    requires slots { AreUnfound workers (multi_size tiles.now) slots.old.items }
    requires few { length tiles.now.tiles ≤ MAX_TILES }
    requires least { 1 ≤ tile }
    requires greatest { tile ≤ MAX_TILE }
    requires some { 1 ≤ workers }
    requires workers { workers ≤ MAX_WORKERS }
    requires together { multi_together tiles.now
        ≡ multi_of tiles.now.m tiles.now.k (map series_of tiles.now.channels) ∷ [] }
    ensures { IfOk result (λ slots. slots.items ∷ [] ≡ multi_together tiles.now) }
{
    let windows = tiles.size();
    let coarse = sums.coarse(alloc, windows as usize)?;
    let summed = SummedMulti {
        tiles: tiles.wide(tile.max(summed_tile(windows))),
        coarse: &coarse,
    };
    let (search, entries) = pairs_and_entries(rt, alloc, &summed, tiles, workers)?;
    let parts = summed.parts(parts_for(workers));
    let shared = SharedMulti::of(&summed, &search, entries, parts);
    run_sharing_in(rt, alloc, &shared, slots, gate)
}

/// What the tiles have together, run by so many workers. Short channels are left to fewer. Where coarse sums are made,
/// tiles are run in them. Else several workers compare near windows first, since what these give lets most of the others
/// be passed over, and each begins the tiles of the others, of at most `tile` diagonals, with what all of them found.
/// There is a band of near windows for each worker.
fn run_tiles<R: Threads + Sync, G: Gate, const D: usize>(
    rt: &R,
    alloc: Global,
    tiles: &MultiTiles<D>,
    tile: u32,
    workers: u32,
    gate: &G,
) -> Result<Slots, Memory>
    requires few { length tiles.now.tiles ≤ MAX_TILES }
    requires least { 1 ≤ tile }
    requires greatest { tile ≤ MAX_TILE }
    requires some { 1 ≤ workers }
    requires workers { workers ≤ MAX_WORKERS }
    requires together { multi_together tiles.now
        ≡ multi_of tiles.now.m tiles.now.k (map series_of tiles.now.channels) ∷ [] }
    ensures { IfOk result (λ slots. slots.items ∷ [] ≡ multi_together tiles.now) }
{
    let windows = tiles.size();
    let workers = workers_for(windows.saturating_mul(windows) / 2, workers);
    if let Some(units) = MultiUnits::of(&tiles.plan(), windows) {
        let (sums, mut slots) = sums_and_slots(rt, alloc, &units, windows, workers)?;
        return run_by_sums(rt, alloc, tiles, &sums, &mut slots, tile, workers, gate);
    }
    if workers == 1 {
        return run_all(rt, alloc, tiles, tiles.pieces(), workers, gate);
    }
    let near = tiles.near(workers);
    run_one_after_another(rt, alloc, &near, &near.others(tile), workers, gate)
}

/// The multidimensional profile of channels at window length `m`: for each window the nearest one outside its exclusion
/// zone, by the `k` channels in which both lie nearest. It is the same for every tile, number of workers and gate.
///
/// For two windows the channels count in which neither has a missing sample. Where there are at least `k` of them, the
/// value of the pair is the sum of their `k` least squared distances, in units of `10^(-2 * scale)`. Else the pair has
/// none. To take the `k` channels in which two windows lie nearest is the multidimensional matrix profile's way. That
/// squares are summed, and that a channel with a missing sample doesn't count, is this project's own rule.
///
/// It is computed in tiles of at most `tile` diagonals by so many workers, by a body for each number of channels. Short
/// channels are left to fewer workers. Of long ones blocks of pairs are passed over, in tiles that may be wider.
pub fn multi<R: Threads + Sync, G: Gate>(
    rt: &R,
    alloc: Global,
    channels: &Bundle,
    m: u32,
    k: u64,
    tile: u32,
    workers: u32,
    gate: &G,
) -> Result<Slots, Memory>
    requires shortest { MIN_WINDOW ≤ m }
    requires longest { m ≤ MAX_WINDOW }
    requires one { 1 ≤ length channels.now }
    requires few { length channels.now ≤ MAX_CHANNELS }
    requires one_length { HaveOneLength channels.now }
    requires samples { length (slice_index_or channels.now 0 []) ≤ MAX_SAMPLES }
    requires positive { 1 ≤ k }
    requires channels { k ≤ length channels.now }
    requires least { 1 ≤ tile }
    requires greatest { tile ≤ MAX_TILE }
    requires some { 1 ≤ workers }
    requires workers { workers ≤ MAX_WORKERS }
    ensures { IfOk result (λ slots. slots.items ≡ multi_of m k (map series_of channels.now)) }
{
    macro_rules! by_count {
        ($($count:literal)*) => {
            match channels.count() {
                $($count => run_tiles(
                    rt, alloc, &MultiTiles::<$count>::new(channels, m, k, tile), tile, workers, gate,
                ),)*
                _ => run_tiles(rt, alloc, &MultiTiles::<8>::new(channels, m, k, tile), tile, workers, gate),
            }
        };
    }
    by_count!(1 2 3 4 5 6 7)
}
