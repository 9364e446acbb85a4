//! The nearest windows of each window of a series.

ghost use Rattle.std.specs.Prelude.{◌≡◌, ◌≤◌, true, length, map, IfOk};
ghost use Rattle.mp_series.specs.declared.limits.TheConstants.{MAX_SAMPLES, MAX_WINDOW, MIN_WINDOW};
ghost use Rattle.mp_defs.specs.Series.{series_of};
ghost use Rattle.mp_results.specs.Ranks.{ranks_of};
ghost use Rattle.mp_topk.specs.Ranking.{lists_in, slots_of};
ghost use Rattle.mp_topk.specs.Sharing.{series_in};
ghost use Rattle.mp_topk.specs.Tiling.{ranks_together, ranks_whole};
ghost use Rattle.mp_topk.specs.Words.{AreTellingOf};

use crate::compact_ranks::CompactRanks;
use crate::kernels::RankTiles;
use crate::ranks::MAX_RANKS;
use crate::shared_ranks::SharedRanks;
use crate::told::lists_told;
use mp_cuts::{MAX_TILE, MAX_TILES};
use mp_nums::{Memory, NearList, Sample};
use mp_outside::Gate;
use mp_partial::{Kernel, MAX_WORKERS};
use mp_series::{MAX_SAMPLES, MAX_WINDOW, MIN_WINDOW};
use mp_skips::Summed;
use mp_tiles::{TileParts, summed_tile};
use mp_workers::{
    MOST_TOLD, find_by_workers, parts_for, run_all, run_one_after_another, run_sharing, workers_for,
};
use std::alloc::Global;
use std::thread::Threads;

/// Whether words hold the distances of the tiles' windows, and there are some.
fn fit_words(tiles: &TileParts) -> bool
    ensures { result ≡ true → AreTellingOf tiles.now (series_in tiles.now) }
{
    tiles.size() > 0 && tiles.coarse().are_below(MOST_TOLD)
}

/// The lists of the tiles' ranks by coarse sums, of tiles that may have `summed_tile` diagonals. Each worker begins
/// with what pairs of windows give that these sums tell to be near. Where words hold the distances, several workers
/// tell each other at once of each window that may be among the ranks of another, and none has ranks of its own. Else
/// each keeps what it finds, and shares it behind each piece.
fn lists_by_sums<R: Threads + Sync, G: Gate, const K: usize>(
    rt: &R,
    alloc: Global,
    tiles: &RankTiles<K>,
    sums: &Summed,
    tile: u32,
    workers: u32,
    gate: &G,
) -> Result<Vec<NearList>, Memory>
    requires samples { sums.now.plan.grid.rows.now ≡ tiles.now.samples }
    requires m { sums.now.plan.grid.m ≡ tiles.now.m }
    requires shortest { MIN_WINDOW ≤ tiles.now.m }
    requires longest { tiles.now.m ≤ MAX_WINDOW }
    requires least { 1 ≤ tile }
    requires greatest { tile ≤ MAX_TILE }
    requires some { 1 ≤ workers }
    requires workers { workers ≤ MAX_WORKERS }
    ensures { IfOk result (λ lists. map slots_of (lists_in lists.items) ≡ ranks_whole K tiles.now) }
{
    let wide = tiles.own(tile.max(summed_tile(tiles.size()))).by_sums(sums);
    let seeds = find_by_workers(rt, alloc, wide.seeds(alloc)?, workers)?;
    let parts = wide.in_parts(parts_for(workers));
    if workers > 1 && fit_words(&parts) {
        return lists_told::<_, _, K>(
            rt,
            alloc,
            tiles.samples(),
            tiles.window(),
            &parts,
            &seeds,
            workers,
            gate,
        );
    }
    let entries = tiles.entries_for(alloc, workers)?;
    let shared = SharedRanks::of(&parts, &seeds, entries);
    run_sharing(rt, alloc, &shared, workers, gate)?.lists(rt, alloc, workers)
}

/// What the tiles have together, run by so many workers. Several workers compare near windows first, since what these
/// give lets most of the others be passed over, and each begins the tiles of the others, of at most `tile` diagonals,
/// with what all of them found. There is a band of near windows for each worker.
fn run_tiles<R: Threads + Sync, G: Gate, const K: usize>(
    rt: &R,
    alloc: Global,
    tiles: &RankTiles<K>,
    tile: u32,
    workers: u32,
    gate: &G,
) -> Result<CompactRanks<K>, Memory>
    requires few { length tiles.now.tiles ≤ MAX_TILES }
    requires least { 1 ≤ tile }
    requires greatest { tile ≤ MAX_TILE }
    requires some { 1 ≤ workers }
    requires workers { workers ≤ MAX_WORKERS }
    requires together { ranks_together K tiles.now ≡ ranks_whole K tiles.now }
    ensures { IfOk result (λ ranks. map slots_of ranks.lists ≡ ranks_whole K tiles.now) }
{
    if workers == 1 {
        return run_all(rt, alloc, tiles, tiles.pieces(), workers, gate);
    }
    let near = tiles.near(workers);
    run_one_after_another(rt, alloc, &near, &near.others(tile), workers, gate)
}

/// The lists of the tiles' ranks, made by as many workers. Short series are left to fewer.
fn lists_of_tiles<R: Threads + Sync, G: Gate, const K: usize>(
    rt: &R,
    alloc: Global,
    tiles: &RankTiles<K>,
    tile: u32,
    workers: u32,
    gate: &G,
) -> Result<Vec<NearList>, Memory>
    requires shortest { MIN_WINDOW ≤ tiles.now.m }
    requires longest { tiles.now.m ≤ MAX_WINDOW }
    requires few { length tiles.now.tiles ≤ MAX_TILES }
    requires least { 1 ≤ tile }
    requires greatest { tile ≤ MAX_TILE }
    requires some { 1 ≤ workers }
    requires workers { workers ≤ MAX_WORKERS }
    requires together { ranks_together K tiles.now ≡ ranks_whole K tiles.now }
    ensures { IfOk result (λ lists. map slots_of (lists_in lists.items) ≡ ranks_together K tiles.now) }
{
    let windows = tiles.size();
    let sharing = workers_for(windows.saturating_mul(windows) / 2, workers);
    if let Some(sums) = tiles.sums(alloc)? {
        return lists_by_sums(rt, alloc, tiles, &sums, tile, sharing, gate);
    }
    run_tiles(rt, alloc, tiles, tile, sharing, gate)?.lists(rt, alloc, workers)
}

/// For each window of length `m` the `k` nearest ones outside its exclusion zone with their distances, all of them
/// where there are fewer, and none where one of its samples is missing. The nearest comes first, and of those that are
/// as near the one with the smaller start, so that the first is the window's entry in the matrix profile. It is the
/// same for every tile, number of workers and gate.
///
/// Distances are sums of squared differences, in units of `10^(-2 * scale)`. It is computed in tiles of at most `tile`
/// diagonals by so many workers, by a body for each `k`. Where blocks of pairs are passed over by coarse sums, a tile
/// may have `summed_tile` diagonals. Short series are left to fewer workers.
pub fn nearest<R: Threads + Sync, G: Gate>(
    rt: &R,
    alloc: Global,
    samples: &[Sample],
    m: u32,
    k: u64,
    tile: u32,
    workers: u32,
    gate: &G,
) -> Result<Vec<NearList>, Memory>
    requires shortest { MIN_WINDOW ≤ m }
    requires longest { m ≤ MAX_WINDOW }
    requires samples { length samples.now ≤ MAX_SAMPLES }
    requires one { 1 ≤ k }
    requires few { k ≤ MAX_RANKS }
    requires least { 1 ≤ tile }
    requires greatest { tile ≤ MAX_TILE }
    requires some { 1 ≤ workers }
    requires workers { workers ≤ MAX_WORKERS }
    ensures { IfOk result (λ lists. lists_in lists.items ≡ ranks_of k m (series_of samples.now)) }
{
    macro_rules! by_ranks {
        ($($ranks:literal)*) => {
            match k {
                $($ranks => lists_of_tiles(
                    rt, alloc, &RankTiles::<$ranks>::new(samples, m, tile), tile, workers, gate,
                ),)*
                _ => lists_of_tiles(rt, alloc, &RankTiles::<4>::new(samples, m, tile), tile, workers, gate),
            }
        };
    }
    by_ranks!(1 2 3)
}
