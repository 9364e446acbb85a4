//! Profiles and joins that workers compute side by side.

ghost use Rattle.std.specs.Prelude.{◌≡◌, ◌≤◌, [], ◌∷◌, length, IfOk, IfSome, true};
ghost use Rattle.mp_defs.specs.Series.{series_of};
ghost use Rattle.mp_defs.specs.Profile.{matrix_profile, ab_join};
ghost use Rattle.mp_tiles.specs.Pieces.{own_size, own_together, own_whole, sides_value, join_together};
ghost use Rattle.mp_workers.specs.SharedTiles.{series_in};
ghost use Rattle.mp_workers.specs.ToldTiles.{AreToldOf};
ghost use Rattle.std.specs.Thread.{IsSync};

use crate::begins::Begin;
use crate::columns::profile_of;
use crate::entries::Entries;
use crate::seeks::find_by_workers;
use crate::shared_tiles::SharedTiles;
use crate::sharing::run_sharing;
use crate::teams::{run_all, run_begun, run_one_after_another};
use crate::told_columns::profile_told;
use crate::told_tiles::tell_all;
use mp_nums::{Memory, Sample, Slots};
use mp_outside::Gate;
use mp_partial::{Kernel, MAX_WORKERS, Profile};
use mp_series::{MAX_SAMPLES, MAX_WINDOW, MIN_WINDOW};
use mp_skips::Seeds;
use mp_tiles::{
    JoinSeeds, JoinTiles, MAX_TILE, MAX_TILES, OwnTiles, Sides, SummedJoin, SummedTiles, TileParts,
    summed_tile,
};
use std::alloc::Global;
use std::thread::{Threads, join};

/// For how many pairs of windows a worker is started. Fewer pairs take less time than the start of a thread.
const PAIRS_FOR_A_WORKER: u64 = 262_144;

/// In how many parts a tile with the most rows is cut for several workers, so that they stand at different rows: what
/// one finds while another compares the same rows comes too late for it.
pub const PARTS: u32 = 16;

/// Distances below it fit a word, beside the start of a window.
pub const MOST_TOLD: u64 = 70_368_744_177_663;

/// How many of the workers so many pairs of windows are worth, at least one. Where there are few pairs, another thread
/// takes more time than it saves.
pub fn workers_for(pairs: u64, workers: u32) -> u32
    requires { 1 ≤ workers }
    ensures some { 1 ≤ result }
    ensures within { result ≤ workers }
{
    (pairs / PAIRS_FOR_A_WORKER).clamp(1, u64::from(workers)) as u32
}

/// How many pairs of a sample of one series and a sample of another there are.
fn pairs(first: &[Sample], second: &[Sample]) -> u64 {
    (first.len() as u64).saturating_mul(second.len() as u64)
}

/// Both sides of the matrix profile of the tiles' samples. Several workers compare windows that start close together
/// first, since what these find lets most of the others be passed over, and each begins the tiles of the others, of at
/// most `tile` diagonals, with what all of them found. There is a band of such windows for each worker: the windows
/// behind a band's end are near to its last rows, and would be compared with little known of them once more for each
/// band.
fn both_sides<R: Threads + Sync, G: Gate>(
    rt: &R,
    alloc: Global,
    tiles: &OwnTiles,
    tile: u32,
    workers: u32,
    gate: &G,
) -> Result<Sides, Memory>
    requires few { length tiles.now.tiles ≤ MAX_TILES }
    requires least { 1 ≤ tile }
    requires greatest { tile ≤ MAX_TILE }
    requires some { 1 ≤ workers }
    requires workers { workers ≤ MAX_WORKERS }
    requires together { own_together tiles.now
        ≡ sides_value (matrix_profile tiles.now.m (series_of tiles.now.samples)) }
    ensures value { IfOk result (λ sides. sides.left ∷ sides.right ∷ []
        ≡ sides_value (matrix_profile tiles.now.m (series_of tiles.now.samples))) }
    ensures size { IfOk result (λ sides. length sides.left ≡ own_size tiles.now) }
{
    if workers == 1 {
        return run_all(rt, alloc, tiles, tiles.pieces(), workers, gate);
    }
    let near = tiles.near(workers);
    run_one_after_another(rt, alloc, &near, &near.others(tile), workers, gate)
}

/// In how many parts the rows of tiles are cut. One worker takes them whole.
pub fn parts_for(workers: u32) -> u32
    ensures least { 1 ≤ result }
    ensures greatest { result ≤ PARTS }
{
    if workers == 1 { 1 } else { PARTS }
}

/// The entries that workers share, of which none is found yet.
fn entries_for<'a>(alloc: Global, own: &OwnTiles<'a>) -> Result<Entries<'a>, Memory>
    ensures { IfOk result (λ e. e.series ≡ series_in own.now) }
{
    Entries::new(alloc, own.samples(), own.window())
}

/// The pairs of windows of a series that are likely near, and the entries that workers share: the ones are found while
/// the others are made. One worker shares with nobody.
fn seeds_and_entries<'a, R: Threads + Sync>(
    rt: &R,
    alloc: Global,
    wide: &SummedTiles,
    own: &OwnTiles<'a>,
    workers: u32,
) -> Result<(Seeds, Option<Entries<'a>>), Memory>
    requires some { 1 ≤ workers }
    requires workers { workers ≤ MAX_WORKERS }
    ensures { IfOk result (λ made. IfSome made.1 (λ e. e.series ≡ series_in own.now)) }
{
    if workers == 1 {
        return Ok((
            find_by_workers(rt, alloc, wide.seeds(alloc)?, workers)?,
            None,
        ));
    }
    let front = move || -> Result<Seeds, Memory>
        requires { IsSync R.row × (1 ≤ workers) × (workers ≤ MAX_WORKERS) }
    { find_by_workers(rt, alloc, wide.seeds(alloc)?, workers) };
    let back = move || -> Result<Entries, Memory>
        ensures { IfOk result (λ e. e.series ≡ series_in own.entry.now) }
    { entries_for(alloc, own) };
    let (seeds, entries) = join(rt, front, back);
    Ok((seeds?, Some(entries?)))
}

/// Whether words hold the distances of the tiles' windows, and there are some.
fn fit_words(tiles: &TileParts) -> bool
    ensures { result ≡ true → AreToldOf tiles.now (series_in tiles.now) }
{
    tiles.size() > 0 && tiles.coarse().are_below(MOST_TOLD)
}

/// The matrix profile of the tiles' samples by coarse sums. Each worker begins with what pairs of windows give that
/// these sums tell to be near. Where words hold the distances, several workers tell each other at once of each pair
/// that comes before what they know, and none has a profile of its own. Else each keeps what it finds, and shares it
/// behind each piece.
fn profile_by_sums<R: Threads + Sync, G: Gate>(
    rt: &R,
    alloc: Global,
    own: &OwnTiles,
    wide: SummedTiles,
    workers: u32,
    gate: &G,
    room: Profile,
) -> Result<Profile, Memory>
    requires same { wide.samples ≡ own.now.samples }
    requires same_window { wide.m ≡ own.now.m }
    requires few { length wide.tiles ≤ MAX_TILES }
    requires together { own_together wide ≡ own_whole wide }
    requires some { 1 ≤ workers }
    requires workers { workers ≤ MAX_WORKERS }
    requires no_window { room.all ≡ [] }
    requires no_left { room.left ≡ [] }
    requires no_right { room.right ≡ [] }
    requires spare { own_size own.now ≤ room.spare }
    ensures all { IfOk result (λ p. p.all ≡ (matrix_profile own.now.m (series_of own.now.samples)).all) }
    ensures left { IfOk result (λ p. p.left ≡ (matrix_profile own.now.m (series_of own.now.samples)).left) }
    ensures right { IfOk result (λ p. p.right ≡ (matrix_profile own.now.m (series_of own.now.samples)).right) }
{
    let (seeds, entries) = seeds_and_entries(rt, alloc, &wide, own, workers)?;
    let parts = wide.in_parts(parts_for(workers));
    if let Some(entries) = &entries {
        if fit_words(&parts) {
            let hold = tell_all(rt, alloc, &parts, &seeds, entries, workers, gate)?;
            return Ok(profile_told(rt, entries, hold, workers, room));
        }
    }
    let shared = SharedTiles::of(&parts, &seeds, entries);
    let sides = run_sharing(rt, alloc, &shared, workers, gate)?;
    Ok(profile_of(rt, &sides, workers, room))
}

/// The matrix profile of the samples at window length `m`, computed in tiles of at most `tile` diagonals by so many
/// workers. It is the same for every tile, number of workers and gate. A short series is left to fewer workers.
pub fn self_join<R: Threads + Sync, G: Gate>(
    rt: &R,
    alloc: Global,
    samples: &[Sample],
    m: u32,
    tile: u32,
    workers: u32,
    gate: &G,
) -> Result<Profile, Memory>
    requires shortest { MIN_WINDOW ≤ m }
    requires longest { m ≤ MAX_WINDOW }
    requires samples { length samples.now ≤ MAX_SAMPLES }
    requires least { 1 ≤ tile }
    requires greatest { tile ≤ MAX_TILE }
    requires some { 1 ≤ workers }
    requires workers { workers ≤ MAX_WORKERS }
    ensures all { IfOk result (λ p. p.all ≡ (matrix_profile m (series_of samples.now)).all) }
    ensures left { IfOk result (λ p. p.left ≡ (matrix_profile m (series_of samples.now)).left) }
    ensures right { IfOk result (λ p. p.right ≡ (matrix_profile m (series_of samples.now)).right) }
{
    let tiles = OwnTiles::new(samples, m, tile);
    let room = Profile::with_capacity(alloc, tiles.size())?;
    let workers = workers_for(pairs(samples, samples) / 2, workers);
    if let Some(sums) = tiles.sums(alloc)? {
        let wide = tiles
            .wide(tile.max(summed_tile(tiles.size())))
            .by_sums(&sums);
        return profile_by_sums(rt, alloc, &tiles, wide, workers, gate, room);
    }
    let sides = both_sides(rt, alloc, &tiles, tile, workers, gate)?;
    Ok(profile_of(rt, &sides, workers, room))
}

/// The pairs of windows of two series that are likely near.
#[derive(Drop)]
struct AheadOfJoin<'a> {
    tiles: &'a SummedJoin<'a>,
    seeds: &'a JoinSeeds,
}

impl<'a> Begin for AheadOfJoin<'a> {
    ghost use Rattle.mp_tiles.specs.Pieces.{join_size, join_whole};

    type Out = Slots;

    ghost size_of = { λ ahead. join_size ahead.tiles.now };

    ghost whole = { λ ahead. join_whole ahead.tiles.now };

    fn begin(&self, share: u32, shares: u32, into: &mut Slots) {
        self.tiles.begin(self.seeds, share, shares, into);
    }
}

/// The AB-join of the tiles' series. Where tiles are scanned in coarse sums, each worker begins with what pairs of
/// windows give that these sums tell to be near, and tiles may have `summed_tile` diagonals.
fn nearest_of_other<R: Threads + Sync, G: Gate>(
    rt: &R,
    alloc: Global,
    tiles: &JoinTiles,
    tile: u32,
    workers: u32,
    gate: &G,
) -> Result<Slots, Memory>
    requires few { length tiles.now.tiles ≤ MAX_TILES }
    requires least { 1 ≤ tile }
    requires greatest { tile ≤ MAX_TILE }
    requires some { 1 ≤ workers }
    requires workers { workers ≤ MAX_WORKERS }
    requires together { join_together tiles.now
        ≡ ab_join tiles.now.m (series_of tiles.now.a) (series_of tiles.now.b) ∷ [] }
    ensures { IfOk result (λ slots. slots.items
        ≡ ab_join tiles.now.m (series_of tiles.now.a) (series_of tiles.now.b)) }
{
    if let Some(sums) = tiles.sums(alloc)? {
        let wide = tiles
            .wide(tile.max(summed_tile(tiles.size())))
            .by_sums(&sums);
        let seeds = find_by_workers(rt, alloc, wide.seeds(alloc)?, workers)?;
        let ahead = AheadOfJoin {
            tiles: &wide,
            seeds: &seeds,
        };
        return run_begun(rt, alloc, &ahead, &wide, workers, gate);
    }
    run_all(rt, alloc, tiles, tiles.pieces(), workers, gate)
}

/// The AB-join at window length `m`: for each window of `a` its nearest window in `b`, without an exclusion zone,
/// computed in tiles of at most `tile` diagonals by so many workers. It is the same for every tile, number of workers
/// and gate. `a` and `b` may be the same series. Short series are left to fewer workers.
pub fn ab_join<R: Threads + Sync, G: Gate>(
    rt: &R,
    alloc: Global,
    a: &[Sample],
    b: &[Sample],
    m: u32,
    tile: u32,
    workers: u32,
    gate: &G,
) -> Result<Slots, Memory>
    requires shortest { MIN_WINDOW ≤ m }
    requires longest { m ≤ MAX_WINDOW }
    requires first { length a.now ≤ MAX_SAMPLES }
    requires second { length b.now ≤ MAX_SAMPLES }
    requires least { 1 ≤ tile }
    requires greatest { tile ≤ MAX_TILE }
    requires some { 1 ≤ workers }
    requires workers { workers ≤ MAX_WORKERS }
    ensures { IfOk result (λ slots. slots.items ≡ ab_join m (series_of a.now) (series_of b.now)) }
{
    let join = JoinTiles::new(a, b, m, tile);
    let workers = workers_for(pairs(a, b), workers);
    nearest_of_other(rt, alloc, &join, tile, workers, gate)
}
