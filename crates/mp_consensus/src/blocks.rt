//! Blocks: successive windows of one series, which are compared together with those of the others.

ghost use Rattle.std.specs.Prelude.{◌≡◌, ◌≢◌, ℕ, ◌+◌, ◌-◌, ◌<◌, ◌≤◌, ◌^◌, ◌⊎◌, [], length, map, slice_index_or};
ghost use Rattle.std.specs.Prelude.{IfOk, IfSome};
ghost use Rattle.std.specs.Prelude.{Some, None};
ghost use Rattle.std.specs.List.{between};
ghost use Rattle.mp_series.specs.declared.limits.TheConstants.{MAX_SAMPLES, MAX_WINDOW, MIN_WINDOW};
ghost use Rattle.mp_nums.specs.Near.{nearer_of};
ghost use Rattle.mp_defs.specs.Series.{series_of};
ghost use Rattle.mp_defs.specs.Window.{windows as windows_in};
ghost use Rattle.mp_defs.specs.Profile.{join_entry};
ghost use Rattle.mp_consensus.specs.Bounds.{least_radius};
ghost use Rattle.mp_consensus.specs.Blocks.{HoldsWindow, IsBlockOf, IsRowOf, windows_at};
ghost use Rattle.mp_consensus.specs.Conditions.{MayBeCompared};
ghost use Rattle.mp_consensus.specs.Searches.{HaveReached, IsPast, Leads, piece_of, reach_with, start_of};

use crate::bounds::Bound;
use crate::candidates::{Candidate, first_of};
use crate::lookers::Looker;
use crate::rows::{Reach, is_any_left, reach_on, renew, starts, unreached};
use mp_cuts::Tile;
use mp_nums::{Memory, Sample, Slots, Sq};
use mp_series::{Bundle, windows};
use mp_tiles::scan_both;
use std::alloc::Global;

/// How many windows a block has, but for the last one of a series.
pub(crate) const BLOCK: u64 = 64;

/// Windows of the series at `place`, as many as `count` says from `start` on.
#[derive(Clone, Copy)]
pub(crate) struct Block {
    pub(crate) place: u64,
    pub(crate) start: u64,
    pub(crate) count: u64,
}

/// How many windows the series at a place has.
fn count_windows(list: &Bundle, m: u32, place: u64) -> u64
    requires m { 1 ≤ m }
    requires place { place < length list.now }
    ensures { result ≡ windows_at m list.now place }
{
    windows(list.series(place).len() as u64, m)
}

/// How many pieces there are: for each place as many as the longest series has blocks.
pub(crate) fn count_pieces(list: &Bundle, m: u32) -> u64
    requires conditions { MayBeCompared list.now m }
    ensures few { result ≤ 262144 }
    ensures all { (p i : ℕ) → p < length list.now → i < windows_at m list.now p
        → piece_of (length list.now) p i < result }
{
    let mut most = 0;
    for place in 0..list.count() {
        most = count_windows(list, m, place).div_ceil(BLOCK).max(most);
    }
    most * list.count()
}

/// The block that is a piece, where there is one: the first blocks of all places come first, then the second ones.
pub(crate) fn block_at(list: &Bundle, m: u32, piece: u64) -> Option<Block>
    requires conditions { MayBeCompared list.now m }
    requires piece { piece < 2 ^ 32 }
    ensures block { IfSome result (IsBlockOf m list.now) }
    ensures holds { (p i : ℕ) → p < length list.now → i < windows_at m list.now p
        → piece_of (length list.now) p i ≡ piece → HoldsWindow result p i }
{
    let (place, start) = (piece % list.count(), piece / list.count() * BLOCK);
    let count = count_windows(list, m, place);
    if start < count {
        Some(Block {
            place,
            start,
            count: (count - start).min(BLOCK),
        })
    } else {
        None
    }
}

/// Offers to each row all windows of another series.
pub(crate) fn scan_all(rows: &[Sample], others: &[Sample], m: u32, slots: &mut Slots)
    requires shortest { MIN_WINDOW ≤ m }
    requires longest { m ≤ MAX_WINDOW }
    requires rows { length rows.now ≤ MAX_SAMPLES }
    requires others { length others.now ≤ MAX_SAMPLES }
    requires places { length slots.old.items ≡ windows_in (length rows.now) m }
    requires some { 1 ≤ length slots.old.items }
    requires few { length slots.old.items ≤ BLOCK }
    ensures places { length slots.new.items ≡ length slots.old.items }
    ensures each { (i : ℕ) → i < length slots.old.items → slice_index_or slots.new.items i None
        ≡ nearer_of (slice_index_or slots.old.items i None)
        (join_entry m (series_of rows.now) (series_of others.now) i) }
{
    let columns = windows(others.len() as u64, m);
    if columns == 0 {
        return;
    }
    let count = slots.as_slice().len() as u64;
    let tile = Tile {
        first: 0,
        last: count + columns - 2,
        first_row: 0,
        last_row: count - 1,
    };
    scan_both(rows, others, m, &tile, slots);
}

/// How far the rows reach once they were compared with the windows of one more series.
fn compare(
    alloc: Global,
    rows: &[Sample],
    others: &[Sample],
    m: u32,
    end: Option<Sq>,
    reaches: &mut Vec<Reach>,
) -> Result<(), Memory>
    requires shortest { MIN_WINDOW ≤ m }
    requires longest { m ≤ MAX_WINDOW }
    requires rows { length rows.now ≤ MAX_SAMPLES }
    requires others { length others.now ≤ MAX_SAMPLES }
    requires places { length reaches.old.items ≡ windows_in (length rows.now) m }
    requires some { 1 ≤ length reaches.old.items }
    requires few { length reaches.old.items ≤ BLOCK }
    ensures places { length reaches.new.items ≡ length reaches.old.items }
    ensures each { IfOk result (λ _. (i : ℕ) → i < length reaches.old.items → slice_index_or reaches.new.items i None
        ≡ reach_with end (slice_index_or reaches.old.items i None)
        (nearer_of (start_of end (slice_index_or reaches.old.items i None))
        (join_entry m (series_of rows.now) (series_of others.now) i))) }
{
    let mut slots = starts(alloc, end, reaches.as_slice())?;
    scan_all(rows, others, m, &mut slots);
    reach_on(end, reaches.as_mut_slice(), slots.as_slice());
    Ok(())
}

/// The samples of a block's windows.
pub(crate) fn rows_of<'a>(list: &'a Bundle, m: u32, block: Block) -> &'a [Sample]
    requires conditions { MayBeCompared list.now m }
    requires block { IsBlockOf m list.now block }
    ensures { result.now ≡ between block.start (block.start + block.count + m - 1)
        (slice_index_or list.now block.place []) }
{
    let first = block.start as usize;
    &list.series(block.place)[first..first + block.count as usize + m as usize - 1]
}

/// The other place whose series has the fewest samples.
fn shortest_other(list: &Bundle, place: u64) -> u64
    requires two { 2 ≤ length list.now }
    requires place { place < length list.now }
    ensures other { result < length list.now }
    ensures apart { result ≢ place }
{
    let mut shortest = first_other(place);
    for other in 0..list.count() {
        if other != place && list.series(other).len() < list.series(shortest).len() {
            shortest = other;
        }
    }
    shortest
}

/// The first other place.
fn first_other(place: u64) -> u64
    ensures within { result ≤ 1 }
    ensures apart { result ≢ place }
{
    if place == 0 { 1 } else { 0 }
}

/// Whether a series is so much shorter than the one that comes first that it is worth to be looked at before it.
fn is_shorter(series: &[Sample], first: &[Sample]) -> bool {
    series.len() < first.len() / 2
}

/// The windows of a block, compared with no place yet, without those that are given up already: where one series is
/// much shorter than others, it tells of most windows in the least time that they aren't the centre.
fn sift(
    alloc: Global,
    list: &Bundle,
    m: u32,
    block: Block,
    end: Option<Sq>,
) -> Result<Vec<Reach>, Memory>
    requires conditions { MayBeCompared list.now m }
    requires block { IsBlockOf m list.now block }
    requires past { IfSome end (λ e. IsPast (least_radius m list.now) e.0) }
    ensures count { IfOk result (λ reaches. length reaches.items ≡ block.count) }
    ensures reached { IfOk result (λ reaches. HaveReached (least_radius m list.now) m (map series_of list.now)
        block.place block.start 0 reaches.items) }
{
    let mut reaches = unreached(alloc, block.count)?;
    let other = shortest_other(list, block.place);
    let (series, first) = (list.series(other), list.series(first_other(block.place)));
    if end.is_some() && is_shorter(series, first) {
        compare(alloc, rows_of(list, m, block), series, m, end, &mut reaches)?;
        renew(&mut reaches);
    }
    Ok(reaches)
}

/// How far the windows of a block reach. They are compared with those at all places, as long as one of them isn't given
/// up. One is given up where at some place all windows lie behind the end: it can't be the centre then.
pub(crate) fn search_block(
    alloc: Global,
    list: &Bundle,
    m: u32,
    block: Block,
    bound: &Bound,
    looker: &mut Looker,
) -> Result<Vec<Reach>, Memory>
    requires conditions { MayBeCompared list.now m }
    requires block { IsBlockOf m list.now block }
    requires bound { looker.old.bound ≡ bound.now }
    requires least { looker.old.least ≡ least_radius m list.now }
    ensures bound { looker.new.bound ≡ bound.now }
    ensures least { looker.new.least ≡ looker.old.least }
    ensures count { IfOk result (λ reaches. length reaches.items ≡ block.count) }
    ensures reached { IfOk result (λ reaches. HaveReached (least_radius m list.now) m (map series_of list.now)
        block.place block.start (length list.now) reaches.items) }
{
    let rows = rows_of(list, m, block);
    let first_end = bound.end(looker);
    let mut reaches = sift(alloc, list, m, block, first_end)?;
    for place in 0..list.count() {
        if !is_any_left(reaches.as_slice()) {
            return Ok(reaches);
        }
        if place != block.place {
            let end = bound.end(looker);
            compare(alloc, rows, list.series(place), m, end, &mut reaches)?;
        }
    }
    Ok(reaches)
}

/// The first of the best candidate so far and of a block's windows that weren't given up.
pub(crate) fn best_of(best: Option<Candidate>, block: Block, reaches: &[Reach]) -> Option<Candidate>
    requires { block.start + length reaches.now ≤ MAX_SAMPLES }
    ensures either { IfSome result (λ c. (best ≡ Some c) ⊎ IsRowOf block reaches.now c) }
    ensures leads { (r p i : ℕ) → Leads best r p i → Leads result r p i }
    ensures each { (i : ℕ) (reach : _) → i < length reaches.now → slice_index_or reaches.now i None ≡ Some reach
        → Leads result reach.0 block.place (block.start + i) }
{
    let mut best = best;
    for i in 0..reaches.len() {
        if let Some(radius) = reaches[i] {
            let found = Candidate {
                radius,
                place: block.place,
                start: block.start + i as u64,
            };
            best = Some(first_of(best, found));
        }
    }
    best
}
