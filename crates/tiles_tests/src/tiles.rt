ghost use Rattle.std.specs.Prelude.{◌≡◌, ◌≤◌, IfOk, length};
ghost use Rattle.mp_series.specs.declared.limits.TheConstants.{MAX_SAMPLES, MAX_WINDOW, MIN_WINDOW};
ghost use Rattle.mp_defs.specs.Window.{windows as windows_in};

use crate::series::{samples, spread, ties};
use mp_nums::{Memory, Near, Sample, Slot, Slots, Sq};
use mp_partial::{Bench, Kernel, Part, Patch, Profile};
use mp_plain::Columns;
use mp_series::{MAX_SAMPLES, MAX_WINDOW, MIN_WINDOW, excl, windows};
use mp_tiles::{
    Cut, MAX_TILE, OwnTiles, Tile, cut_both, cut_own, join, profile, scan_own, scan_patch,
};
use std::alloc::Global;
use std::process::Abort;
use std::test::Fail;

/// The ends of 32 bits.
const NARROW: (i64, i64) = (-2_147_483_648, 2_147_483_647);

/// The ends of 48 bits.
const WIDE: (i64, i64) = (-140_737_488_355_328, 140_737_488_355_327);

/// Expects slots with these distances and starts.
fn expect_slots(rt: &impl Abort, slots: &[Slot], expected: &[Option<(u128, u64)>]) {
    assert_eq!(rt; slots.len(), expected.len());
    for (slot, pair) in slots.iter().zip(expected) {
        assert_eq!(rt; slot.map(|near| (near.dist.0, near.index)), *pair);
    }
}

/// Expects columns with these distances and starts.
fn expect_sides(
    rt: &impl Abort,
    profile: &Profile,
    all: &[Option<(u128, u64)>],
    left: &[Option<(u128, u64)>],
    right: &[Option<(u128, u64)>],
) {
    expect_slots(rt, profile.all(), all);
    expect_slots(rt, profile.left(), left);
    expect_slots(rt, profile.right(), right);
}

/// Expects the columns that every pair gives.
pub(crate) fn expect_columns(rt: &impl Abort, profile: &Profile, every: &Columns) {
    assert_eq!(rt; profile.all(), every.all.as_slice());
    assert_eq!(rt; profile.left(), every.left.as_slice());
    assert_eq!(rt; profile.right(), every.right.as_slice());
}

/// Expects so many tiles, and some of them, by their places: their first and last diagonal, and first and last row.
fn expect_tiles(rt: &impl Abort, cut: &Cut, count: u64, tiles: &[(u64, [u64; 4])]) {
    assert_eq!(rt; cut.count(), count);
    for (place, [first, last, first_row, last_row]) in tiles {
        assert!(rt; *place < count);
        let expected = Tile {
            first: *first,
            last: *last,
            first_row: *first_row,
            last_row: *last_row,
        };
        assert_eq!(rt; cut.tile(*place), expected, "at {place}");
    }
}

/// A part in which nothing was found, through the bound.
fn unit<P: Part>(alloc: Global, size: u64) -> Result<P, Memory>
    ensures { IfOk result (λ part. P.size_of part ≡ size) }
{
    Part::unit(alloc, size)
}

/// Merges the part with a unit and with itself, which changes nothing.
fn merge_with_unit<P: Part>(alloc: Global, part: &mut P) -> Result<(), Memory>
    ensures { P.size_of part.new ≡ P.size_of part.old }
{
    let mut other: P = unit(alloc, part.size())?;
    other.merge(part);
    part.merge(&other);
    other.clear();
    part.merge(&other);
    Ok(())
}

#[test]
fn each_band_of_near_windows_is_a_piece(rt: HostRuntime) -> Result<(), Fail> {
    let long = ties(rt.alloc(), 1_000, 3)?;
    assert!(rt; long.len() as u64 <= MAX_SAMPLES);
    let tiles = OwnTiles::new(long.as_slice(), 8, 64);
    assert_eq!(rt; tiles.near(16).pieces(), 16);
    assert_eq!(rt; tiles.near(1).pieces(), 1);
    let short = ties(rt.alloc(), 10, 3)?;
    assert!(rt; short.len() as u64 <= MAX_SAMPLES);
    let tiles = OwnTiles::new(short.as_slice(), 8, 64);
    assert_eq!(rt; tiles.near(16).pieces(), 0);
    Ok(())
}

#[test]
fn sums_go_on_past_a_missing_sample(rt: HostRuntime) -> Result<(), Fail> {
    let numbers = [
        Some(1),
        Some(2),
        None,
        Some(1),
        Some(2),
        Some(3),
        Some(1),
        Some(2),
        Some(3),
    ];
    let samples = samples(rt.alloc(), &numbers)?;
    assert!(rt; samples.len() as u64 <= MAX_SAMPLES);
    let mut profile = profile(rt.alloc(), samples.as_slice(), 3, 1)?;
    merge_with_unit(rt.alloc(), &mut profile)?;
    let (first, second) = (Some((0, 6)), Some((6, 6)));
    let (third, fourth) = (Some((6, 3)), Some((0, 3)));
    expect_sides(
        &rt,
        &profile,
        &[None, None, None, first, second, third, fourth],
        &[None, None, None, None, None, third, fourth],
        &[None, None, None, first, second, None, None],
    );
    Ok(())
}

#[test]
fn units_are_merged(rt: HostRuntime) -> Result<(), Fail> {
    let mut slots: Slots = unit(rt.alloc(), 2)?;
    expect_slots(&rt, slots.as_slice(), &[None, None]);
    slots.push(Some(Near {
        dist: Sq(5),
        index: 1,
    }))?;
    merge_with_unit(rt.alloc(), &mut slots)?;
    expect_slots(&rt, slots.as_slice(), &[None, None, Some((5, 1))]);
    let profile: Profile = unit(rt.alloc(), 2)?;
    expect_sides(&rt, &profile, &[None, None], &[None, None], &[None, None]);
    Ok(())
}

#[test]
fn a_profile_grows(rt: HostRuntime) -> Result<(), Fail> {
    let mut profile = Profile::with_capacity(rt.alloc(), 2)?;
    assert!(rt; 2 <= profile.spare());
    profile.grow();
    let (left, right) = (
        Near {
            dist: Sq(7),
            index: 0,
        },
        Near {
            dist: Sq(6),
            index: 4,
        },
    );
    profile.push(Some(left), Some(right));
    expect_sides(
        &rt,
        &profile,
        &[None, Some((6, 4))],
        &[None, Some((7, 0))],
        &[None, Some((6, 4))],
    );
    Ok(())
}

#[test]
fn a_pair_is_found_by_its_row_and_by_its_column(rt: HostRuntime) -> Result<(), Fail> {
    let mut patch = Patch::new(rt.alloc())?;
    patch.start(0, 2, 2, 2);
    patch.offer(0, 2, Sq(6));
    expect_slots(&rt, patch.rows(), &[Some((6, 2)), None]);
    expect_slots(&rt, patch.columns(), &[Some((6, 0)), None]);
    patch.start(1, 1, 3, 1);
    expect_slots(&rt, patch.rows(), &[None]);
    expect_slots(&rt, patch.columns(), &[None]);
    Ok(())
}

#[test]
fn a_profile_absorbs_its_patch(rt: HostRuntime) -> Result<(), Fail> {
    let mut bench: Bench = unit(rt.alloc(), 3)?;
    let none = [None, None, None];
    expect_sides(&rt, &bench.profile, &none, &none, &none);
    bench.begin(0, 1, 2, 1);
    bench.patch.offer(0, 2, Sq(6));
    bench.absorb();
    bench.absorb();
    merge_with_unit(rt.alloc(), &mut bench)?;
    expect_sides(
        &rt,
        &bench.profile,
        &[Some((6, 2)), None, Some((6, 0))],
        &[None, None, Some((6, 0))],
        &[Some((6, 2)), None, None],
    );
    bench.begin(0, 2, 1, 2);
    expect_slots(&rt, bench.patch.rows(), &[Some((6, 2)), None]);
    expect_slots(&rt, bench.patch.columns(), &[None, Some((6, 0))]);
    Ok(())
}

#[test]
fn chunks_of_three_diagonals(rt: HostRuntime) {
    let tiles = [(0, [2, 4, 0, 7]), (1, [5, 7, 0, 4]), (2, [8, 9, 0, 1])];
    expect_tiles(&rt, &cut_own(10, 1, 3), 3, &tiles);
    let tiles = [(0, [0, 2, 0, 2]), (1, [3, 3, 0, 0])];
    expect_tiles(&rt, &cut_both(3, 2, 3), 2, &tiles);
    expect_tiles(&rt, &cut_both(0, 2, 3), 0, &[]);
    expect_tiles(&rt, &cut_own(9, u64::MAX, 3), 0, &[]);
}

/// Each of four bands has 65,536 rows and 262,144 columns, and so 327,679 diagonals.
#[test]
fn bands_of_the_longest_series(rt: HostRuntime) {
    let tiles = [
        (0, [196_608, 196_608, 65_535, 65_535]),
        (327_678, [524_286, 524_286, 0, 0]),
        (327_679, [131_072, 131_072, 131_071, 131_071]),
        (1_310_715, [327_678, 327_678, 196_608, 196_608]),
    ];
    expect_tiles(&rt, &cut_both(262_144, 262_144, 1), 1_310_716, &tiles);
}

/// Expects the profile by tiles of each of these sizes to be what every pair gives.
fn expect_profile<R: Abort + AllocGlobal>(
    rt: &R,
    samples: &[Sample],
    m: u32,
    tiles: &[u32],
) -> Result<(), Fail>
    requires shortest { MIN_WINDOW ≤ m }
    requires longest { m ≤ MAX_WINDOW }
    requires samples { length samples.now ≤ MAX_SAMPLES }
{
    let every = mp_plain::profile(rt.alloc(), samples, m)?;
    for tile in tiles {
        assert!(rt; 1 <= *tile && *tile <= MAX_TILE);
        let tiled = profile(rt.alloc(), samples, m, *tile)?;
        expect_columns(rt, &tiled, &every);
    }
    Ok(())
}

#[test]
fn tiles_give_what_every_pair_gives(rt: HostRuntime) -> Result<(), Fail> {
    for seed in 0..6 {
        let samples = ties(rt.alloc(), 40 + 61 * seed, seed)?;
        for m in [3, 20, 40] {
            expect_profile(&rt, samples.as_slice(), m, &[1, 65, 256])?;
        }
    }
    Ok(())
}

#[test]
fn long_series_give_what_every_pair_gives(rt: HostRuntime) -> Result<(), Fail> {
    for (low, high) in [(-3, 4), (7, 7)] {
        let samples = spread(rt.alloc(), 1_100, low, high)?;
        expect_profile(&rt, samples.as_slice(), 5, &[7, 256, 65_536])?;
    }
    Ok(())
}

/// Scans each of the tiles into a profile and into a patch.
fn scan_each(samples: &[Sample], m: u32, tile: u32, profile: &mut Profile, patch: &mut Patch)
    requires shortest { MIN_WINDOW ≤ m }
    requires longest { m ≤ MAX_WINDOW }
    requires samples { length samples.now ≤ MAX_SAMPLES }
    requires least { 1 ≤ tile }
    requires greatest { tile ≤ MAX_TILE }
    requires places { length profile.old.all ≡ windows_in (length samples.now) m }
{
    let cut = cut_own(profile.len(), excl(m), tile);
    for k in 0..cut.count() {
        scan_own(samples, m, &cut.tile(k), profile);
        scan_patch(samples, m, &cut.tile(k), patch);
    }
}

/// Expects the profile by scans, and both sides of a patch of all windows, to be what every pair gives.
fn expect_scans(
    rt: &impl Abort,
    alloc: Global,
    samples: &[Sample],
    tile: u32,
    every: &Columns,
) -> Result<(), Fail>
    requires samples { length samples.now ≤ 330 }
    requires least { 1 ≤ tile }
    requires greatest { tile ≤ MAX_TILE }
{
    let size = windows(samples.len() as u64, 20);
    let mut profile: Profile = unit(alloc, size)?;
    let mut patch = Patch::new(alloc)?;
    patch.start(0, size, 0, size);
    scan_each(samples, 20, tile, &mut profile, &mut patch);
    expect_columns(rt, &profile, every);
    assert_eq!(rt; patch.rows(), every.right.as_slice());
    assert_eq!(rt; patch.columns(), every.left.as_slice());
    Ok(())
}

#[test]
fn scans_give_what_every_pair_gives(rt: HostRuntime) -> Result<(), Fail> {
    for (low, high) in [(-3, 4), NARROW, WIDE] {
        let samples = spread(rt.alloc(), 330, low, high)?;
        let every = mp_plain::profile(rt.alloc(), samples.as_slice(), 20)?;
        for tile in [1, 65, 65_536] {
            expect_scans(&rt, rt.alloc(), samples.as_slice(), tile, &every)?;
        }
    }
    Ok(())
}

/// Expects the join by tiles of each of these sizes to be what every pair gives.
fn expect_join<R: Abort + AllocGlobal>(
    rt: &R,
    a: &[Sample],
    b: &[Sample],
    m: u32,
    tiles: &[u32],
) -> Result<(), Fail>
    requires shortest { MIN_WINDOW ≤ m }
    requires longest { m ≤ MAX_WINDOW }
    requires first { length a.now ≤ MAX_SAMPLES }
    requires second { length b.now ≤ MAX_SAMPLES }
{
    let every = mp_plain::join(rt.alloc(), a, b, m)?;
    for tile in tiles {
        assert!(rt; 1 <= *tile && *tile <= MAX_TILE);
        let tiled = join(rt.alloc(), a, b, m, *tile)?;
        assert_eq!(rt; tiled.as_slice(), every.as_slice());
    }
    Ok(())
}

#[test]
fn joins_give_what_every_pair_gives(rt: HostRuntime) -> Result<(), Fail> {
    for seed in 0..4 {
        let a = ties(rt.alloc(), 30 + 91 * seed, seed)?;
        let b = ties(rt.alloc(), 303 - 91 * seed, seed + 9)?;
        for m in [3, 20] {
            expect_join(&rt, a.as_slice(), b.as_slice(), m, &[1, 7, 65, 256, 65_536])?;
        }
    }
    Ok(())
}

#[test]
fn long_joins_give_what_every_pair_gives(rt: HostRuntime) -> Result<(), Fail> {
    let a = spread(rt.alloc(), 1_100, -3, 4)?;
    let b = spread(rt.alloc(), 700, -3, 4)?;
    let (a, b) = (a.as_slice(), b.as_slice());
    expect_join(&rt, a, b, 5, &[40, 65_536])?;
    expect_join(&rt, b, a, 5, &[600])
}

/// Window lengths, and the least and the greatest of the numbers. At window 8 numbers that lie 23,170 apart have sums
/// below 2^32, and those that lie further apart may not.
static RANGES: [(u32, i64, i64); 8] = [
    (3, 0, 1),
    (8, 0, 23_170),
    (8, NARROW.0, NARROW.0 + 23_171),
    (9, 0, 1_012_333_499),
    (40, NARROW.0, NARROW.0 + 1_073_741_823),
    (40, NARROW.0, NARROW.1),
    (8, WIDE.0, WIDE.0 + 1_000),
    (40, WIDE.0, WIDE.1),
];

/// Expects the profile and a join at samples in such a range to be what every pair gives.
fn expect_within<R: Abort + AllocGlobal>(rt: &R, m: u32, low: i64, high: i64) -> Result<(), Fail>
    requires shortest { MIN_WINDOW ≤ m }
    requires longest { m ≤ MAX_WINDOW }
{
    let samples = spread(rt.alloc(), 180, low, high)?;
    let (a, b) = samples.as_slice().split_at(80);
    expect_profile(rt, samples.as_slice(), m, &[256])?;
    expect_join(rt, a, b, m, &[256])
}

#[test]
fn ranges_give_what_every_pair_gives(rt: HostRuntime) -> Result<(), Fail> {
    for (m, low, high) in &RANGES {
        assert!(rt; MIN_WINDOW <= *m && *m <= MAX_WINDOW);
        expect_within(&rt, *m, *low, *high)?;
    }
    Ok(())
}
