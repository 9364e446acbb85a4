//! Tiles of two series in coarse sums of each length, with no blocks tried before.

ghost use Rattle.std.specs.Prelude.{◌*◌, ◌≤◌, length};
ghost use Rattle.mp_series.specs.declared.limits.TheConstants.{MAX_SAMPLES, MAX_WINDOW, MIN_WINDOW};

use crate::series::{spread, ties, waves};
use crate::sums::{FORMS, RANGES};
use mp_nums::{Sample, Slot, Slots};
use mp_partial::{Kernel, Part};
use mp_series::{MAX_SAMPLES, MAX_WINDOW, MIN_WINDOW};
use mp_tiles::{JoinTiles, Seeking};
use std::process::Abort;
use std::test::Fail;

/// Expects the join in coarse sums to be what every pair gives, where pairs that are likely near are compared first.
fn expect_by_sums<R: Abort + AllocGlobal>(
    rt: &R,
    a: &[Sample],
    b: &[Sample],
    m: u32,
    eights: usize,
    every: &[Slot],
) -> Result<(), Fail>
    requires shortest { MIN_WINDOW ≤ m }
    requires longest { m ≤ MAX_WINDOW }
    requires first { length a.now ≤ MAX_SAMPLES }
    requires second { length b.now ≤ MAX_SAMPLES }
    requires some { 1 ≤ eights }
    requires few { eights ≤ 8 }
    requires wide { 8 * eights ≤ m }
{
    let tiles = JoinTiles::new(a, b, m, 100);
    let sums = tiles.sums_of(rt.alloc(), eights)?;
    let pieces = tiles.by_sums(&sums).untried();
    let mut seeds = pieces.seeds(rt.alloc())?;
    let mut others = pieces.seeds(rt.alloc())?;
    seeds.find(0, 2);
    others.find(1, 2);
    seeds.merge(&others);
    let mut slots = Slots::unit(rt.alloc(), pieces.size())?;
    pieces.begin(&seeds, 1, 2, &mut slots);
    pieces.begin(&seeds, 0, 2, &mut slots);
    pieces.run_all(&mut slots);
    assert_eq!(rt; slots.as_slice(), every);
    Ok(())
}

/// The same for each of the forms.
fn expect_forms<R: Abort + AllocGlobal>(rt: &R, a: &[Sample], b: &[Sample]) -> Result<(), Fail>
    requires first { length a.now ≤ MAX_SAMPLES }
    requires second { length b.now ≤ MAX_SAMPLES }
{
    for (m, eights) in &FORMS {
        assert!(rt; MIN_WINDOW <= *m && *m <= MAX_WINDOW);
        assert!(rt; 1 <= *eights && *eights <= 8 && 8 * *eights <= *m as usize);
        let every = mp_plain::join(rt.alloc(), a, b, *m)?;
        expect_by_sums(rt, a, b, *m, *eights, every.as_slice())?;
    }
    Ok(())
}

/// Both ways: the longer series' windows as rows, and as columns.
fn expect_both_ways<R: Abort + AllocGlobal>(rt: &R, a: &[Sample], b: &[Sample]) -> Result<(), Fail>
    requires first { length a.now ≤ MAX_SAMPLES }
    requires second { length b.now ≤ MAX_SAMPLES }
{
    expect_forms(rt, a, b)?;
    expect_forms(rt, b, a)
}

#[test]
fn joins_in_coarse_sums_of_few_numbers(rt: HostRuntime) -> Result<(), Fail> {
    for seed in 0..2 {
        let a = ties(rt.alloc(), 250 + 7 * seed, seed)?;
        let b = ties(rt.alloc(), 143 - 5 * seed, seed + 9)?;
        assert!(rt; a.len() as u64 <= MAX_SAMPLES && b.len() as u64 <= MAX_SAMPLES);
        expect_both_ways(&rt, a.as_slice(), b.as_slice())?;
    }
    Ok(())
}

#[test]
fn joins_in_coarse_sums_of_each_range(rt: HostRuntime) -> Result<(), Fail> {
    for (bits, low, high) in &RANGES {
        let a = spread(rt.alloc(), 180, *low, *high)?;
        let b = waves(rt.alloc(), 260, *bits)?;
        assert!(rt; a.len() as u64 <= MAX_SAMPLES && b.len() as u64 <= MAX_SAMPLES);
        expect_both_ways(&rt, a.as_slice(), b.as_slice())?;
        let (first, second) = b.as_slice().split_at(130);
        expect_forms(&rt, first, second)?;
    }
    Ok(())
}

/// Long enough that coarse sums are made without being asked for.
#[test]
fn long_joins_take_coarse_sums(rt: HostRuntime) -> Result<(), Fail> {
    let a = waves(rt.alloc(), 1_060, 12)?;
    let b = waves(rt.alloc(), 1_200, 13)?;
    let every = mp_plain::join(rt.alloc(), a.as_slice(), b.as_slice(), 16)?;
    let joined = mp_tiles::join(rt.alloc(), a.as_slice(), b.as_slice(), 16, 256)?;
    assert_eq!(rt; joined.as_slice(), every.as_slice());
    Ok(())
}
