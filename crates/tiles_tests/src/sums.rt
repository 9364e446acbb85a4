//! Tiles in coarse sums of each length, with no blocks tried before.

ghost use Rattle.std.specs.Prelude.{◌*◌, ◌≤◌, length};
ghost use Rattle.mp_series.specs.declared.limits.TheConstants.{MAX_SAMPLES, MAX_WINDOW, MIN_WINDOW};

use crate::series::{spread, ties, waves};
use crate::tiles::expect_columns;
use mp_nums::Sample;
use mp_partial::{Kernel, Part, Profile};
use mp_plain::Columns;
use mp_series::{MAX_SAMPLES, MAX_WINDOW, MIN_WINDOW};
use mp_tiles::{OwnTiles, Seeking, Sides};
use std::process::Abort;
use std::test::Fail;

/// Windows, and how many times eight samples their coarse sums have.
pub(crate) const FORMS: [(u32, usize); 4] = [(8, 1), (20, 2), (70, 4), (130, 8)];

/// Ranges of so many bits: a constant, those in which sums and samples are left as they are, the widest in which
/// squares are added in 32 bits, and those in which only sums are rounded down, and in which both are.
pub(crate) const RANGES: [(u32, i64, i64); 8] = [
    (0, 0, 0),
    (3, -4, 3),
    (13, -4_096, 4_095),
    (18, -131_072, 131_071),
    (22, -2_097_152, 2_097_151),
    (25, -16_777_216, 16_777_215),
    (33, -4_294_967_296, 4_294_967_295),
    (48, -140_737_488_355_328, 140_737_488_355_327),
];

/// Expects the profile in coarse sums to be what every pair gives, where pairs that are likely near are compared first.
fn expect_by_sums<R: Abort + AllocGlobal>(
    rt: &R,
    samples: &[Sample],
    m: u32,
    eights: usize,
    every: &Columns,
) -> Result<(), Fail>
    requires shortest { MIN_WINDOW ≤ m }
    requires longest { m ≤ MAX_WINDOW }
    requires samples { length samples.now ≤ MAX_SAMPLES }
    requires some { 1 ≤ eights }
    requires few { eights ≤ 8 }
    requires wide { 8 * eights ≤ m }
{
    let tiles = OwnTiles::new(samples, m, 100);
    let sums = tiles.sums_of(rt.alloc(), eights)?;
    let room = Profile::with_capacity(rt.alloc(), tiles.size())?;
    let pieces = tiles.by_sums(&sums).untried();
    let mut seeds = pieces.seeds(rt.alloc())?;
    let mut others = pieces.seeds(rt.alloc())?;
    seeds.find(0, 2);
    others.find(1, 2);
    seeds.merge(&others);
    let mut sides = Sides::unit(rt.alloc(), pieces.size())?;
    pieces.begin(&seeds, 1, 2, &mut sides);
    pieces.begin(&seeds, 0, 2, &mut sides);
    pieces.run_all(&mut sides);
    expect_columns(rt, &sides.profile(room), every);
    Ok(())
}

/// The same for each of the forms.
fn expect_forms<R: Abort + AllocGlobal>(rt: &R, samples: &[Sample]) -> Result<(), Fail>
    requires { length samples.now ≤ MAX_SAMPLES }
{
    for (m, eights) in &FORMS {
        assert!(rt; MIN_WINDOW <= *m && *m <= MAX_WINDOW);
        assert!(rt; 1 <= *eights && *eights <= 8 && 8 * *eights <= *m as usize);
        let every = mp_plain::profile(rt.alloc(), samples, *m)?;
        expect_by_sums(rt, samples, *m, *eights, &every)?;
    }
    Ok(())
}

#[test]
fn coarse_sums_of_few_numbers_give_what_every_pair_gives(rt: HostRuntime) -> Result<(), Fail> {
    for seed in 0..3 {
        let samples = ties(rt.alloc(), 250 + 7 * seed, seed)?;
        assert!(rt; samples.len() as u64 <= MAX_SAMPLES);
        expect_forms(&rt, samples.as_slice())?;
    }
    Ok(())
}

#[test]
fn coarse_sums_of_each_range_give_what_every_pair_gives(rt: HostRuntime) -> Result<(), Fail> {
    for (bits, low, high) in &RANGES {
        let samples = spread(rt.alloc(), 180, *low, *high)?;
        assert!(rt; samples.len() as u64 <= MAX_SAMPLES);
        expect_forms(&rt, samples.as_slice())?;
        let samples = waves(rt.alloc(), 260, *bits)?;
        assert!(rt; samples.len() as u64 <= MAX_SAMPLES);
        expect_forms(&rt, samples.as_slice())?;
    }
    Ok(())
}
