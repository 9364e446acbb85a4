//! Scans at every rounding, also such as leave nothing of the samples or let most sums wrap.

ghost use Rattle.std.specs.Prelude.{◌≤◌, length};
ghost use Rattle.mp_series.specs.declared.limits.TheConstants.{MAX_WINDOW, MIN_WINDOW};

use crate::found::{EachFound, Found};
use crate::series::spread;
use mp_nums::{Memory, Sample, Slot, Slots, nearer};
use mp_scans::{Plan, scan};
use mp_series::{MAX_WINDOW, MIN_WINDOW, windows};
use mp_sums::{Grid, NUMBER_BITS, Rounding};
use std::alloc::Global;
use std::process::Abort;
use std::test::Fail;

/// Nothing, for each row and each column.
fn nothing(alloc: Global, rows: &[Sample], columns: &[Sample], m: u32) -> Result<Found, Memory>
    requires { 1 ≤ m }
{
    let rows = windows(rows.len() as u64, m);
    let columns = windows(columns.len() as u64, m);
    Ok(Found {
        of_rows: vec![in alloc; None; rows as usize]?,
        of_columns: vec![in alloc; None; columns as usize]?,
    })
}

/// What the pairs of two series give by a rounding, of which the columns start `first` places behind their rows or
/// more.
fn find(
    alloc: Global,
    rows: &[Sample],
    columns: &[Sample],
    rounding: Rounding,
    first: usize,
) -> Result<Found, Memory>
    requires shortest { MIN_WINDOW ≤ rounding.m }
    requires longest { rounding.m ≤ MAX_WINDOW }
    requires rows { length rows.now ≤ 200 }
    requires columns { length columns.now ≤ 200 }
{
    let mut found = nothing(alloc, rows, columns, rounding.m)?;
    let m = rounding.m as usize;
    let grid = Grid { rows, columns, m };
    let plan = Plan::by(grid, rounding, first % 2 == 1);
    let bottom = windows(rows.len() as u64, rounding.m) as usize;
    scan::<EachFound>(&plan, first, 200, 0, bottom, &mut found);
    Ok(found)
}

/// Expects the nearest column of each row, as a row to the columns that start behind it, and as a column to the rows
/// that start before it.
fn expect_nearest(rt: &impl Abort, later: &[Slot], earlier: &[Slot], every: &[Slot], shift: u32) {
    assert_eq!(rt; later.len(), every.len());
    assert_eq!(rt; earlier.len(), every.len());
    let both = later.iter().zip(earlier);
    for ((one, other), slot) in both.zip(every) {
        assert_eq!(rt; nearer(*one, *other), *slot, "at {shift}");
    }
}

/// Expects the nearest windows of another series by each rounding to be what every pair gives.
fn expect_roundings<R: Abort + AllocGlobal>(
    rt: &R,
    a: &[Sample],
    b: &[Sample],
    m: u32,
    every: &Slots,
) -> Result<(), Fail>
    requires shortest { MIN_WINDOW ≤ m }
    requires longest { m ≤ MAX_WINDOW }
    requires first { length a.now ≤ 200 }
    requires second { length b.now ≤ 200 }
{
    for shift in 0..NUMBER_BITS {
        let rounding = Rounding { m, shift };
        let later = find(rt.alloc(), a, b, rounding, 0)?;
        let earlier = find(rt.alloc(), b, a, rounding, 1)?;
        let (later, earlier) = (later.of_rows.as_slice(), earlier.of_columns.as_slice());
        expect_nearest(rt, later, earlier, every.as_slice(), shift);
    }
    Ok(())
}

/// Window lengths, and the least and the greatest of the numbers: many ties, and sums that wrap.
static RANGES: [(u32, i64, i64); 4] = [
    (3, -1, 2),
    (20, -2_147_483_648, 2_147_483_647),
    (20, -140_737_488_355_328, 140_737_488_355_327),
    (40, -1_000_000, 7),
];

#[test]
fn roundings_give_what_every_pair_gives(rt: HostRuntime) -> Result<(), Fail> {
    for (m, low, high) in &RANGES {
        let samples = spread(rt.alloc(), 190, *low, *high)?;
        let (a, b) = samples.as_slice().split_at(80);
        assert!(rt; MIN_WINDOW <= *m && *m <= MAX_WINDOW);
        let every = mp_plain::join(rt.alloc(), a, b, *m)?;
        expect_roundings(&rt, a, b, *m, &every)?;
    }
    Ok(())
}
