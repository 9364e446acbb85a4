//! Appends to a store of the last samples.

ghost use Rattle.std.specs.Prelude.{◌≤◌};
ghost use Rattle.mp_series.specs.declared.limits.TheConstants.{MAX_SAMPLES, MAX_WINDOW, MIN_WINDOW};

use crate::sums::sum_with_slot;
use crate::words::Last;
use anyhow::{Result, ensure};
use mp_nums::Sample;
use mp_series::MAX_SAMPLES;
use mp_stream::{Column, Kept};
use std::rt::Clock;
use std::time::Instant;

/// Appends the samples in each round to a store of the last ones, and times the last round.
pub fn run_kept<R: AllocGlobal + Clock + Print>(
    rt: &R,
    window: u32,
    last: Last,
    samples: &[Sample],
) -> Result<()>
    requires shortest { MIN_WINDOW ≤ window }
    requires longest { window ≤ MAX_WINDOW }
{
    ensure!(
        u64::from(window) <= last.keep && last.keep <= MAX_SAMPLES,
        "a window of {window} in {} samples",
        last.keep
    );
    let mut kept = Kept::open(rt.alloc(), window, last.keep)?;
    run_rounds(rt, &mut kept, last.rounds, samples)
}

/// The same of a store that is lent, since each way out of a function that holds one is dear to prove.
fn run_rounds<R: Clock + Print>(
    rt: &R,
    kept: &mut Kept,
    rounds: u64,
    samples: &[Sample],
) -> Result<()> {
    for _ in 1..rounds {
        append_each(kept, samples)?;
    }
    let start = Instant::now(rt)?;
    append_each(kept, samples)?;
    let time = start.elapsed(rt)?;
    println!(rt; "{:032x}", sum_of_live(kept))?;
    println!(rt; "{} nanoseconds", time.as_nanos())?;
    Ok(())
}

fn append_each(kept: &mut Kept, samples: &[Sample]) -> Result<()> {
    for sample in samples {
        kept.append(*sample)?;
    }
    Ok(())
}

/// A number that tells the profiles of the live windows of two stores apart, but for chance.
fn sum_of_live(kept: &Kept) -> u128 {
    let mut sum = 0;
    for column in [Column::All, Column::Left, Column::Right] {
        for i in kept.first()..kept.first().saturating_add(kept.live()) {
            sum = sum_with_slot(sum, &kept.slot(column, i));
        }
    }
    sum
}
