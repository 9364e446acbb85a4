//! The words behind the program's name.

ghost use Rattle.std.specs.Prelude.{◌≤◌, ◌<◌, ◌-◌};
ghost use Rattle.mp_series.specs.declared.limits.TheConstants.{MAX_WINDOW, MIN_WINDOW};
ghost use Rattle.mp_partial.specs.declared.limits.TheConstants.{MAX_WORKERS};
ghost use Rattle.mp_pan.specs.declared.limits.TheConstants.{MAX_LENGTHS};

use anyhow::{Context, Result, bail, ensure};
use mp_pan::MAX_LENGTHS;
use mp_partial::MAX_WORKERS;
use mp_series::{MAX_WINDOW, MIN_WINDOW};

/// What is computed.
#[derive(Clone, Copy, Debug, PartialEq, Eq)]
pub enum Body {
    /// All lengths together.
    Pan,
    /// The profile of each length.
    Each,
}

/// What is to be done.
#[derive(Clone, Copy, Debug)]
pub struct Words {
    pub body: Body,
    pub lo: u32,
    pub hi: u32,
    pub workers: u32,
    pub timed: bool,
    ghost long_window: { MIN_WINDOW ≤ lo },
    ghost ordered: { lo ≤ hi },
    ghost short_window: { hi ≤ MAX_WINDOW },
    ghost few_lengths: { hi - lo < MAX_LENGTHS },
    ghost some_workers: { 1 ≤ workers },
    ghost few_workers: { workers ≤ MAX_WORKERS },
}

impl Words {
    /// Reads `pan` or `each`, the least and the greatest length, the number of workers, and maybe `timed`.
    pub fn read(words: &[String]) -> Result<Words> {
        ensure!(
            words.len() == 4 || words.len() == 5,
            "pan or each, least length, greatest length, workers, and maybe timed"
        );
        let timed = words.len() == 5;
        ensure!(
            !timed || words[4].as_str() == "timed",
            "timed, or no fifth word"
        );
        let body = match words[0].as_str() {
            "pan" => Body::Pan,
            "each" => Body::Each,
            _ => bail!("pan or each"),
        };
        let lo = words[1].as_str().parse::<u32>().context("least length")?;
        let hi = words[2].as_str().parse::<u32>().context("greatest length")?;
        let workers = words[3].as_str().parse::<u32>().context("workers")?;
        ensure!(
            MIN_WINDOW <= lo && lo <= hi && hi <= MAX_WINDOW,
            "lengths from {lo} to {hi}"
        );
        ensure!(hi - lo < MAX_LENGTHS, "{hi} less {lo}");
        ensure!(1 <= workers && workers <= MAX_WORKERS, "{workers} workers");
        Ok(Words {
            body,
            lo,
            hi,
            workers,
            timed,
        })
    }
}
