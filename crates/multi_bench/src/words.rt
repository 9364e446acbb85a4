//! The words behind the program's name.

ghost use Rattle.std.specs.Prelude.{◌≤◌};
ghost use Rattle.mp_series.specs.declared.limits.TheConstants.{MAX_WINDOW, MIN_WINDOW};
ghost use Rattle.mp_partial.specs.declared.limits.TheConstants.{MAX_WORKERS};
ghost use Rattle.mp_multi.specs.declared.limits.TheConstants.{MAX_CHANNELS};

use anyhow::{Context, Result, bail, ensure};
use mp_multi::MAX_CHANNELS;
use mp_partial::MAX_WORKERS;
use mp_series::{MAX_WINDOW, MIN_WINDOW};

/// What is computed.
#[derive(Clone, Copy, Debug, PartialEq, Eq)]
pub enum Body {
    /// The profile of the channels together.
    Multi,
    /// The profile of each channel alone.
    Each,
}

/// What is to be done.
#[derive(Clone, Copy, Debug)]
pub struct Words {
    pub body: Body,
    pub window: u32,
    pub k: u64,
    pub channels: u64,
    pub workers: u32,
    pub timed: bool,
    ghost long_window: { MIN_WINDOW ≤ window },
    ghost short_window: { window ≤ MAX_WINDOW },
    ghost some: { 1 ≤ k },
    ghost present: { k ≤ channels },
    ghost few_channels: { channels ≤ MAX_CHANNELS },
    ghost some_workers: { 1 ≤ workers },
    ghost few_workers: { workers ≤ MAX_WORKERS },
}

impl Words {
    /// Reads `multi` or `each`, the numbers of samples in a window, of channels that are taken together, of channels
    /// and of workers, and maybe `timed`.
    pub fn read(words: &[String]) -> Result<Words> {
        ensure!(
            words.len() == 5 || words.len() == 6,
            "multi or each, window, together, channels, workers, and maybe timed"
        );
        let timed = words.len() == 6;
        ensure!(
            !timed || words[5].as_str() == "timed",
            "timed, or no sixth word"
        );
        let body = match words[0].as_str() {
            "multi" => Body::Multi,
            "each" => Body::Each,
            _ => bail!("multi or each"),
        };
        let window = words[1].as_str().parse::<u32>().context("window")?;
        let k = words[2].as_str().parse::<u64>().context("together")?;
        let channels = words[3].as_str().parse::<u64>().context("channels")?;
        let workers = words[4].as_str().parse::<u32>().context("workers")?;
        ensure!(
            MIN_WINDOW <= window && window <= MAX_WINDOW,
            "a window of {window}"
        );
        ensure!(channels <= MAX_CHANNELS, "{channels} channels");
        ensure!(1 <= k && k <= channels, "{k} of {channels} channels");
        ensure!(1 <= workers && workers <= MAX_WORKERS, "{workers} workers");
        Ok(Words {
            body,
            window,
            k,
            channels,
            workers,
            timed,
        })
    }
}
