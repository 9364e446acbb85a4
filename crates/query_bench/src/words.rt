//! The words behind the program's name.

ghost use Rattle.std.specs.Prelude.{◌≤◌};

use anyhow::{Context, Result, ensure};
use mp_series::{MAX_SAMPLES, MAX_WINDOW, MIN_WINDOW};

/// What is to be searched.
#[derive(Clone, Copy, Debug)]
pub struct Words {
    pub samples: u64,
    pub window: u32,
    pub timed: bool,
    ghost short_window: { window ≤ samples },
    ghost some_samples: { 1 ≤ samples },
}

impl Words {
    /// Reads the numbers of samples and of samples in a window, and maybe `timed`.
    pub fn read(words: &[String]) -> Result<Words> {
        ensure!(
            words.len() == 2 || words.len() == 3,
            "samples, window, and maybe timed"
        );
        let timed = words.len() == 3;
        ensure!(
            !timed || words[2].as_str() == "timed",
            "timed, or no third word"
        );
        let samples = words[0].as_str().parse::<u64>().context("samples")?;
        let window = words[1].as_str().parse::<u32>().context("window")?;
        ensure!(samples <= MAX_SAMPLES, "{samples} samples");
        ensure!(
            MIN_WINDOW <= window && window <= MAX_WINDOW && u64::from(window) <= samples,
            "a window of {window}"
        );
        Ok(Words {
            samples,
            window,
            timed,
        })
    }
}
