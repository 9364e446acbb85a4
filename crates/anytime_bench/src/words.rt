//! The words behind the program's name.

ghost use Rattle.std.specs.Prelude.{◌≤◌};
ghost use Rattle.mp_series.specs.declared.limits.TheConstants.{MAX_WINDOW, MIN_WINDOW};

use anyhow::{Context, Result, ensure};
use mp_series::{MAX_WINDOW, MIN_WINDOW};

/// How long a window is, how many diagonals are covered at once, and how often. Where that is 0, the whole profile is
/// computed by tiles. How many samples are appended then, and whether the time is printed.
#[derive(Clone, Copy, Debug)]
pub struct Words {
    pub window: u32,
    pub diagonals: u64,
    pub times: u64,
    pub appends: u64,
    pub timed: bool,
    ghost long_window: { MIN_WINDOW ≤ window },
    ghost short_window: { window ≤ MAX_WINDOW },
}

fn read_number(word: &str) -> Result<u64> {
    word.parse::<u64>().context("a number")
}

impl Words {
    /// Reads the number of samples in a window, of diagonals, of times and of appends, and maybe a further word.
    pub fn read(words: &[String]) -> Result<Words> {
        ensure!(
            4 <= words.len() && words.len() <= 5,
            "a window, diagonals, times, appends, and maybe timed"
        );
        let window = read_number(words[0].as_str())?;
        let diagonals = read_number(words[1].as_str())?;
        let times = read_number(words[2].as_str())?;
        let appends = read_number(words[3].as_str())?;
        ensure!(
            u64::from(MIN_WINDOW) <= window && window <= u64::from(MAX_WINDOW),
            "a window of {window}"
        );
        Ok(Words {
            window: window as u32,
            diagonals,
            times,
            appends,
            timed: words.len() == 5,
        })
    }
}
