//! The words behind the program's name.

ghost use Rattle.std.specs.Prelude.{◌≤◌};
ghost use Rattle.mp_series.specs.declared.limits.TheConstants.{MAX_WINDOW, MIN_WINDOW};

use anyhow::{Context, Result, ensure};
use mp_series::{MAX_WINDOW, MIN_WINDOW};

/// How long a window is, whether the time is printed, and what is kept, where the last samples are.
#[derive(Clone, Copy, Debug)]
pub struct Words {
    pub window: u32,
    pub timed: bool,
    pub last: Option<Last>,
    ghost long_window: { MIN_WINDOW ≤ window },
    ghost short_window: { window ≤ MAX_WINDOW },
}

/// How many samples are kept, and how often those of the input are appended.
#[derive(Clone, Copy, Debug)]
pub struct Last {
    pub keep: u64,
    pub rounds: u64,
}

impl Last {
    fn read(keep: &str, rounds: &str) -> Result<Last> {
        let keep = keep.parse::<u64>().context("samples that are kept")?;
        let rounds = rounds.parse::<u64>().context("rounds")?;
        Ok(Last { keep, rounds })
    }
}

impl Words {
    /// Reads the number of samples in a window, and maybe `timed`, or how many samples are kept and how many rounds.
    pub fn read(words: &[String]) -> Result<Words> {
        ensure!(
            1 <= words.len() && words.len() <= 3,
            "a window, and maybe timed, or samples that are kept and rounds"
        );
        let timed = words.len() == 2;
        ensure!(
            !timed || words[1].as_str() == "timed",
            "timed, or no second word"
        );
        let last = if words.len() == 3 {
            Some(Last::read(words[1].as_str(), words[2].as_str())?)
        } else {
            None
        };
        let window = words[0].as_str().parse::<u32>().context("window")?;
        ensure!(
            MIN_WINDOW <= window && window <= MAX_WINDOW,
            "a window of {window}"
        );
        Ok(Words {
            window,
            timed,
            last,
        })
    }
}
