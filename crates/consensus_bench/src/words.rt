//! The words behind the program's name.

ghost use Rattle.std.specs.Prelude.{◌≤◌};
ghost use Rattle.mp_series.specs.declared.limits.TheConstants.{MAX_WINDOW, MIN_WINDOW};
ghost use Rattle.mp_partial.specs.declared.limits.TheConstants.{MAX_WORKERS};

use anyhow::{Context, Result, bail, ensure};
use mp_consensus::MAX_SERIES;
use mp_partial::MAX_WORKERS;
use mp_series::{MAX_WINDOW, MIN_WINDOW};

/// How the centre is found.
#[derive(Clone, Copy, Debug)]
pub enum Body {
    Consensus,
    Joins,
}

/// What is to be done.
#[derive(Clone, Copy, Debug)]
pub struct Words {
    pub body: Body,
    pub series: u64,
    pub window: u32,
    pub workers: u32,
    pub timed: bool,
    pub ghost two: { 2 ≤ series },
    pub ghost few: { series ≤ 64 },
    pub ghost shortest: { MIN_WINDOW ≤ window },
    pub ghost longest: { window ≤ MAX_WINDOW },
    pub ghost some: { 1 ≤ workers },
    pub ghost most: { workers ≤ MAX_WORKERS },
}

fn read_body(word: &str) -> Result<Body> {
    match word {
        "consensus" => Ok(Body::Consensus),
        "joins" => Ok(Body::Joins),
        _ => bail!("consensus or joins"),
    }
}

impl Words {
    /// Reads how it is done, the numbers of series, of samples in a window and of workers, and maybe `timed`.
    pub fn read(words: &[String]) -> Result<Words> {
        ensure!(
            words.len() == 4 || words.len() == 5,
            "consensus or joins, series, window, workers, and maybe timed"
        );
        let timed = words.len() == 5;
        ensure!(
            !timed || words[4].as_str() == "timed",
            "timed, or no fifth word"
        );
        let body = read_body(words[0].as_str())?;
        let series = words[1].as_str().parse::<u64>().context("series")?;
        let window = words[2].as_str().parse::<u32>().context("window")?;
        let workers = words[3].as_str().parse::<u32>().context("workers")?;
        ensure!(2 <= series && series <= MAX_SERIES, "{series} series");
        ensure!(
            MIN_WINDOW <= window && window <= MAX_WINDOW,
            "a window of {window}"
        );
        ensure!(1 <= workers && workers <= MAX_WORKERS, "{workers} workers");
        Ok(Words {
            body,
            series,
            window,
            workers,
            timed,
        })
    }
}
