//! The words behind the program's name.

ghost use Rattle.std.specs.Prelude.{◌≡◌, ◌≤◌};
ghost use Rattle.mp_series.specs.declared.limits.TheConstants.{MAX_WINDOW, MIN_WINDOW};
ghost use Rattle.mp_partial.specs.declared.limits.TheConstants.{MAX_WORKERS};
ghost use Rattle.mp_cuts.specs.declared.cuts.TheConstants.{MAX_TILE};

use anyhow::{Context, Result, bail, ensure};
use mp_partial::MAX_WORKERS;
use mp_series::{MAX_WINDOW, MIN_WINDOW};
use mp_tiles::MAX_TILE;

/// What is computed, and how.
#[derive(Clone, Copy, Debug, PartialEq, Eq)]
pub enum Body {
    /// A profile whose tiles are shared among workers.
    Workers,
    /// A profile by one tile after another.
    Tiles,
    /// A profile by comparing every pair of windows.
    Pairs,
    /// A profile in each of these ways.
    Each,
    /// An AB-join whose tiles are shared among workers.
    Join,
}

/// What is to be done.
#[derive(Clone, Copy, Debug)]
pub struct Words {
    pub body: Body,
    pub window: u32,
    pub tile: u32,
    pub workers: u32,
    pub timed: bool,
    ghost long_window: { MIN_WINDOW ≤ window },
    ghost short_window: { window ≤ MAX_WINDOW },
    ghost some_diagonals: { 1 ≤ tile },
    ghost few_diagonals: { tile ≤ MAX_TILE },
    ghost some_workers: { 1 ≤ workers },
    ghost few_workers: { workers ≤ MAX_WORKERS },
}

impl Words {
    /// Reads `workers`, `tiles`, `pairs`, `each` or `join`, the numbers of samples in a window, of diagonals in a tile
    /// and of workers, and maybe `timed`.
    pub fn read(words: &[String]) -> Result<Words> {
        ensure!(
            words.len() == 4 || words.len() == 5,
            "workers, tiles, pairs, each or join, window, tile, workers, and maybe timed"
        );
        let timed = words.len() == 5;
        ensure!(
            !timed || words[4].as_str() == "timed",
            "timed, or no fifth word"
        );
        let body = match words[0].as_str() {
            "workers" => Body::Workers,
            "tiles" => Body::Tiles,
            "pairs" => Body::Pairs,
            "each" => Body::Each,
            "join" => Body::Join,
            _ => bail!("workers, tiles, pairs, each or join"),
        };
        let window = words[1].as_str().parse::<u32>().context("window")?;
        let tile = words[2].as_str().parse::<u32>().context("tile")?;
        let workers = words[3].as_str().parse::<u32>().context("workers")?;
        ensure!(
            MIN_WINDOW <= window && window <= MAX_WINDOW,
            "a window of {window}"
        );
        ensure!(1 <= tile && tile <= MAX_TILE, "a tile of {tile}");
        ensure!(1 <= workers && workers <= MAX_WORKERS, "{workers} workers");
        Ok(Words {
            body,
            window,
            tile,
            workers,
            timed,
        })
    }

    /// The same with another body.
    pub fn with(self, body: Body) -> Words {
        Words {
            body,
            window: self.window,
            tile: self.tile,
            workers: self.workers,
            timed: self.timed,
        }
    }
}
