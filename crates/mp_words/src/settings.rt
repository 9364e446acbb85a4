//! What a run is started with.

ghost use Rattle.std.specs.Prelude.{◌≡◌};
ghost use Rattle.mp_replies.specs.Words.{within_limits};
ghost use Rattle.mp_words.specs.Limits.{IsWithinLimits};

use mp_series::{MAX_WINDOW, MIN_WINDOW};
use std::marker::Model;

/// The most digits of a sample behind its point.
const MAX_SCALE: u8 = 9;

/// The most diagonals in a tile.
const MAX_TILE: u32 = 65_536;

/// The most workers.
const MAX_WORKERS: u32 = 32;

/// The settings of a run, each within its limits.
#[derive(Clone, Copy, Debug)]
pub struct Settings {
    window: u32,
    scale: u8,
    tile: u32,
    workers: u32,
}

impl Model for Settings {
    ghost use Rattle.mp_replies.specs.Words.{Setup};
    ghost use Rattle.mp_words.specs.Limits.{IsWithinLimits};

    ghost Value = { Setup };

    ghost view = { λ s. record { window = s.window; scale = s.scale; tile = s.tile; workers = s.workers } };

    ghost invariant = { λ s. IsWithinLimits record
        { window = s.window; scale = s.scale; tile = s.tile; workers = s.workers } };

    ghost inverse = { λ s. record { window = s.window; scale = s.scale; tile = s.tile; workers = s.workers } };
}

impl Settings {
    /// `None` where a value is outside its limits: a window of 3 to 16,384 samples, a scale of 0 to 9 digits, a tile
    /// of 1 to 65,536 diagonals, 1 to 32 workers.
    pub fn new(window: u32, scale: u8, tile: u32, workers: u32) -> Option<Settings>
        ensures { result ≡ within_limits record { window = window; scale = scale; tile = tile; workers = workers } }
    {
        let within = (MIN_WINDOW..=MAX_WINDOW).contains(&window)
            && scale <= MAX_SCALE
            && (1..=MAX_TILE).contains(&tile)
            && (1..=MAX_WORKERS).contains(&workers);
        if within {
            Some(Settings {
                window,
                scale,
                tile,
                workers,
            })
        } else {
            None
        }
    }

    /// The length of a window, in samples.
    pub fn window(&self) -> u32
        ensures value { result ≡ self.now.window }
        ensures within { IsWithinLimits self.now }
    {
        self.window
    }

    /// How many digits of a sample stand behind its point.
    pub fn scale(&self) -> u8
        ensures value { result ≡ self.now.scale }
        ensures within { IsWithinLimits self.now }
    {
        self.scale
    }

    /// How many diagonals a tile has.
    pub fn tile(&self) -> u32
        ensures value { result ≡ self.now.tile }
        ensures within { IsWithinLimits self.now }
    {
        self.tile
    }

    /// How many workers share the tiles.
    pub fn workers(&self) -> u32
        ensures { result ≡ self.now.workers }
    {
        self.workers
    }
}
