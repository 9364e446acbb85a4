//! The numbers that the options are given.

ghost use Rattle.std.specs.Prelude.{◌≡◌, ◌↔◌, List, [], Some, IfSome, IsNone, IsSome, option_map};
ghost use Rattle.mp_replies.specs.Numbers.{with_next};
ghost use Rattle.mp_replies.specs.Words.{Given, given_of, job_with, make_with, setup_with, word_number};
ghost use Rattle.mp_words.specs.Jobs.{meant_by};
ghost use Rattle.mp_words.specs.Numbers.{numbers_in, numbers_of_options};
ghost use Rattle.mp_words.specs.Reading.{numbers_with};

use crate::jobs::Job;
use crate::names::{Name, name_of};
use crate::settings::Settings;
use mp_bytes::read_number;
use mp_replies::Make;
use mp_series::MAX_SAMPLES;

const DEFAULT_SCALE: u64 = 0;

const DEFAULT_TILE: u64 = 256;

const DEFAULT_WORKERS: u64 = 4;

/// The most digits of a value.
const MAX_DIGITS: usize = 20;

/// What each option is given, `None` for those that the words don't name.
#[derive(Clone, Copy, Debug, PartialEq, Eq)]
pub(crate) struct Numbers {
    pub window: Option<u64>,
    pub scale: Option<u64>,
    pub tile: Option<u64>,
    pub workers: Option<u64>,
    pub generate: Option<u64>,
    pub count: Option<u64>,
}

impl Numbers {
    /// No option is given.
    pub(crate) fn none() -> Numbers
        ensures { result ≡ numbers_in [] }
    {
        Numbers {
            window: None,
            scale: None,
            tile: None,
            workers: None,
            generate: None,
            count: None,
        }
    }

    /// One more option with its value, `None` where there is no such option, it was given before, or this is no value.
    pub(crate) fn give(&mut self, name: &[u8], value: &[u8]) -> Option<()>
        ensures { (options : List Given) → numbers_of_options options ≡ Some self.old
            → option_map (λ _. self.new) result ≡ numbers_with options (given_of name.now value.now) }
    {
        let number = number(value)?;
        match name_of(name)? {
            Name::Window => give_once(&mut self.window, number),
            Name::Scale => give_once(&mut self.scale, number),
            Name::Tile => give_once(&mut self.tile, number),
            Name::Workers => give_once(&mut self.workers, number),
            Name::Generate => give_once(&mut self.generate, number),
            Name::Count => give_once(&mut self.count, number),
        }
    }

    /// What the numbers ask for, `None` where one is missing or outside its limits.
    pub(crate) fn job(&self) -> Option<Job>
        ensures { option_map meant_by result ≡ with_next (option_map job_with
            (setup_with self.now.window self.now.scale self.now.tile self.now.workers))
            (make_with self.now.generate self.now.count) }
    {
        Some(Job {
            settings: self.settings()?,
            make: self.make()?,
        })
    }

    fn settings(&self) -> Option<Settings>
        ensures { result ≡ setup_with self.now.window self.now.scale self.now.tile self.now.workers }
    {
        let window = u32::try_from(self.window?).ok()?;
        let scale = u8::try_from(self.scale.unwrap_or(DEFAULT_SCALE)).ok()?;
        let tile = u32::try_from(self.tile.unwrap_or(DEFAULT_TILE)).ok()?;
        let workers = u32::try_from(self.workers.unwrap_or(DEFAULT_WORKERS)).ok()?;
        Settings::new(window, scale, tile, workers)
    }

    fn make(&self) -> Option<Option<Make>>
        ensures { result ≡ make_with self.now.generate self.now.count }
    {
        match (self.generate, self.count) {
            (None, None) => Some(None),
            (Some(number), Some(count)) if count <= MAX_SAMPLES => {
                Some(Some(Make { number, count }))
            }
            _ => None,
        }
    }
}

/// The number of a value: 1 to 20 digits that spell at most 64 bits.
pub(crate) fn number(value: &[u8]) -> Option<u64>
    ensures { result ≡ word_number value.now }
{
    Some(read_number(value, MAX_DIGITS, u128::from(u64::MAX))? as u64)
}

/// Puts a number where none stands.
fn give_once(place: &mut Option<u64>, number: u64) -> Option<()>
    ensures again { IsNone result ↔ IsSome place.old }
    ensures given { IfSome result (λ _. place.new ≡ Some number) }
{
    match *place {
        None => {
            *place = Some(number);
            Some(())
        }
        Some(_) => None,
    }
}
