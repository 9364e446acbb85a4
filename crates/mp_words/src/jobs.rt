//! What the words ask for.

use crate::settings::Settings;
use mp_nums::Memory;
use mp_replies::Make;
use thiserror::Error;

/// A session of these settings, or in its place the summary of a series that is made.
#[derive(Clone, Copy, Debug)]
pub struct Job {
    pub settings: Settings,
    pub make: Option<Make>,
}

/// Why words ask for nothing.
#[derive(Debug, Drop, PartialEq, Eq, Error)]
pub enum WordsAnswer {
    /// They are outside the grammar.
    #[error("the words are outside the grammar")]
    Words,
    /// Out of memory.
    #[error("out of memory")]
    Memory,
}

impl From<Memory> for WordsAnswer {
    ghost use Rattle.std.specs.Prelude.{◌≡◌};
    ghost use Rattle.mp_words.specs.declared.jobs.WordsAnswer.TheVariants.{Memory as out_of_memory};

    ghost from_gives = { λ _ answer. answer ≡ out_of_memory };

    fn from(_memory: Memory) -> WordsAnswer {
        WordsAnswer::Memory
    }
}
