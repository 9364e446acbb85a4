//! Runs that are stored in a folder.

use crate::outcomes::Outcome;
use anyhow::{Context, Result};
use std::fs;
use std::io::ErrorKind;
use std::rt::Files;
use std::str::Split;

/// The words of a run that names none.
const WORDS: &str = "--window 3";

/// A run, and what is wanted of it.
#[derive(Debug, Drop)]
pub(crate) struct StoredRun {
    words: String,
    input: Vec<u8>,
    output: Vec<u8>,
    status: u8,
}

impl StoredRun {
    /// Reads the files of the working folder: `input` and `output`, and where they are there, `words` and `status`.
    pub(crate) fn read<R: AllocGlobal + Files>(rt: &R) -> Result<StoredRun> {
        let status = text_or(rt, "status", "0")?;
        Ok(StoredRun {
            words: text_or(rt, "words", WORDS)?,
            input: fs::read(rt, "input").context("reading input")?,
            output: fs::read(rt, "output").context("reading output")?,
            status: status.as_str().trim().parse::<u8>().context("a status")?,
        })
    }

    /// Each line has words that the run is made with, and no line at all is one without a word.
    pub(crate) fn lines_of_words(&self) -> Split<'_, char> {
        let words = self.words.as_str();
        words.strip_suffix('\n').unwrap_or(words).split('\n')
    }

    pub(crate) fn input(&self) -> &[u8] {
        self.input.as_slice()
    }

    pub(crate) fn wanted(&self) -> Outcome<'_> {
        Outcome {
            output: self.output.as_slice(),
            status: self.status,
        }
    }
}

/// The text of a file, or what stands for it where there is none.
fn text_or<R: AllocGlobal + Files>(rt: &R, path: &str, default: &str) -> Result<String> {
    match fs::read_to_string(rt, path) {
        Ok(text) => Ok(text),
        Err(error) if error.kind() == ErrorKind::NotFound => {
            Ok(String::from_str(rt.alloc(), default)?)
        }
        Err(error) => Err(error).context(format_args!("reading {path}")),
    }
}
