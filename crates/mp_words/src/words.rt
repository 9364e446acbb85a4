//! The words that the program is started with.

ghost use Rattle.std.specs.Prelude.{◌≡◌, ◌↔◌, ◌≤◌, None, Some, IfOk, IfSome, IsErrOf, is_some, map, string_bytes};
ghost use Rattle.mp_defs.specs.Limits.{max_samples};
ghost use Rattle.mp_replies.specs.Words.{job};
ghost use Rattle.mp_words.specs.Jobs.{meant_by};

use crate::grammar::read_numbers;
use crate::jobs::{Job, WordsAnswer};
use crate::options::parse;
use std::alloc::Global;

/// What the words ask for, which are those behind the program's name:
///
/// `--window M [--scale D] [--tile T] [--workers W] [--generate NUMBER --count N]`
///
/// The options stand in any order, each at most once, as `--name VALUE` or `--name=VALUE`. A value is 1 to 20 digits,
/// and within the limits that `Settings::new` states. NUMBER has 64 bits, and N is at most 262,144.
///
/// Words outside this grammar are answered as `Words`, and that takes no memory. Words of the grammar are read by
/// `clap`.
pub fn read_words(alloc: Global, words: &[String]) -> Result<Job, WordsAnswer>
    ensures job { IfOk result (λ found. job (map string_bytes words.now) ≡ Some (meant_by found)) }
    ensures count { IfOk result (λ found. IfSome found.make (λ make. make.count ≤ max_samples)) }
    ensures outside { IsErrOf result WordsAnswer.Words ↔ (job (map string_bytes words.now) ≡ None) }
{
    if !are_of_the_grammar(words) {
        return Err(WordsAnswer::Words);
    }
    let numbers = parse(alloc, words)?;
    numbers.job().ok_or(WordsAnswer::Words)
}

fn are_of_the_grammar(words: &[String]) -> bool
    ensures { result ≡ is_some (job (map string_bytes words.now)) }
{
    match read_numbers(words) {
        Some(numbers) => numbers.job().is_some(),
        None => false,
    }
}
