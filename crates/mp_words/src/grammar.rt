//! The words of the grammar, read option by option.

ghost use Rattle.std.specs.Prelude.{◌≡◌, ◌<◌, ◌≤◌, ℕ, List, drop, length, map, position, string_bytes};
ghost use Rattle.std.specs.Prelude.{None, IfSome, MatchOption};
ghost use Rattle.mp_replies.specs.Words.{is_equals};
ghost use Rattle.mp_words.specs.Numbers.{numbers_of};
ghost use Rattle.mp_words.specs.Reading.{IsReading};

use crate::numbers::Numbers;

/// Where the first equals sign of a word stands.
fn equals_in(word: &[u8]) -> Option<usize>
    ensures { result ≡ position is_equals word.now }
{
    word.iter().position(|byte| *byte == b'=')
}

/// Reads the option that words begin with, and answers how many words it takes, `None` where they begin with none.
fn read_option(numbers: &mut Numbers, words: &[String]) -> Option<usize>
    requires { 0 < length words.now }
    ensures read { (all : List (List ℕ)) → IsReading all (map string_bytes words.now) numbers.old
        → MatchOption result (numbers_of all ≡ None)
        (λ taken. IsReading all (drop taken (map string_bytes words.now)) numbers.new) }
    ensures taken { IfSome result (λ taken. (1 ≤ taken) × (taken ≤ length words.now)) }
{
    let word = words[0].as_bytes();
    match equals_in(word) {
        Some(at) => {
            numbers.give(&word[..at], &word[at + 1..])?;
            Some(1)
        }
        None => {
            numbers.give(word, words.get(1)?.as_bytes())?;
            Some(2)
        }
    }
}

/// The numbers that words give the options, `None` where the words aren't options, each given once and with its value.
pub(crate) fn read_numbers(words: &[String]) -> Option<Numbers>
    ensures { result ≡ numbers_of (map string_bytes words.now) }
{
    let mut numbers = Numbers::none();
    let mut read = 0;
    while read < words.len() {
        read += read_option(&mut numbers, &words[read..])?;
    }
    Some(numbers)
}
