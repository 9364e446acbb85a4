//! The words of the grammar as `clap` reads them: one command of six options, which take one text each.

ghost use Rattle.std.specs.Prelude.{◌≡◌, IfOk, Some, false, map, codes, string_bytes, option_and_then};
ghost use Rattle.clap.specs.Words.{app_of, first_value, found_of, rule_of};
ghost use Rattle.mp_replies.specs.Words.{word_number};
ghost use Rattle.mp_words.specs.Numbers.{numbers_of};
ghost use Rattle.mp_words.specs.Options.{numbers_found, option_rule, words_app};
ghost use Rattle.mp_words.specs.declared.numbers.Numbers.{Numbers};

use crate::numbers::{Numbers, number};
use clap::{Arg, ArgAction, ArgMatches, Command};
use mp_nums::Memory;
use std::alloc::{AllocError, Global};

fn option<'a>(alloc: Global, name: &'a str) -> Arg<'a>
    ensures rule { rule_of result ≡ option_rule name.entry.now }
    ensures local { result.global ≡ false }
{
    Arg::new(alloc, name).long(name).action(ArgAction::Set)
}

fn command<'a>(alloc: Global) -> Result<Command<'a>, AllocError>
    ensures { IfOk result (λ command. app_of command ≡ words_app) }
{
    Command::new(alloc, "mprof")
        .no_binary_name(true)
        .disable_help_flag(true)
        .arg(option(alloc, "window"))?
        .arg(option(alloc, "scale"))?
        .arg(option(alloc, "tile"))?
        .arg(option(alloc, "workers"))?
        .arg(option(alloc, "generate"))?
        .arg(option(alloc, "count"))
}

fn found(matches: &ArgMatches, id: &str) -> Option<u64>
    ensures { result ≡ option_and_then word_number (first_value (found_of matches.now) id.now) }
{
    number(matches.get_str(id)?.as_bytes())
}

fn numbers_found(matches: &ArgMatches) -> Numbers
    ensures { result ≡ numbers_found (found_of matches.now) }
{
    Numbers {
        window: found(matches, "window"),
        scale: found(matches, "scale"),
        tile: found(matches, "tile"),
        workers: found(matches, "workers"),
        generate: found(matches, "generate"),
        count: found(matches, "count"),
    }
}

/// The numbers that words of the grammar give the options. An error of `clap` is answered as want of memory.
pub(crate) fn parse(alloc: Global, words: &[String]) -> Result<Numbers, Memory>
    ensures { (numbers : Numbers) → numbers_of (map string_bytes words.now) ≡ Some numbers
        → IfOk result (λ found. found ≡ numbers) }
{
    let command = command(alloc)?;
    match command.try_get_matches_from(words) {
        Ok(matches) => Ok(numbers_found(&matches)),
        Err(_) => Err(Memory),
    }
}
