//! Reports of chains.

ghost use Rattle.std.specs.Prelude.{◌≡◌, ◌++◌, codes, decimal, flat_map, map, OnOk, IfOk};
ghost use Rattle.mp_replies.specs.ChainCommand.{chain_text as chain_text_of};
ghost use Rattle.mp_replies.specs.ChainsCommand.{chains_text as chains_text_of, place_text, starts_text};

use crate::numbers::{push_head, push_number};
use mp_nums::{Memory, Places, Text};
use std::alloc::Global;

/// The report of one chain: a line for each window, with its start.
pub fn chain_text(alloc: Global, line: u64, chain: &[u64]) -> Result<Text, Memory>
    ensures { IfOk result (λ text. text.items ≡ chain_text_of line chain.now) }
{
    let mut text = Vec::from_slice(alloc, b"chain ")?;
    push_head(&mut text, line, chain.len() as u64)?;
    push_lines(&mut text, chain)?;
    Ok(Text::from(text))
}

/// A line for each number.
fn push_lines(text: &mut Vec<u8>, numbers: &[u64]) -> Result<(), Memory>
    ensures { OnOk result (text.new.items
        ≡ text.old.items ++ flat_map (λ number. decimal number ++ codes "\n") numbers.now) }
{
    for number in numbers {
        push_number(text, *number)?;
        text.extend_from_slice(b"\n")?;
    }
    Ok(())
}

/// The report of all chains: the place of the first of the longest, and a line for each chain, with its starts.
pub fn chains_text(
    alloc: Global,
    line: u64,
    chains: &[Places],
    longest: Option<usize>,
) -> Result<Text, Memory>
    ensures { IfOk result (λ text. text.items ≡ chains_text_of line (map (λ chain. chain.items) chains.now) longest) }
{
    let mut text = Vec::from_slice(alloc, b"chains ")?;
    push_number(&mut text, line)?;
    text.extend_from_slice(b" ")?;
    push_number(&mut text, chains.len() as u64)?;
    text.extend_from_slice(b" ")?;
    push_place(&mut text, longest)?;
    text.extend_from_slice(b"\n")?;
    push_chains(&mut text, chains)?;
    Ok(Text::from(text))
}

/// A place, or a dash where there is none.
fn push_place(text: &mut Vec<u8>, place: Option<usize>) -> Result<(), Memory>
    ensures { OnOk result (text.new.items ≡ text.old.items ++ place_text place) }
{
    match place {
        None => text.extend_from_slice(b"-")?,
        Some(place) => push_number(text, place as u64)?,
    }
    Ok(())
}

/// A line for each chain.
fn push_chains(text: &mut Vec<u8>, chains: &[Places]) -> Result<(), Memory>
    ensures { OnOk result (text.new.items
        ≡ text.old.items ++ flat_map starts_text (map (λ chain. chain.items) chains.now)) }
{
    for chain in chains {
        push_starts(text, chain.as_slice())?;
    }
    Ok(())
}

/// The starts of a chain, with a space between them.
fn push_starts(text: &mut Vec<u8>, starts: &[u64]) -> Result<(), Memory>
    ensures { OnOk result (text.new.items ≡ text.old.items ++ starts_text starts.now) }
{
    if let Some((first, others)) = starts.split_first() {
        push_number(text, *first)?;
        push_spaced(text, others)?;
    }
    text.extend_from_slice(b"\n")?;
    Ok(())
}

/// Each number behind a space.
fn push_spaced(text: &mut Vec<u8>, numbers: &[u64]) -> Result<(), Memory>
    ensures { OnOk result (text.new.items
        ≡ text.old.items ++ flat_map (λ number. codes " " ++ decimal number) numbers.now) }
{
    for number in numbers {
        text.extend_from_slice(b" ")?;
        push_number(text, *number)?;
    }
    Ok(())
}
