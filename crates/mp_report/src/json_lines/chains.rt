//! Reports of chains.

ghost use Rattle.std.specs.Prelude.{◌≡◌, map, OnOk, IfOk};
ghost use Rattle.mp_replies.specs.Json.{chain_data, chains_data, json_line, listed, number_of, or_null};
ghost use Rattle.mp_report.specs.Tokens.{tokens_of_each, Adds, Says};

use crate::json_lines::lines::{begin_line, end_line, push_kind};
use json::Writer;
use mp_nums::{Memory, Places, Text};
use std::alloc::Global;

/// The report of one chain: the start of each window.
pub fn chain_json(alloc: Global, line: u64, chain: &[u64]) -> Result<Text, Memory>
    ensures { IfOk result (λ text. text.items ≡ json_line (chain_data line chain.now)) }
{
    let mut json = begin_line(alloc, 0)?;
    push_chain(&mut json, line, chain)?;
    end_line(json)
}

fn push_chain(json: &mut Writer, line: u64, chain: &[u64]) -> Result<(), Memory>
    ensures { OnOk result (Says json.old json.new (chain_data line chain.now)) }
{
    json.begin_object()?;
    json.key("chain")?;
    push_numbers(json, chain)?;
    push_kind(json, "chain", line)?;
    json.end_object()?;
    Ok(())
}

fn push_numbers(json: &mut Writer, numbers: &[u64]) -> Result<(), Memory>
    ensures { OnOk result (Says json.old json.new (listed number_of numbers.now)) }
{
    json.begin_array()?;
    push_each_number(json, numbers)?;
    json.end_array()?;
    Ok(())
}

fn push_each_number(json: &mut Writer, numbers: &[u64]) -> Result<(), Memory>
    ensures { OnOk result (Adds json.old json.new (tokens_of_each number_of numbers.now)) }
{
    for number in numbers {
        json.u64(*number)?;
    }
    Ok(())
}

/// The report of all chains: the starts of each, and the place of the first of the longest.
pub fn chains_json(
    alloc: Global,
    line: u64,
    chains: &[Places],
    longest: Option<usize>,
) -> Result<Text, Memory>
    ensures { IfOk result (λ text. text.items
        ≡ json_line (chains_data line (map (λ chain. chain.items) chains.now) longest)) }
{
    let mut json = begin_line(alloc, 0)?;
    push_chains_report(&mut json, line, chains, longest)?;
    end_line(json)
}

fn push_chains_report(
    json: &mut Writer,
    line: u64,
    chains: &[Places],
    longest: Option<usize>,
) -> Result<(), Memory>
    ensures { OnOk result (Says json.old json.new
        (chains_data line (map (λ chain. chain.items) chains.now) longest)) }
{
    json.begin_object()?;
    json.key("chains")?;
    push_chains(json, chains)?;
    push_kind(json, "chains", line)?;
    json.key("longest")?;
    push_place(json, longest)?;
    json.end_object()?;
    Ok(())
}

/// A place, or null where there is none.
fn push_place(json: &mut Writer, place: Option<usize>) -> Result<(), Memory>
    ensures { OnOk result (Says json.old json.new (or_null number_of place)) }
{
    match place {
        None => json.null()?,
        Some(place) => json.u64(place as u64)?,
    }
    Ok(())
}

/// The starts of each chain.
fn push_chains(json: &mut Writer, chains: &[Places]) -> Result<(), Memory>
    ensures { OnOk result (Says json.old json.new
        (listed (listed number_of) (map (λ chain. chain.items) chains.now))) }
{
    json.begin_array()?;
    push_each_chain(json, chains)?;
    json.end_array()?;
    Ok(())
}

fn push_each_chain(json: &mut Writer, chains: &[Places]) -> Result<(), Memory>
    ensures { OnOk result (Adds json.old json.new
        (tokens_of_each (listed number_of) (map (λ chain. chain.items) chains.now))) }
{
    for chain in chains {
        push_numbers(json, chain.as_slice())?;
    }
    Ok(())
}
