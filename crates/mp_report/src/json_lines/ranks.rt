//! Reports of the nearest windows of each window.

ghost use Rattle.std.specs.Prelude.{◌≡◌, map, OnOk, IfOk};
ghost use Rattle.std.specs.List.{enumerate_from};
ghost use Rattle.mp_replies.specs.Json.{json_line, listed, nearest_data, ranks_object};
ghost use Rattle.mp_report.specs.Tokens.{tokens_of_each, Adds, Says};

use crate::json_lines::lines::{begin_line, end_line, push_kind};
use crate::json_lines::values::{push_nears, push_number_field};
use json::Writer;
use mp_nums::{Memory, Near, NearList, Text};
use std::alloc::Global;

/// The report of the nearest windows of each window: its start, and the distance and the start of each.
pub fn nearest_json(alloc: Global, line: u64, list: &[NearList]) -> Result<Text, Memory>
    ensures { IfOk result (λ text. text.items ≡ json_line (nearest_data line (map (λ near. near.items) list.now))) }
{
    let mut json = begin_line(alloc, list.len())?;
    push_nearest(&mut json, line, list)?;
    end_line(json)
}

fn push_nearest(json: &mut Writer, line: u64, list: &[NearList]) -> Result<(), Memory>
    ensures { OnOk result (Says json.old json.new (nearest_data line (map (λ near. near.items) list.now))) }
{
    json.begin_object()?;
    push_kind(json, "nearest", line)?;
    json.key("windows")?;
    push_lists(json, list)?;
    json.end_object()?;
    Ok(())
}

fn push_lists(json: &mut Writer, lists: &[NearList]) -> Result<(), Memory>
    ensures { OnOk result (Says json.old json.new
        (listed ranks_object (enumerate_from 0 (map (λ near. near.items) lists.now)))) }
{
    json.begin_array()?;
    push_each_list(json, lists)?;
    json.end_array()?;
    Ok(())
}

fn push_each_list(json: &mut Writer, lists: &[NearList]) -> Result<(), Memory>
    ensures { OnOk result (Adds json.old json.new
        (tokens_of_each ranks_object (enumerate_from 0 (map (λ near. near.items) lists.now)))) }
{
    for start in 0..lists.len() {
        push_ranks(json, start as u64, lists[start].as_slice())?;
    }
    Ok(())
}

fn push_ranks(json: &mut Writer, start: u64, list: &[Near]) -> Result<(), Memory>
    ensures { OnOk result (Says json.old json.new (ranks_object (start, list.now))) }
{
    json.begin_object()?;
    json.key("nearest")?;
    push_nears(json, list)?;
    push_number_field(json, "start", start)?;
    json.end_object()?;
    Ok(())
}
