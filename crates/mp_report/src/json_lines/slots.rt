//! Reports of one slot for each window.

ghost use Rattle.std.specs.Prelude.{◌≡◌, OnOk, IfOk};
ghost use Rattle.std.specs.List.{enumerate_from};
ghost use Rattle.mp_replies.specs.Json.{entries_array, entry_object, json_line, slots_data};
ghost use Rattle.mp_report.specs.Slots.{slots_kind};
ghost use Rattle.mp_report.specs.Tokens.{tokens_of_each, Adds, Says};

use crate::json_lines::lines::{begin_line, end_line, push_kind};
use crate::json_lines::values::push_entry;
use crate::slots::SlotsName;
use json::Writer;
use mp_nums::{Memory, Slot, Text};
use std::alloc::Global;

/// The report of each window, with its start and the distance and the start of the window that was found.
pub fn slots_json(alloc: Global, line: u64, name: SlotsName, slots: &[Slot]) -> Result<Text, Memory>
    ensures { IfOk result (λ text. text.items ≡ json_line (slots_data (slots_kind name) line slots.now)) }
{
    let mut json = begin_line(alloc, slots.len())?;
    push_slots(&mut json, line, name, slots)?;
    end_line(json)
}

fn push_slots(json: &mut Writer, line: u64, name: SlotsName, slots: &[Slot]) -> Result<(), Memory>
    ensures { OnOk result (Says json.old json.new (slots_data (slots_kind name) line slots.now)) }
{
    json.begin_object()?;
    push_kind(json, kind_of(name), line)?;
    json.key("windows")?;
    push_entries(json, slots)?;
    json.end_object()?;
    Ok(())
}

fn kind_of(name: SlotsName) -> &'static str
    ensures { result.now ≡ slots_kind name }
{
    match name {
        SlotsName::Join => "join",
        SlotsName::Multi => "multi",
    }
}

fn push_entries(json: &mut Writer, slots: &[Slot]) -> Result<(), Memory>
    ensures { OnOk result (Says json.old json.new (entries_array slots.now)) }
{
    json.begin_array()?;
    push_each_entry(json, slots)?;
    json.end_array()?;
    Ok(())
}

fn push_each_entry(json: &mut Writer, slots: &[Slot]) -> Result<(), Memory>
    ensures { OnOk result (Adds json.old json.new (tokens_of_each entry_object (enumerate_from 0 slots.now))) }
{
    for start in 0..slots.len() {
        push_entry(json, start as u64, slots[start])?;
    }
    Ok(())
}
