//! Reports of the window lengths of a range.

ghost use Rattle.std.specs.Prelude.{◌≡◌, OnOk, IfOk};
ghost use Rattle.mp_replies.specs.Json.{discord_object, json_line, length_object, listed, or_null, pan_data};
ghost use Rattle.mp_report.specs.Tokens.{tokens_of_each, Adds, Says};

use crate::json_lines::lines::{begin_line, end_line};
use crate::json_lines::values::{push_entry, push_number_field};
use crate::pans::of_best;
use json::Writer;
use mp_nums::{Discord, Memory, PanRow, Text};
use std::alloc::Global;

/// The report of window lengths: each with how many windows there are, the nearest pair and the most unusual window.
pub fn pan_json(alloc: Global, line: u64, rows: &[PanRow]) -> Result<Text, Memory>
    ensures { IfOk result (λ text. text.items ≡ json_line (pan_data line rows.now)) }
{
    let mut json = begin_line(alloc, rows.len())?;
    push_pan(&mut json, line, rows)?;
    end_line(json)
}

fn push_pan(json: &mut Writer, line: u64, rows: &[PanRow]) -> Result<(), Memory>
    ensures { OnOk result (Says json.old json.new (pan_data line rows.now)) }
{
    json.begin_object()?;
    json.key("kind")?;
    json.string("pan")?;
    json.key("lengths")?;
    push_lengths(json, rows)?;
    push_number_field(json, "line", line)?;
    json.end_object()?;
    Ok(())
}

fn push_lengths(json: &mut Writer, rows: &[PanRow]) -> Result<(), Memory>
    ensures { OnOk result (Says json.old json.new (listed length_object rows.now)) }
{
    json.begin_array()?;
    push_each_length(json, rows)?;
    json.end_array()?;
    Ok(())
}

fn push_each_length(json: &mut Writer, rows: &[PanRow]) -> Result<(), Memory>
    ensures { OnOk result (Adds json.old json.new (tokens_of_each length_object rows.now)) }
{
    for row in rows {
        push_length(json, *row)?;
    }
    Ok(())
}

fn push_length(json: &mut Writer, row: PanRow) -> Result<(), Memory>
    ensures { OnOk result (Says json.old json.new (length_object row)) }
{
    json.begin_object()?;
    json.key("best")?;
    push_found(json, of_best(row.best))?;
    json.key("discord")?;
    push_found(json, row.discord)?;
    push_number_field(json, "length", u64::from(row.length))?;
    push_number_field(json, "windows", row.windows)?;
    json.end_object()?;
    Ok(())
}

/// A window and the one that is nearest to it, or null where there is none.
fn push_found(json: &mut Writer, found: Option<Discord>) -> Result<(), Memory>
    ensures { OnOk result (Says json.old json.new (or_null discord_object found)) }
{
    match found {
        None => json.null()?,
        Some(found) => push_entry(json, found.start, Some(found.near))?,
    }
    Ok(())
}
