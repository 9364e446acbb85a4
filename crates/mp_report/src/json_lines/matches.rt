//! Reports of windows that match others, and of those that none comes near.

ghost use Rattle.std.specs.Prelude.{◌≡◌, map, OnOk, IfOk};
ghost use Rattle.mp_results.specs.Motifs.{repeated_of};
ghost use Rattle.mp_replies.specs.Json.{discord_object, discords_data, json_line, listed, match_data, motif_object};
ghost use Rattle.mp_replies.specs.Json.{motifs_data};
ghost use Rattle.mp_report.specs.Tokens.{tokens_of_each, Adds, Says};

use crate::json_lines::lines::{begin_line, end_line, push_kind};
use crate::json_lines::values::{push_entry, push_nears, push_number_field};
use json::Writer;
use mp_nums::{Discord, Memory, Motif, Near, Text};
use std::alloc::Global;

/// The report of the windows that match one: the distance and the start of each.
pub fn match_json(alloc: Global, line: u64, list: &[Near]) -> Result<Text, Memory>
    ensures { IfOk result (λ text. text.items ≡ json_line (match_data line list.now)) }
{
    let mut json = begin_line(alloc, list.len())?;
    push_matches(&mut json, line, list)?;
    end_line(json)
}

fn push_matches(json: &mut Writer, line: u64, list: &[Near]) -> Result<(), Memory>
    ensures { OnOk result (Says json.old json.new (match_data line list.now)) }
{
    json.begin_object()?;
    push_kind(json, "match", line)?;
    json.key("matches")?;
    push_nears(json, list)?;
    json.end_object()?;
    Ok(())
}

/// The report of repeated patterns: the start of each, and the windows that match it.
pub fn motifs_json(alloc: Global, line: u64, list: &[Motif]) -> Result<Text, Memory>
    ensures { IfOk result (λ text. text.items ≡ json_line (motifs_data line (map repeated_of list.now))) }
{
    let mut json = begin_line(alloc, list.len())?;
    push_motifs_report(&mut json, line, list)?;
    end_line(json)
}

fn push_motifs_report(json: &mut Writer, line: u64, list: &[Motif]) -> Result<(), Memory>
    ensures { OnOk result (Says json.old json.new (motifs_data line (map repeated_of list.now))) }
{
    json.begin_object()?;
    push_kind(json, "motifs", line)?;
    json.key("motifs")?;
    push_motifs(json, list)?;
    json.end_object()?;
    Ok(())
}

fn push_motifs(json: &mut Writer, list: &[Motif]) -> Result<(), Memory>
    ensures { OnOk result (Says json.old json.new (listed motif_object (map repeated_of list.now))) }
{
    json.begin_array()?;
    push_each_motif(json, list)?;
    json.end_array()?;
    Ok(())
}

fn push_each_motif(json: &mut Writer, list: &[Motif]) -> Result<(), Memory>
    ensures { OnOk result (Adds json.old json.new (tokens_of_each motif_object (map repeated_of list.now))) }
{
    for motif in list {
        push_motif(json, motif)?;
    }
    Ok(())
}

fn push_motif(json: &mut Writer, motif: &Motif) -> Result<(), Memory>
    ensures { OnOk result (Says json.old json.new (motif_object (repeated_of motif.now))) }
{
    json.begin_object()?;
    json.key("matches")?;
    push_nears(json, motif.matches.as_slice())?;
    push_number_field(json, "start", motif.start)?;
    json.end_object()?;
    Ok(())
}

/// The report of unusual windows: the start of each, and the distance and the start of the nearest other.
pub fn discords_json(alloc: Global, line: u64, list: &[Discord]) -> Result<Text, Memory>
    ensures { IfOk result (λ text. text.items ≡ json_line (discords_data line list.now)) }
{
    let mut json = begin_line(alloc, list.len())?;
    push_discords_report(&mut json, line, list)?;
    end_line(json)
}

fn push_discords_report(json: &mut Writer, line: u64, list: &[Discord]) -> Result<(), Memory>
    ensures { OnOk result (Says json.old json.new (discords_data line list.now)) }
{
    json.begin_object()?;
    json.key("discords")?;
    push_discords(json, list)?;
    push_kind(json, "discords", line)?;
    json.end_object()?;
    Ok(())
}

fn push_discords(json: &mut Writer, list: &[Discord]) -> Result<(), Memory>
    ensures { OnOk result (Says json.old json.new (listed discord_object list.now)) }
{
    json.begin_array()?;
    push_each_discord(json, list)?;
    json.end_array()?;
    Ok(())
}

fn push_each_discord(json: &mut Writer, list: &[Discord]) -> Result<(), Memory>
    ensures { OnOk result (Adds json.old json.new (tokens_of_each discord_object list.now)) }
{
    for discord in list {
        push_entry(json, discord.start, Some(discord.near))?;
    }
    Ok(())
}
