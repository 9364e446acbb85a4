//! Reports of what several channels have in common.

ghost use Rattle.std.specs.Prelude.{◌≡◌, option_map, OnOk, IfOk};
ghost use Rattle.std.specs.List.{enumerate_from};
ghost use Rattle.mp_nums.specs.declared.nearest.Sq.{Sq as Square};
ghost use Rattle.mp_results.specs.Consensus.{central};
ghost use Rattle.mp_replies.specs.Json.{centre_object, consensus_data, json_line, listed, mpdist_data, or_null};
ghost use Rattle.mp_replies.specs.Json.{place_object, square_of};
ghost use Rattle.mp_report.specs.Tokens.{tokens_of_each, Adds, Says};

use crate::json_lines::lines::{begin_line, end_line, push_kind};
use crate::json_lines::values::{push_number_field, push_square, push_square_field};
use json::Writer;
use mp_nums::{Centre, Memory, Near, Sq, Text};
use std::alloc::Global;

/// The report of the distance of two channels.
pub fn mpdist_json(alloc: Global, line: u64, dist: Option<Sq>) -> Result<Text, Memory>
    ensures { IfOk result (λ text. text.items ≡ json_line (mpdist_data line dist)) }
{
    let mut json = begin_line(alloc, 0)?;
    push_mpdist(&mut json, line, dist)?;
    end_line(json)
}

fn push_mpdist(json: &mut Writer, line: u64, dist: Option<Sq>) -> Result<(), Memory>
    ensures { OnOk result (Says json.old json.new (mpdist_data line dist)) }
{
    json.begin_object()?;
    json.key("dist")?;
    push_square_or_null(json, dist)?;
    push_kind(json, "mpdist", line)?;
    json.end_object()?;
    Ok(())
}

/// A squared distance, or null where there is none.
fn push_square_or_null(json: &mut Writer, dist: Option<Sq>) -> Result<(), Memory>
    ensures { OnOk result (Says json.old json.new (or_null (λ (square : Square). square_of square.0) dist)) }
{
    match dist {
        None => json.null()?,
        Some(square) => push_square(json, square)?,
    }
    Ok(())
}

/// The report of the window that some channels have in common: its radius, its channel and its start, and the nearest
/// window of each channel.
pub fn consensus_json(alloc: Global, line: u64, centre: Option<&Centre>) -> Result<Text, Memory>
    ensures { IfOk result (λ text. text.items
        ≡ json_line (consensus_data line (option_map (λ c. central c.now) centre.entry))) }
{
    let mut json = begin_line(alloc, 0)?;
    push_consensus(&mut json, line, centre)?;
    end_line(json)
}

fn push_consensus(json: &mut Writer, line: u64, centre: Option<&Centre>) -> Result<(), Memory>
    ensures { OnOk result (Says json.old json.new
        (consensus_data line (option_map (λ c. central c.now) centre.entry))) }
{
    json.begin_object()?;
    json.key("centre")?;
    push_centre_or_null(json, centre)?;
    push_kind(json, "consensus", line)?;
    json.end_object()?;
    Ok(())
}

/// The window, or null where there is none.
fn push_centre_or_null(json: &mut Writer, centre: Option<&Centre>) -> Result<(), Memory>
    ensures { OnOk result (Says json.old json.new
        (or_null centre_object (option_map (λ c. central c.now) centre.entry))) }
{
    match centre {
        None => json.null()?,
        Some(centre) => push_centre(json, centre)?,
    }
    Ok(())
}

fn push_centre(json: &mut Writer, centre: &Centre) -> Result<(), Memory>
    ensures { OnOk result (Says json.old json.new (centre_object (central centre.now))) }
{
    json.begin_object()?;
    json.key("nearest")?;
    push_counterparts(json, centre.nearest.as_slice())?;
    push_square_field(json, "radius", centre.radius)?;
    push_number_field(json, "series", centre.series)?;
    push_number_field(json, "start", centre.start)?;
    json.end_object()?;
    Ok(())
}

/// Each channel's place, and the nearest window there.
fn push_counterparts(json: &mut Writer, nearest: &[Near]) -> Result<(), Memory>
    ensures { OnOk result (Says json.old json.new (listed place_object (enumerate_from 0 nearest.now))) }
{
    json.begin_array()?;
    push_each_counterpart(json, nearest)?;
    json.end_array()?;
    Ok(())
}

fn push_each_counterpart(json: &mut Writer, nearest: &[Near]) -> Result<(), Memory>
    ensures { OnOk result (Adds json.old json.new (tokens_of_each place_object (enumerate_from 0 nearest.now))) }
{
    for place in 0..nearest.len() {
        push_counterpart(json, place as u64, nearest[place])?;
    }
    Ok(())
}

fn push_counterpart(json: &mut Writer, place: u64, near: Near) -> Result<(), Memory>
    ensures { OnOk result (Says json.old json.new (place_object (place, near))) }
{
    json.begin_object()?;
    push_square_field(json, "dist", near.dist)?;
    push_number_field(json, "index", near.index)?;
    push_number_field(json, "place", place)?;
    json.end_object()?;
    Ok(())
}
