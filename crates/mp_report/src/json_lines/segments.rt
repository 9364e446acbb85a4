//! Reports of changes of regime.

ghost use Rattle.std.specs.Prelude.{◌≡◌, ◌<◌, All, length, map, OnOk, IfOk};
ghost use Rattle.mp_results.specs.Curve.{parts_of};
ghost use Rattle.mp_replies.specs.Json.{json_line, listed, segment_object, segments_data};
ghost use Rattle.mp_report.specs.Tokens.{tokens_of_each, Adds, Says};

use crate::json_lines::lines::{begin_line, end_line, push_kind};
use crate::json_lines::values::push_number_field;
use json::Writer;
use mp_nums::{Memory, Ratio, Text};
use std::alloc::Global;

/// The report of places on a curve, each with the fraction that the curve is there, as it stands.
pub fn segments_json(
    alloc: Global,
    line: u64,
    places: &[u64],
    curve: &[Ratio],
) -> Result<Text, Memory>
    requires { All (λ place. place < length curve.now) places.now }
    ensures { IfOk result (λ text. text.items ≡ json_line (segments_data line places.now (map parts_of curve.now))) }
{
    let mut json = begin_line(alloc, places.len())?;
    push_segments_report(&mut json, line, places, curve)?;
    end_line(json)
}

fn push_segments_report(
    json: &mut Writer,
    line: u64,
    places: &[u64],
    curve: &[Ratio],
) -> Result<(), Memory>
    requires { All (λ place. place < length curve.now) places.now }
    ensures { OnOk result (Says json.old json.new (segments_data line places.now (map parts_of curve.now))) }
{
    json.begin_object()?;
    push_kind(json, "segments", line)?;
    json.key("segments")?;
    push_segments(json, places, curve)?;
    json.end_object()?;
    Ok(())
}

fn push_segments(json: &mut Writer, places: &[u64], curve: &[Ratio]) -> Result<(), Memory>
    requires { All (λ place. place < length curve.now) places.now }
    ensures { OnOk result (Says json.old json.new
        (listed (segment_object (map parts_of curve.now)) places.now)) }
{
    json.begin_array()?;
    push_each_segment(json, places, curve)?;
    json.end_array()?;
    Ok(())
}

fn push_each_segment(json: &mut Writer, places: &[u64], curve: &[Ratio]) -> Result<(), Memory>
    requires { All (λ place. place < length curve.now) places.now }
    ensures { OnOk result (Adds json.old json.new
        (tokens_of_each (segment_object (map parts_of curve.now)) places.now)) }
{
    for place in places {
        push_segment(json, *place, curve)?;
    }
    Ok(())
}

fn push_segment(json: &mut Writer, place: u64, curve: &[Ratio]) -> Result<(), Memory>
    requires { place < length curve.now }
    ensures { OnOk result (Says json.old json.new (segment_object (map parts_of curve.now) place)) }
{
    let ratio = curve[place as usize];
    json.begin_object()?;
    push_number_field(json, "den", ratio.den)?;
    push_number_field(json, "num", ratio.num)?;
    push_number_field(json, "place", place)?;
    json.end_object()?;
    Ok(())
}
