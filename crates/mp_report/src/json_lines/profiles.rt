//! Reports of profiles and windows.

ghost use Rattle.std.specs.Prelude.{◌≡◌, ◌+◌, ◌-◌, ◌^◌, ◌<◌, ◌≤◌, length, OnOk, IfOk};
ghost use Rattle.std.specs.List.{range_with_len};
ghost use Rattle.serde_json.specs.Data.{string};
ghost use Rattle.mp_defs.specs.Series.{reading_of, series_of};
ghost use Rattle.mp_text.specs.SampleText.{sample_text};
ghost use Rattle.mp_replies.specs.EntryCommand.{entry_in};
ghost use Rattle.mp_replies.specs.Json.{entry_data, json_line, profile_data, report_data, row_object_at, rows_array};
ghost use Rattle.mp_replies.specs.Json.{sample_of, window_data};
ghost use Rattle.mp_replies.specs.Profiles.{columns_in};
ghost use Rattle.mp_report.specs.Tokens.{tokens_of_each, Adds, Says};

use crate::json_lines::lines::{begin_line, end_line, push_kind};
use crate::json_lines::values::{push_number_field, push_row};
use json::Writer;
use mp_nums::{Memory, Sample, Slot, Text};
use mp_partial::Profile;
use mp_text::write_sample;
use std::alloc::Global;

/// The report of a profile: for each window its start, the distance and the start of its nearest window, and the starts
/// of its nearest windows to the left and right.
pub fn profile_json(alloc: Global, line: u64, profile: &Profile) -> Result<Text, Memory>
    ensures { IfOk result (λ text. text.items ≡ json_line (profile_data line 0 (columns_in profile.now))) }
{
    let windows = profile.len() as usize;
    let (all, left, right) = (profile.all(), profile.left(), profile.right());
    // The columns have an entry for each window.
    prove!(all.len() == windows && left.len() == windows && right.len() == windows);
    kept_profile_json(alloc, line, 0, all, left, right)
}

/// The report of one window of a profile.
pub fn entry_json(alloc: Global, line: u64, profile: &Profile, i: u64) -> Result<Text, Memory>
    requires { i < length profile.now.all }
    ensures { IfOk result (λ text. text.items ≡ json_line (report_data line (entry_in (columns_in profile.now) i))) }
{
    let windows = profile.len();
    prove!(i < windows);
    let place = i as usize;
    let (all, left, right) = (profile.all(), profile.left(), profile.right());
    kept_entry_json(alloc, line, i, all[place], left[place], right[place])
}

/// The report of the windows that lie in the last samples of a series: the first one's start, and what stands at each
/// of them in the three columns.
pub fn kept_profile_json(
    alloc: Global,
    line: u64,
    first: u64,
    all: &[Slot],
    left: &[Slot],
    right: &[Slot],
) -> Result<Text, Memory>
    requires left { length left.now ≡ length all.now }
    requires right { length right.now ≡ length all.now }
    requires last { first + length all.now ≤ 2 ^ 64 - 1 }
    ensures { IfOk result (λ text. text.items
        ≡ json_line (profile_data line first (record { all = all.now; left = left.now; right = right.now }))) }
{
    let mut json = begin_line(alloc, all.len())?;
    push_profile(&mut json, line, first, all, left, right)?;
    end_line(json)
}

fn push_profile(
    json: &mut Writer,
    line: u64,
    first: u64,
    all: &[Slot],
    left: &[Slot],
    right: &[Slot],
) -> Result<(), Memory>
    requires left { length left.now ≡ length all.now }
    requires right { length right.now ≡ length all.now }
    requires last { first + length all.now ≤ 2 ^ 64 - 1 }
    ensures { OnOk result (Says json.old json.new
        (profile_data line first (record { all = all.now; left = left.now; right = right.now }))) }
{
    json.begin_object()?;
    push_kind(json, "profile", line)?;
    json.key("windows")?;
    push_rows(json, first, all, left, right)?;
    json.end_object()?;
    Ok(())
}

pub(crate) fn push_rows(
    json: &mut Writer,
    first: u64,
    all: &[Slot],
    left: &[Slot],
    right: &[Slot],
) -> Result<(), Memory>
    requires left { length left.now ≡ length all.now }
    requires right { length right.now ≡ length all.now }
    requires last { first + length all.now ≤ 2 ^ 64 - 1 }
    ensures { OnOk result (Says json.old json.new
        (rows_array first (record { all = all.now; left = left.now; right = right.now }))) }
{
    json.begin_array()?;
    push_each_row(json, first, all, left, right)?;
    json.end_array()?;
    Ok(())
}

fn push_each_row(
    json: &mut Writer,
    first: u64,
    all: &[Slot],
    left: &[Slot],
    right: &[Slot],
) -> Result<(), Memory>
    requires left { length left.now ≡ length all.now }
    requires right { length right.now ≡ length all.now }
    requires last { first + length all.now ≤ 2 ^ 64 - 1 }
    ensures { OnOk result (Adds json.old json.new
        (tokens_of_each (row_object_at first (record { all = all.now; left = left.now; right = right.now }))
        (range_with_len 0 (length all.now)))) }
{
    for place in 0..all.len() {
        let start = first + place as u64;
        push_row(json, start, all[place], left[place], right[place])?;
    }
    Ok(())
}

/// The report of a window, of which these slots are known.
pub fn kept_entry_json(
    alloc: Global,
    line: u64,
    i: u64,
    all: Slot,
    left: Slot,
    right: Slot,
) -> Result<Text, Memory>
    ensures { IfOk result (λ text. text.items ≡ json_line (entry_data line i all left right)) }
{
    let mut json = begin_line(alloc, 1)?;
    push_window_entry(&mut json, line, i, all, left, right)?;
    end_line(json)
}

fn push_window_entry(
    json: &mut Writer,
    line: u64,
    i: u64,
    all: Slot,
    left: Slot,
    right: Slot,
) -> Result<(), Memory>
    ensures { OnOk result (Says json.old json.new (entry_data line i all left right)) }
{
    json.begin_object()?;
    push_kind(json, "entry", line)?;
    json.key("window")?;
    push_row(json, i, all, left, right)?;
    json.end_object()?;
    Ok(())
}

/// The report of the window that starts at `i` and has these samples, which are written at the scale.
pub fn window_json(
    alloc: Global,
    line: u64,
    i: u64,
    samples: &[Sample],
    scale: u8,
) -> Result<Text, Memory>
    requires { scale ≤ 9 }
    ensures { IfOk result (λ text. text.items ≡ json_line (window_data line i (series_of samples.now) scale)) }
{
    let mut json = begin_line(alloc, 0)?;
    push_window(&mut json, alloc, line, i, samples, scale)?;
    end_line(json)
}

fn push_window(
    json: &mut Writer,
    alloc: Global,
    line: u64,
    i: u64,
    samples: &[Sample],
    scale: u8,
) -> Result<(), Memory>
    requires { scale ≤ 9 }
    ensures { OnOk result (Says json.old json.new (window_data line i (series_of samples.now) scale)) }
{
    json.begin_object()?;
    push_kind(json, "window", line)?;
    json.key("samples")?;
    push_samples(json, alloc, samples, scale)?;
    push_number_field(json, "start", i)?;
    json.end_object()?;
    Ok(())
}

fn push_samples(
    json: &mut Writer,
    alloc: Global,
    samples: &[Sample],
    scale: u8,
) -> Result<(), Memory>
    requires { scale ≤ 9 }
    ensures { OnOk result (Says json.old json.new (sample_of scale (series_of samples.now))) }
{
    json.begin_array()?;
    push_each_sample(json, alloc, samples, scale)?;
    json.end_array()?;
    Ok(())
}

fn push_each_sample(
    json: &mut Writer,
    alloc: Global,
    samples: &[Sample],
    scale: u8,
) -> Result<(), Memory>
    requires { scale ≤ 9 }
    ensures { OnOk result (Adds json.old json.new
        (tokens_of_each (λ sample. string (sample_text scale sample)) (series_of samples.now))) }
{
    let mut room = Vec::new(alloc);
    for sample in samples {
        room = push_sample(json, room, *sample, scale)?;
    }
    Ok(())
}

/// A sample, by its text. It is spelled in the room first, which is handed back for the next one.
fn push_sample(
    json: &mut Writer,
    mut room: Vec<u8>,
    sample: Sample,
    scale: u8,
) -> Result<Vec<u8>, Memory>
    requires { scale ≤ 9 }
    ensures { OnOk result (Says json.old json.new (string (sample_text scale (reading_of sample)))) }
{
    room.clear();
    let mut text = Text::from(room);
    write_sample(sample, scale, &mut text)?;
    json.string(str::from_utf8(text.as_slice()).unwrap())?;
    Ok(text.into_vec())
}
