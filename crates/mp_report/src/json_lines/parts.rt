//! Reports of profiles in parts.

ghost use Rattle.std.specs.Prelude.{◌≡◌, OnOk, IfOk};
ghost use Rattle.mp_replies.specs.Json.{advance_data, json_line, partial_data, rows_array};
ghost use Rattle.mp_replies.specs.Profiles.{columns_in};
ghost use Rattle.mp_report.specs.Tokens.{part_tokens, Adds, Says};

use crate::json_lines::lines::{begin_line, end_line, push_kind};
use crate::json_lines::profiles::push_rows;
use crate::json_lines::values::push_number_field;
use json::Writer;
use mp_nums::{Memory, Text};
use mp_partial::Profile;
use std::alloc::Global;

/// The report of an advance: how many diagonals it covered, and how many are left.
pub fn advance_json(alloc: Global, line: u64, done: u64, left: u64) -> Result<Text, Memory>
    ensures { IfOk result (λ text. text.items ≡ json_line (advance_data line done left)) }
{
    let mut json = begin_line(alloc, 0)?;
    push_advance(&mut json, line, done, left)?;
    end_line(json)
}

fn push_advance(json: &mut Writer, line: u64, done: u64, left: u64) -> Result<(), Memory>
    ensures { OnOk result (Says json.old json.new (advance_data line done left)) }
{
    json.begin_object()?;
    push_number_field(json, "done", done)?;
    push_part(json, "advance", line, left)?;
    json.end_object()?;
    Ok(())
}

/// What kind of report it is, how many diagonals are left, and the number of its line.
fn push_part(json: &mut Writer, kind: &str, line: u64, left: u64) -> Result<(), Memory>
    ensures { OnOk result (Adds json.old json.new (part_tokens kind.now line left)) }
{
    json.key("kind")?;
    json.string(kind)?;
    push_number_field(json, "left", left)?;
    push_number_field(json, "line", line)?;
    Ok(())
}

/// The report of the profile of the diagonals that are covered, where so many are left: its windows, as in the report
/// of a profile.
pub fn partial_json(alloc: Global, line: u64, profile: &Profile, left: u64) -> Result<Text, Memory>
    ensures { IfOk result (λ text. text.items ≡ json_line (partial_data line (columns_in profile.now) left)) }
{
    let mut json = begin_line(alloc, profile.len() as usize)?;
    push_partial(&mut json, line, profile, left)?;
    end_line(json)
}

fn push_partial(json: &mut Writer, line: u64, profile: &Profile, left: u64) -> Result<(), Memory>
    ensures { OnOk result (Says json.old json.new (partial_data line (columns_in profile.now) left)) }
{
    json.begin_object()?;
    push_part(json, "partial", line, left)?;
    json.key("windows")?;
    push_windows(json, profile)?;
    json.end_object()?;
    Ok(())
}

/// The windows of a profile, from the first on.
fn push_windows(json: &mut Writer, profile: &Profile) -> Result<(), Memory>
    ensures { OnOk result (Says json.old json.new (rows_array 0 (columns_in profile.now))) }
{
    let windows = profile.len() as usize;
    let (all, left, right) = (profile.all(), profile.left(), profile.right());
    // The columns have an entry for each window.
    prove!(all.len() == windows && left.len() == windows && right.len() == windows);
    push_rows(json, 0, all, left, right)
}
