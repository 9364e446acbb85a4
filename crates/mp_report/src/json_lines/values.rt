//! What reports are made of: fields of an object, windows and lists of windows.

ghost use Rattle.std.specs.Prelude.{codes, OnOk};
ghost use Rattle.mp_replies.specs.Json.{dist_of, entry_object, index_of, listed, near_object, number_of, or_null};
ghost use Rattle.mp_replies.specs.Json.{row_object, square_of};
ghost use Rattle.mp_report.specs.Tokens.{tokens_of_each, Adds, Says, SaysField};

use itoa::Buffer;
use json::Writer;
use mp_nums::{Memory, Near, Slot, Sq};

/// A window that was found.
pub(crate) fn push_near(json: &mut Writer, near: Near) -> Result<(), Memory>
    ensures { OnOk result (Says json.old json.new (near_object near)) }
{
    json.begin_object()?;
    push_square_field(json, "dist", near.dist)?;
    push_number_field(json, "index", near.index)?;
    json.end_object()?;
    Ok(())
}

/// Windows that were found.
pub(crate) fn push_nears(json: &mut Writer, list: &[Near]) -> Result<(), Memory>
    ensures { OnOk result (Says json.old json.new (listed near_object list.now)) }
{
    json.begin_array()?;
    push_each_near(json, list)?;
    json.end_array()?;
    Ok(())
}

fn push_each_near(json: &mut Writer, list: &[Near]) -> Result<(), Memory>
    ensures { OnOk result (Adds json.old json.new (tokens_of_each near_object list.now)) }
{
    for near in list {
        push_near(json, *near)?;
    }
    Ok(())
}

/// A window and its entry.
pub(crate) fn push_entry(json: &mut Writer, start: u64, slot: Slot) -> Result<(), Memory>
    ensures { OnOk result (Says json.old json.new (entry_object (start, slot))) }
{
    json.begin_object()?;
    push_dist_field(json, slot)?;
    push_index_field(json, "index", slot)?;
    push_number_field(json, "start", start)?;
    json.end_object()?;
    Ok(())
}

/// A window, its entry, and the starts of its nearest windows to the left and right.
pub(crate) fn push_row(
    json: &mut Writer,
    start: u64,
    all: Slot,
    left: Slot,
    right: Slot,
) -> Result<(), Memory>
    ensures { OnOk result (Says json.old json.new (row_object start all left right)) }
{
    json.begin_object()?;
    push_dist_field(json, all)?;
    push_index_field(json, "index", all)?;
    push_index_field(json, "left", left)?;
    push_index_field(json, "right", right)?;
    push_number_field(json, "start", start)?;
    json.end_object()?;
    Ok(())
}

pub(crate) fn push_number_field(json: &mut Writer, key: &str, n: u64) -> Result<(), Memory>
    ensures { OnOk result (SaysField json.old json.new key.now (number_of n)) }
{
    json.key(key)?;
    json.u64(n)?;
    Ok(())
}

/// A squared distance, by its digits.
pub(crate) fn push_square_field(json: &mut Writer, key: &str, dist: Sq) -> Result<(), Memory>
    ensures { OnOk result (SaysField json.old json.new key.now (square_of dist.0)) }
{
    json.key(key)?;
    push_square(json, dist)?;
    Ok(())
}

pub(crate) fn push_square(json: &mut Writer, dist: Sq) -> Result<(), Memory>
    ensures { OnOk result (Says json.old json.new (square_of dist.0)) }
{
    json.string(Buffer::new().format(dist.0))?;
    Ok(())
}

/// The distance of a window, or null where none was found.
fn push_dist_field(json: &mut Writer, slot: Slot) -> Result<(), Memory>
    ensures { OnOk result (SaysField json.old json.new (codes "dist") (or_null dist_of slot)) }
{
    json.key("dist")?;
    match slot {
        None => json.null()?,
        Some(near) => push_square(json, near.dist)?,
    }
    Ok(())
}

/// The start of a window, or null where none was found.
fn push_index_field(json: &mut Writer, key: &str, slot: Slot) -> Result<(), Memory>
    ensures { OnOk result (SaysField json.old json.new key.now (or_null index_of slot)) }
{
    json.key(key)?;
    match slot {
        None => json.null()?,
        Some(near) => json.u64(near.index)?,
    }
    Ok(())
}
