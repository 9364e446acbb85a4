//! Numbers and slots in texts.

ghost use Rattle.std.specs.Prelude.{◌≡◌, ◌++◌, codes, decimal, OnOk};
ghost use Rattle.mp_replies.specs.Text.{index_text, near_text, pair_text, row_text, slot_text};

use itoa::Buffer;
use mp_nums::{Memory, Near, Slot};

/// The most bytes of a line on a window of the longest series: four numbers of six digits, one of 39, four blanks, an
/// LF.
const LINE: usize = 68;

/// Makes room for so many lines on windows, so that the text is moved no more as they are written.
pub(crate) fn reserve_lines(text: &mut Vec<u8>, lines: usize) -> Result<(), Memory>
    ensures { text.new.items ≡ text.old.items }
{
    text.reserve(lines.saturating_mul(LINE))?;
    Ok(())
}

/// A number, and how many lines follow.
pub(crate) fn push_head(text: &mut Vec<u8>, number: u64, count: u64) -> Result<(), Memory>
    ensures { OnOk result (text.new.items
        ≡ text.old.items ++ (decimal number ++ codes " " ++ decimal count ++ codes "\n")) }
{
    push_number(text, number)?;
    text.extend_from_slice(b" ")?;
    push_number(text, count)?;
    text.extend_from_slice(b"\n")?;
    Ok(())
}

/// A window's start, the distance and the start of its nearest window, and the starts of its nearest windows to the
/// left and right.
pub(crate) fn push_row(
    text: &mut Vec<u8>,
    start: u64,
    all: Slot,
    left: Slot,
    right: Slot,
) -> Result<(), Memory>
    ensures { OnOk result (text.new.items ≡ text.old.items ++ row_text start all left right) }
{
    push_number(text, start)?;
    text.extend_from_slice(b" ")?;
    push_slot(text, all)?;
    text.extend_from_slice(b" ")?;
    push_index(text, left)?;
    text.extend_from_slice(b" ")?;
    push_index(text, right)?;
    text.extend_from_slice(b"\n")?;
    Ok(())
}

/// A distance and a start.
pub(crate) fn push_pair(text: &mut Vec<u8>, near: Near) -> Result<(), Memory>
    ensures { OnOk result (text.new.items ≡ text.old.items ++ pair_text near) }
{
    push_distance(text, near.dist.0)?;
    text.extend_from_slice(b" ")?;
    push_number(text, near.index)?;
    Ok(())
}

/// The same, each a dash where there is none.
pub(crate) fn push_slot(text: &mut Vec<u8>, slot: Slot) -> Result<(), Memory>
    ensures { OnOk result (text.new.items ≡ text.old.items ++ slot_text slot) }
{
    match slot {
        None => text.extend_from_slice(b"- -")?,
        Some(near) => push_pair(text, near)?,
    }
    Ok(())
}

/// The distance and the start of a window that was found, on a line of its own.
pub(crate) fn push_near(text: &mut Vec<u8>, near: Near) -> Result<(), Memory>
    ensures { OnOk result (text.new.items ≡ text.old.items ++ near_text near) }
{
    push_pair(text, near)?;
    text.extend_from_slice(b"\n")?;
    Ok(())
}

/// The start alone.
fn push_index(text: &mut Vec<u8>, slot: Slot) -> Result<(), Memory>
    ensures { OnOk result (text.new.items ≡ text.old.items ++ index_text slot) }
{
    match slot {
        None => text.extend_from_slice(b"-")?,
        Some(near) => push_number(text, near.index)?,
    }
    Ok(())
}

pub(crate) fn push_number(text: &mut Vec<u8>, n: u64) -> Result<(), Memory>
    ensures { OnOk result (text.new.items ≡ text.old.items ++ decimal n) }
{
    text.extend_from_slice(Buffer::new().format(n).as_bytes())?;
    Ok(())
}

pub(crate) fn push_distance(text: &mut Vec<u8>, dist: u128) -> Result<(), Memory>
    ensures { OnOk result (text.new.items ≡ text.old.items ++ decimal dist) }
{
    text.extend_from_slice(Buffer::new().format(dist).as_bytes())?;
    Ok(())
}
