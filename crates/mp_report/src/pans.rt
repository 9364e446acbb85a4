//! Reports of the window lengths of a range.

ghost use Rattle.std.specs.Prelude.{◌≡◌, ◌++◌, flat_map, option_map, OnOk, IfOk};
ghost use Rattle.mp_replies.specs.PanCommand.{found_text, length_text, of_pair, pan_text as pan_text_of};

use crate::numbers::{push_distance, push_head, push_number};
use mp_nums::{Discord, Memory, Pair, PanRow, Text};
use std::alloc::Global;

/// The report of window lengths: for each a line with the length, how many windows there are, and twice a distance, a
/// start and the start of the nearest window: those of the nearest pair and of the most unusual window.
pub fn pan_text(alloc: Global, line: u64, rows: &[PanRow]) -> Result<Text, Memory>
    ensures { IfOk result (λ text. text.items ≡ pan_text_of line rows.now) }
{
    let mut text = Vec::from_slice(alloc, b"pan ")?;
    push_head(&mut text, line, rows.len() as u64)?;
    push_lengths(&mut text, rows)?;
    Ok(Text::from(text))
}

/// A line for each window length.
fn push_lengths(text: &mut Vec<u8>, rows: &[PanRow]) -> Result<(), Memory>
    ensures { OnOk result (text.new.items ≡ text.old.items ++ flat_map length_text rows.now) }
{
    for row in rows {
        push_length(text, *row)?;
    }
    Ok(())
}

fn push_length(text: &mut Vec<u8>, row: PanRow) -> Result<(), Memory>
    ensures { OnOk result (text.new.items ≡ text.old.items ++ length_text row) }
{
    push_number(text, u64::from(row.length))?;
    text.extend_from_slice(b" ")?;
    push_number(text, row.windows)?;
    text.extend_from_slice(b" ")?;
    push_found(text, of_best(row.best))?;
    text.extend_from_slice(b" ")?;
    push_found(text, row.discord)?;
    text.extend_from_slice(b"\n")?;
    Ok(())
}

/// The window of a pair that is named first, with the other as the one that is nearest to it.
pub(crate) fn of_best(best: Option<Pair>) -> Option<Discord>
    ensures { result ≡ option_map of_pair best }
{
    match best {
        None => None,
        Some(pair) => Some(Discord {
            start: pair.start,
            near: pair.near,
        }),
    }
}

/// A distance, a start and the start of the nearest window, each a dash where there is none.
fn push_found(text: &mut Vec<u8>, found: Option<Discord>) -> Result<(), Memory>
    ensures { OnOk result (text.new.items ≡ text.old.items ++ found_text found) }
{
    match found {
        None => text.extend_from_slice(b"- - -")?,
        Some(found) => {
            push_distance(text, found.near.dist.0)?;
            text.extend_from_slice(b" ")?;
            push_number(text, found.start)?;
            text.extend_from_slice(b" ")?;
            push_number(text, found.near.index)?;
        }
    }
    Ok(())
}
