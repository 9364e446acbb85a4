//! Reports of the nearest windows of each window.

ghost use Rattle.std.specs.Prelude.{◌≡◌, ◌++◌, flat_map, map, OnOk, IfOk};
ghost use Rattle.std.specs.List.{enumerate_from};
ghost use Rattle.mp_replies.specs.NearestCommand.{nearest_text as nearest_text_of, ranked_text, ranks_text};

use crate::numbers::{push_head, push_number, push_pair};
use mp_nums::{Memory, Near, NearList, Text};
use std::alloc::Global;

/// The report of the nearest windows of each window: for each a line with its start, how many there are, and the
/// distance and the start of each.
pub fn nearest_text(alloc: Global, line: u64, list: &[NearList]) -> Result<Text, Memory>
    ensures { IfOk result (λ text. text.items ≡ nearest_text_of line (map (λ near. near.items) list.now)) }
{
    let mut text = Vec::from_slice(alloc, b"nearest ")?;
    push_head(&mut text, line, list.len() as u64)?;
    push_lists(&mut text, list)?;
    Ok(Text::from(text))
}

/// A line for each window.
fn push_lists(text: &mut Vec<u8>, lists: &[NearList]) -> Result<(), Memory>
    ensures { OnOk result (text.new.items
        ≡ text.old.items ++ flat_map ranks_text (enumerate_from 0 (map (λ near. near.items) lists.now))) }
{
    for start in 0..lists.len() {
        push_ranks(text, start as u64, lists[start].as_slice())?;
    }
    Ok(())
}

fn push_ranks(text: &mut Vec<u8>, start: u64, list: &[Near]) -> Result<(), Memory>
    ensures { OnOk result (text.new.items ≡ text.old.items ++ ranks_text (start, list.now)) }
{
    push_number(text, start)?;
    text.extend_from_slice(b" ")?;
    push_number(text, list.len() as u64)?;
    push_spaced(text, list)?;
    text.extend_from_slice(b"\n")?;
    Ok(())
}

/// Each window behind a space.
fn push_spaced(text: &mut Vec<u8>, list: &[Near]) -> Result<(), Memory>
    ensures { OnOk result (text.new.items ≡ text.old.items ++ flat_map ranked_text list.now) }
{
    for near in list {
        text.extend_from_slice(b" ")?;
        push_pair(text, *near)?;
    }
    Ok(())
}
