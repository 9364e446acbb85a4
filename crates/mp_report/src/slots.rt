//! Reports of one slot for each window.

ghost use Rattle.std.specs.Prelude.{◌≡◌, ◌++◌, flat_map, OnOk, IfOk};
ghost use Rattle.std.specs.List.{enumerate_from};
ghost use Rattle.mp_replies.specs.Text.{entry_line};
ghost use Rattle.mp_report.specs.Slots.{slots_text_of, slots_word};

use crate::numbers::{push_head, push_number, push_slot, reserve_lines};
use mp_nums::{Memory, Slot, Text};
use std::alloc::Global;

/// What the slots are of: an AB-join, or several channels together.
#[derive(Clone, Copy, Debug, PartialEq, Eq)]
pub enum SlotsName {
    Join,
    Multi,
}

/// The report of a line for each window, with its start and the distance and the start of the window that was found.
pub fn slots_text(alloc: Global, line: u64, name: SlotsName, slots: &[Slot]) -> Result<Text, Memory>
    ensures { IfOk result (λ text. text.items ≡ slots_text_of name line slots.now) }
{
    let mut text = Vec::from_slice(alloc, word_of(name))?;
    push_head(&mut text, line, slots.len() as u64)?;
    reserve_lines(&mut text, slots.len())?;
    push_entries(&mut text, slots)?;
    Ok(Text::from(text))
}

fn word_of(name: SlotsName) -> &'static [u8]
    ensures { result.now ≡ slots_word name }
{
    match name {
        SlotsName::Join => b"join ",
        SlotsName::Multi => b"multi ",
    }
}

/// A line for each window.
fn push_entries(text: &mut Vec<u8>, slots: &[Slot]) -> Result<(), Memory>
    ensures { OnOk result (text.new.items ≡ text.old.items ++ flat_map entry_line (enumerate_from 0 slots.now)) }
{
    for start in 0..slots.len() {
        push_entry(text, start as u64, slots[start])?;
    }
    Ok(())
}

fn push_entry(text: &mut Vec<u8>, start: u64, slot: Slot) -> Result<(), Memory>
    ensures { OnOk result (text.new.items ≡ text.old.items ++ entry_line (start, slot)) }
{
    push_number(text, start)?;
    text.extend_from_slice(b" ")?;
    push_slot(text, slot)?;
    text.extend_from_slice(b"\n")?;
    Ok(())
}
