//! Reports of profiles in parts.

ghost use Rattle.std.specs.Prelude.{◌≡◌, IfOk};
ghost use Rattle.mp_replies.specs.AdvanceCommand.{advance_text as advance_text_of};
ghost use Rattle.mp_replies.specs.PartialCommand.{partial_text as partial_text_of};
ghost use Rattle.mp_replies.specs.Profiles.{columns_in};

use crate::numbers::{push_number, reserve_lines};
use crate::profiles::push_rows;
use mp_nums::{Memory, Text};
use mp_partial::Profile;
use std::alloc::Global;

/// The report of an advance: how many diagonals it covered, and how many are left.
pub fn advance_text(alloc: Global, line: u64, done: u64, left: u64) -> Result<Text, Memory>
    ensures { IfOk result (λ text. text.items ≡ advance_text_of line done left) }
{
    let mut text = Vec::from_slice(alloc, b"advance ")?;
    push_number(&mut text, line)?;
    text.extend_from_slice(b" ")?;
    push_number(&mut text, done)?;
    text.extend_from_slice(b" ")?;
    push_number(&mut text, left)?;
    text.extend_from_slice(b"\n")?;
    Ok(Text::from(text))
}

/// The report of the profile of the diagonals that are covered, where so many are left: a line for each window, as in
/// the report of a profile.
pub fn partial_text(alloc: Global, line: u64, profile: &Profile, left: u64) -> Result<Text, Memory>
    ensures { IfOk result (λ text. text.items ≡ partial_text_of line (columns_in profile.now) left) }
{
    let mut text = Vec::from_slice(alloc, b"partial ")?;
    push_number(&mut text, line)?;
    text.extend_from_slice(b" ")?;
    push_number(&mut text, profile.len())?;
    text.extend_from_slice(b" ")?;
    push_number(&mut text, left)?;
    text.extend_from_slice(b"\n")?;
    reserve_lines(&mut text, profile.len() as usize)?;
    push_rows(&mut text, profile)?;
    Ok(Text::from(text))
}
