//! Reports of profiles and windows.

ghost use Rattle.std.specs.Prelude.{◌≡◌, ◌+◌, ◌-◌, ◌^◌, ◌<◌, ◌≤◌, ◌++◌, length, OnOk, IfOk};
ghost use Rattle.mp_defs.specs.Series.{series_of};
ghost use Rattle.mp_replies.specs.EntryCommand.{entry_in, entry_text as entry_text_of};
ghost use Rattle.mp_replies.specs.ProfileCommand.{live_profile_text, live_rows_text};
ghost use Rattle.mp_replies.specs.ProfileCommand.{profile_text as profile_text_of, rows_text};
ghost use Rattle.mp_replies.specs.Commands.{report_text};
ghost use Rattle.mp_replies.specs.WindowCommand.{samples_text, window_text as window_text_of};
ghost use Rattle.mp_replies.specs.Profiles.{columns_in};

use crate::numbers::{push_number, push_row, reserve_lines};
use mp_nums::{Memory, Sample, Slot, Text};
use mp_partial::Profile;
use mp_text::write_sample;
use std::alloc::Global;

/// The report of a profile: a line for each window, with its start, the distance and the start of its nearest window,
/// and the starts of its nearest windows to the left and right.
pub fn profile_text(alloc: Global, line: u64, profile: &Profile) -> Result<Text, Memory>
    ensures { IfOk result (λ text. text.items ≡ profile_text_of line (columns_in profile.now)) }
{
    let mut text = Vec::from_slice(alloc, b"profile ")?;
    push_number(&mut text, line)?;
    text.extend_from_slice(b" ")?;
    push_number(&mut text, profile.len())?;
    text.extend_from_slice(b"\n")?;
    reserve_lines(&mut text, profile.len() as usize)?;
    push_rows(&mut text, profile)?;
    Ok(Text::from(text))
}

/// A line for each window.
pub(crate) fn push_rows(text: &mut Vec<u8>, profile: &Profile) -> Result<(), Memory>
    ensures { OnOk result (text.new.items ≡ text.old.items ++ rows_text (columns_in profile.now)) }
{
    let (all, left, right) = (profile.all(), profile.left(), profile.right());
    for start in 0..profile.len() {
        let place = start as usize;
        push_row(text, start, all[place], left[place], right[place])?;
    }
    Ok(())
}

/// The report of one window of a profile.
pub fn entry_text(alloc: Global, line: u64, profile: &Profile, i: u64) -> Result<Text, Memory>
    requires { i < length profile.now.all }
    ensures { IfOk result (λ text. text.items ≡ report_text line (entry_in (columns_in profile.now) i)) }
{
    let windows = profile.len();
    prove!(i < windows);
    let place = i as usize;
    let (all, left, right) = (profile.all(), profile.left(), profile.right());
    kept_entry_text(alloc, line, i, all[place], left[place], right[place])
}

/// The report of the windows that lie in the last samples of a series: the first one's start, and what stands at each
/// of them in the three columns.
pub fn kept_profile_text(
    alloc: Global,
    line: u64,
    first: u64,
    all: &[Slot],
    left: &[Slot],
    right: &[Slot],
) -> Result<Text, Memory>
    requires left { length left.now ≡ length all.now }
    requires right { length right.now ≡ length all.now }
    requires last { first + length all.now ≤ 2 ^ 64 - 1 }
    ensures { IfOk result (λ text. text.items
        ≡ live_profile_text line first (record { all = all.now; left = left.now; right = right.now })) }
{
    let windows = all.len() as u64;
    let mut text = Vec::from_slice(alloc, b"profile ")?;
    push_number(&mut text, line)?;
    text.extend_from_slice(b" ")?;
    push_number(&mut text, windows)?;
    text.extend_from_slice(b"\n")?;
    reserve_lines(&mut text, all.len())?;
    push_live_rows(&mut text, first, all, left, right)?;
    Ok(Text::from(text))
}

/// A line for each window.
fn push_live_rows(
    text: &mut Vec<u8>,
    first: u64,
    all: &[Slot],
    left: &[Slot],
    right: &[Slot],
) -> Result<(), Memory>
    requires left { length left.now ≡ length all.now }
    requires right { length right.now ≡ length all.now }
    requires last { first + length all.now ≤ 2 ^ 64 - 1 }
    ensures { OnOk result (text.new.items ≡ text.old.items
        ++ live_rows_text first (record { all = all.now; left = left.now; right = right.now })) }
{
    for place in 0..all.len() {
        let start = first + place as u64;
        push_row(text, start, all[place], left[place], right[place])?;
    }
    Ok(())
}

/// The report of a window, of which these slots are known.
pub fn kept_entry_text(
    alloc: Global,
    line: u64,
    i: u64,
    all: Slot,
    left: Slot,
    right: Slot,
) -> Result<Text, Memory>
    ensures { IfOk result (λ text. text.items ≡ entry_text_of line i all left right) }
{
    let mut text = Vec::from_slice(alloc, b"entry ")?;
    push_number(&mut text, line)?;
    text.extend_from_slice(b" ")?;
    push_row(&mut text, i, all, left, right)?;
    Ok(Text::from(text))
}

/// The report of the window that starts at `i` and has these samples, which are written at the scale.
pub fn window_text(
    alloc: Global,
    line: u64,
    i: u64,
    samples: &[Sample],
    scale: u8,
) -> Result<Text, Memory>
    requires { scale ≤ 9 }
    ensures { IfOk result (λ text. text.items ≡ window_text_of line i (series_of samples.now) scale) }
{
    let mut text = Vec::from_slice(alloc, b"window ")?;
    push_number(&mut text, line)?;
    text.extend_from_slice(b" ")?;
    push_number(&mut text, i)?;
    let mut text = Text::from(text);
    push_samples(&mut text, samples, scale)?;
    text.push(b'\n')?;
    Ok(text)
}

/// Each sample behind a space.
fn push_samples(text: &mut Text, samples: &[Sample], scale: u8) -> Result<(), Memory>
    requires { scale ≤ 9 }
    ensures { OnOk result (text.new.items ≡ text.old.items ++ samples_text scale (series_of samples.now)) }
{
    for sample in samples {
        text.push(b' ')?;
        write_sample(*sample, scale, text)?;
    }
    Ok(())
}
