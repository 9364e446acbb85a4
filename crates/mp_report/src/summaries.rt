//! The summary of a made series.

ghost use Rattle.std.specs.Ordering.{is_lt};
ghost use Rattle.std.specs.Prelude.{◌≡◌, ◌<◌, ◌++◌, length, map, IfOk, IfSome, OnOk};
ghost use Rattle.mp_results.specs.Curve.{parts_of};
ghost use Rattle.mp_picks.specs.Picks.{earlier_of};
ghost use Rattle.mp_report.specs.Best.{best_with};
ghost use Rattle.mp_results.specs.Best.{best_cmp, best_in, discord_in};
ghost use Rattle.mp_replies.specs.Summary.{named_text, regime_text, summary_text};

use crate::numbers::{push_distance, push_head, push_number};
use crate::segments::push_segment;
use mp_motifs::discords;
use mp_nums::{Discord, Memory, Ratio, Slot, Text};
use mp_partial::Profile;
use std::alloc::Global;

/// The summary of a series of so many samples by its profile, with the exclusion zone `excl`: how many windows it has,
/// the window that is nearest to another, the first discord, and the regime with its fraction on the curve.
pub fn generated_text(
    alloc: Global,
    samples: u64,
    profile: &Profile,
    excl: u64,
    regime: Option<u64>,
    curve: &[Ratio],
) -> Result<Text, Memory>
    requires { IfSome regime (λ place. place < length curve.now) }
    ensures { IfOk result
        (λ text. text.items ≡ summary_text samples profile.now.all excl regime (map parts_of curve.now)) }
{
    let windows = profile.all();
    let unusual = first_discord(alloc, windows, excl)?;
    let mut text = Vec::from_slice(alloc, b"generated ")?;
    push_head(&mut text, samples, windows.len() as u64)?;
    push_named(&mut text, b"best", best(windows))?;
    push_named(&mut text, b"discord", unusual)?;
    push_regime(&mut text, regime, curve)?;
    Ok(Text::from(text))
}

/// The window that is nearest to another, the first by start among equally near ones.
fn best(windows: &[Slot]) -> Option<Discord>
    ensures { result ≡ best_in windows.now }
{
    let mut best = None;
    let mut start = windows.len();
    while 0 < start {
        start -= 1;
        best = with_window(start as u64, windows[start], best);
    }
    best
}

/// The best of a window, where it has an entry, and of those that start later.
fn with_window(start: u64, entry: Slot, later: Option<Discord>) -> Option<Discord>
    ensures { result ≡ best_with (start, entry) later }
{
    match entry {
        None => later,
        Some(near) => Some(better(Discord { start, near }, later)),
    }
}

/// Of two windows the one that is nearer to another, the first by start of equally near ones.
fn better(window: Discord, later: Option<Discord>) -> Discord
    ensures { result ≡ earlier_of best_cmp window later }
{
    match later {
        None => window,
        Some(other) => {
            if is_better(other, window) {
                other
            } else {
                window
            }
        }
    }
}

fn is_better(window: Discord, other: Discord) -> bool
    ensures { result ≡ is_lt (best_cmp window other) }
{
    window.near.dist < other.near.dist
        || (window.near.dist == other.near.dist && window.start < other.start)
}

/// The most unusual window.
fn first_discord(alloc: Global, windows: &[Slot], excl: u64) -> Result<Option<Discord>, Memory>
    ensures { IfOk result (λ found. found ≡ discord_in windows.now excl) }
{
    let found = discords(alloc, windows, excl, 1)?;
    Ok(found.as_slice().first().copied())
}

/// A line of a word, and behind it the distance, the window and its nearest one, or a dash.
fn push_named(text: &mut Vec<u8>, word: &[u8], window: Option<Discord>) -> Result<(), Memory>
    ensures { OnOk result (text.new.items ≡ text.old.items ++ named_text word.now window) }
{
    text.extend_from_slice(word)?;
    match window {
        None => text.extend_from_slice(b" -\n")?,
        Some(window) => {
            text.extend_from_slice(b" ")?;
            push_distance(text, window.near.dist.0)?;
            text.extend_from_slice(b" ")?;
            push_number(text, window.start)?;
            text.extend_from_slice(b" ")?;
            push_number(text, window.near.index)?;
            text.extend_from_slice(b"\n")?;
        }
    }
    Ok(())
}

/// A line of a place on the curve with its fraction, or a dash.
fn push_regime(text: &mut Vec<u8>, regime: Option<u64>, curve: &[Ratio]) -> Result<(), Memory>
    requires { IfSome regime (λ place. place < length curve.now) }
    ensures { OnOk result (text.new.items ≡ text.old.items ++ regime_text (map parts_of curve.now) regime) }
{
    match regime {
        None => text.extend_from_slice(b"segment -\n")?,
        Some(place) => {
            text.extend_from_slice(b"segment ")?;
            push_segment(text, place, curve)?;
        }
    }
    Ok(())
}
