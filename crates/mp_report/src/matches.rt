//! Reports of windows that match others, and of those that none comes near.

ghost use Rattle.std.specs.Prelude.{◌≡◌, ◌++◌, flat_map, map, OnOk, IfOk};
ghost use Rattle.mp_results.specs.Motifs.{repeated_of};
ghost use Rattle.mp_replies.specs.DiscordsCommand.{discord_text, discords_text as discords_text_of};
ghost use Rattle.mp_replies.specs.MatchCommand.{match_text as match_text_of};
ghost use Rattle.mp_replies.specs.MotifsCommand.{motif_text, motifs_text as motifs_text_of};
ghost use Rattle.mp_replies.specs.Text.{near_text};

use crate::numbers::{push_head, push_near, push_number};
use mp_nums::{Discord, Memory, Motif, Near, Text};
use std::alloc::Global;

/// The report of the windows that match one: a line for each, with its distance and its start.
pub fn match_text(alloc: Global, line: u64, list: &[Near]) -> Result<Text, Memory>
    ensures { IfOk result (λ text. text.items ≡ match_text_of line list.now) }
{
    let mut text = Vec::from_slice(alloc, b"match ")?;
    push_head(&mut text, line, list.len() as u64)?;
    push_all(&mut text, list)?;
    Ok(Text::from(text))
}

/// A line for each window.
fn push_all(text: &mut Vec<u8>, list: &[Near]) -> Result<(), Memory>
    ensures { OnOk result (text.new.items ≡ text.old.items ++ flat_map near_text list.now) }
{
    for near in list {
        push_near(text, *near)?;
    }
    Ok(())
}

/// The report of repeated patterns: for each a line with its start and how many windows match it, and these windows.
pub fn motifs_text(alloc: Global, line: u64, list: &[Motif]) -> Result<Text, Memory>
    ensures { IfOk result (λ text. text.items ≡ motifs_text_of line (map repeated_of list.now)) }
{
    let mut text = Vec::from_slice(alloc, b"motifs ")?;
    push_head(&mut text, line, list.len() as u64)?;
    push_motifs(&mut text, list)?;
    Ok(Text::from(text))
}

fn push_motifs(text: &mut Vec<u8>, list: &[Motif]) -> Result<(), Memory>
    ensures { OnOk result (text.new.items ≡ text.old.items ++ flat_map motif_text (map repeated_of list.now)) }
{
    for motif in list {
        push_motif(text, motif)?;
    }
    Ok(())
}

fn push_motif(text: &mut Vec<u8>, motif: &Motif) -> Result<(), Memory>
    ensures { OnOk result (text.new.items ≡ text.old.items ++ motif_text (repeated_of motif.now)) }
{
    let matches = motif.matches.as_slice();
    text.extend_from_slice(b"motif ")?;
    push_head(text, motif.start, matches.len() as u64)?;
    push_all(text, matches)?;
    Ok(())
}

/// The report of unusual windows: a line for each, with its start and the distance and the start of the nearest other.
pub fn discords_text(alloc: Global, line: u64, list: &[Discord]) -> Result<Text, Memory>
    ensures { IfOk result (λ text. text.items ≡ discords_text_of line list.now) }
{
    let mut text = Vec::from_slice(alloc, b"discords ")?;
    push_head(&mut text, line, list.len() as u64)?;
    push_discords(&mut text, list)?;
    Ok(Text::from(text))
}

fn push_discords(text: &mut Vec<u8>, list: &[Discord]) -> Result<(), Memory>
    ensures { OnOk result (text.new.items ≡ text.old.items ++ flat_map discord_text list.now) }
{
    for discord in list {
        push_discord(text, *discord)?;
    }
    Ok(())
}

fn push_discord(text: &mut Vec<u8>, discord: Discord) -> Result<(), Memory>
    ensures { OnOk result (text.new.items ≡ text.old.items ++ discord_text discord) }
{
    push_number(text, discord.start)?;
    text.extend_from_slice(b" ")?;
    push_near(text, discord.near)?;
    Ok(())
}
