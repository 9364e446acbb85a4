//! Reports of what several channels have in common.

ghost use Rattle.std.specs.Prelude.{◌≡◌, ◌++◌, flat_map, option_map, OnOk, IfOk};
ghost use Rattle.std.specs.List.{enumerate_from};
ghost use Rattle.mp_results.specs.Consensus.{central};
ghost use Rattle.mp_replies.specs.ConsensusCommand.{centre_text, consensus_text as consensus_text_of, place_near_text};
ghost use Rattle.mp_replies.specs.MpdistCommand.{mpdist_text as mpdist_text_of, square_text};

use crate::numbers::{push_distance, push_near, push_number};
use mp_nums::{Centre, Memory, Near, Sq, Text};
use std::alloc::Global;

/// The report of the distance of two channels.
pub fn mpdist_text(alloc: Global, line: u64, dist: Option<Sq>) -> Result<Text, Memory>
    ensures { IfOk result (λ text. text.items ≡ mpdist_text_of line dist) }
{
    let mut text = Vec::from_slice(alloc, b"mpdist ")?;
    push_number(&mut text, line)?;
    text.extend_from_slice(b" ")?;
    push_square(&mut text, dist)?;
    text.extend_from_slice(b"\n")?;
    Ok(Text::from(text))
}

/// A squared distance, or a dash where there is none.
fn push_square(text: &mut Vec<u8>, dist: Option<Sq>) -> Result<(), Memory>
    ensures { OnOk result (text.new.items ≡ text.old.items ++ square_text dist) }
{
    match dist {
        None => text.extend_from_slice(b"-")?,
        Some(square) => push_distance(text, square.0)?,
    }
    Ok(())
}

/// The report of the window that some channels have in common: its radius, its channel and its start, and a line for
/// the nearest window of each channel.
pub fn consensus_text(alloc: Global, line: u64, centre: Option<&Centre>) -> Result<Text, Memory>
    ensures { IfOk result (λ text. text.items ≡ consensus_text_of line (option_map (λ c. central c.now) centre.entry)) }
{
    let mut text = Vec::from_slice(alloc, b"consensus ")?;
    push_number(&mut text, line)?;
    text.extend_from_slice(b" ")?;
    push_centre(&mut text, centre)?;
    Ok(Text::from(text))
}

fn push_centre(text: &mut Vec<u8>, centre: Option<&Centre>) -> Result<(), Memory>
    ensures { OnOk result (text.new.items
        ≡ text.old.items ++ centre_text (option_map (λ c. central c.now) centre.entry)) }
{
    match centre {
        None => text.extend_from_slice(b"-\n")?,
        Some(centre) => {
            push_distance(text, centre.radius.0)?;
            text.extend_from_slice(b" ")?;
            push_number(text, centre.series)?;
            text.extend_from_slice(b" ")?;
            push_number(text, centre.start)?;
            text.extend_from_slice(b"\n")?;
            push_counterparts(text, centre.nearest.as_slice())?;
        }
    }
    Ok(())
}

/// A line for each channel, with its place and the nearest window there.
fn push_counterparts(text: &mut Vec<u8>, nearest: &[Near]) -> Result<(), Memory>
    ensures { OnOk result (text.new.items
        ≡ text.old.items ++ flat_map place_near_text (enumerate_from 0 nearest.now)) }
{
    for place in 0..nearest.len() {
        push_counterpart(text, place as u64, nearest[place])?;
    }
    Ok(())
}

fn push_counterpart(text: &mut Vec<u8>, place: u64, near: Near) -> Result<(), Memory>
    ensures { OnOk result (text.new.items ≡ text.old.items ++ place_near_text (place, near)) }
{
    push_number(text, place)?;
    text.extend_from_slice(b" ")?;
    push_near(text, near)?;
    Ok(())
}
