//! Reports of changes of regime.

ghost use Rattle.std.specs.Prelude.{◌≡◌, ◌<◌, ◌++◌, All, flat_map, length, map, OnOk, IfOk};
ghost use Rattle.mp_results.specs.Curve.{parts_of};
ghost use Rattle.mp_replies.specs.SegmentsCommand.{fraction_text, segment_text, segments_text as segments_text_of};

use crate::numbers::{push_head, push_number};
use mp_nums::{Memory, Ratio, Text};
use std::alloc::Global;

/// The report of places on a curve: a line for each, with the fraction that the curve is there, as it stands.
pub fn segments_text(
    alloc: Global,
    line: u64,
    places: &[u64],
    curve: &[Ratio],
) -> Result<Text, Memory>
    requires { All (λ place. place < length curve.now) places.now }
    ensures { IfOk result (λ text. text.items ≡ segments_text_of line places.now (map parts_of curve.now)) }
{
    let mut text = Vec::from_slice(alloc, b"segments ")?;
    push_head(&mut text, line, places.len() as u64)?;
    push_segments(&mut text, places, curve)?;
    Ok(Text::from(text))
}

/// A line for each place.
fn push_segments(text: &mut Vec<u8>, places: &[u64], curve: &[Ratio]) -> Result<(), Memory>
    requires { All (λ place. place < length curve.now) places.now }
    ensures { OnOk result (text.new.items
        ≡ text.old.items ++ flat_map (segment_text (map parts_of curve.now)) places.now) }
{
    for place in places {
        push_segment(text, *place, curve)?;
    }
    Ok(())
}

pub(crate) fn push_segment(text: &mut Vec<u8>, place: u64, curve: &[Ratio]) -> Result<(), Memory>
    requires { place < length curve.now }
    ensures { OnOk result (text.new.items ≡ text.old.items ++ segment_text (map parts_of curve.now) place) }
{
    push_number(text, place)?;
    text.extend_from_slice(b" ")?;
    push_fraction(text, curve[place as usize])?;
    text.extend_from_slice(b"\n")?;
    Ok(())
}

/// A fraction by its two numbers.
fn push_fraction(text: &mut Vec<u8>, ratio: Ratio) -> Result<(), Memory>
    ensures { OnOk result (text.new.items ≡ text.old.items ++ fraction_text (parts_of ratio)) }
{
    push_number(text, ratio.num)?;
    text.extend_from_slice(b"/")?;
    push_number(text, ratio.den)?;
    Ok(())
}
