//! Reports without windows.

ghost use Rattle.std.specs.Prelude.{◌≡◌, ◌++◌, decimal, OnOk, IfOk};
ghost use Rattle.mp_replies.specs.Text.{ok_text as ok_text_of, refused_text as refused_text_of, word_of};

use crate::numbers::push_number;
use mp_nums::{Memory, Text};
use mp_replies::Cause;
use std::alloc::Global;

/// The report of a refused line.
pub fn refused_text(alloc: Global, line: u64, cause: Cause) -> Result<Text, Memory>
    ensures { IfOk result (λ text. text.items ≡ refused_text_of line cause) }
{
    let mut text = Vec::from_slice(alloc, b"refused ")?;
    push_number(&mut text, line)?;
    text.extend_from_slice(b" ")?;
    push_word(&mut text, cause)?;
    text.extend_from_slice(b"\n")?;
    Ok(Text::from(text))
}

/// The report of an accepted line that shows no numbers but that of samples.
pub fn ok_text(alloc: Global, line: u64, samples: Option<u64>) -> Result<Text, Memory>
    ensures { IfOk result (λ text. text.items ≡ ok_text_of line samples) }
{
    let mut text = Vec::from_slice(alloc, b"ok ")?;
    push_number(&mut text, line)?;
    if let Some(samples) = samples {
        text.extend_from_slice(b" ")?;
        push_number(&mut text, samples)?;
    }
    text.extend_from_slice(b"\n")?;
    Ok(Text::from(text))
}

fn push_word(text: &mut Vec<u8>, cause: Cause) -> Result<(), Memory>
    ensures { OnOk result (text.new.items ≡ text.old.items ++ word_of cause) }
{
    match cause {
        Cause::Long => text.extend_from_slice(b"long")?,
        Cause::Version => text.extend_from_slice(b"version")?,
        Cause::Unknown => text.extend_from_slice(b"unknown")?,
        Cause::Fields => text.extend_from_slice(b"fields")?,
        Cause::Number => text.extend_from_slice(b"number")?,
        Cause::Slot => text.extend_from_slice(b"slot")?,
        Cause::Kept => text.extend_from_slice(b"kept")?,
        Cause::Lazy => text.extend_from_slice(b"lazy")?,
        Cause::Channel => text.extend_from_slice(b"channel")?,
        Cause::Sample(number) => push_numbered(text, b"sample ", number)?,
        Cause::Full => text.extend_from_slice(b"full")?,
        Cause::File => text.extend_from_slice(b"file")?,
        Cause::FileSize => text.extend_from_slice(b"file-size")?,
        Cause::Record(number) => push_numbered(text, b"record ", number)?,
        Cause::Rows => text.extend_from_slice(b"rows")?,
        Cause::Index => text.extend_from_slice(b"index")?,
        Cause::Missing => text.extend_from_slice(b"missing")?,
    }
    Ok(())
}

fn push_numbered(text: &mut Vec<u8>, word: &[u8], number: u64) -> Result<(), Memory>
    ensures { OnOk result (text.new.items ≡ text.old.items ++ (word.now ++ decimal number)) }
{
    text.extend_from_slice(word)?;
    push_number(text, number)?;
    Ok(())
}
