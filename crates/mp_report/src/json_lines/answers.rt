//! Reports without windows.

ghost use Rattle.std.specs.Prelude.{◌≡◌, ◌++◌, decimal, OnOk, IfOk};
ghost use Rattle.serde_json.specs.Data.{string};
ghost use Rattle.mp_replies.specs.Json.{json_line, ok_data, refused_data};
ghost use Rattle.mp_replies.specs.Text.{word_of};
ghost use Rattle.mp_report.specs.Tokens.{Says};

use crate::json_lines::lines::{begin_line, end_line, push_kind};
use crate::json_lines::values::push_number_field;
use itoa::Buffer;
use json::Writer;
use mp_nums::{Memory, Text};
use mp_replies::Cause;
use std::alloc::Global;

/// The report of a refused line.
pub fn refused_json(alloc: Global, line: u64, cause: Cause) -> Result<Text, Memory>
    ensures { IfOk result (λ text. text.items ≡ json_line (refused_data line cause)) }
{
    let mut json = begin_line(alloc, 0)?;
    push_refused(&mut json, alloc, line, cause)?;
    end_line(json)
}

fn push_refused(json: &mut Writer, alloc: Global, line: u64, cause: Cause) -> Result<(), Memory>
    ensures { OnOk result (Says json.old json.new (refused_data line cause)) }
{
    json.begin_object()?;
    push_kind(json, "refused", line)?;
    json.key("word")?;
    push_word(json, alloc, cause)?;
    json.end_object()?;
    Ok(())
}

fn push_word(json: &mut Writer, alloc: Global, cause: Cause) -> Result<(), Memory>
    ensures { OnOk result (Says json.old json.new (string (word_of cause))) }
{
    match cause {
        Cause::Long => json.string("long")?,
        Cause::Version => json.string("version")?,
        Cause::Unknown => json.string("unknown")?,
        Cause::Fields => json.string("fields")?,
        Cause::Number => json.string("number")?,
        Cause::Slot => json.string("slot")?,
        Cause::Kept => json.string("kept")?,
        Cause::Lazy => json.string("lazy")?,
        Cause::Channel => json.string("channel")?,
        Cause::Sample(number) => push_numbered(json, alloc, "sample ", number)?,
        Cause::Full => json.string("full")?,
        Cause::File => json.string("file")?,
        Cause::FileSize => json.string("file-size")?,
        Cause::Record(number) => push_numbered(json, alloc, "record ", number)?,
        Cause::Rows => json.string("rows")?,
        Cause::Index => json.string("index")?,
        Cause::Missing => json.string("missing")?,
    }
    Ok(())
}

/// A word with a number behind it, as one text.
fn push_numbered(json: &mut Writer, alloc: Global, word: &str, number: u64) -> Result<(), Memory>
    ensures { OnOk result (Says json.old json.new (string (word.now ++ decimal number))) }
{
    let mut text = String::from_str(alloc, word)?;
    text.push_str(Buffer::new().format(number))?;
    json.string(text.as_str())?;
    Ok(())
}

/// The report of an accepted line that shows no numbers but that of samples.
pub fn ok_json(alloc: Global, line: u64, samples: Option<u64>) -> Result<Text, Memory>
    ensures { IfOk result (λ text. text.items ≡ json_line (ok_data line samples)) }
{
    let mut json = begin_line(alloc, 0)?;
    push_ok(&mut json, line, samples)?;
    end_line(json)
}

fn push_ok(json: &mut Writer, line: u64, samples: Option<u64>) -> Result<(), Memory>
    ensures { OnOk result (Says json.old json.new (ok_data line samples)) }
{
    json.begin_object()?;
    push_kind(json, "ok", line)?;
    if let Some(samples) = samples {
        push_number_field(json, "samples", samples)?;
    }
    json.end_object()?;
    Ok(())
}
