//! The frame of a line, and what each report has.

ghost use Rattle.std.specs.Prelude.{◌≡◌, ◌++◌, [], codes, OnOk, IfOk};
ghost use Rattle.json.specs.Print.{print};
ghost use Rattle.mp_report.specs.Tokens.{kind_tokens, Adds};

use json::Writer;
use mp_nums::{Memory, Text};
use std::alloc::Global;

/// The most bytes of a row on a window of the longest series: four numbers of six digits, one of 39, five keys and
/// their marks.
const ROW: usize = 110;

/// The most bytes of what a line of such rows has besides them.
const FRAME: usize = 64;

/// A writer of a line, with room for so many rows on windows, so that the line is moved no more as they are written.
pub(crate) fn begin_line(alloc: Global, rows: usize) -> Result<Writer, Memory>
    ensures { IfOk result (λ json. (json.before ≡ []) × (json.tokens ≡ [])) }
{
    let room = rows.saturating_mul(ROW).saturating_add(FRAME);
    Ok(Writer::new(Vec::with_capacity(alloc, room)?))
}

/// The line of what was written.
pub(crate) fn end_line(json: Writer) -> Result<Text, Memory>
    ensures { IfOk result (λ text. text.items ≡ json.before ++ print json.tokens ++ codes "\n") }
{
    let mut line = json.into_inner();
    line.extend_from_slice(b"\n")?;
    Ok(Text::from(line))
}

/// What kind of report it is, and the number of its line.
pub(crate) fn push_kind(json: &mut Writer, kind: &str, line: u64) -> Result<(), Memory>
    ensures { OnOk result (Adds json.old json.new (kind_tokens kind.now line)) }
{
    json.key("kind")?;
    json.string(kind)?;
    json.key("line")?;
    json.u64(line)?;
    Ok(())
}
