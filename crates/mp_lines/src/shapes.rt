//! The fields of commands, read by their shape.

ghost use Rattle.std.specs.Prelude.{◌≡◌, [], ◌∷◌};
ghost use Rattle.mp_bytes.specs.Fields.{fields_in};
ghost use Rattle.mp_replies.specs.AppendCommand.{append_by, append_shape};
ghost use Rattle.mp_replies.specs.Commands.{keep_form};
ghost use Rattle.mp_replies.specs.ConsensusCommand.{consensus_by, consensus_shape};
ghost use Rattle.mp_replies.specs.LazyCommand.{lazy_by, lazy_shape};
ghost use Rattle.mp_replies.specs.Line.{asks};
ghost use Rattle.mp_replies.specs.LoadCommand.{header_of, load_by, load_shape};
ghost use Rattle.mp_replies.specs.MatchCommand.{match_by, match_shape};
ghost use Rattle.mp_replies.specs.MotifsCommand.{motifs_by, motifs_shape};
ghost use Rattle.mp_replies.specs.NearestCommand.{nearest_shape};
ghost use Rattle.mp_replies.specs.PanCommand.{pan_shape};
ghost use Rattle.mp_replies.specs.SegmentsCommand.{segments_by, segments_shape};
ghost use Rattle.mp_replies.specs.SessionCommand.{is_named as is_named_line, session_of, words_of};
ghost use Rattle.mp_replies.specs.Shapes as shape;
ghost use Rattle.mp_lines.specs.Lines.{IsMadeBy, IsReadBy, read_as};

use crate::commands::{Command, LineFault};
use crate::numbers::{
    Columns, read_column, read_count, read_factor, read_few, read_kept, read_lengths,
    read_neighbours, read_rank_count, read_ref, read_squared, read_u64,
};
use crate::ref_lists::{Refs, is_right_count};
use crate::texts::{five_texts, one_text, six_texts, three_texts, two_texts};
use mp_bytes::{Fields, same_text};
use mp_replies::Ref;

/// The version of a session that names none.
const FIRST_VERSION: u64 = 1;

/// The version that has kept slots, too.
const SECOND_VERSION: u64 = 2;

// ---- common shapes

/// No field.
pub(crate) fn no_field(mut fields: Fields<'_>) -> Result<(), LineFault>
    ensures { IsReadBy shape.no_field (fields_in fields.entry.text.now) result }
{
    match fields.next() {
        None => Ok(()),
        Some(_) => Err(LineFault::Fields),
    }
}

/// `R`: a ref.
pub(crate) fn one_ref(fields: Fields<'_>) -> Result<Ref, LineFault>
    ensures { IsReadBy shape.one_ref (fields_in fields.entry.text.now) result }
{
    let at = one_text(fields).ok_or(LineFault::Fields)?;
    read_ref(at).ok_or(LineFault::Number)
}

/// `R Q`: two refs.
pub(crate) fn two_refs(fields: Fields<'_>) -> Result<(Ref, Ref), LineFault>
    ensures { IsReadBy shape.two_refs (fields_in fields.entry.text.now) result }
{
    let (a, b) = two_texts(fields).ok_or(LineFault::Fields)?;
    read_ref(a).zip(read_ref(b)).ok_or(LineFault::Number)
}

/// `R I`: a ref, and where a window starts.
pub(crate) fn ref_and_start(fields: Fields<'_>) -> Result<(Ref, u64), LineFault>
    ensures { IsReadBy shape.ref_and_start (fields_in fields.entry.text.now) result }
{
    let (at, start) = two_texts(fields).ok_or(LineFault::Fields)?;
    read_ref(at).zip(read_u64(start)).ok_or(LineFault::Number)
}

/// `R COUNT`: a ref, and how many windows are asked for.
pub(crate) fn ref_and_count(fields: Fields<'_>) -> Result<(Ref, u64), LineFault>
    ensures { IsReadBy shape.ref_and_count (fields_in fields.entry.text.now) result }
{
    let (at, count) = two_texts(fields).ok_or(LineFault::Fields)?;
    read_ref(at).zip(read_count(count)).ok_or(LineFault::Number)
}

/// `R K`: a ref, and how many nearest windows are asked for.
pub(crate) fn ref_and_rank_count(fields: Fields<'_>) -> Result<(Ref, u64), LineFault>
    ensures { IsReadBy nearest_shape (fields_in fields.entry.text.now) result }
{
    let (at, k) = two_texts(fields).ok_or(LineFault::Fields)?;
    read_ref(at)
        .zip(read_rank_count(k))
        .ok_or(LineFault::Number)
}

/// `R LO HI`: a ref, and a least and a greatest window length.
pub(crate) fn ref_and_lengths(fields: Fields<'_>) -> Result<(Ref, (u32, u32)), LineFault>
    ensures { IsReadBy pan_shape (fields_in fields.entry.text.now) result }
{
    let (at, lo, hi) = three_texts(fields).ok_or(LineFault::Fields)?;
    read_ref(at)
        .zip(read_lengths(lo, hi))
        .ok_or(LineFault::Number)
}

/// `S`: a slot.
pub(crate) fn one_slot(fields: Fields<'_>) -> Result<u64, LineFault>
    ensures { IsReadBy shape.one_slot (fields_in fields.entry.text.now) result }
{
    let slot = one_text(fields).ok_or(LineFault::Fields)?;
    read_u64(slot).ok_or(LineFault::Number)
}

/// `S K`: a slot, and how many diagonals are asked for.
pub(crate) fn slot_and_count(fields: Fields<'_>) -> Result<(u64, u64), LineFault>
    ensures { IsReadBy shape.slot_and_count (fields_in fields.entry.text.now) result }
{
    let (slot, count) = two_texts(fields).ok_or(LineFault::Fields)?;
    read_u64(slot)
        .zip(read_count(count))
        .ok_or(LineFault::Number)
}

/// `S K`: a slot, and a number.
pub(crate) fn slot_and_number(fields: Fields<'_>) -> Result<(u64, u64), LineFault>
    ensures { IsReadBy shape.slot_and_number (fields_in fields.entry.text.now) result }
{
    let (slot, number) = two_texts(fields).ok_or(LineFault::Fields)?;
    read_u64(slot)
        .zip(read_u64(number))
        .ok_or(LineFault::Number)
}

// ---- shapes of one command

/// `session 1`, or `session 2` with `wide` or `json` or both behind. Its only refusal is that of the version.
pub(crate) fn session(mut fields: Fields<'_>) -> Result<Command<'_>, LineFault>
    ensures { read_as result ≡ asks (session_of (fields_in fields.entry.text.now)) }
{
    let number = fields.next().ok_or(LineFault::Version)?;
    let (wide, json) = session_words(fields).ok_or(LineFault::Version)?;
    match read_u64(number) {
        Some(version) if is_named(version, wide, json) => Ok(Command::Session {
            version,
            wide,
            json,
        }),
        _ => Err(LineFault::Version),
    }
}

/// What stands behind the number of a version line: whether samples are wide, and whether reports are JSON lines.
fn session_words(mut fields: Fields<'_>) -> Option<(bool, bool)>
    ensures { result ≡ words_of (fields_in fields.entry.text.now) }
{
    let Some(first) = fields.next() else {
        return Some((false, false));
    };
    let Some(second) = fields.next() else {
        return one_word(first);
    };
    if same_text(first, b"wide") && same_text(second, b"json") && fields.next().is_none() {
        Some((true, true))
    } else {
        None
    }
}

fn one_word(word: &[u8]) -> Option<(bool, bool)>
    ensures { result ≡ words_of (word.now ∷ []) }
{
    if same_text(word, b"wide") {
        Some((true, false))
    } else if same_text(word, b"json") {
        Some((false, true))
    } else {
        None
    }
}

/// Whether there is such a version line. The first version has neither word.
fn is_named(version: u64, wide: bool, json: bool) -> bool
    ensures { result ≡ is_named_line version wide json }
{
    version == SECOND_VERSION || (version == FIRST_VERSION && !(wide || json))
}

/// `keep S N`, which the first version hasn't.
pub(crate) fn keep(fields: Fields<'_>, version: u64) -> Result<Command<'_>, LineFault>
    ensures { read_as result ≡ asks ((keep_form version).read (fields_in fields.entry.text.now)) }
{
    if version < SECOND_VERSION {
        return Err(LineFault::Unknown);
    }
    let (slot, keep) = two_texts(fields).ok_or(LineFault::Fields)?;
    let slot = read_u64(slot).ok_or(LineFault::Number)?;
    let keep = read_kept(keep).ok_or(LineFault::Number)?;
    Ok(Command::Keep { slot, keep })
}

/// `load S FILE COL,COL`, or with `header` behind.
pub(crate) fn load(mut fields: Fields<'_>) -> Result<Command<'_>, LineFault>
    ensures { IsMadeBy load_by load_shape (fields_in fields.entry.text.now) result }
{
    let slot = fields.next().ok_or(LineFault::Fields)?;
    let file = fields.next().ok_or(LineFault::Fields)?;
    let columns = fields.next().ok_or(LineFault::Fields)?;
    let header = read_header(fields).ok_or(LineFault::Fields)?;
    let slot = read_u64(slot).ok_or(LineFault::Number)?;
    let columns = Columns::of(columns).ok_or(LineFault::Number)?;
    Ok(Command::Load {
        slot,
        file,
        columns,
        header,
    })
}

/// `lazy S FILE COL`, or with `header` behind.
pub(crate) fn lazy(mut fields: Fields<'_>) -> Result<Command<'_>, LineFault>
    ensures { IsMadeBy lazy_by lazy_shape (fields_in fields.entry.text.now) result }
{
    let slot = fields.next().ok_or(LineFault::Fields)?;
    let file = fields.next().ok_or(LineFault::Fields)?;
    let column = fields.next().ok_or(LineFault::Fields)?;
    let header = read_header(fields).ok_or(LineFault::Fields)?;
    let slot = read_u64(slot).ok_or(LineFault::Number)?;
    let column = read_column(column).ok_or(LineFault::Number)?;
    Ok(Command::Lazy {
        slot,
        file,
        column,
        header,
    })
}

/// Whether `header` is all that stands there, or else nothing. `None` for other fields.
fn read_header(mut fields: Fields<'_>) -> Option<bool>
    ensures { result ≡ header_of (fields_in fields.entry.text.now) }
{
    let Some(word) = fields.next() else {
        return Some(false);
    };
    if fields.next().is_some() || !same_text(word, b"header") {
        return None;
    }
    Some(true)
}

/// `append S ITEM ITEM ..`.
pub(crate) fn append(mut fields: Fields<'_>) -> Result<Command<'_>, LineFault>
    ensures { IsMadeBy append_by append_shape (fields_in fields.entry.text.now) result }
{
    let slot = fields.next().ok_or(LineFault::Fields)?;
    let items = fields.text;
    if fields.next().is_none() {
        return Err(LineFault::Fields);
    }
    let slot = read_u64(slot).ok_or(LineFault::Number)?;
    Ok(Command::Append { slot, items })
}

/// `match R Q I RADIUS MAX`.
pub(crate) fn matches(fields: Fields<'_>) -> Result<Command<'_>, LineFault>
    ensures { IsMadeBy match_by match_shape (fields_in fields.entry.text.now) result }
{
    let (at, query, start, radius, max) = five_texts(fields).ok_or(LineFault::Fields)?;
    let at = read_ref(at).ok_or(LineFault::Number)?;
    let query = read_ref(query).ok_or(LineFault::Number)?;
    let start = read_u64(start).ok_or(LineFault::Number)?;
    let radius = read_squared(radius).ok_or(LineFault::Number)?;
    let max = read_count(max).ok_or(LineFault::Number)?;
    Ok(Command::Match {
        at,
        query,
        start,
        radius,
        max,
    })
}

/// `motifs R COUNT CUTOFF RADIUS NEIGHBOURS MATCHES`.
pub(crate) fn motifs(fields: Fields<'_>) -> Result<Command<'_>, LineFault>
    ensures { IsMadeBy motifs_by motifs_shape (fields_in fields.entry.text.now) result }
{
    let (at, count, cutoff, radius, neighbours, matches) = six_texts(fields).ok_or(
        LineFault::Fields,
    )?;
    let at = read_ref(at).ok_or(LineFault::Number)?;
    let count = read_few(count).ok_or(LineFault::Number)?;
    let cutoff = read_squared(cutoff).ok_or(LineFault::Number)?;
    let radius = read_squared(radius).ok_or(LineFault::Number)?;
    let neighbours = read_neighbours(neighbours).ok_or(LineFault::Number)?;
    let matches = read_few(matches).ok_or(LineFault::Number)?;
    Ok(Command::Motifs {
        at,
        count,
        cutoff,
        radius,
        neighbours,
        matches,
    })
}

/// `segments R COUNT FACTOR`.
pub(crate) fn segments(fields: Fields<'_>) -> Result<Command<'_>, LineFault>
    ensures { IsMadeBy segments_by segments_shape (fields_in fields.entry.text.now) result }
{
    let (at, count, factor) = three_texts(fields).ok_or(LineFault::Fields)?;
    let at = read_ref(at).ok_or(LineFault::Number)?;
    let count = read_count(count).ok_or(LineFault::Number)?;
    let factor = read_factor(factor).ok_or(LineFault::Number)?;
    Ok(Command::Segments { at, count, factor })
}

/// `consensus R R ..`, with 2 to 64 refs.
pub(crate) fn consensus(fields: Fields<'_>) -> Result<Command<'_>, LineFault>
    ensures { IsMadeBy consensus_by consensus_shape (fields_in fields.entry.text.now) result }
{
    let field = fields.text;
    if !is_right_count(field) {
        return Err(LineFault::Fields);
    }
    let refs = Refs::of(field).ok_or(LineFault::Number)?;
    Ok(Command::Consensus { refs })
}
