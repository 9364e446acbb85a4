//! What a line asks for.

ghost use Rattle.std.specs.Prelude.{◌≡◌, ◌≤◌};
ghost use Rattle.mp_bytes.specs.Fields.{fields_in};
ghost use Rattle.mp_replies.specs.Line.{asked_of, asks, command_in};
ghost use Rattle.mp_replies.specs.Commands.{forms};
ghost use Rattle.mp_replies.specs.State.{first_version, second_version};
ghost use Rattle.mp_lines.specs.Lines.{read_as};

use crate::numbers::Columns;
use crate::ref_lists::Refs;
use crate::shapes::{
    append, consensus, keep, lazy, load, matches, motifs, no_field, one_ref, one_slot,
    ref_and_count, ref_and_lengths, ref_and_rank_count, ref_and_start, segments, session,
    slot_and_count, slot_and_number, two_refs,
};
use mp_bytes::{Fields, same_text, without_cr};
use mp_replies::Ref;
use thiserror::Error;

/// The most bytes of a line, a CR included.
const MAX_LINE: usize = 1_048_576;

/// A line that was read. Its texts are borrowed from the line.
#[derive(Clone, Copy, Debug, PartialEq, Eq)]
pub enum Command<'a> {
    /// No field, or a first field that begins with `#`.
    Blank,
    /// The version of the lines that follow, whether their samples have 48 bits in place of 32, and whether reports are
    /// JSON lines in place of texts.
    Session {
        version: u64,
        wide: bool,
        json: bool,
    },
    /// Put so many empty channels into a slot.
    Open {
        slot: u64,
        channels: u64,
    },
    /// Put an empty channel into a slot, of which so many samples are kept.
    Keep {
        slot: u64,
        keep: u64,
    },
    /// Put these columns of a file into a slot, with the first record passed over where there is a header.
    Load {
        slot: u64,
        file: &'a [u8],
        columns: Columns<'a>,
        header: bool,
    },
    /// Put this column of a file into a slot, with the first record passed over where there is a header. Its profile is
    /// made in parts.
    Lazy {
        slot: u64,
        file: &'a [u8],
        column: u32,
        header: bool,
    },
    /// Add the items, in order.
    Append {
        slot: u64,
        items: &'a [u8],
    },
    /// Cover so many more diagonals of a slot whose profile is made in parts.
    Advance {
        slot: u64,
        count: u64,
    },
    /// Report the profile of the diagonals that are covered.
    Partial {
        slot: u64,
    },
    /// Report the samples of the window that starts there.
    Window {
        at: Ref,
        start: u64,
    },
    /// Report the profile.
    Profile {
        at: Ref,
    },
    /// Report the entry of the window that starts there.
    Entry {
        at: Ref,
        start: u64,
    },
    /// Report the AB-join of a channel in another.
    Join {
        a: Ref,
        b: Ref,
    },
    /// Report the profile of so many channels of a slot together.
    Multi {
        slot: u64,
        k: u64,
    },
    /// Report what the profile of each window length has, from a least one to a greatest.
    Pan {
        at: Ref,
        lo: u32,
        hi: u32,
    },
    /// Report so many nearest windows of each window.
    Nearest {
        at: Ref,
        k: u64,
    },
    /// Report the windows of a channel that match a window of another.
    Match {
        at: Ref,
        query: Ref,
        start: u64,
        radius: u128,
        max: u64,
    },
    /// Report repeated patterns.
    Motifs {
        at: Ref,
        count: u64,
        cutoff: u128,
        radius: u128,
        neighbours: u64,
        matches: u64,
    },
    /// Report so many unusual windows.
    Discords {
        at: Ref,
        count: u64,
    },
    /// Report the chain from the window that starts there.
    Chain {
        at: Ref,
        start: u64,
    },
    /// Report all chains.
    Chains {
        at: Ref,
    },
    /// Report so many changes of regime, with zones and margins of so many window lengths.
    Segments {
        at: Ref,
        count: u64,
        factor: u32,
    },
    /// Report MPdist of two channels.
    Mpdist {
        a: Ref,
        b: Ref,
    },
    /// Report the window that these channels have in common.
    Consensus {
        refs: Refs<'a>,
    },
    /// End the run.
    End,
}

/// Why a line is refused, whatever the session holds, in the order in which the words are tested.
#[derive(Clone, Copy, Debug, PartialEq, Eq, Error)]
pub enum LineFault {
    #[error("the line is too long")]
    Long,
    #[error("no such version")]
    Version,
    #[error("no such command")]
    Unknown,
    #[error("another number of fields")]
    Fields,
    #[error("a malformed number")]
    Number,
}

/// Reads a line of a version, without its LF. It takes no memory.
#[tactic(auto, unfolding(mp_replies::specs::Line::asked_of))]
pub fn parse_line(line: &[u8], version: u64) -> Result<Command<'_>, LineFault>
    requires first { first_version ≤ version }
    requires last { version ≤ second_version }
    ensures { read_as result ≡ asked_of version line.now }
{
    if line.len() > MAX_LINE {
        return Err(LineFault::Long);
    }
    let mut fields = Fields {
        text: without_cr(line),
    };
    match fields.next() {
        None => Ok(Command::Blank),
        Some(word) if word.first() == Some(&b'#') => Ok(Command::Blank),
        Some(word) => parse_command(word, fields, version),
    }
}

/// Reads the fields behind a command word, each word's by its row of the table of commands.
fn parse_command<'a>(
    word: &[u8],
    fields: Fields<'a>,
    version: u64,
) -> Result<Command<'a>, LineFault>
    ensures { read_as result ≡ asks (command_in (forms version) word.now (fields_in fields.entry.text.now)) }
{
    if same_text(word, b"session") {
        session(fields)
    } else if same_text(word, b"open") {
        let (slot, channels) = slot_and_number(fields)?;
        Ok(Command::Open { slot, channels })
    } else if same_text(word, b"keep") {
        keep(fields, version)
    } else if same_text(word, b"load") {
        load(fields)
    } else if same_text(word, b"lazy") {
        lazy(fields)
    } else if same_text(word, b"append") {
        append(fields)
    } else if same_text(word, b"advance") {
        let (slot, count) = slot_and_count(fields)?;
        Ok(Command::Advance { slot, count })
    } else if same_text(word, b"partial") {
        let slot = one_slot(fields)?;
        Ok(Command::Partial { slot })
    } else if same_text(word, b"window") {
        let (at, start) = ref_and_start(fields)?;
        Ok(Command::Window { at, start })
    } else if same_text(word, b"profile") {
        let at = one_ref(fields)?;
        Ok(Command::Profile { at })
    } else if same_text(word, b"entry") {
        let (at, start) = ref_and_start(fields)?;
        Ok(Command::Entry { at, start })
    } else if same_text(word, b"join") {
        let (a, b) = two_refs(fields)?;
        Ok(Command::Join { a, b })
    } else if same_text(word, b"multi") {
        let (slot, k) = slot_and_number(fields)?;
        Ok(Command::Multi { slot, k })
    } else if same_text(word, b"nearest") {
        let (at, k) = ref_and_rank_count(fields)?;
        Ok(Command::Nearest { at, k })
    } else if same_text(word, b"pan") {
        let (at, (lo, hi)) = ref_and_lengths(fields)?;
        Ok(Command::Pan { at, lo, hi })
    } else if same_text(word, b"match") {
        matches(fields)
    } else if same_text(word, b"motifs") {
        motifs(fields)
    } else if same_text(word, b"discords") {
        let (at, count) = ref_and_count(fields)?;
        Ok(Command::Discords { at, count })
    } else if same_text(word, b"chain") {
        let (at, start) = ref_and_start(fields)?;
        Ok(Command::Chain { at, start })
    } else if same_text(word, b"chains") {
        let at = one_ref(fields)?;
        Ok(Command::Chains { at })
    } else if same_text(word, b"segments") {
        segments(fields)
    } else if same_text(word, b"mpdist") {
        let (a, b) = two_refs(fields)?;
        Ok(Command::Mpdist { a, b })
    } else if same_text(word, b"consensus") {
        consensus(fields)
    } else if same_text(word, b"end") {
        no_field(fields)?;
        Ok(Command::End)
    } else {
        Err(LineFault::Unknown)
    }
}
