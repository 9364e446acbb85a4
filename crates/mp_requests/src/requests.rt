//! What a line asks to be told, and the answers.

ghost use Rattle.std.specs.Prelude.{◌≡◌, ◌≤◌};
ghost use Rattle.mp_replies.specs.Laws.{AreLengths};
ghost use Rattle.mp_replies.specs.Limits.{max_factor, max_ranks};

mod chain_command;
mod compare_command;
mod consensus_command;
mod discords_command;
mod match_command;
mod motifs_command;
mod multi_command;
mod nearest_command;
mod pan_command;
mod partial_command;
mod profile_command;
mod segments_command;
mod session_command;
mod window_command;

use self::chain_command::{report_chain, report_chains};
use self::compare_command::report_comparison;
use self::consensus_command::report_consensus;
use self::discords_command::report_discords;
use self::match_command::report_match;
use self::motifs_command::report_motifs;
use self::multi_command::report_multi;
use self::nearest_command::report_nearest;
use self::pan_command::report_pan;
use self::partial_command::report_partial;
use self::profile_command::{report_entry, report_profile};
use self::segments_command::report_segments;
use self::session_command::{mode_of, report_session};
use self::window_command::report_window;
use crate::answers::Answer;
use crate::context::Context;
use crate::reports::Report;
use mp_lines::{Command, Refs};
use mp_nums::Memory;
use mp_outside::Gate;
use mp_replies::{Mode, Ref};
use mp_stores::Stores;
use std::thread::Threads;

/// A report, for which no slot is changed.
#[derive(Clone, Copy, Debug)]
pub enum ReportRequest<'a> {
    Session { mode: Mode },
    Window { at: Ref, start: u64 },
    Profile { at: Ref },
    Entry { at: Ref, start: u64 },
    Partial { slot: u64 },
    Compare(Pair),
    Multi { slot: u64, k: u64 },
    Nearest(Neighbours),
    Pan(Lengths),
    Match(Pattern),
    Motifs(Repeats),
    Discords(Unusual),
    Chain { at: Ref, start: u64 },
    Chains { at: Ref },
    Segments(Regimes),
    Consensus(Refs<'a>),
    End,
}

/// Two channels, and what they are compared by.
#[derive(Clone, Copy, Debug)]
pub struct Pair {
    pub a: Ref,
    pub b: Ref,
    pub by: Comparison,
}

#[derive(Clone, Copy, Debug, PartialEq, Eq)]
pub enum Comparison {
    Join,
    Mpdist,
}

/// So many nearest windows of each window of a channel.
#[derive(Clone, Copy, Debug)]
pub struct Neighbours {
    pub at: Ref,
    pub k: u64,
    ghost some: { 1 ≤ k },
    ghost few: { k ≤ max_ranks },
}

/// The window lengths of a channel from a least one to a greatest.
#[derive(Clone, Copy, Debug)]
pub struct Lengths {
    pub at: Ref,
    pub lo: u32,
    pub hi: u32,
    ghost lengths: { AreLengths lo hi },
}

/// The window whose matches are sought in a channel, how many windows match it at the most, and how far they may be.
#[derive(Clone, Copy, Debug)]
pub struct Pattern {
    pub at: Ref,
    pub query: Ref,
    pub start: u64,
    pub radius: u128,
    pub max: u64,
    ghost some: { 1 ≤ max },
}

/// Which repeated patterns of a channel are sought.
#[derive(Clone, Copy, Debug)]
pub struct Repeats {
    pub at: Ref,
    /// The most patterns.
    pub count: u64,
    /// The greatest distance of a pattern's window to its nearest one.
    pub cutoff: u128,
    /// The greatest distance of a match.
    pub radius: u128,
    /// The fewest windows that match a pattern beside its own.
    pub neighbours: u64,
    /// The most matches of a pattern, its own window among them.
    pub matches: u64,
    ghost some: { 1 ≤ count },
    ghost matched: { 1 ≤ matches },
}

/// So many unusual windows of a channel.
#[derive(Clone, Copy, Debug)]
pub struct Unusual {
    pub at: Ref,
    pub count: u64,
    ghost some: { 1 ≤ count },
}

/// So many changes of regime of a channel, with zones and margins of so many window lengths.
#[derive(Clone, Copy, Debug)]
pub struct Regimes {
    pub at: Ref,
    pub count: u64,
    pub factor: u32,
    ghost within: { factor ≤ max_factor },
}

impl<'a> ReportRequest<'a> {
    ghost use Rattle.mp_lines.specs.Lines.{asked_by};
    ghost use Rattle.mp_requests.specs.Reports.{IsReported, OnlyReads};
    ghost use Rattle.mp_requests.specs.Requests.{AsksForReport, IsWithinLimits, reported_in};

    /// What a command asks to be told, which asks for nothing else.
    pub fn of(command: Command<'a>) -> ReportRequest<'a>
        requires limits { IsWithinLimits (asked_by command) }
        requires report { AsksForReport (asked_by command) }
        ensures { reported_in result ≡ asked_by command.entry }
    {
        match command {
            Command::Session {
                version,
                wide,
                json,
            } => ReportRequest::Session {
                mode: mode_of(version, wide, json),
            },
            Command::Window { at, start } => ReportRequest::Window { at, start },
            Command::Profile { at } => ReportRequest::Profile { at },
            Command::Entry { at, start } => ReportRequest::Entry { at, start },
            Command::Partial { slot } => ReportRequest::Partial { slot },
            Command::Join { a, b } => {
                let by = Comparison::Join;
                ReportRequest::Compare(Pair { a, b, by })
            }
            Command::Multi { slot, k } => ReportRequest::Multi { slot, k },
            Command::Nearest { at, k } => ReportRequest::Nearest(Neighbours { at, k }),
            Command::Pan { at, lo, hi } => ReportRequest::Pan(Lengths { at, lo, hi }),
            Command::Match {
                at,
                query,
                start,
                radius,
                max,
            } => ReportRequest::Match(Pattern {
                at,
                query,
                start,
                radius,
                max,
            }),
            Command::Motifs {
                at,
                count,
                cutoff,
                radius,
                neighbours,
                matches,
            } => ReportRequest::Motifs(Repeats {
                at,
                count,
                cutoff,
                radius,
                neighbours,
                matches,
            }),
            Command::Discords { at, count } => ReportRequest::Discords(Unusual { at, count }),
            Command::Chain { at, start } => ReportRequest::Chain { at, start },
            Command::Chains { at } => ReportRequest::Chains { at },
            Command::Segments { at, count, factor } => {
                ReportRequest::Segments(Regimes { at, count, factor })
            }
            Command::Mpdist { a, b } => {
                let by = Comparison::Mpdist;
                ReportRequest::Compare(Pair { a, b, by })
            }
            Command::Consensus { refs } => ReportRequest::Consensus(refs),
            Command::End => ReportRequest::End,
            Command::Blank
            | Command::Open { .. }
            | Command::Keep { .. }
            | Command::Load { .. }
            | Command::Lazy { .. }
            | Command::Append { .. }
            | Command::Advance { .. } => unreachable!(),
        }
    }

    /// The answer to it. No slot is changed.
    pub fn answer<R: Threads + Sync, G: Gate>(
        self,
        rt: &R,
        stores: &mut Stores,
        context: Context,
        gate: &G,
    ) -> Result<Answer, Memory>
        ensures report { IsReported context (reported_in self.entry) stores.old result }
        ensures stores { OnlyReads (reported_in self.entry) stores.old stores.new result }
    {
        match self {
            ReportRequest::Session { mode } => Ok(report_session(context, mode)),
            ReportRequest::Window { at, start } => report_window(stores, context, at, start),
            ReportRequest::Profile { at } => Ok(report_profile(stores, context, at)),
            ReportRequest::Entry { at, start } => Ok(report_entry(stores, context, at, start)),
            ReportRequest::Partial { slot } => Ok(report_partial(stores, context, slot)),
            ReportRequest::Compare(pair) => report_comparison(rt, stores, context, pair, gate),
            ReportRequest::Multi { slot, k } => report_multi(rt, stores, context, slot, k, gate),
            ReportRequest::Nearest(sought) => report_nearest(rt, stores, context, sought, gate),
            ReportRequest::Pan(lengths) => report_pan(rt, stores, context, lengths, gate),
            ReportRequest::Match(pattern) => report_match(rt, stores, context, pattern),
            ReportRequest::Motifs(repeats) => report_motifs(rt, stores, context, repeats),
            ReportRequest::Discords(unusual) => report_discords(stores, context, unusual),
            ReportRequest::Chain { at, start } => report_chain(stores, context, at, start),
            ReportRequest::Chains { at } => report_chains(stores, context, at),
            ReportRequest::Segments(sought) => report_segments(stores, context, sought),
            ReportRequest::Consensus(refs) => report_consensus(rt, stores, context, refs, gate),
            ReportRequest::End => Ok(Answer::Ended(Report::End)),
        }
    }
}
