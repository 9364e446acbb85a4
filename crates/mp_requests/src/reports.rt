//! What an accepted command reports, as data, and how it is written.

ghost use Rattle.std.specs.Prelude.{◌<◌, ◌≤◌, All, length};
ghost use Rattle.mp_replies.specs.Limits.{max_scale};

use crate::named::{named_entry, named_part, named_profile};
use mp_chains::longest;
use mp_nums::{
    Centre, Discord, Memory, Motif, NearList, PanRow, Places, Ratio, Sample, Slots, Sq, Text,
};
use mp_replies::{Mode, Ref, ReportForm};
use mp_report::answers::ok_text;
use mp_report::chains::{chain_text, chains_text};
use mp_report::channels::{consensus_text, mpdist_text};
use mp_report::json_lines::answers::ok_json;
use mp_report::json_lines::chains::{chain_json, chains_json};
use mp_report::json_lines::channels::{consensus_json, mpdist_json};
use mp_report::json_lines::matches::{discords_json, match_json, motifs_json};
use mp_report::json_lines::pans::pan_json;
use mp_report::json_lines::parts::advance_json;
use mp_report::json_lines::profiles::window_json;
use mp_report::json_lines::ranks::nearest_json;
use mp_report::json_lines::segments::segments_json;
use mp_report::json_lines::slots::slots_json;
use mp_report::matches::{discords_text, match_text, motifs_text};
use mp_report::pans::pan_text;
use mp_report::parts::advance_text;
use mp_report::profiles::window_text;
use mp_report::ranks::nearest_text;
use mp_report::segments::segments_text;
use mp_report::slots::{SlotsName, slots_text};
use mp_stores::Stores;
use std::alloc::Global;

/// The report of a command, from which any form of it can be written. What the slots keep, as a profile, is named and
/// not copied.
#[derive(Debug, Drop)]
pub enum Report {
    /// How the lines that follow are read and answered.
    Session { mode: Mode },
    /// How many samples each channel of the slot has, or were ever appended to a kept one.
    Open { samples: u64 },
    Keep { samples: u64 },
    Load { samples: u64 },
    Lazy { samples: u64 },
    Append { samples: u64 },
    /// How many diagonals it covers, and how many are left.
    Advance { done: u64, left: u64 },
    Window(Window),
    /// The profile of this channel, which its slot keeps, or that of the live windows of a kept slot.
    Profile(Ref),
    /// The entry in it of the window that starts there.
    Entry { at: Ref, start: u64 },
    /// The profile of the diagonals of this slot that are covered.
    Partial { slot: u64 },
    /// For each window its nearest one in the other series.
    Join(Slots),
    Mpdist(Option<Sq>),
    /// For each window its nearest one by several channels together.
    Multi(Slots),
    /// For each window its nearest ones, in their order.
    Nearest(Vec<NearList>),
    /// For each window length what its profile has.
    Pan(Vec<PanRow>),
    Match(NearList),
    Motifs(Vec<Motif>),
    Discords(Vec<Discord>),
    Chain(Places),
    Chains(Vec<Places>),
    Segments(Segments),
    Consensus(Option<Centre>),
    End,
}

/// The samples of the window at a start, and how many of their digits stand behind the point.
#[derive(Debug, Drop)]
pub struct Window {
    pub start: u64,
    pub samples: Vec<Sample>,
    pub scale: u8,
    ghost digits: { scale ≤ max_scale },
}

/// Where a channel changes its regime, and the curve that these places lie on, a fraction for each place.
#[derive(Debug, Drop)]
pub struct Segments {
    pub places: Places,
    pub curve: Vec<Ratio>,
    ghost on_curve: { All (λ place. place < length curve.items) places.items },
}

impl Report {
    ghost use Rattle.std.specs.Prelude.{◌≡◌, IfOk};
    ghost use Rattle.mp_replies.specs.Report.{report_written};
    ghost use Rattle.mp_replies.specs.declared.modes.ReportForm.TheVariants.{Json, Text};
    ghost use Rattle.mp_replies.specs.State.{State};
    ghost use Rattle.mp_requests.specs.Requests.{AreNamed, AreSlotsOf, report_in};

    /// What is written of it for the line of this number, in this form. What it names is looked up in the slots.
    pub(crate) fn written(
        &self,
        alloc: Global,
        form: ReportForm,
        line: u64,
        stores: &Stores,
    ) -> Result<Text, Memory>
        requires { AreNamed stores.now self.now }
        ensures { (state : State) → AreSlotsOf state stores.now
            → IfOk result (λ text. text.items ≡ report_written form line (report_in state self.now)) }
    {
        match form {
            ReportForm::Text => self.text(alloc, line, stores),
            ReportForm::Json => self.json(alloc, line, stores),
        }
    }

    /// Its text.
    fn text(&self, alloc: Global, line: u64, stores: &Stores) -> Result<Text, Memory>
        requires { AreNamed stores.now self.now }
        ensures { (state : State) → AreSlotsOf state stores.now
            → IfOk result (λ text. text.items ≡ report_written Text line (report_in state self.now)) }
    {
        match self {
            Report::Session { .. } | Report::End => ok_text(alloc, line, None),
            Report::Open { samples }
            | Report::Keep { samples }
            | Report::Load { samples }
            | Report::Lazy { samples }
            | Report::Append { samples } => ok_text(alloc, line, Some(*samples)),
            Report::Advance { done, left } => advance_text(alloc, line, *done, *left),
            Report::Window(window) => {
                let samples = window.samples.as_slice();
                window_text(alloc, line, window.start, samples, window.scale)
            }
            Report::Profile(at) => named_profile(alloc, ReportForm::Text, line, stores, *at),
            Report::Entry { at, start } => named_entry(
                alloc,
                ReportForm::Text,
                line,
                stores,
                *at,
                *start,
            ),
            Report::Partial { slot } => named_part(alloc, ReportForm::Text, line, stores, *slot),
            Report::Join(slots) => slots_text(alloc, line, SlotsName::Join, slots.as_slice()),
            Report::Mpdist(dist) => mpdist_text(alloc, line, *dist),
            Report::Multi(slots) => slots_text(alloc, line, SlotsName::Multi, slots.as_slice()),
            Report::Nearest(lists) => nearest_text(alloc, line, lists.as_slice()),
            Report::Pan(rows) => pan_text(alloc, line, rows.as_slice()),
            Report::Match(list) => match_text(alloc, line, list.as_slice()),
            Report::Motifs(list) => motifs_text(alloc, line, list.as_slice()),
            Report::Discords(list) => discords_text(alloc, line, list.as_slice()),
            Report::Chain(chain) => chain_text(alloc, line, chain.as_slice()),
            Report::Chains(chains) => {
                let chains = chains.as_slice();
                chains_text(alloc, line, chains, longest(chains))
            }
            Report::Segments(segments) => {
                let (places, curve) = (segments.places.as_slice(), segments.curve.as_slice());
                segments_text(alloc, line, places, curve)
            }
            Report::Consensus(centre) => consensus_text(alloc, line, centre.as_ref()),
        }
    }

    /// Its JSON line.
    fn json(&self, alloc: Global, line: u64, stores: &Stores) -> Result<Text, Memory>
        requires { AreNamed stores.now self.now }
        ensures { (state : State) → AreSlotsOf state stores.now
            → IfOk result (λ text. text.items ≡ report_written Json line (report_in state self.now)) }
    {
        match self {
            Report::Session { .. } | Report::End => ok_json(alloc, line, None),
            Report::Open { samples }
            | Report::Keep { samples }
            | Report::Load { samples }
            | Report::Lazy { samples }
            | Report::Append { samples } => ok_json(alloc, line, Some(*samples)),
            Report::Advance { done, left } => advance_json(alloc, line, *done, *left),
            Report::Window(window) => {
                let samples = window.samples.as_slice();
                window_json(alloc, line, window.start, samples, window.scale)
            }
            Report::Profile(at) => named_profile(alloc, ReportForm::Json, line, stores, *at),
            Report::Entry { at, start } => named_entry(
                alloc,
                ReportForm::Json,
                line,
                stores,
                *at,
                *start,
            ),
            Report::Partial { slot } => named_part(alloc, ReportForm::Json, line, stores, *slot),
            Report::Join(slots) => slots_json(alloc, line, SlotsName::Join, slots.as_slice()),
            Report::Mpdist(dist) => mpdist_json(alloc, line, *dist),
            Report::Multi(slots) => slots_json(alloc, line, SlotsName::Multi, slots.as_slice()),
            Report::Nearest(lists) => nearest_json(alloc, line, lists.as_slice()),
            Report::Pan(rows) => pan_json(alloc, line, rows.as_slice()),
            Report::Match(list) => match_json(alloc, line, list.as_slice()),
            Report::Motifs(list) => motifs_json(alloc, line, list.as_slice()),
            Report::Discords(list) => discords_json(alloc, line, list.as_slice()),
            Report::Chain(chain) => chain_json(alloc, line, chain.as_slice()),
            Report::Chains(chains) => {
                let chains = chains.as_slice();
                chains_json(alloc, line, chains, longest(chains))
            }
            Report::Segments(segments) => {
                let (places, curve) = (segments.places.as_slice(), segments.curve.as_slice());
                segments_json(alloc, line, places, curve)
            }
            Report::Consensus(centre) => consensus_json(alloc, line, centre.as_ref()),
        }
    }
}
