//! Reports of profiles, which the slots keep and reports name.

ghost use Rattle.std.specs.Prelude.{◌≡◌, ◌<◌, ◌≤◌, List, length, IfOk};
ghost use Rattle.mp_nums.specs.declared.samples.Sample.{Sample};
ghost use Rattle.mp_replies.specs.EntryCommand.{entry_in, entry_report};
ghost use Rattle.mp_replies.specs.Command.{LiveProfileReport, ProfileReport};
ghost use Rattle.mp_replies.specs.PartialCommand.{partial_report};
ghost use Rattle.mp_replies.specs.ProfileCommand.{profile_report};
ghost use Rattle.mp_replies.specs.Profiles.{columns_in};
ghost use Rattle.mp_replies.specs.Report.{report_written};
ghost use Rattle.mp_replies.specs.State.{State};
ghost use Rattle.mp_requests.specs.Requests.{AreSlotsOf, IsLazySlot, IsLive, IsNamed, IsWindow, columns_kept, entry_kept};
ghost use Rattle.mp_requests.specs.Requests.{part_report};
ghost use Rattle.mp_defs.specs.Limits.{max_appended};
ghost use Rattle.mp_defs.specs.Band.{first_kept};
ghost use Rattle.mp_stream.specs.Kept.{StandsFor};

use mp_anytime::Anytime;
use mp_nums::{Memory, Text};
use mp_partial::Profile;
use mp_replies::{Ref, ReportForm};
use mp_report::json_lines::parts::partial_json;
use mp_report::json_lines::profiles::{
    entry_json, kept_entry_json, kept_profile_json, profile_json,
};
use mp_report::parts::partial_text;
use mp_report::profiles::{entry_text, kept_entry_text, kept_profile_text, profile_text};
use mp_stores::{Stores, live_slots};
use mp_stream::{Column, Kept};
use std::alloc::Global;

/// The report of the profile of a channel, or of the live windows of a kept slot, in this form.
pub(crate) fn named_profile(
    alloc: Global,
    form: ReportForm,
    line: u64,
    stores: &Stores,
    at: Ref,
) -> Result<Text, Memory>
    requires { IsNamed stores.now at }
    ensures { (state : State) → AreSlotsOf state stores.now
        → IfOk result (λ text. text.items ≡ report_written form line (profile_report state at)) }
{
    match stores.kept(at.slot) {
        Some(kept) => live_windows(alloc, form, line, kept),
        None => whole_profile(alloc, form, line, stores.profile(at)),
    }
}

/// The report of a profile.
fn whole_profile(
    alloc: Global,
    form: ReportForm,
    line: u64,
    profile: &Profile,
) -> Result<Text, Memory>
    ensures { IfOk result (λ text. text.items
        ≡ report_written form line (ProfileReport (columns_in profile.now))) }
{
    match form {
        ReportForm::Text => profile_text(alloc, line, profile),
        ReportForm::Json => profile_json(alloc, line, profile),
    }
}

/// The report of the live windows.
fn live_windows(alloc: Global, form: ReportForm, line: u64, kept: &Kept) -> Result<Text, Memory>
    requires { kept.now.count ≤ max_appended }
    ensures { (samples : List Sample) → StandsFor samples kept.now
        → IfOk result (λ text. text.items ≡ report_written form line
        (LiveProfileReport (first_kept kept.now.keep kept.now.count) (columns_kept kept.now))) }
{
    let all = live_slots(alloc, kept, Column::All)?;
    let left = live_slots(alloc, kept, Column::Left)?;
    let right = live_slots(alloc, kept, Column::Right)?;
    let (all, left, right) = (all.as_slice(), left.as_slice(), right.as_slice());
    let first = kept.first();
    match form {
        ReportForm::Text => kept_profile_text(alloc, line, first, all, left, right),
        ReportForm::Json => kept_profile_json(alloc, line, first, all, left, right),
    }
}

/// The report of the entry of a window of a channel, in this form.
pub(crate) fn named_entry(
    alloc: Global,
    form: ReportForm,
    line: u64,
    stores: &Stores,
    at: Ref,
    start: u64,
) -> Result<Text, Memory>
    requires { IsWindow stores.now at start }
    ensures { (state : State) → AreSlotsOf state stores.now
        → IfOk result (λ text. text.items ≡ report_written form line (entry_report state at start)) }
{
    match stores.kept(at.slot) {
        Some(kept) => live_window(alloc, form, line, kept, start),
        None => entry_of_window(alloc, form, line, stores.profile(at), start),
    }
}

/// The report of the entry of a window of a profile.
fn entry_of_window(
    alloc: Global,
    form: ReportForm,
    line: u64,
    profile: &Profile,
    start: u64,
) -> Result<Text, Memory>
    requires { start < length profile.now.all }
    ensures { IfOk result (λ text. text.items ≡ report_written form line (entry_in (columns_in profile.now) start)) }
{
    match form {
        ReportForm::Text => entry_text(alloc, line, profile, start),
        ReportForm::Json => entry_json(alloc, line, profile, start),
    }
}

/// The report of the entry of a live window.
fn live_window(
    alloc: Global,
    form: ReportForm,
    line: u64,
    kept: &Kept,
    start: u64,
) -> Result<Text, Memory>
    requires { IsLive kept.now start }
    ensures { IfOk result (λ text. text.items ≡ report_written form line (entry_kept kept.now start)) }
{
    let all = kept.slot(Column::All, start);
    let left = kept.slot(Column::Left, start);
    let right = kept.slot(Column::Right, start);
    match form {
        ReportForm::Text => kept_entry_text(alloc, line, start, all, left, right),
        ReportForm::Json => kept_entry_json(alloc, line, start, all, left, right),
    }
}

/// The report of the profile of those diagonals of a slot that are covered, in this form.
pub(crate) fn named_part(
    alloc: Global,
    form: ReportForm,
    line: u64,
    stores: &Stores,
    slot: u64,
) -> Result<Text, Memory>
    requires { IsLazySlot stores.now slot }
    ensures { (state : State) → AreSlotsOf state stores.now
        → IfOk result (λ text. text.items ≡ report_written form line (partial_report state slot)) }
{
    match stores.lazy(slot) {
        Some(part) => profile_in_part(alloc, form, line, part),
        None => unreachable!(),
    }
}

/// The report of a profile in parts.
fn profile_in_part(
    alloc: Global,
    form: ReportForm,
    line: u64,
    part: &Anytime,
) -> Result<Text, Memory>
    ensures { IfOk result (λ text. text.items ≡ report_written form line (part_report part.now)) }
{
    let left = part.left();
    match form {
        ReportForm::Text => partial_text(alloc, line, part.profile(), left),
        ReportForm::Json => partial_json(alloc, line, part.profile(), left),
    }
}
