//! A session: lines in, replies out.

ghost use Rattle.std.specs.Prelude.{◌≡◌, ◌↔◌, ℕ, ◌+◌, ◌-◌, ◌^◌, ◌<◌, ◌≤◌, min, IfOk, OnErr, OnOk, IsErrOf};
ghost use Rattle.std.specs.Prelude.{IsNone, IfSome, false};

use crate::changes::make_change;
use mp_commands::{Change, Prepared, prepare};
use mp_nums::{Memory, Width};
use mp_outside::{Gate, Shelf};
use mp_replies::{Mode, ReportForm};
use mp_requests::{Context, Reply, Stop};
use mp_stores::Stores;
use mp_words::Settings;
use std::alloc::Global;
use std::marker::Model;
use std::thread::Threads;

/// How lines are read and answered where a session has named nothing else.
const FIRST_MODE: Mode = Mode {
    version: 1,
    width: Width::Narrow,
    form: ReportForm::Text,
};

/// What is kept between lines.
#[derive(Debug, Drop)]
pub struct Session {
    settings: Settings,
    mode: Mode,
    lines: u64,
    begun: bool,
    stores: Stores,
}

impl Model for Session {
    ghost use Rattle.mp_session.specs.Sessions.{AreParts, SessionParts};

    ghost Value = { SessionParts };

    ghost view = { λ s. record {
      settings = s.settings;
      mode = s.mode;
      lines = s.lines;
      begun = s.begun;
      stores = s.stores;
    } };

    ghost invariant = { λ s. AreParts (record {
      settings = s.settings;
      mode = s.mode;
      lines = s.lines;
      begun = s.begun;
      stores = s.stores;
    }) };
}

impl Session {
    ghost use Rattle.mp_replies.specs.Line.{asked_of, ends};
    ghost use Rattle.mp_replies.specs.State.{Files, State, first_version, opening, second_version, store_at, Closed};
    ghost use Rattle.mp_requests.specs.Requests.{is_ended};
    ghost use Rattle.mp_commands.specs.Preparing.{CanMake, IsAsked, ToldFor, adds, covers, puts};
    ghost use Rattle.mp_commands.specs.Reads.{append_reads};
    ghost use Rattle.mp_stores.specs.Stores.{reads_at};
    ghost use Rattle.mp_session.specs.Sessions.{AddsEach, AsksFile, CoversMore, HasCommitted, HasStopped, IsReplyBy};
    ghost use Rattle.mp_session.specs.Sessions.{IsReplyBySome, IsReplyOverAny, StandsFor, WasCounted, WereReadBy};

    /// Slot 0 is open with one empty channel, all other slots are closed, and no line was run.
    pub fn new<R: Threads + Sync>(
        rt: &R,
        alloc: Global,
        settings: Settings,
    ) -> Result<Session, Memory>
        ensures opening { IfOk result (λ session. StandsFor session (opening settings.window settings.scale)) }
        ensures settings { IfOk result (λ session. session.settings ≡ settings) }
        ensures lines { IfOk result (λ session. session.lines ≡ 0) }
        ensures reads { IfOk result (λ session. (slot : ℕ) → reads_at session.stores slot ≡ 0) }
    {
        Ok(Session {
            settings,
            mode: FIRST_MODE,
            lines: 0,
            begun: false,
            stores: Stores::new(rt, alloc, settings.window())?,
        })
    }

    /// Runs one line without its LF: answers it and makes its change. A line that is refused or quiet changes nothing
    /// but the number of lines run, and reads no sample. A file is fetched by a `load` or `lazy` alone, once, and only
    /// where nothing refuses the line without it.
    ///
    /// All memory is taken before the first change, so that a run that stops at the line leaves the session as it
    /// was before, how often samples were read aside.
    pub fn run<R: Threads + Sync, H: Shelf, G: Gate>(
        &mut self,
        rt: &R,
        alloc: Global,
        line: &[u8],
        shelf: &mut H,
        gate: &G,
    ) -> Result<Reply, Stop>
        requires { self.old.lines < 2 ^ 64 - 1 }

        // What the definitions say, in every state that the session stands for, by the files that the shelf tells.
        ensures told { (state : State) (files : Files) → StandsFor self.old state
            → ToldFor (H.files shelf.old) state (asked_of state.mode.version line.now) files
            → IfOk result (IsReplyBy state files line.now self.new) }

        // What they say over any shelf, also one that tells nothing.
        ensures some_files { IfOk result (IsReplyBySome line.now self.old self.new) }
        ensures any_shelf { (state : State) → StandsFor self.old state
            → IfOk result (IsReplyOverAny state line.now self.new) }
        ensures stop { (state : State) → StandsFor self.old state → OnErr result (StandsFor self.new state) }

        ensures ends { IfOk result (λ r. is_ended r.kind ≡ ends line.now) }
        ensures counted { WasCounted self.old self.new result }
        ensures reads { WereReadBy (asked_of self.old.mode.version line.now) self.old.stores self.new.stores result }
        ensures shelf { IsAsked H.Shelf (AsksFile line.now self.old) (IsErrOf result Stop.ShelfFault) shelf.old
            shelf.new }
    {
        let context = Context {
            alloc,
            settings: self.settings,
            mode: self.mode,
            lines: self.lines,
            begun: self.begun,
        };
        let prepared = prepare(rt, &mut self.stores, context, line, shelf, gate)?;
        let Prepared { answer, change } = prepared;
        let accepted = answer.kind().is_accepted();
        let mode = answer.mode().unwrap_or(self.mode);
        let reply = answer.reply(alloc, mode.form, self.lines + 1, &self.stores)?;
        self.commit(rt, alloc, gate, change, accepted, mode)?;
        Ok(reply)
    }

    /// Makes the change of the line, which takes memory only where it covers diagonals, and counts the line. The mode
    /// is that of the next line.
    fn commit<R: Threads + Sync, G: Gate>(
        &mut self,
        rt: &R,
        alloc: Global,
        gate: &G,
        change: Change,
        accepted: bool,
        mode: Mode,
    ) -> Result<(), Memory>
        requires lines { self.old.lines < 2 ^ 64 - 1 }
        requires can { CanMake self.old.stores change }
        requires first { first_version ≤ mode.version }
        requires last { mode.version ≤ second_version }
        ensures committed { OnOk result (HasCommitted self.old self.new change accepted mode) }
        ensures stopped { OnErr result (HasStopped self.old self.new) }
        ensures only { OnErr result (CoversMore change) }
        ensures rise { (slot : ℕ) → puts change slot ≡ false
            → reads_at self.old.stores slot ≤ reads_at self.new.stores slot }
        ensures rest { (slot : ℕ) → puts change slot ≡ false → adds change slot ≡ false → covers change slot ≡ false
            → reads_at self.new.stores slot ≡ reads_at self.old.stores slot }
        ensures added { (slot count : ℕ) → AddsEach change slot count
            → reads_at self.new.stores slot ≤ reads_at self.old.stores slot + append_reads self.old.stores slot count }
    {
        make_change(
            rt,
            alloc,
            &mut self.stores,
            change,
            self.settings.workers(),
            gate,
        )?;
        self.mode = mode;
        self.lines += 1;
        self.begun |= accepted;
        Ok(())
    }

    /// How often samples of the slot were read, of all its channels together, `None` where the slot is closed.
    ///
    /// A sample that is appended is compared with every window, or with those of the diagonals that are covered, from
    /// the samples that enter these and leave them. A channel that is loaded begins with the reads of its first
    /// profile. A line that compares a channel with others has its samples lent, so that each counts as read as often
    /// as there are samples, as for every pair of them. A report of a profile reads none. The count stays at its
    /// greatest value.
    pub fn reads(&self, slot: u64) -> Option<u128>
        ensures closed { (state : State) → StandsFor self.now state
            → IsNone result ↔ (store_at state.stores slot ≡ Closed) }
        ensures value { IfSome result (λ reads. reads ≡ min (reads_at self.now.stores slot) (2 ^ 128 - 1)) }
    {
        self.stores.reads(slot)
    }
}
