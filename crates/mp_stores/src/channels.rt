//! One channel of a slot.

ghost use Rattle.std.specs.Prelude.{◌≡◌, ◌+◌, ◌*◌, ◌<◌, ◌≤◌, ◌++◌, ◌∷◌, [], length, take, drop, OnOk, IfOk};
ghost use Rattle.mp_results.specs.Arcs.{arcs_of, indices_of};
ghost use Rattle.mp_defs.specs.Limits.{max_samples, max_window, min_window};
ghost use Rattle.mp_defs.specs.Profile.{matrix_profile};
ghost use Rattle.mp_defs.specs.Series.{series_of};
ghost use Rattle.mp_defs.specs.Window.{is_free, windows};
ghost use Rattle.mp_replies.specs.Limits.{max_tile, max_workers};
ghost use Rattle.mp_replies.specs.Profiles.{columns_in};
ghost use Rattle.mp_stores.specs.Channels.{HasGrown, StaysKnown};

use crate::arcs::{follow, follow_changes};
use mp_arcs::ArcBoard;
use mp_nums::{Memory, Places, Sample};
use mp_outside::{Gate, OpenGate};
use mp_partial::Profile;
use mp_series::{Bundle, Samples, windows};
use mp_stream::Stream;
use std::alloc::Global;
use std::marker::Model;
use std::thread::Threads;

/// How the profile of a channel is computed.
#[derive(Clone, Copy, Debug)]
pub struct Plan {
    /// Samples in a window.
    pub m: u32,
    /// Diagonals in a tile.
    pub tile: u32,
    pub workers: u32,
    ghost shortest: { min_window ≤ m },
    ghost longest: { m ≤ max_window },
    ghost some_tile: { 1 ≤ tile },
    ghost greatest_tile: { tile ≤ max_tile },
    ghost some_workers: { 1 ≤ workers },
    ghost most_workers: { workers ≤ max_workers },
}

/// A series with its profile and with the arcs between its windows and their nearest ones, which are kept as samples
/// are appended. It is seen as its samples, its window length, how often samples were read, and how many more samples
/// it can take without memory.
#[derive(Debug, Drop)]
pub struct Channel {
    stream: Stream,
    board: ArcBoard,
}

impl Model for Channel {
    ghost use Rattle.std.specs.Prelude.{min};
    ghost use Rattle.mp_stores.specs.Channels.{IsClear, NameNearest};
    ghost use Rattle.mp_stream.specs.Streams.{Streamed};

    ghost Value = { Streamed };

    ghost view = { λ c. record c.stream { spare = min c.stream.spare c.board.spare } };

    ghost invariant = { λ c. NameNearest c.stream.m c.stream.items c.board.items × IsClear c.stream.changed };
}

impl Channel {
    /// A copy of the series, whose profile workers compute as the plan says.
    pub fn of<R: Threads + Sync, G: Gate>(
        rt: &R,
        alloc: Global,
        series: &[Sample],
        plan: Plan,
        gate: &G,
    ) -> Result<Channel, Memory>
        requires { length series.now ≤ max_samples }
        ensures items { IfOk result (λ channel. channel.items ≡ series.now) }
        ensures m { IfOk result (λ channel. channel.m ≡ plan.m) }
        ensures empty { IfOk result (λ channel. series.now ≡ [] → channel.reads ≡ 0) }
        ensures reads { IfOk result (λ channel. channel.reads
            ≤ length series.now * (length series.now + 2 * (plan.m + 1))) }
    {
        let board = room_for_arcs(alloc, windows(series.len() as u64, plan.m))?;
        let stream = stream_of(rt, alloc, series, plan, gate)?;
        Ok(Channel::over(stream, board))
    }

    /// No samples, at window length `m`.
    pub fn empty<R: Threads + Sync>(rt: &R, alloc: Global, m: u32) -> Result<Channel, Memory>
        requires shortest { min_window ≤ m }
        requires longest { m ≤ max_window }
        ensures items { IfOk result (λ channel. channel.items ≡ []) }
        ensures m { IfOk result (λ channel. channel.m ≡ m) }
        ensures reads { IfOk result (λ channel. channel.reads ≡ 0) }
    {
        let samples = Samples::new(alloc);
        let stream = Stream::from(rt, alloc, samples, m, 1, 1, &OpenGate)?;
        Ok(Channel::over(stream, ArcBoard::new(alloc)))
    }

    /// The stream, with the arcs of its profile, for which there is room.
    fn over(stream: Stream, board: ArcBoard) -> Channel
        requires shortest { min_window ≤ stream.m }
        requires few { length stream.items ≤ max_samples }
        requires empty { board.items ≡ [] }
        requires room { windows (length stream.items) stream.m ≤ board.spare }
        ensures items { result.items ≡ stream.items }
        ensures m { result.m ≡ stream.m }
        ensures reads { result.reads ≡ stream.reads }
    {
        let mut stream = stream;
        let mut board = board;
        follow(&mut board, stream.profile().all());
        stream.clear_changed();
        Channel { stream, board }
    }

    /// Makes room for so many more samples.
    pub(crate) fn reserve(&mut self, more: u64) -> Result<(), Memory>
        ensures ok { OnOk result (more ≤ self.new.spare) }
        ensures items { self.new.items ≡ self.old.items }
        ensures m { self.new.m ≡ self.old.m }
        ensures reads { self.new.reads ≡ self.old.reads }
        ensures changed { self.new.changed ≡ self.old.changed }
    {
        self.stream.reserve(more)?;
        self.board.reserve(more)
    }

    /// Appends the samples, for which there is room.
    pub(crate) fn add(&mut self, samples: &[Sample])
        requires room { length samples.now ≤ self.old.spare }
        requires fits { length self.old.items + length samples.now ≤ max_samples }
        ensures { HasGrown samples.now self.old self.new }
    {
        append_each(&mut self.stream, samples);
        follow_changes(
            &mut self.board,
            self.stream.profile().all(),
            self.stream.changed(),
        );
        self.stream.clear_changed();
    }

    /// The matrix profile of the samples.
    pub(crate) fn profile(&self) -> &Profile
        ensures { columns_in result.now ≡ matrix_profile self.now.m (series_of self.now.items) }
    {
        self.stream.profile()
    }

    /// How many of the arcs from each window to its nearest one pass over each place.
    pub(crate) fn arcs(&self) -> Result<Places, Memory>
        ensures { IfOk result (λ counts. counts.items
            ≡ arcs_of (indices_of (matrix_profile self.now.m (series_of self.now.items)).all)) }
    {
        self.board.counts()
    }

    /// Whether no sample of window `i` is missing. It is no read.
    pub(crate) fn is_free(&self, i: u64) -> bool
        requires { i < windows (length self.now.items) self.now.m }
        ensures { result ≡ is_free self.now.m (series_of self.now.items) i }
    {
        self.stream.free(i)
    }

    /// A copy of the samples of the window from `start` on, for which all are lent once.
    pub(crate) fn window(&mut self, alloc: Global, start: u64) -> Result<Vec<Sample>, Memory>
        requires { start + self.old.m ≤ length self.old.items }
        ensures window { IfOk result (λ window. window.items ≡ take self.old.m (drop start self.old.items)) }
        ensures items { self.new.items ≡ self.old.items }
        ensures m { self.new.m ≡ self.old.m }
        ensures reads_rise { self.old.reads ≤ self.new.reads }
        ensures reads { self.new.reads ≤ self.old.reads + length self.old.items * length self.old.items }
    {
        let first = start as usize;
        let m = self.stream.window() as usize;
        let window = Vec::from_slice(alloc, &self.stream.lend()[first..first + m])?;
        Ok(window)
    }

    /// Adds a copy of the samples to a bundle, for which they are lent once.
    pub(crate) fn copy_to(&mut self, bundle: &mut Bundle) -> Result<(), Memory>
        ensures ok { OnOk result (bundle.new ≡ bundle.old ++ self.old.items ∷ []) }
        ensures within { length self.old.items ≤ max_samples }
        ensures items { self.new.items ≡ self.old.items }
        ensures m { self.new.m ≡ self.old.m }
        ensures reads_rise { self.old.reads ≤ self.new.reads }
        ensures reads { self.new.reads ≤ self.old.reads + length self.old.items * length self.old.items }
    {
        bundle.add(self.stream.lend())
    }

    /// How many samples there are.
    pub(crate) fn len(&self) -> u64
        ensures length { result ≡ length self.now.items }
        ensures within { result ≤ max_samples }
    {
        self.stream.len()
    }

    /// How often samples were read.
    pub(crate) fn reads(&self) -> u128
        ensures { result ≡ self.now.reads }
    {
        self.stream.reads()
    }
}

/// Room for the arcs of so many windows.
fn room_for_arcs(alloc: Global, count: u64) -> Result<ArcBoard, Memory>
    ensures empty { IfOk result (λ board. board.items ≡ []) }
    ensures room { IfOk result (λ board. count ≤ board.spare) }
{
    let mut board = ArcBoard::new(alloc);
    board.reserve(count)?;
    Ok(board)
}

/// A copy of the series, whose profile workers compute as the plan says.
fn stream_of<R: Threads + Sync, G: Gate>(
    rt: &R,
    alloc: Global,
    series: &[Sample],
    plan: Plan,
    gate: &G,
) -> Result<Stream, Memory>
    requires { length series.now ≤ max_samples }
    ensures items { IfOk result (λ stream. stream.items ≡ series.now) }
    ensures m { IfOk result (λ stream. stream.m ≡ plan.m) }
    ensures reads { IfOk result (λ stream. stream.reads
        ≤ length series.now * (length series.now + 2 * (plan.m + 1))) }
{
    let Ok(samples) = Samples::of(alloc, series) else {
        return Err(Memory);
    };
    Stream::from(rt, alloc, samples, plan.m, plan.tile, plan.workers, gate)
}

/// Appends the samples, for which there is room.
fn append_each(stream: &mut Stream, samples: &[Sample])
    requires room { length samples.now ≤ stream.old.spare }
    requires fits { length stream.old.items + length samples.now ≤ max_samples }
    ensures grown { HasGrown samples.now stream.old stream.new }
    ensures known { StaysKnown stream.old stream.new }
{
    for sample in samples {
        stream.append(*sample).unwrap();
    }
}
