//! What is kept of two windows of a channel while both move on.

ghost use Rattle.std.specs.Prelude.{◌≡◌, ℕ, ◌+◌, ◌^◌, ◌<◌, ◌≤◌, is_some, length, IfSome};
ghost use Rattle.std.specs.Option.{option_map};
ghost use Rattle.mp_series.specs.declared.limits.TheConstants.{MAX_WINDOW};
ghost use Rattle.mp_defs.specs.Series.{Series, series_of, number_at};
ghost use Rattle.mp_defs.specs.Distance.{distance};
ghost use Rattle.mp_results.specs.Slide.{square};
ghost use Rattle.mp_multi.specs.Missing as defs;

use mp_nums::{Sample, Sq};
use mp_sums::{Grid, sample_at};

/// What is kept of two windows of a channel while both move on.
#[derive(Clone, Copy)]
pub(crate) struct Running {
    /// Their squared distance, in which a missing sample counts as 0.
    sum: u128,
    /// At how many places of the windows a sample is missing.
    missing: u32,
    ghost small: { sum < 2 ^ 110 },
}

/// Whether the sample at a place isn't missing.
#[inline]
fn is_there(channel: &[Sample], place: usize) -> bool
    ensures { result ≡ is_some (number_at (series_of channel.now) place) }
{
    match sample_at(channel, place) {
        Sample::Value(_) => true,
        Sample::Missing => false,
    }
}

/// 1 where one of two samples is missing.
#[inline]
fn missing_between(channel: &[Sample], i: usize, j: usize) -> u32
    ensures { result
        ≡ defs.missing_between (number_at (series_of channel.now) i) (number_at (series_of channel.now) j) }
{
    if is_there(channel, i) && is_there(channel, j) {
        0
    } else {
        1
    }
}

/// At how many of the first `m` places from `i` and from `j` on a sample is missing.
fn count_missing(channel: &[Sample], m: u32, i: usize, j: usize) -> u32
    requires longest { m ≤ MAX_WINDOW }
    requires first { i + m ≤ length channel.now }
    requires second { j + m ≤ length channel.now }
    ensures { result ≡ defs.count_missing m (series_of channel.now) i j }
{
    let mut missing = 0;
    for k in 0..m {
        missing += missing_between(channel, i + k as usize, j + k as usize);
    }
    missing
}

/// Two series, both this one.
#[inline]
fn own_grid(channel: &[Sample], m: u32) -> Grid
    requires { m ≤ MAX_WINDOW }
    ensures rows { result.rows.now ≡ channel.now }
    ensures columns { result.columns.now ≡ channel.now }
    ensures m { result.m ≡ m }
{
    Grid {
        rows: channel,
        columns: channel,
        m: m as usize,
    }
}

impl Running {
    ghost use Rattle.mp_multi.specs.Running.{IsRunning};

    /// What is kept of windows of no samples.
    pub(crate) fn none() -> Running {
        Running { sum: 0, missing: 0 }
    }

    /// What is kept of the windows of `m` samples that start at `i` and at `j`.
    pub(crate) fn of(channel: &[Sample], m: u32, i: usize, j: usize) -> Running
        requires longest { m ≤ MAX_WINDOW }
        requires first { i + m ≤ length channel.now }
        requires second { j + m ≤ length channel.now }
        ensures { IsRunning m (series_of channel.now) i j result }
    {
        Running {
            sum: own_grid(channel, m).distance(i, j),
            missing: count_missing(channel, m, i, j),
        }
    }

    /// What is kept of the next windows, from what is kept of those that start at `i` and at `j`.
    #[inline]
    pub(crate) fn next(self, channel: &[Sample], m: u32, i: usize, j: usize) -> Running
        requires longest { m ≤ MAX_WINDOW }
        requires first { i + m < length channel.now }
        requires second { j + m < length channel.now }
        requires running { IsRunning m (series_of channel.now) i j self }
        ensures { IsRunning m (series_of channel.now) (i + 1) (j + 1) result }
    {
        let enters = missing_between(channel, i + m as usize, j + m as usize);
        let leaves = missing_between(channel, i, j);
        Running {
            sum: own_grid(channel, m).next_distance(i, j, self.sum),
            missing: self.missing + enters - leaves,
        }
    }

    /// The distance of the windows, none where a sample of either is missing.
    #[inline]
    pub(crate) fn distance(self) -> Option<Sq>
        ensures value { (m : ℕ) (a : Series) (i j : ℕ) → IsRunning m a i j self
            → result ≡ option_map square (distance m a i a j) }
        ensures small { IfSome result (λ dist. dist.0 < 2 ^ 110) }
    {
        if self.missing == 0 {
            Some(Sq(self.sum))
        } else {
            None
        }
    }
}
