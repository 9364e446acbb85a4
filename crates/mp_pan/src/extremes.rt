//! Of the windows of a length the one that is nearest to another, and the most unusual one.

ghost use Rattle.std.specs.Prelude.{◌≡◌, ◌*◌, ◌<◌, length};
ghost use Rattle.std.specs.Ordering.{is_lt};
ghost use Rattle.mp_picks.specs.Picks.{earlier_of};
ghost use Rattle.mp_results.specs.Best.{best_cmp};
ghost use Rattle.mp_results.specs.Discords.{discord_cmp};
ghost use Rattle.mp_pan.specs.declared.limits.TheConstants.{SPAN};
ghost use Rattle.mp_pan.specs.Spans.{column_at};
ghost use Rattle.mp_pan.specs.Extremes.{extremes_of, extremes_with};

use crate::limits::SPAN;
use mp_nums::{Discord, Slot};

/// The window that is nearest to another, and the one that is farthest from all others.
#[derive(Clone, Copy)]
pub(crate) struct Extremes {
    pub(crate) best: Option<Discord>,
    pub(crate) discord: Option<Discord>,
}

/// Whether a window comes before another as the best one.
fn is_better(a: &Discord, b: &Discord) -> bool
    ensures { result ≡ is_lt (best_cmp a.now b.now) }
{
    let by_distance = a.near.dist.0.cmp(&b.near.dist.0);
    by_distance.then(a.start.cmp(&b.start)).is_lt()
}

/// Whether a window comes before another as a discord.
fn is_farther(a: &Discord, b: &Discord) -> bool
    ensures { result ≡ is_lt (discord_cmp a.now b.now) }
{
    let by_distance = b.near.dist.0.cmp(&a.near.dist.0);
    by_distance.then(a.start.cmp(&b.start)).is_lt()
}

/// The better one of a window and of the best one of those that start later.
fn best_of(window: Discord, later: Option<Discord>) -> Discord
    ensures { result ≡ earlier_of best_cmp window later }
{
    match later {
        Some(other) if is_better(&other, &window) => other,
        _ => window,
    }
}

/// The first discord of a window and of the first one of those that start later.
fn discord_of(window: Discord, later: Option<Discord>) -> Discord
    ensures { result ≡ earlier_of discord_cmp window later }
{
    match later {
        Some(other) if is_farther(&other, &window) => other,
        _ => window,
    }
}

impl Extremes {
    /// The same with one window more, which starts earlier.
    fn with(self, start: u64, slot: Slot) -> Extremes
        ensures { result ≡ extremes_with start slot self }
    {
        match slot {
            Some(near) => {
                let window = Discord { start, near };
                Extremes {
                    best: Some(best_of(window, self.best)),
                    discord: Some(discord_of(window, self.discord)),
                }
            }
            None => self,
        }
    }
}

/// Of so many windows, by their slots at one of the lengths.
pub(crate) fn find_extremes(slots: &[Slot], windows: usize, k: usize) -> Extremes
    requires k { k < SPAN }
    requires places { length slots.now ≡ SPAN * windows }
    ensures { result ≡ extremes_of (column_at windows k slots.now) }
{
    let mut found = Extremes {
        best: None,
        discord: None,
    };
    for i in (0..windows).rev() {
        found = found.with(i as u64, slots[SPAN * i + k]);
    }
    found
}
