//! What a store keeps of the windows that lie in the last samples.

ghost use Rattle.std.specs.Prelude.{◌≡◌, ◌+◌, ◌*◌, ◌<◌, ◌≤◌, ◌^◌, ◌++◌, ◌∷◌, [], drop, length, IfOk, Some};
ghost use Rattle.mp_defs.specs.Window.{windows};
ghost use Rattle.mp_series.specs.declared.limits.TheConstants.{MIN_WINDOW, MAX_WINDOW};
ghost use Rattle.mp_series.specs.Samples.{numbers_in};
ghost use Rattle.mp_sums.specs.Ranges.{AreWithin};
ghost use Rattle.mp_stream.specs.KeptProfiles.{IsAdded, IsKept, IsOfLast, OnlyRingReads, leaving};
ghost use Rattle.mp_stream.specs.Streams.{room_of, without_last};

use crate::entries::Entries;
use crate::narrow::Narrow;
use crate::nearest::Nearest;
use crate::profiles::{GrowingProfile, range_with};
use crate::queues::Queue;
use crate::wide::Wide;
use mp_nums::{Memory, Sample, Whole};
use mp_series::Ring;
use mp_sums::Range;
use std::alloc::Global;

/// No items, with room for so many.
fn empty<T: Drop>(alloc: Global, places: u64) -> Result<Queue<T>, Memory>
    ensures items { IfOk result (λ queue. queue.items ≡ []) }
    ensures room { IfOk result (λ queue. places ≤ queue.spare) }
{
    let mut queue = Queue::new(alloc);
    queue.reserve(places)?;
    Ok(queue)
}

/// The nearest windows of no windows, with room for so many.
fn no_nearest(alloc: Global, places: u64) -> Result<Nearest, Memory>
    ensures first { IfOk result (λ nearest. nearest.first ≡ Some 0) }
    ensures left { IfOk result (λ nearest. nearest.left ≡ []) }
    ensures right { IfOk result (λ nearest. nearest.right ≡ []) }
    ensures room { IfOk result (λ nearest. places ≤ nearest.spare) }
{
    let mut nearest = Nearest::of_last(alloc);
    nearest.reserve(places)?;
    Ok(nearest)
}

/// What is kept of no windows, with room for so many. The last ones of a series will be kept.
pub(crate) fn no_windows(alloc: Global, m: u32, places: u64) -> Result<GrowingProfile, Memory>
    requires { MIN_WINDOW ≤ m }
    ensures is_of { IfOk result (IsOfLast m [] 0) }
    ensures room { IfOk result (λ growing. places ≤ room_of growing) }
{
    Ok(GrowingProfile {
        entries: Entries {
            profile: no_nearest(alloc, places)?,
            limits: empty(alloc, places)?,
        },
        free: empty(alloc, places)?,
        range: Range::at(Whole::from(0)),
        is_narrow: true,
        narrow: Narrow {
            sums: empty(alloc, places)?,
            next: empty(alloc, places)?,
        },
        wide: Wide {
            sums: empty(alloc, places)?,
            next: empty(alloc, places)?,
        },
    })
}

/// Drops the first window where so many samples are held as are kept: the next sample drops the first one.
pub(crate) fn make_room(growing: &mut GrowingProfile, ring: &Ring, m: u32, keep: u64)
    requires { IsKept m keep ring.now growing.old }
    ensures is_of { IsOfLast m (drop (leaving keep ring.now.items) ring.now.items)
        (ring.now.dropped + leaving keep ring.now.items) growing.new }
    ensures left { growing.new.entries.profile.left
        ≡ drop (leaving keep ring.now.items) growing.old.entries.profile.left }
    ensures right { growing.new.entries.profile.right
        ≡ drop (leaving keep ring.now.items) growing.old.entries.profile.right }
    ensures room { windows keep m
        ≤ windows (length (drop (leaving keep ring.now.items) ring.now.items)) m + room_of growing.new }
{
    if ring.len() == keep {
        growing.drop_first();
    }
}

/// Adds the window that ends with the last held sample.
fn add_window(growing: &mut GrowingProfile, ring: &mut Ring, m: u32)
    requires shortest { MIN_WINDOW ≤ m }
    requires longest { m ≤ MAX_WINDOW }
    requires long { m ≤ length ring.old.items }
    requires room { 0 < room_of growing.old }
    requires few { length ring.old.items + ring.old.dropped < 2 ^ 63 }
    requires is_of { IsOfLast m (without_last ring.old.items) ring.old.dropped growing.old }
    requires range { AreWithin growing.old.range (numbers_in ring.old.items) }
    ensures is_of { IsOfLast m ring.old.items ring.old.dropped growing.new }
    ensures added { IsAdded m ring.old.items growing.old growing.new }
    ensures room { room_of growing.old ≤ room_of growing.new + 1 }
    ensures read { OnlyRingReads (2 * length ring.old.items) ring.old ring.new }
{
    let last = growing.entries.profile.len();
    let is_free = ring.free(last, m);
    let count = ring.len();
    growing.grow(is_free);
    let (numbers, _) = ring.parts(0, 0, count);
    growing.append_row(numbers, m, is_free);
}

/// Adds what the last held sample brings.
pub(crate) fn add_sample(growing: &mut GrowingProfile, ring: &mut Ring, m: u32, sample: Sample)
    requires shortest { MIN_WINDOW ≤ m }
    requires longest { m ≤ MAX_WINDOW }
    requires room { 0 < room_of growing.old }
    requires few { length ring.old.items + ring.old.dropped < 2 ^ 63 }
    requires last { ring.old.items ≡ without_last ring.old.items ++ sample ∷ [] }
    requires is_of { IsOfLast m (without_last ring.old.items) ring.old.dropped growing.old }
    ensures is_of { IsOfLast m ring.old.items ring.old.dropped growing.new }
    ensures added { m ≤ length ring.old.items → IsAdded m ring.old.items growing.old growing.new }
    ensures room { room_of growing.old + windows (length (without_last ring.old.items)) m
        ≤ room_of growing.new + windows (length ring.old.items) m }
    ensures read { OnlyRingReads (2 * length ring.old.items) ring.old ring.new }
{
    let range = range_with(growing.range, sample, ring.len() == 1);
    growing.cover(m, range);
    if u64::from(m) <= ring.len() {
        add_window(growing, ring, m);
    }
}
