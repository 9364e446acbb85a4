//! What a stream keeps of its windows.

ghost use Rattle.std.specs.Prelude.{◌≡◌, ℕ, ◌+◌, ◌-◌, ◌*◌, ◌^◌, ◌<◌, ◌≤◌, ◌++◌, ◌∷◌, [], length, true, false};
ghost use Rattle.std.specs.Prelude.{slice_index, slice_index_or, min, IfOk, IsOk, IsSome, OnOk, None};
ghost use Rattle.mp_defs.specs.Series.{series_of};
ghost use Rattle.mp_defs.specs.Window.{is_free, windows};
ghost use Rattle.mp_defs.specs.Profile.{matrix_profile};
ghost use Rattle.mp_series.specs.declared.limits.TheConstants.{MIN_WINDOW, MAX_WINDOW};
ghost use Rattle.mp_series.specs.Samples.{number_in, numbers_in};
ghost use Rattle.mp_stream.specs.Blocks.{AreKnown, StayKnown, numbered};
ghost use Rattle.mp_sums.specs.Ranges.{AreWithin, Reaches, SumsFit};
ghost use Rattle.mp_stream.specs.Reads.{OnlyReads};
ghost use Rattle.mp_stream.specs.Rows.{HavePlaces, IsRow, last_place, offered_before};

use crate::entries::Entries;
use crate::limits::{GREATEST, SUM_BITS, coarsen, limits_of};
use crate::narrow::Narrow;
use crate::nearest::Nearest;
use crate::offers::{offer_best, offer_row};
use crate::queues::Queue;
use crate::rows::{last_row, next_narrow_row, next_wide_row};
use crate::wide::{Wide, widen_sums};
use mp_nums::{Memory, Sample, Whole};
use mp_partial::Profile;
use mp_series::{Samples, excl, windows};
use mp_sums::{Range, number_of};
use std::alloc::Global;

/// The entries of a series, whether each window is free, and the row of the last window: in 64 bits where these hold
/// every distance, and else in 128. Both kinds of rows have a place for each window, so that one can follow the other
/// without memory.
#[derive(Debug, Drop)]
pub(crate) struct GrowingProfile {
    pub(crate) entries: Entries,
    pub(crate) free: Queue<bool>,
    pub(crate) range: Range,
    pub(crate) is_narrow: bool,
    pub(crate) narrow: Narrow,
    pub(crate) wide: Wide,
}

/// Whether each of so many windows is free.
fn free_windows(alloc: Global, samples: &Samples, m: u32, count: u64) -> Result<Queue<bool>, Memory>
    requires least { 1 ≤ m }
    requires count { count ≡ windows (length samples.now.items) m }
    ensures places { IfOk result (λ free. length free.items ≡ count) }
    ensures free { IfOk result (λ free. (i : ℕ) → i < count
        → slice_index_or free.items i false ≡ is_free m (series_of samples.now.items) i) }
{
    let mut free = Queue::new(alloc);
    free.reserve(count)?;
    for i in 0..count {
        free.push(samples.free(i, m))?;
    }
    Ok(free)
}

/// Room for the row of so many windows.
fn empty_row(alloc: Global, count: u64) -> Result<Queue<u128>, Memory>
    ensures { IfOk result (λ row. length row.items ≡ count) }
{
    Ok(Queue::from(vec![in alloc; 0; count as usize]?))
}

/// The row of the last of so many windows, in 128 bits.
fn wide_row(alloc: Global, samples: &mut Samples, m: u32, count: u64) -> Result<Wide, Memory>
    requires least { 1 ≤ m }
    requires width { m ≤ MAX_WINDOW }
    requires count { count ≡ windows (length samples.old.items) m }
    ensures places { IfOk result (λ wide. HavePlaces count wide.sums.items wide.next.items) }
    ensures row { IfOk result (λ wide. IsRow (numbers_in samples.old.items) m (count - 1) wide.sums.items) }
    ensures items { samples.new.items ≡ samples.old.items }
    ensures reads_rise { samples.old.reads ≤ samples.new.reads }
    ensures reads { samples.new.reads ≤ samples.old.reads + length samples.old.items * (2 * m) }
{
    let sums = last_row(alloc, samples, m, count)?;
    let next = empty_row(alloc, count)?;
    Ok(Wide { sums, next })
}

/// The row of the last of so many windows, in 64 bits and in 128.
fn both_rows(
    alloc: Global,
    samples: &mut Samples,
    m: u32,
    count: u64,
) -> Result<(Narrow, Wide), Memory>
    requires least { 1 ≤ m }
    requires width { m ≤ MAX_WINDOW }
    requires count { count ≡ windows (length samples.old.items) m }
    ensures wide { IfOk result (λ rows. HavePlaces count rows.1.sums.items rows.1.next.items) }
    ensures narrow { IfOk result (λ rows. HavePlaces count rows.0.sums.items rows.0.next.items) }
    ensures row { IfOk result (λ rows. IsRow (numbers_in samples.old.items) m (count - 1) rows.1.sums.items) }
    ensures narrow_row { IfOk result (λ rows. (i : ℕ) → i < length rows.1.sums.items
        → slice_index rows.0.sums.items i ≡ min (slice_index rows.1.sums.items i) (2 ^ 64 - 1)) }
    ensures items { samples.new.items ≡ samples.old.items }
    ensures reads_rise { samples.old.reads ≤ samples.new.reads }
    ensures reads { samples.new.reads ≤ samples.old.reads + length samples.old.items * (2 * m) }
{
    let wide = wide_row(alloc, samples, m, count)?;
    let narrow = Narrow::of(alloc, wide.sums.as_slice())?;
    Ok((narrow, wide))
}

/// From which number up to which the samples reach, 0 alone where there are none.
fn whole_range(samples: &mut Samples) -> Range
    ensures range { AreWithin result (numbers_in samples.old.items) }
    ensures none { length samples.old.items ≡ 0 → result.greatest ≡ result.least }
    ensures items { samples.new.items ≡ samples.old.items }
    ensures reads_rise { samples.old.reads ≤ samples.new.reads }
    ensures reads { samples.new.reads ≤ samples.old.reads + 2 * length samples.old.items }
{
    let count = samples.len();
    if count == 0 {
        return Range::at(Whole::from(0));
    }
    let (numbers, _) = samples.parts(0, 0, count);
    Range::of(numbers)
}

/// The range, with a sample's number. That of the first sample is its number alone.
pub(crate) fn range_with(range: Range, sample: Sample, is_first: bool) -> Range
    ensures within { AreWithin result (number_in sample ∷ []) }
    ensures first { is_first ≡ true → result.greatest ≡ result.least }
    ensures wider { is_first ≡ false → Reaches result range }
{
    let number = number_of(sample);
    if is_first {
        Range::at(number)
    } else {
        range.around(number)
    }
}

/// How many windows the window at `last` is offered to on the right: those before its exclusion zone, where it is free.
fn count_offered(is_free: bool, m: u32, last: usize) -> usize
    requires { 1 ≤ m }
    ensures count { result ≡ offered_before is_free m last }
    ensures within { result ≤ last }
{
    if is_free {
        last.saturating_sub(excl(m) as usize)
    } else {
        0
    }
}

impl GrowingProfile {
    ghost use Rattle.std.specs.Prelude.{List};
    ghost use Rattle.mp_nums.specs.declared.samples.Sample.{Sample};
    ghost use Rattle.mp_partial.specs.Values.{Column};
    ghost use Rattle.mp_stream.specs.Streams.{HasRowOf, HaveRows, IsDropped, IsGrown, IsOf, IsOffered, IsProfile};
    ghost use Rattle.mp_stream.specs.Streams.{IsWaiting, room_of, without_last};

    /// What is kept of the samples, whose profile this is. No block is marked.
    pub(crate) fn of(
        alloc: Global,
        samples: &mut Samples,
        m: u32,
        profile: Profile,
    ) -> Result<GrowingProfile, Memory>
        requires shortest { MIN_WINDOW ≤ m }
        requires longest { m ≤ MAX_WINDOW }
        requires profile { IsProfile m samples.old.items profile.left profile.right }
        ensures is_of { IfOk result (IsOf m samples.old.items) }
        ensures unmarked { IfOk result (λ growing. (block : ℕ)
            → slice_index_or growing.entries.profile.changed block false ≡ false) }
        ensures items { samples.new.items ≡ samples.old.items }
        ensures reads_rise { samples.old.reads ≤ samples.new.reads }
        ensures reads { samples.new.reads ≤ samples.old.reads + length samples.old.items * (2 * (m + 1)) }
    {
        let range = whole_range(samples);
        let is_narrow = range.sums_fit(m, SUM_BITS);
        let limits = limits_of(alloc, profile.right(), is_narrow)?;
        let profile = Nearest::of(alloc, profile)?;
        let count = windows(samples.len(), m);
        let free = free_windows(alloc, samples, m, count)?;
        let (narrow, wide) = both_rows(alloc, samples, m, count)?;
        Ok(GrowingProfile {
            entries: Entries { profile, limits },
            free,
            range,
            is_narrow,
            narrow,
            wide,
        })
    }

    /// Makes room for `k` more windows.
    pub(crate) fn reserve(&mut self, k: u64) -> Result<(), Memory>
        ensures ok { OnOk result (k ≤ room_of self.new) }
        ensures is_of { (m : ℕ) (items : List Sample) → IsOf m items self.old → IsOf m items self.new }
        ensures all { self.new.entries.profile.all ≡ self.old.entries.profile.all }
        ensures changed { self.new.entries.profile.changed ≡ self.old.entries.profile.changed }
        ensures room { room_of self.old ≤ room_of self.new }
        ensures succeeds { k ≤ room_of self.old → IsOk result }
    {
        self.entries.profile.reserve(k)?;
        self.free.reserve(k)?;
        self.entries.limits.reserve(k)?;
        self.narrow.reserve(k)?;
        self.wide.reserve(k)
    }

    /// For how many more windows there is room.
    pub(crate) fn room(&self) -> u64
        ensures { result ≡ room_of self.now }
    {
        let of_rows = self.narrow.room().min(self.wide.room());
        let of_lists = self
            .free
            .spare()
            .min(self.entries.limits.spare().min(of_rows));
        self.entries.profile.spare().min(of_lists)
    }

    /// Clears the marks of all blocks of windows.
    pub(crate) fn clear_changed(&mut self)
        requires { self.old.entries.profile.first ≡ None }
        ensures is_of { (m : ℕ) (items : List Sample) → IsOf m items self.old → IsOf m items self.new }
        ensures room { room_of self.new ≡ room_of self.old }
        ensures none { (block : ℕ) → slice_index_or self.new.entries.profile.changed block false ≡ false }
    {
        self.entries.profile.clear();
    }

    /// Adds a window without distances.
    pub(crate) fn grow(&mut self, is_free: bool)
        requires { 0 < room_of self.old }
        ensures grown { IsGrown is_free self.old self.new }
        ensures room { room_of self.old ≤ room_of self.new + 1 }
        ensures known { StayKnown self.old.entries.profile self.new.entries.profile }
    {
        self.entries.profile.grow();
        self.free.push(is_free).unwrap();
        self.entries.limits.push(GREATEST).unwrap();
        self.narrow.grow();
        self.wide.grow();
    }

    /// Drops the first window, where the nearest windows are those of the last windows. Nothing else changes.
    pub(crate) fn drop_first(&mut self)
        requires some { 0 < length self.old.free.items }
        requires rows { HaveRows (length self.old.free.items) self.old }
        requires limits { length self.old.entries.limits.items ≡ length self.old.free.items }
        requires right { length self.old.entries.profile.right ≡ length self.old.free.items }
        requires last { IsSome self.old.entries.profile.first }
        requires number { numbered self.old.entries.profile.first 1 < 2 ^ 64 }
        ensures dropped { IsDropped self.old self.new }
        ensures room { room_of self.new ≡ room_of self.old + 1 }
    {
        self.entries.profile.drop_first();
        self.free.drop_first();
        self.entries.limits.drop_first();
        self.narrow.drop_first();
        self.wide.drop_first();
    }

    /// Takes a range that reaches as far as the samples. Where sums of 64 bits don't hold it, the row goes on in 128.
    pub(crate) fn cover(&mut self, m: u32, range: Range)
        requires rows { HaveRows (length self.old.free.items) self.old }
        requires limits { length self.old.entries.limits.items ≡ length self.old.entries.profile.right }
        ensures row { (items : List Sample) → HasRowOf m items self.old → AreWithin range (numbers_in items)
            → HasRowOf m items self.new }
        ensures bits { SumsFit m 63 range → self.new.is_narrow ≡ self.old.is_narrow }
        ensures range { self.new.range ≡ range }
        ensures room { room_of self.new ≡ room_of self.old }
        ensures profile { self.new.entries.profile ≡ self.old.entries.profile }
    {
        if self.is_narrow && !range.sums_fit(m, SUM_BITS) {
            widen_sums(self.narrow.sums.as_slice(), self.wide.sums.as_mut_slice());
            coarsen(
                self.entries.profile.right(),
                self.entries.limits.as_mut_slice(),
            );
            self.is_narrow = false;
        }
        self.range = range;
    }

    /// Makes the row of the last window in 64 bits from that of the window before it, and offers the last window to the
    /// free windows outside its exclusion zone, where it is free, and the nearest of these to the last window.
    fn append_narrow(&mut self, numbers: &[Whole], m: u32, is_free: bool)
        requires waiting { IsWaiting m numbers.now (last_place m numbers.now) self.old }
        requires narrow { self.old.is_narrow ≡ true }
        ensures offered { IsOffered m numbers.now (last_place m numbers.now) is_free self.old self.new }
        ensures room { room_of self.new ≡ room_of self.old }
        ensures known { StayKnown self.old.entries.profile self.new.entries.profile }
    {
        let last = self.entries.profile.len() as usize - 1;
        let end = count_offered(is_free, m, last);
        let best = next_narrow_row(
            numbers,
            m,
            &mut self.narrow,
            self.free.as_slice(),
            end,
            &mut self.entries,
        );
        offer_best(&mut self.entries.profile, last, best);
    }

    /// The same in 128 bits.
    fn append_wide(&mut self, numbers: &[Whole], m: u32, is_free: bool)
        requires waiting { IsWaiting m numbers.now (last_place m numbers.now) self.old }
        requires wide { self.old.is_narrow ≡ false }
        ensures offered { IsOffered m numbers.now (last_place m numbers.now) is_free self.old self.new }
        ensures room { room_of self.new ≡ room_of self.old }
        ensures known { StayKnown self.old.entries.profile self.new.entries.profile }
    {
        let is_coarse = next_wide_row(numbers, m, &self.range, &mut self.wide);
        let last = self.entries.profile.len() as usize - 1;
        let end = count_offered(is_free, m, last);
        let sums = self.wide.sums.as_slice();
        let best = offer_row(
            sums,
            self.free.as_slice(),
            end,
            is_coarse,
            &mut self.entries,
        );
        offer_best(&mut self.entries.profile, last, best);
    }

    /// The same in the bits of its row.
    pub(crate) fn append_row(&mut self, numbers: &[Whole], m: u32, is_free: bool)
        requires { IsWaiting m numbers.now (last_place m numbers.now) self.old }
        ensures offered { IsOffered m numbers.now (last_place m numbers.now) is_free self.old self.new }
        ensures room { room_of self.new ≡ room_of self.old }
        ensures known { StayKnown self.old.entries.profile self.new.entries.profile }
    {
        if self.is_narrow {
            self.append_narrow(numbers, m, is_free);
        } else {
            self.append_wide(numbers, m, is_free);
        }
    }

    /// Adds the window that ends with the last sample.
    fn append_window(&mut self, samples: &mut Samples, m: u32)
        requires shortest { MIN_WINDOW ≤ m }
        requires longest { m ≤ MAX_WINDOW }
        requires long { m ≤ length samples.old.items }
        requires room { 0 < room_of self.old }
        requires is_of { IsOf m (without_last samples.old.items) self.old }
        requires range { AreWithin self.old.range (numbers_in samples.old.items) }
        ensures is_of { IsOf m samples.old.items self.new }
        ensures room { room_of self.old ≤ room_of self.new + 1 }
        ensures known { StayKnown self.old.entries.profile self.new.entries.profile }
        ensures read { OnlyReads (2 * (windows (length samples.old.items) m + m)) samples.old samples.new }
    {
        let last = self.entries.profile.len();
        let is_free = samples.free(last, m);
        let count = samples.len();
        self.grow(is_free);
        let (numbers, _) = samples.parts(0, 0, count);
        self.append_row(numbers, m, is_free);
    }

    /// Adds what the last sample brings.
    fn add_last(&mut self, samples: &mut Samples, m: u32, sample: Sample)
        requires shortest { MIN_WINDOW ≤ m }
        requires longest { m ≤ MAX_WINDOW }
        requires room { 0 < room_of self.old }
        requires last { samples.old.items ≡ without_last samples.old.items ++ sample ∷ [] }
        requires is_of { IsOf m (without_last samples.old.items) self.old }
        ensures is_of { IsOf m samples.old.items self.new }
        ensures room { room_of self.old ≤ room_of self.new + 1 }
        ensures known { StayKnown self.old.entries.profile self.new.entries.profile }
        ensures read { OnlyReads (2 * (windows (length samples.old.items) m + m)) samples.old samples.new }
    {
        let range = range_with(self.range, sample, samples.len() == 1);
        self.cover(m, range);
        if u64::from(m) <= samples.len() {
            self.append_window(samples, m);
        }
    }

    /// Adds what the last sample brings. The blocks in which a window has a nearer one now are marked.
    pub(crate) fn append(&mut self, samples: &mut Samples, m: u32, sample: Sample)
        requires shortest { MIN_WINDOW ≤ m }
        requires longest { m ≤ MAX_WINDOW }
        requires room { 0 < room_of self.old }
        requires last { samples.old.items ≡ without_last samples.old.items ++ sample ∷ [] }
        requires is_of { IsOf m (without_last samples.old.items) self.old }
        ensures is_of { IsOf m samples.old.items self.new }
        ensures room { room_of self.old ≤ room_of self.new + 1 }
        ensures known { (known : Column) →
            AreKnown known (matrix_profile m (series_of (without_last samples.old.items))).all
            self.old.entries.profile.changed
            → AreKnown known (matrix_profile m (series_of samples.old.items)).all self.new.entries.profile.changed }
        ensures read { OnlyReads (2 * (windows (length samples.old.items) m + m)) samples.old samples.new }
    {
        let _before = self.entries.profile.inner();
        self.add_last(samples, m, sample);
        let _after = self.entries.profile.inner();
    }
}
