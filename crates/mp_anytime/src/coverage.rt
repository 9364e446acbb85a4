//! What is kept of a series of which some diagonals are covered.

ghost use Rattle.std.specs.Prelude.{◌≡◌, ◌+◌, ◌*◌, ◌<◌, ◌≤◌, ◌++◌, ◌∷◌, [], length};
ghost use Rattle.std.specs.Prelude.{All, IfOk, IsOk, OnOk};
ghost use Rattle.std.specs.Prelude.{ℕ, List, false, true, slice_index, take};
ghost use Rattle.mp_defs.specs.Limits.{max_samples};
ghost use Rattle.mp_defs.specs.Series.{series_of};
ghost use Rattle.mp_defs.specs.Window.{excl as zone_of, windows as windows_in};
ghost use Rattle.mp_defs.specs.Profile.{profile};
ghost use Rattle.mp_series.specs.declared.limits.TheConstants.{MIN_WINDOW, MAX_WINDOW};
ghost use Rattle.mp_series.specs.Samples.{number_in, numbers_in};
ghost use Rattle.mp_sums.specs.Ranges.{AreWithin, IsInRange, Reaches, SumsFit};
ghost use Rattle.mp_results.specs.Covering.{is_covered, uncovered};
ghost use Rattle.mp_results.specs.Reversal.{numbers};
ghost use Rattle.mp_partial.specs.Values.{merged_columns};
ghost use Rattle.mp_tiles.specs.Among.{columns_value};
ghost use Rattle.mp_tiles.specs.Scanning.{IsScanned};
ghost use Rattle.mp_anytime.specs.AnyFound.{fits_of, found_of};
ghost use Rattle.mp_anytime.specs.Bounds.{columns_of, kept_sides};
ghost use Rattle.mp_anytime.specs.Kept.{IsDiagonal, IsExtended, IsGrown, IsListed, IsOf, IsWaiting, OnlyReads};
ghost use Rattle.mp_anytime.specs.Kept.{is_last_pair, room_of, without_last};
ghost use Rattle.mp_anytime.specs.Limits.{AreLimits};
ghost use Rattle.mp_anytime.specs.Offers.{IsReady, IsRow};
ghost use Rattle.mp_anytime.specs.Sums.{HavePlaces, LieClose, room_of as sums_room};

use crate::any_found::AnyFound;
use crate::extending::{extend_each, sum_of};
use crate::limits::{GREATEST, find_limits};
use crate::moving::move_on;
use crate::offers::{Row, offer_listed, offer_row};
use crate::sums::{Sums, filled};
use crate::waiting::Waiting;
use mp_nums::{Items, Memory, Sample, Whole};
use mp_partial::{Part, Profile};
use mp_series::{Samples, excl, windows};
use mp_stream::entries_grow;
use mp_sums::{Range, number_of};
use std::alloc::Global;

/// What is kept of the covered diagonals: their profile, and what an appended sample's pairs with them are found by.
#[derive(Debug, Drop)]
pub(crate) struct Coverage {
    /// The profile of the pairs of windows on the covered diagonals.
    pub(crate) profile: Profile,
    /// The covered diagonals, in the order in which they were covered.
    pub(crate) covered: Items<u64>,
    /// Of each covered diagonal the sum of its last pair, from which that of the next one is found.
    pub(crate) sums: Sums,
    /// Of each window, where these are known, from which sum on a later window gives it nothing.
    pub(crate) limits: Items<u64>,
    /// Whether the limits are those of the profile. They are found anew where an append next asks for them.
    pub(crate) are_limits_known: bool,
    /// From which number up to which the samples reach, where a diagonal is covered: it tells how long sums are.
    pub(crate) range: Range,
    /// Which diagonals aren't covered, by their reversals.
    pub(crate) waiting: Waiting,
}

/// How many bits sums have where they are compared in 64.
const SUM_BITS: u32 = 63;

/// From which number up to which the samples reach.
fn whole_range(samples: &mut Samples) -> Range
    ensures range { AreWithin result (numbers_in samples.old.items) }
    ensures read { OnlyReads (2 * length samples.old.items) samples.old samples.new }
{
    let count = samples.len();
    let (numbers, _) = samples.parts(0, 0, count);
    Range::of(numbers)
}

impl Coverage {
    ghost use Rattle.mp_nums.specs.declared.samples.Sample.{Sample};
    ghost use Rattle.mp_anytime.specs.Scanning.{lie_along};

    /// What is kept of a series with so many windows, of which no diagonal is covered.
    pub(crate) fn none(alloc: Global, m: u32, count: u64) -> Result<Coverage, Memory>
        requires { count ≤ max_samples }
        ensures covered { IfOk result (λ coverage. coverage.covered.items ≡ []) }
        ensures is_of { IfOk result (λ coverage. (items : List Sample) → windows_in (length items) m ≡ count
            → IsOf m items coverage) }
    {
        Ok(Coverage {
            profile: Profile::unit(alloc, count)?,
            covered: Items::new(alloc),
            sums: Sums::of(alloc, count)?,
            limits: filled(alloc, GREATEST, count)?,
            are_limits_known: false,
            range: Range::at(Whole::from(0)),
            waiting: Waiting::none_covered(alloc, m, count)?,
        })
    }

    /// Finds the limits anew, where they aren't known.
    fn know_limits(&mut self)
        requires places { length self.old.limits.items ≡ length self.old.profile.right }
        requires known { self.old.are_limits_known ≡ true → AreLimits self.old.profile.right self.old.limits.items }
        ensures limits { AreLimits self.new.profile.right self.new.limits.items }
        ensures profile { self.new.profile ≡ self.old.profile }
        ensures covered { self.new.covered ≡ self.old.covered }
        ensures sums { self.new.sums ≡ self.old.sums }
        ensures range { self.new.range ≡ self.old.range }
        ensures waiting { self.new.waiting ≡ self.old.waiting }
        ensures spare { self.new.limits.spare ≡ self.old.limits.spare }
    {
        if !self.are_limits_known {
            find_limits(self.profile.right(), self.limits.as_mut_slice());
        }
    }

    /// Offers the last window to the windows before it, by the sums of their pairs: of all diagonals, or of the covered
    /// ones alone.
    fn offer_last(&mut self, samples: &Samples, m: u32, last: u64, are_all: bool)
        requires shortest { 1 ≤ m }
        requires row { IsRow m samples.now.items self.old.covered.items self.old.waiting
            self.old.sums.lower.items last }
        requires diagonals { All (IsDiagonal m last) self.old.covered.items }
        requires order { zone_of m + 1 ≤ last }
        requires ready { IsReady last self.old.profile self.old.limits.items }
        ensures scanned { IsScanned (is_last_pair self.old.covered.items last) m (series_of samples.now.items)
            self.old.profile self.new.profile }
        ensures limits { AreLimits self.new.profile.right self.new.limits.items }
        ensures covered { self.new.covered ≡ self.old.covered }
        ensures sums { self.new.sums ≡ self.old.sums }
        ensures range { self.new.range ≡ self.old.range }
        ensures waiting { self.new.waiting ≡ self.old.waiting }
        ensures spare { self.new.limits.spare ≡ self.old.limits.spare }
    {
        let row = Row {
            samples,
            m,
            covered: self.covered.as_slice(),
            waiting: &self.waiting,
            sums: self.sums.lower.as_slice(),
            last: last as usize,
        };
        if are_all {
            let first = excl(m) as usize + 1;
            offer_row(&row, first, &mut self.profile, self.limits.as_mut_slice());
        } else {
            offer_listed(&row, &mut self.profile, self.limits.as_mut_slice());
        }
    }

    /// Whether the pairs of the last window are so few for each covered diagonal that they are best taken all together.
    fn are_most_covered(&self, last: u64) -> bool
        ensures { result ≡ true → last ≤ 2 * length self.now.covered.items }
    {
        last / 2 < self.covered.as_slice().len() as u64
    }

    /// Takes the pairs of the covered diagonals with the last window, where the samples lie close: by all of its pairs
    /// where that reads no more.
    fn extend_close(&mut self, samples: &mut Samples, m: u32, last: u64)
        requires shortest { MIN_WINDOW ≤ m }
        requires longest { m ≤ MAX_WINDOW }
        requires some { 1 ≤ length self.old.covered.items }
        requires few { length samples.old.items ≤ max_samples }
        requires waiting { IsWaiting m samples.old.items last self.old }
        requires close { LieClose m (numbers_in samples.old.items) }
        ensures extended { IsExtended m samples.old.items last self.old self.new }
        ensures room { room_of self.new ≡ room_of self.old }
        ensures read { OnlyReads (4 * length self.old.covered.items) samples.old samples.new }
    {
        self.know_limits();
        let are_most = self.are_most_covered(last);
        let covered = self.covered.as_slice();
        move_on(samples, m, last, covered, are_most, &mut self.sums);
        self.offer_last(samples, m, last, are_most);
        self.are_limits_known = true;
    }

    /// Takes the pairs of the covered diagonals with the last window, one by one.
    fn extend_covered(&mut self, samples: &mut Samples, m: u32, last: u64)
        requires shortest { MIN_WINDOW ≤ m }
        requires longest { m ≤ MAX_WINDOW }
        requires few { length samples.old.items ≤ max_samples }
        requires waiting { IsWaiting m samples.old.items last self.old }
        ensures extended { IsExtended m samples.old.items last self.old self.new }
        ensures room { room_of self.new ≡ room_of self.old }
        ensures read { OnlyReads (4 * length self.old.covered.items) samples.old samples.new }
    {
        self.are_limits_known = false;
        extend_each(
            samples,
            m,
            last,
            self.covered.as_slice(),
            &mut self.sums,
            &mut self.profile,
        );
    }

    /// Whether there are covered diagonals, and 64 bits hold the sums of their pairs.
    fn are_close(&self, m: u32) -> bool
        ensures some { result ≡ true → 1 ≤ length self.now.covered.items }
        ensures fits { result ≡ true → SumsFit m 63 self.now.range }
    {
        !self.covered.as_slice().is_empty() & self.range.sums_fit(m, SUM_BITS)
    }

    /// Takes the pairs of the covered diagonals with the last window.
    fn extend(&mut self, samples: &mut Samples, m: u32, last: u64)
        requires shortest { MIN_WINDOW ≤ m }
        requires longest { m ≤ MAX_WINDOW }
        requires few { length samples.old.items ≤ max_samples }
        requires waiting { IsWaiting m samples.old.items last self.old }
        ensures extended { IsExtended m samples.old.items last self.old self.new }
        ensures room { room_of self.new ≡ room_of self.old }
        ensures read { OnlyReads (4 * length self.old.covered.items) samples.old samples.new }
    {
        if self.are_close(m) {
            self.extend_close(samples, m, last);
        } else {
            self.extend_covered(samples, m, last);
        }
    }

    /// Adds a window, of which no pair is taken.
    fn grow(&mut self, m: u32)
        requires room { 0 < room_of self.old }
        requires places { HavePlaces (length self.old.profile.left) self.old.sums }
        requires few { length self.old.profile.left < numbers }
        ensures grown { IsGrown m self.old self.new }
        ensures room { room_of self.old ≤ room_of self.new + 1 }
    {
        let last = self.profile.len();
        self.profile.grow();
        self.sums.grow();
        self.limits.push(GREATEST).unwrap();
        self.waiting.add_window(m, last);
    }

    /// Adds the window that ends with the last sample, and with it a pair to each covered diagonal.
    fn add_window(&mut self, samples: &mut Samples, m: u32)
        requires shortest { MIN_WINDOW ≤ m }
        requires longest { m ≤ MAX_WINDOW }
        requires long { m ≤ length samples.old.items }
        requires few { length samples.old.items ≤ max_samples }
        requires room { 0 < room_of self.old }
        requires is_of { IsOf m (without_last samples.old.items) self.old }
        requires range { 0 < length self.old.covered.items
            → AreWithin self.old.range (numbers_in samples.old.items) }
        ensures is_of { IsOf m samples.old.items self.new }
        ensures covered { self.new.covered.items ≡ self.old.covered.items }
        ensures room { room_of self.old ≤ room_of self.new + 1 }
        ensures read { OnlyReads (4 * length self.old.covered.items) samples.old samples.new }
    {
        // the entries of the windows that were there are those of the series without its last sample
        entries_grow();
        let last = self.profile.len();
        self.grow(m);
        self.extend(samples, m, last);
    }

    /// Has the range reach to a sample.
    fn widen(&mut self, sample: Sample)
        ensures range { Reaches self.new.range self.old.range }
        ensures sample { IsInRange self.new.range (number_in sample) }
        ensures is_of { (m : ℕ) (items : List Sample) → IsOf m items self.old → IsOf m items self.new }
        ensures covered { self.new.covered ≡ self.old.covered }
        ensures room { room_of self.new ≡ room_of self.old }
    {
        self.range = self.range.around(number_of(sample));
    }

    /// Adds what the last sample brings.
    pub(crate) fn add_last(&mut self, samples: &mut Samples, m: u32, sample: Sample)
        requires shortest { MIN_WINDOW ≤ m }
        requires longest { m ≤ MAX_WINDOW }
        requires some { 1 ≤ length samples.old.items }
        requires few { length samples.old.items ≤ max_samples }
        requires room { 0 < room_of self.old }
        requires last { samples.old.items ≡ without_last samples.old.items ++ sample ∷ [] }
        requires is_of { IsOf m (without_last samples.old.items) self.old }
        ensures is_of { IsOf m samples.old.items self.new }
        ensures covered { self.new.covered.items ≡ self.old.covered.items }
        ensures room { room_of self.old ≤ room_of self.new + 1 }
        ensures read { OnlyReads (4 * length self.old.covered.items) samples.old samples.new }
    {
        self.widen(sample);
        let is_long = u64::from(m) <= samples.len();
        if is_long {
            self.add_window(samples, m);
        }
    }

    /// Makes room for `k` more windows.
    pub(crate) fn reserve(&mut self, k: u64) -> Result<(), Memory>
        ensures ok { OnOk result (k ≤ room_of self.new) }
        ensures is_of { (m : ℕ) (items : List Sample) → IsOf m items self.old → IsOf m items self.new }
        ensures covered { self.new.covered.items ≡ self.old.covered.items }
        ensures room { room_of self.old ≤ room_of self.new }
        ensures succeeds { k ≤ room_of self.old → IsOk result }
    {
        self.profile.reserve(k)?;
        self.limits.reserve(k)?;
        self.sums.reserve(k)
    }

    /// For how many more windows there is room.
    pub(crate) fn room(&self) -> u64
        ensures { result ≡ room_of self.now }
    {
        self.profile
            .spare()
            .min(self.limits.spare().min(self.sums.room()))
    }

    /// Makes room for `k` more covered diagonals.
    pub(crate) fn reserve_covered(&mut self, k: u64) -> Result<(), Memory>
        ensures covered_room { OnOk result (k ≤ self.new.covered.spare) }
        ensures is_of { (m : ℕ) (items : List Sample) → IsOf m items self.old → IsOf m items self.new }
        ensures covered { self.new.covered.items ≡ self.old.covered.items }
        ensures room { room_of self.new ≡ room_of self.old }
    {
        self.covered.reserve(k)
    }

    /// Covers a diagonal, of which the profile has the pairs. The samples may lie close.
    fn cover_one(&mut self, samples: &mut Samples, m: u32, diagonal: u64, are_close: bool)
        requires shortest { MIN_WINDOW ≤ m }
        requires longest { m ≤ MAX_WINDOW }
        requires few { length samples.old.items ≤ max_samples }
        requires diagonal { IsDiagonal m (windows_in (length samples.old.items) m) diagonal }
        requires covered_room { 0 < self.old.covered.spare }
        requires fresh { is_covered self.old.covered.items diagonal ≡ false }
        requires range { AreWithin self.old.range (numbers_in samples.old.items) }
        requires close { are_close ≡ true → SumsFit m 63 self.old.range }
        requires listed { IsListed m samples.old.items self.old }
        ensures listed { IsListed m samples.old.items self.new }
        ensures covered { self.new.covered.items ≡ self.old.covered.items ++ diagonal ∷ [] }
        ensures covered_spare { self.old.covered.spare ≤ self.new.covered.spare + 1 }
        ensures sums_room { sums_room self.new.sums ≡ sums_room self.old.sums }
        ensures profile { self.new.profile ≡ self.old.profile }
        ensures limits { self.new.limits ≡ self.old.limits }
        ensures known { self.new.are_limits_known ≡ self.old.are_limits_known }
        ensures range { self.new.range ≡ self.old.range }
        ensures read { OnlyReads (2 * m) samples.old samples.new }
    {
        let last = windows(samples.len(), m) - 1;
        let sum = sum_of(samples, m, last - diagonal, last, are_close);
        self.covered.push(diagonal).unwrap();
        self.sums.set(diagonal as usize, sum);
        self.waiting.cover(diagonal);
    }

    /// Covers the diagonals, of whose pairs, and of those that were covered before, this was found.
    pub(crate) fn cover(&mut self, samples: &mut Samples, m: u32, chosen: &[u64], found: &AnyFound)
        requires shortest { MIN_WINDOW ≤ m }
        requires longest { m ≤ MAX_WINDOW }
        requires few { length samples.old.items ≤ max_samples }
        requires diagonals { All (IsDiagonal m (windows_in (length samples.old.items) m)) chosen.now }
        requires covered_room { length chosen.now ≤ self.old.covered.spare }
        requires fresh { (k : ℕ) → k < length chosen.now
            → is_covered (self.old.covered.items ++ take k chosen.now) (slice_index chosen.now k) ≡ false }
        requires is_of { IsOf m samples.old.items self.old }
        requires left { length (uncovered m (windows_in (length samples.old.items) m)
            (self.old.covered.items ++ chosen.now)) + length chosen.now
            ≡ length (uncovered m (windows_in (length samples.old.items) m) self.old.covered.items) }
        requires found { columns_of (found_of found.now)
            ≡ merged_columns (columns_of (kept_sides (fits_of found.now) self.old.profile))
            (columns_value (profile (lie_along chosen.now) m (series_of samples.old.items))) }
        ensures is_of { IsOf m samples.old.items self.new }
        ensures covered { self.new.covered.items ≡ self.old.covered.items ++ chosen.now }
        ensures room { room_of self.new ≡ room_of self.old }
        ensures read { OnlyReads (2 * m * length chosen.now + 2 * length samples.old.items) samples.old samples.new }
    {
        let _windows = self.profile.len();
        found.put_into(&mut self.profile);
        self.are_limits_known = false;
        self.range = whole_range(samples);
        let are_close = self.range.sums_fit(m, SUM_BITS);
        for diagonal in chosen {
            self.cover_one(samples, m, *diagonal, are_close);
        }
    }
}
