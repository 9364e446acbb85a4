//! Entries that workers share: for each window the nearest ones that some worker has found so far.

ghost use Rattle.std.specs.Prelude.{◌≡◌, ◌+◌, ◌*◌, ◌<◌, ◌≤◌, length, slice_index_or, IfOk, None};
ghost use Rattle.mp_series.specs.declared.limits.TheConstants.{MAX_SAMPLES};
ghost use Rattle.mp_workers.specs.Entries.{AreEntriesOf, Finds, HasMore, IsWithin, IsWithinColumn, Looks, Lowers};
ghost use Rattle.mp_workers.specs.Entries.{both_told, count_of, entries_of, left_of, nothing_told, right_of};
ghost use Rattle.mp_workers.specs.Entries.{still_told, view_of, whole_of};

use atomic_table::{Join, Play, Split, Table, TableRule};
use mp_nums::{Memory, Sample, Slot};
use mp_series::{MAX_SAMPLES, windows};
use mp_tiles::{NO_WORD, Sides};
use std::alloc::Global;
use std::collections::LinkedList;
use std::marker::Model;

/// The series that entries are of, and the length of a window.
#[derive(Drop)]
pub struct SeriesOfEntries<'a> {
    samples: &'a [Sample],
    m: u32,
}

impl<'a> Model for SeriesOfEntries<'a> {
    ghost use Rattle.mp_workers.specs.Entries.{EntriesState};

    ghost Value = { EntriesState };

    ghost view = { λ series. record { samples = series.samples.now; m = series.m } };
}

/// What a worker knows of the words of entries: both sides of the profile, one behind the other, and places with words
/// that those which stand there are at most. No value of it is made.
pub struct EntriesView {
    pub whole: LinkedList<Slot>,
    pub told: LinkedList<(u64, u64)>,
}

/// What holds of the words of entries between any two steps: none tells a window that comes before the one that stands
/// there in the profile, and each is at most what any worker knows of it.
pub struct WithinRule;

impl<'a> TableRule<(), EntriesView, SeriesOfEntries<'a>> for WithinRule {
    ghost holds = { AreEntriesOf };

    ghost first = { view_of };
}

/// The step that looks at a word.
pub struct Find;

impl Play<(), EntriesView> for Find {
    ghost then = { Finds };
}

/// The step by which a worker looks at a word, and knows what it found.
pub struct Look;

impl Play<(), EntriesView> for Look {
    ghost then = { Looks };
}

/// The step that lowers a word.
pub struct Lower;

impl Play<(), EntriesView> for Lower {
    ghost then = { Lowers };
}

/// The step by which one worker takes in what another one knows.
pub struct BothTold;

impl Join<EntriesView> for BothTold {
    ghost both = { both_told };

    ghost spent = { nothing_told };
}

/// The step by which another worker takes up what one knows.
pub struct AlsoTold;

impl Split<EntriesView> for AlsoTold {
    ghost left = { still_told };

    ghost right = { still_told };
}

/// For each window of a series the nearest ones before it and behind it that some worker has found so far, each in a
/// word. What a worker takes from them is within the profile, whatever the others do.
#[derive(Drop)]
pub(crate) struct Entries<'a> {
    pub(crate) table: Table<(), EntriesView, SeriesOfEntries<'a>, WithinRule, Global>,
}

impl<'a> Model for Entries<'a> {
    ghost use Rattle.mp_workers.specs.Entries.{AreEntries, EntriesAt};

    ghost Value = { EntriesAt };

    ghost view = { λ entries. record { table = entries.table.shared.table_id; series = entries.table.shared.key } };

    ghost invariant = { λ entries. AreEntries entries.table.shared.table_id.words entries.table.shared.key };
}

impl<'a> Entries<'a> {
    /// Entries of the windows of length `m`, of which none is found yet. A window takes 16 bytes.
    pub(crate) fn new(alloc: Global, samples: &'a [Sample], m: u32) -> Result<Entries<'a>, Memory>
        requires least { 1 ≤ m }
        requires few { length samples.now ≤ MAX_SAMPLES }
        ensures { IfOk result (λ entries. entries.series ≡ entries_of samples.now m) }
    {
        let words = vec![in alloc; NO_WORD; 2 * windows(samples.len() as u64, m) as usize]?;
        let series = SeriesOfEntries { samples, m };
        let (table, _seat) = Table::of_words(alloc, words.as_slice(), &series)?;
        Ok(Entries { table })
    }

    /// The number of windows.
    pub(crate) fn len(&self) -> u64
        ensures count { result ≡ count_of self.now.series }
        ensures few { result ≤ MAX_SAMPLES }
    {
        self.table.word_count() as u64 / 2
    }

    /// The word at a place.
    #[inline]
    fn find(&self, place: u64) -> u64
        requires { place < length (whole_of self.now.series) }
        ensures { IsWithin result (slice_index_or (whole_of self.now.series) place None) }
    {
        let (word, _seat) = self.table.shared.load_new_seat::<Find>(place as usize);
        word
    }

    /// Lowers the word at a place to another one, where it is higher.
    #[inline]
    fn lower(&self, place: u64, word: u64)
        requires place { place < length (whole_of self.now.series) }
        requires within { IsWithin word (slice_index_or (whole_of self.now.series) place None) }
    {
        if word == NO_WORD {
            return;
        }
        let at = place as usize;
        let (found, mut seat) = self.table.shared.load_new_seat::<Find>(at);
        if word < found {
            let _before = self.table.shared.fetch_min::<Lower>(&mut seat, at, word);
        }
    }

    /// Takes for the windows from one on and before another the nearest ones before them, where these are nearer than
    /// what stands there. It takes no memory.
    pub(crate) fn take_left(&self, from: u64, to: u64, into: &mut Sides)
        requires size { length into.old.left ≡ count_of self.now.series }
        requires within { IsWithinColumn (left_of self.now.series) into.old.left }
        ensures left { HasMore (left_of self.now.series) into.old.left into.new.left }
        ensures right { into.new.right ≡ into.old.right }
        ensures room { into.new.room ≡ into.old.room }
    {
        for place in from..to.min(self.len()) {
            into.take_left(place, self.find(place));
        }
    }

    /// The same behind them.
    pub(crate) fn take_right(&self, from: u64, to: u64, into: &mut Sides)
        requires size { length into.old.left ≡ count_of self.now.series }
        requires within { IsWithinColumn (right_of self.now.series) into.old.right }
        ensures left { into.new.left ≡ into.old.left }
        ensures right { HasMore (right_of self.now.series) into.old.right into.new.right }
        ensures room { into.new.room ≡ into.old.room }
    {
        let count = self.len();
        for place in from..to.min(count) {
            into.take_right(place, self.find(count + place));
        }
    }

    /// Tells for the windows from one on and before another what was found before them. It takes no memory.
    pub(crate) fn tell_left(&self, from: u64, to: u64, found: &Sides)
        requires size { length found.now.left ≡ count_of self.now.series }
        requires within { IsWithinColumn (left_of self.now.series) found.now.left }
    {
        for place in from..to.min(self.len()) {
            self.lower(place, found.left_word(place));
        }
    }

    /// The same behind them.
    pub(crate) fn tell_right(&self, from: u64, to: u64, found: &Sides)
        requires size { length found.now.left ≡ count_of self.now.series }
        requires within { IsWithinColumn (right_of self.now.series) found.now.right }
    {
        let count = self.len();
        for place in from..to.min(count) {
            self.lower(count + place, found.right_word(place));
        }
    }
}
