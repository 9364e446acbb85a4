//! Ranks that workers share: for each window the nearest ones that some worker has found so far.

ghost use Rattle.std.specs.Prelude.{◌≡◌, ◌+◌, ◌*◌, ◌<◌, ◌≤◌, List, [], length, slice_index_or, IfOk};
ghost use Rattle.mp_nums.specs.declared.nearest.Near.{Near};
ghost use Rattle.mp_series.specs.declared.limits.TheConstants.{MAX_SAMPLES};
ghost use Rattle.mp_tiles.specs.Compact.{slot_of_word};
ghost use Rattle.mp_topk.specs.Sharing.{AreEntriesOf, Finds, GivesNone, HasMore, IsWithin, Lowers};
ghost use Rattle.mp_topk.specs.Sharing.{count_of, entries_of, view_of, whole_of};

use crate::compact_ranks::CompactRanks;
use crate::ranks::MAX_RANKS;
use atomic_table::{Play, Table, TableRule};
use mp_nums::{Memory, Near, Sample};
use mp_series::{MAX_SAMPLES, windows};
use mp_tiles::NO_WORD;
use std::alloc::Global;
use std::collections::LinkedList;
use std::marker::Model;

/// The series that ranks are of, and the length of a window.
#[derive(Drop)]
pub struct SeriesOfRanks<'a> {
    pub(crate) samples: &'a [Sample],
    pub(crate) m: u32,
}

impl<'a> Model for SeriesOfRanks<'a> {
    ghost use Rattle.mp_topk.specs.Sharing.{RankSeries};

    ghost Value = { RankSeries };

    ghost view = { λ series. record { samples = series.samples.now; m = series.m } };
}

/// What is known of the words: how many ranks there are, and those of all windows. No value of it is made.
pub struct RanksView {
    pub ranks: u64,
    pub whole: LinkedList<LinkedList<Near>>,
}

/// What holds of the words between any two steps: none tells a window that the ranks of its place gain by.
pub struct RanksRule<const K: usize>;

impl<'a, const K: usize> TableRule<(), RanksView, SeriesOfRanks<'a>> for RanksRule<K> {
    ghost holds = { AreEntriesOf K };

    ghost first = { view_of K };
}

/// The step that looks at a word.
pub struct Find;

impl Play<(), RanksView> for Find {
    ghost then = { Finds };
}

/// The step that lowers a word.
pub struct Lower;

impl Play<(), RanksView> for Lower {
    ghost then = { Lowers };
}

/// For each window of a series and each rank a window that some worker has found so far at that rank, in a word.
#[derive(Drop)]
pub(crate) struct RankEntries<'a, const K: usize> {
    table: Table<(), RanksView, SeriesOfRanks<'a>, RanksRule<K>, Global>,
}

impl<'a, const K: usize> Model for RankEntries<'a, K> {
    ghost use Rattle.mp_topk.specs.Sharing.{AreEntries, RankSeries};

    ghost Value = { RankSeries };

    ghost view = { λ entries. entries.table.shared.key };

    ghost invariant = { λ entries. AreEntries K entries.table.shared.table_id.words entries.table.shared.key };
}

impl<'a, const K: usize> RankEntries<'a, K> {
    /// Entries of the windows of length `m`, of which none is found yet. A window takes 8 bytes for each rank. There is
    /// no memory for more than `MAX_RANKS` ranks.
    pub(crate) fn new(
        alloc: Global,
        samples: &'a [Sample],
        m: u32,
    ) -> Result<RankEntries<'a, K>, Memory>
        requires least { 1 ≤ m }
        requires few { length samples.now ≤ MAX_SAMPLES }
        ensures { IfOk result (λ entries. entries ≡ entries_of samples.now m) }
    {
        if MAX_RANKS < K {
            return Err(Memory);
        }
        let words = vec![in alloc; NO_WORD; windows(samples.len() as u64, m) as usize * K]?;
        let series = SeriesOfRanks { samples, m };
        let (table, _seat) = Table::of_words(alloc, words.as_slice(), &series)?;
        Ok(RankEntries { table })
    }

    /// Where the word of a place and rank stands.
    #[inline]
    fn at(&self, place: u64, rank: usize) -> usize
        requires place { place < count_of self.now }
        requires rank { rank < K }
        ensures { result ≡ place * K + rank }
    {
        let _words = self.table.word_count();
        place as usize * K + rank
    }

    /// The word of a place and rank.
    #[inline]
    fn find(&self, place: u64, rank: usize) -> u64
        requires place { place < count_of self.now }
        requires rank { rank < K }
        ensures { GivesNone K (slice_index_or (whole_of K self.now) place []) (slot_of_word result) }
    {
        let at = self.at(place, rank);
        let (word, _seat) = self.table.shared.load_new_seat::<Find>(at);
        word
    }

    /// Lowers the word of a place and rank to another one, where it is higher.
    #[inline]
    fn lower(&self, place: u64, rank: usize, word: u64)
        requires place { place < count_of self.now }
        requires rank { rank < K }
        requires gives { GivesNone K (slice_index_or (whole_of K self.now) place []) (slot_of_word word) }
    {
        let at = self.at(place, rank);
        let (found, mut seat) = self.table.shared.load_new_seat::<Find>(at);
        if word < found {
            let _before = self.table.shared.fetch_min::<Lower>(&mut seat, at, word);
        }
    }

    /// Takes for a window what stands at its ranks.
    #[inline]
    fn take_place(&self, place: u64, into: &mut CompactRanks<K>)
        requires place { place < count_of self.now }
        requires size { length into.old.lists ≡ count_of self.now }
        ensures more { (first : List (List Near)) → HasMore K (whole_of K self.now) first into.old.lists
            → HasMore K (whole_of K self.now) first into.new.lists }
        ensures size { length into.new.lists ≡ length into.old.lists }
        ensures spare { into.new.spare ≡ into.old.spare }
    {
        for rank in 0..K {
            let word = self.find(place, rank);
            // most words tell what stands there already
            if word != into.word(place, rank) {
                into.take_word(place, rank, word);
            }
        }
    }

    /// Tells what was found for a window at its ranks.
    #[inline]
    fn tell_place(&self, place: u64, found: &CompactRanks<K>)
        requires place { place < count_of self.now }
        requires within { IsWithin K (whole_of K self.now) found.now.lists }
    {
        for rank in 0..K {
            self.lower(place, rank, found.word(place, rank));
        }
    }

    /// Takes for the windows from one on and before another what others have found. It takes no memory.
    pub(crate) fn take(&self, from: u64, to: u64, into: &mut CompactRanks<K>)
        requires to { to ≤ count_of self.now }
        requires size { length into.old.lists ≡ count_of self.now }
        ensures more { (first : List (List Near)) → HasMore K (whole_of K self.now) first into.old.lists
            → HasMore K (whole_of K self.now) first into.new.lists }
        ensures size { length into.new.lists ≡ length into.old.lists }
        ensures spare { into.new.spare ≡ into.old.spare }
    {
        for place in from..to {
            self.take_place(place, into);
        }
    }

    /// Tells for the windows from one on and before another what was found. It takes no memory.
    pub(crate) fn tell(&self, from: u64, to: u64, found: &CompactRanks<K>)
        requires to { to ≤ count_of self.now }
        requires within { IsWithin K (whole_of K self.now) found.now.lists }
    {
        for place in from..to {
            self.tell_place(place, found);
        }
    }
}
