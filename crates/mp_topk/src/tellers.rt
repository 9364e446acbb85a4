//! Workers that tell each other of the nearest windows as soon as they find them.

ghost use Rattle.std.specs.Prelude.{◌≡◌, ℕ, ◌+◌, ◌*◌, ◌<◌, ◌≤◌, [], slice_index_or, Some};
ghost use Rattle.mp_nums.specs.declared.nearest.Near.{Near};
ghost use Rattle.mp_series.specs.declared.limits.TheConstants.{MAX_SAMPLES};
ghost use Rattle.mp_sums.specs.Limits.{IsBeyond};
ghost use Rattle.mp_tiles.specs.Compact.{slot_of_word};
ghost use Rattle.mp_workers.specs.Tellers.{most_told};
ghost use Rattle.mp_topk.specs.Sharing.{GivesNone, count_of, whole_of};
ghost use Rattle.mp_topk.specs.Words.{IsHoldOf, IsIn, IsOut, IsToldOf, KnowsMore, MayPass, carried_on};
ghost use Rattle.mp_topk.specs.Words.{AreRanksTold, FitsRankTeller, MayTellRanks, SeenBelow, keeps_told};
ghost use Rattle.mp_topk.specs.WordLaws.{rank_tellers_limit, rank_tellers_offer};

use crate::words::{FindWord, LookAt, LowerWord, RankHold, RankWords, WordsView};
use atomic_table::Seat;
use mp_nums::{Near, Sq};
use mp_scans::Offers;
use mp_sums::Limit;
use mp_tiles::{Compact, NO_WORD, word_of};
use std::marker::Model;

/// A worker's hold of words while it tells of pairs.
#[derive(Drop)]
pub(crate) struct RankTeller<'t, 'a, const K: usize> {
    pub(crate) words: &'t RankWords<'a, K>,
    seat: Seat<(), WordsView>,
}

impl<'t, 'a, const K: usize> Model for RankTeller<'t, 'a, K> {
    ghost use Rattle.mp_topk.specs.Words.{IsRankTeller, RankTellerState};

    ghost Value = { RankTellerState };

    ghost view = { λ teller. record { words = teller.words.now; view = teller.seat.me.0 } };

    ghost invariant = { λ teller. IsRankTeller K teller.words.now teller.seat.table_id teller.seat.me };
}

impl<'t, 'a, const K: usize> RankTeller<'t, 'a, K> {
    /// What goes on with a hold.
    pub(crate) fn of(words: &'t RankWords<'a, K>, hold: RankHold) -> RankTeller<'t, 'a, K>
        requires { (n : ℕ) × IsHoldOf K words.now n hold }
        ensures words { result.words ≡ words.now }
        ensures view { result.view ≡ hold.view }
    {
        let _count = words.len();
        let RankHold { seat } = hold;
        RankTeller { words, seat }
    }

    /// The hold that stays when nothing more is told.
    pub(crate) fn into_hold(self) -> RankHold
        ensures table { result.table ≡ self.entry.words.table }
        ensures view { result.view ≡ self.entry.view }
    {
        let RankTeller { seat, .. } = self;
        RankHold { seat }
    }

    /// The word of a place and rank.
    #[inline]
    fn look(&mut self, place: u64, rank: usize) -> u64
        requires place { place < count_of self.old.words.series }
        requires rank { rank < K }
        ensures words { self.new.words ≡ self.old.words }
        ensures more { KnowsMore K self.old.view self.new.view }
        ensures carried { self.new.view.carried ≡ self.old.view.carried }
        ensures seen { (word : ℕ) → result < word → SeenBelow self.new.view.seen (place * K + rank) word }
    {
        let words = self.words;
        let at = words.at(place, rank);
        words.table.shared.load::<LookAt>(&mut self.seat, at)
    }

    /// Puts a word at a rank, where it is the lesser one, and tells of it. What stood there before is told.
    #[inline]
    fn lower(&mut self, place: u64, rank: usize, word: u64) -> u64
        requires weight { 1 ≤ self.old.view.weight }
        requires may { MayPass K self.old.words.series self.old.view place rank word }
        ensures words { self.new.words ≡ self.old.words }
        ensures more { KnowsMore K self.old.view self.new.view }
        ensures carried { self.new.view.carried ≡ carried_on K place rank word result }
        ensures told { IsIn self.new.view.told place word }
        ensures within { GivesNone K (slice_index_or (whole_of K self.old.words.series) place [])
            (slot_of_word result) }
    {
        let words = self.words;
        let at = words.at(place, rank);
        words
            .table
            .shared
            .fetch_min::<LowerWord>(&mut self.seat, at, word)
    }

    /// Puts a word at a rank, and what stood there at the next one, until nothing is left over.
    #[inline]
    fn pass(&mut self, place: u64, from: usize, word: u64)
        requires weight { 1 ≤ self.old.view.weight }
        requires may { MayPass K self.old.words.series self.old.view place from word }
        ensures words { self.new.words ≡ self.old.words }
        ensures more { KnowsMore K self.old.view self.new.view }
        ensures carried { self.new.view.carried ≡ [] }
        ensures told { IsIn self.new.view.told place word }
    {
        let mut own = word;
        for rank in from..K {
            let found = self.lower(place, rank, own);
            if found == own || found == NO_WORD {
                return;
            }
            own = own.max(found);
        }
    }

    /// Tells of a window at a place.
    #[inline]
    pub(crate) fn tell(&mut self, place: u64, near: Near)
        requires one { 1 ≤ K }
        requires place { place < count_of self.old.words.series }
        requires start { near.index < MAX_SAMPLES }
        requires short { near.dist.0 < most_told }
        requires within { GivesNone K (slice_index_or (whole_of K self.old.words.series) place []) (Some near) }
        requires weight { 1 ≤ self.old.view.weight }
        requires idle { self.old.view.carried ≡ [] }
        ensures words { self.new.words ≡ self.old.words }
        ensures more { KnowsMore K self.old.view self.new.view }
        ensures carried { self.new.view.carried ≡ [] }
        ensures told { IsToldOf K self.new.view place near }
    {
        let word = word_of(near);
        for rank in 0..K {
            if word <= self.look(place, rank) {
                self.pass(place, rank, word);
                return;
            }
        }
    }

    /// Which distances of windows from `first` on may still come before the last rank of a place.
    #[inline]
    pub(crate) fn limit(&self, place: u64, first: u64) -> Limit
        requires { place < count_of self.now.words.series }
        ensures { (j d : ℕ) → first ≤ j → IsBeyond result d → IsOut K self.now.words.series place j d }
    {
        match Compact::of_word(self.words.last(place)).slot() {
            Some(near) if near.index < first => Limit::Below(near.dist),
            Some(near) => Limit::Within(near.dist),
            None => Limit::Every,
        }
    }
}

/// The way to offer windows of a series to each other that tells all workers of them.
pub(crate) struct TellEachOther<'t, 'a, const K: usize> {
    teller: RankTeller<'t, 'a, K>,
}

impl<'t, 'a, const K: usize> Offers for TellEachOther<'t, 'a, K> {
    type Into = RankTeller<'t, 'a, K>;

    ghost least = { 1 };

    ghost fits = { FitsRankTeller };

    ghost may_offer = { MayTellRanks };

    ghost is_scanned = { AreRanksTold K };

    ghost laws = { rank_tellers_offer K };

    ghost keeps_row = { keeps_told K };

    ghost keeps_column = { keeps_told K };

    ghost limits = { rank_tellers_limit K };

    #[inline]
    fn offer(into: &mut RankTeller<'t, 'a, K>, row: u64, column: u64, dist: Sq) {
        let words = into.words;
        if row + words.apart() <= column {
            into.tell(
                row,
                Near {
                    dist,
                    index: column,
                },
            );
            into.tell(column, Near { dist, index: row });
        }
    }

    #[inline]
    fn row_limit(into: &RankTeller<'t, 'a, K>, row: u64, first: u64) -> Limit {
        let words = into.words;
        if row < words.len() {
            into.limit(row, first)
        } else {
            Limit::Every
        }
    }

    #[inline]
    fn column_limit(into: &RankTeller<'t, 'a, K>, column: u64, first: u64) -> Limit {
        let words = into.words;
        if column < words.len() {
            into.limit(column, first)
        } else {
            Limit::Every
        }
    }
}
