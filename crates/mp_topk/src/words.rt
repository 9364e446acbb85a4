//! Ranks in words, in which workers tell each other of windows as soon as they find them.

ghost use Rattle.std.specs.Prelude.{◌≡◌, ℕ, ◌+◌, ◌-◌, ◌*◌, ◌^◌, ◌<◌, ◌≤◌, true, [], length, slice_index_or, map, IfOk};
ghost use Rattle.std.specs.Prelude.{Some};
ghost use Rattle.std.specs.Mem.Slots.{IsFull, slots_items, slots_len};
ghost use Rattle.mp_nums.specs.declared.nearest.Near.{Near};
ghost use Rattle.mp_nums.specs.Near.{comes_before};
ghost use Rattle.mp_series.specs.declared.limits.TheConstants.{MAX_SAMPLES};
ghost use Rattle.mp_defs.specs.Window.{excl as zone};
ghost use Rattle.mp_tiles.specs.Compact.{slot_of_word};
ghost use Rattle.mp_workers.specs.Desks.{whole};
ghost use Rattle.mp_topk.specs.Laws.{StandsIn};
ghost use Rattle.mp_topk.specs.Ranking.{those_in};
ghost use Rattle.mp_topk.specs.Sharing.{count_of, entries_of, whole_of};
ghost use Rattle.mp_topk.specs.Words.{AreWordsOf, FindsWord, IsHoldOf, LooksAt, LowersWord, both_views, cut_left};
ghost use Rattle.mp_topk.specs.Words.{IsToldOf, cut_off, nears, spent_view, words_view};

use crate::closed_words::slots_in_words;
use crate::entries::SeriesOfRanks;
use crate::ranks::MAX_RANKS;
use atomic_table::{Closed, Join, Play, Seat, Split, Table, TableRule};
use mp_nums::{Memory, Near, Sample};
use mp_series::{MAX_SAMPLES, excl, windows};
use mp_tiles::{Compact, NO_WORD};
use std::alloc::Global;
use std::collections::LinkedList;
use std::marker::Model;

/// What a worker knows of the words: how many ranks there are, its weight, the ranks of all windows, words that it saw
/// with their numbers, words that were told of places, and one that it carries on to the next rank. No value of it is
/// made.
pub struct WordsView {
    pub ranks: u64,
    pub weight: u64,
    pub whole: LinkedList<LinkedList<Near>>,
    pub seen: LinkedList<(u64, u64)>,
    pub told: LinkedList<(u64, u64)>,
    pub carried: LinkedList<(u64, u64)>,
}

/// What holds of the words and of what workers know between any two steps: the words of a place are in order and give
/// its ranks nothing, and what was told of a place stands there, is on its way to a later rank, or comes after all.
pub struct WordsRule<const K: usize>;

impl<'a, const K: usize> TableRule<(), WordsView, SeriesOfRanks<'a>> for WordsRule<K> {
    ghost holds = { AreWordsOf K };

    ghost first = { words_view K whole };
}

/// The step that looks at a word.
pub struct FindWord;

impl Play<(), WordsView> for FindWord {
    ghost then = { FindsWord };
}

/// The step by which a worker looks at a word, and knows what it found.
pub struct LookAt;

impl Play<(), WordsView> for LookAt {
    ghost then = { LooksAt };
}

/// The step that lowers a word.
pub struct LowerWord;

impl Play<(), WordsView> for LowerWord {
    ghost then = { LowersWord };
}

/// The step that cuts off a hold.
pub struct CutHold;

impl Split<WordsView> for CutHold {
    ghost left = { cut_left };

    ghost right = { cut_off };
}

/// The step that puts two holds together.
pub struct BothHolds;

impl Join<WordsView> for BothHolds {
    ghost both = { both_views };

    ghost spent = { spent_view };
}

/// For each window of a series and each rank a window that some worker told of, in a word. What workers know of them
/// are holds.
#[derive(Drop)]
pub(crate) struct RankWords<'a, const K: usize> {
    pub(crate) table: Table<(), WordsView, SeriesOfRanks<'a>, WordsRule<K>, Global>,
    /// The number of windows.
    count: u64,
    /// How far windows that are compared start from each other, at least.
    apart: u64,
}

impl<'a, const K: usize> Model for RankWords<'a, K> {
    ghost use Rattle.mp_topk.specs.Words.{AreWords, WordsAt};

    ghost Value = { WordsAt };

    ghost view = { λ words. record { table = words.table.shared.table_id; series = words.table.shared.key } };

    ghost invariant = { λ words.
        AreWords K words.table.shared.table_id words.table.shared.key words.count words.apart };
}

/// A worker's hold of words. What it knows stays so, whatever the others do. It has no bytes, and can move between
/// threads.
#[derive(Drop)]
pub(crate) struct RankHold {
    pub(crate) seat: Seat<(), WordsView>,
}

impl Model for RankHold {
    ghost use Rattle.std.specs.Prelude.{◌≡◌, []};
    ghost use Rattle.mp_topk.specs.Words.{HeldWords};

    ghost Value = { HeldWords };

    ghost view = { λ hold. record { table = hold.seat.table_id; view = hold.seat.me.0 } };

    ghost invariant = { λ hold. hold.seat.me.1 ≡ [] };
}

impl<'a, const K: usize> RankWords<'a, K> {
    /// Words of the windows of length `m`, none of which tells a window yet, and a hold of the whole weight. A window
    /// takes 8 bytes for each rank. There is no memory for no rank, or for more than `MAX_RANKS`.
    pub(crate) fn new(
        alloc: Global,
        samples: &'a [Sample],
        m: u32,
    ) -> Result<(RankWords<'a, K>, RankHold), Memory>
        requires least { 1 ≤ m }
        requires few { length samples.now ≤ MAX_SAMPLES }
        ensures series { IfOk result (λ made. made.0.series ≡ entries_of samples.now m) }
        ensures hold { IfOk result (λ made. IsHoldOf K made.0 whole made.1) }
    {
        if K == 0 || MAX_RANKS < K {
            return Err(Memory);
        }
        let count = windows(samples.len() as u64, m);
        let words = vec![in alloc; NO_WORD; count as usize * K]?;
        let series = SeriesOfRanks { samples, m };
        let (table, seat) = Table::of_words(alloc, words.as_slice(), &series)?;
        let words = RankWords {
            table,
            count,
            apart: excl(m) + 1,
        };
        Ok((words, RankHold { seat }))
    }

    /// The number of windows. There is a rank at least.
    pub(crate) fn len(&self) -> u64
        ensures count { result ≡ count_of self.now.series }
        ensures one { 1 ≤ K }
    {
        self.count
    }

    /// How far windows that are compared start from each other, at least.
    #[inline]
    pub(crate) fn apart(&self) -> u64
        ensures is { result ≡ zone self.now.series.m + 1 }
        ensures small { result ≤ 2 ^ 32 }
    {
        self.apart
    }

    /// Where the word of a place and rank stands.
    #[inline]
    pub(crate) fn at(&self, place: u64, rank: usize) -> usize
        requires place { place < count_of self.now.series }
        requires rank { rank < K }
        ensures { result ≡ place * K + rank }
    {
        let _words = self.table.word_count();
        place as usize * K + rank
    }

    /// The word of the last rank of a place.
    #[inline]
    pub(crate) fn last(&self, place: u64) -> u64
        requires place { place < count_of self.now.series }
        ensures { (near x : Near) → slot_of_word result ≡ Some near → comes_before near x ≡ true
            → StandsIn x (slice_index_or (whole_of K self.now.series) place []) → ⊥ }
    {
        let _words = self.table.word_count();
        let at = self.at(place, K - 1);
        let (word, _seat) = self.table.shared.load_new_seat::<FindWord>(at);
        word
    }

    /// A hold without a weight, by which nothing is known.
    pub(crate) fn idle(&self) -> RankHold
        requires some { 1 ≤ count_of self.now.series }
        ensures table { result.table ≡ self.now.table }
    {
        let (_word, seat) = self.table.shared.load_new_seat::<FindWord>(0);
        RankHold { seat }
    }

    /// Cuts off a hold of weight 1.
    pub(crate) fn split(&self, hold: &mut RankHold) -> RankHold
        requires some { 1 ≤ count_of self.now.series }
        requires hold { (n : ℕ) × (2 ≤ n) × IsHoldOf K self.now n hold.old }
        ensures left { (n : ℕ) → IsHoldOf K self.now n hold.old → IsHoldOf K self.now (n - 1) hold.new }
        ensures view { hold.new.view ≡ cut_left hold.old.view }
        ensures other { IsHoldOf K self.now 1 result }
    {
        RankHold {
            seat: self.table.shared.split_seat::<CutHold>(&mut hold.seat),
        }
    }

    /// Takes in another hold.
    pub(crate) fn join(&self, hold: &mut RankHold, other: RankHold)
        requires some { 1 ≤ count_of self.now.series }
        requires hold { (n : ℕ) × IsHoldOf K self.now n hold.old }
        requires other { (n : ℕ) × IsHoldOf K self.now n other }
        ensures weight { (n k : ℕ) → IsHoldOf K self.now n hold.old → IsHoldOf K self.now k other
            → IsHoldOf K self.now (n + k) hold.new }
        ensures view { hold.new.view ≡ both_views hold.old.view other.view }
    {
        let RankHold { seat } = other;
        self.table
            .shared
            .join_seat::<BothHolds>(&mut hold.seat, seat);
    }

    /// The words, which none lowers any more, once all holds are one again that tells each window's ranks.
    fn close(self, hold: RankHold) -> Closed<(), Global>
        requires hold { IsHoldOf K self whole hold }
        requires all { (place : ℕ) → place < count_of self.series → (near : Near)
            → StandsIn near (slice_index_or (whole_of K self.series) place []) → IsToldOf K hold.view place near }
        ensures full { IsFull result.words }
        ensures count { slots_len result.words ≡ count_of self.entry.series * K }
        ensures no_slot { slots_len result.slots ≡ 0 }
        ensures ranks { (place : ℕ) → place < count_of self.entry.series
            → nears (slots_items result.words) (place * K) K
            ≡ slice_index_or (whole_of K self.entry.series) place [] }
    {
        let RankWords {
            table,
            count: _,
            apart: _,
        } = self;
        let RankHold { seat } = hold;
        table.close_with(seat)
    }
    /// The slots of each window, once all holds are one again that tells each window's ranks.
    pub(crate) fn into_places(
        self,
        alloc: Global,
        hold: RankHold,
    ) -> Result<Vec<[Compact; K]>, Memory>
        requires hold { IsHoldOf K self whole hold }
        requires all { (place : ℕ) → place < count_of self.series → (near : Near)
            → StandsIn near (slice_index_or (whole_of K self.series) place []) → IsToldOf K hold.view place near }
        ensures { IfOk result (λ places. map those_in places.items ≡ whole_of K self.entry.series) }
    {
        let count = self.len();
        let words = self.close(hold);
        let places = slots_in_words(alloc, &words, count);
        words.free();
        places
    }
}
