//! Workers that tell each other what they find as soon as they find it.

ghost use Rattle.std.specs.Prelude.{◌≡◌, ℕ, ◌+◌, ◌<◌, ◌≤◌, [], length, slice_index_or, Some, None};
ghost use Rattle.mp_nums.specs.declared.nearest.Near.{Near};
ghost use Rattle.mp_series.specs.declared.limits.TheConstants.{MAX_SAMPLES};
ghost use Rattle.mp_sums.specs.Limits.{IsBeyond};
ghost use Rattle.mp_workers.specs.Entries.{IsWithin, count_of, whole_of};
ghost use Rattle.mp_workers.specs.Tellers.{AreTold, ComesBefore, FitsTeller, IsNoLater, IsTold, MayTell};
ghost use Rattle.mp_workers.specs.Tellers.{keeps_column_told, keeps_row_told, most_told};
ghost use Rattle.mp_workers.specs.TellerLaws.{tellers_limit, tellers_offer};

use crate::entries::{Entries, EntriesView, Find, Look, Lower, SeriesOfEntries, WithinRule};
use crate::holds::Hold;
use atomic_table::{Seat, Table};
use mp_nums::{Near, Sq};
use mp_scans::Offers;
use mp_series::excl;
use mp_sums::Limit;
use mp_tiles::{Compact, word_of};
use std::alloc::Global;
use std::marker::Model;

/// A worker's hold of entries while it tells of pairs. What it knows are words that it told or saw: those that stand in
/// the entries are at most these, whatever the others do.
#[derive(Drop)]
pub(crate) struct Teller<'t, 'a> {
    table: &'t Table<(), EntriesView, SeriesOfEntries<'a>, WithinRule, Global>,
    seat: Seat<(), EntriesView>,
    /// The number of windows.
    count: u64,
    /// How far windows that are compared start from each other, at least.
    apart: u64,
}

impl<'t, 'a> Model for Teller<'t, 'a> {
    ghost use Rattle.mp_workers.specs.Tellers.{IsTeller, TellerState};

    ghost Value = { TellerState };

    ghost view = { λ teller. record {
      table = teller.seat.table_id;
      series = teller.table.now.shared.key;
      told = teller.seat.me.0.told;
    } };

    ghost invariant = { λ teller. IsTeller teller.table.now.shared.table_id teller.table.now.shared.key
        teller.seat.table_id teller.seat.me teller.count teller.apart };
}

impl<'t, 'a> Teller<'t, 'a> {
    /// A hold of entries by which nothing was told yet.
    pub(crate) fn new(entries: &'t Entries<'a>, m: u32) -> Teller<'t, 'a>
        requires window { m ≡ entries.now.series.m }
        requires some { 1 ≤ count_of entries.now.series }
        ensures table { result.table ≡ entries.now.table }
        ensures series { result.series ≡ entries.now.series }
        ensures told { result.told ≡ [] }
    {
        let table = &entries.table;
        let (_word, seat) = table.shared.load_new_seat::<Find>(0);
        Teller {
            table,
            seat,
            count: entries.len(),
            apart: excl(m) + 1,
        }
    }

    /// The word at a place.
    #[inline]
    fn find(&self, place: u64) -> u64
        requires { place < length (whole_of self.now.series) }
        ensures { IsWithin result (slice_index_or (whole_of self.now.series) place None) }
    {
        let (word, _seat) = self.table.shared.load_new_seat::<Find>(place as usize);
        word
    }

    /// Tells of a window at a place.
    #[inline]
    fn tell(&mut self, place: u64, near: Near)
        requires place { place < length (whole_of self.old.series) }
        requires start { near.index < MAX_SAMPLES }
        requires short { near.dist.0 < most_told }
        requires within { IsNoLater (slice_index_or (whole_of self.old.series) place None) (Some near) }
        ensures table { self.new.table ≡ self.old.table }
        ensures series { self.new.series ≡ self.old.series }
        ensures more { (p : ℕ) (other : Near) → IsTold self.old.told p other → IsTold self.new.told p other }
        ensures told { IsTold self.new.told place near }
    {
        let at = place as usize;
        let word = word_of(near);
        let found = self.table.shared.load::<Look>(&mut self.seat, at);
        if word < found {
            let _before = self
                .table
                .shared
                .fetch_min::<Lower>(&mut self.seat, at, word);
        }
    }

    /// The hold that stays when nothing more is told.
    pub(crate) fn into_hold(self) -> Hold
        ensures table { result.table ≡ self.entry.table }
        ensures whole { result.whole ≡ whole_of self.entry.series }
        ensures told { result.told ≡ self.entry.told }
    {
        let Teller { seat, .. } = self;
        Hold { seat }
    }

    /// Which distances of windows from `first` on may still come before what is found at a place.
    #[inline]
    fn limit(&self, place: u64, first: u64) -> Limit
        requires { place < length (whole_of self.now.series) }
        ensures { (j d : ℕ) → first ≤ j → IsBeyond result d
            → ComesBefore (slice_index_or (whole_of self.now.series) place None) j d }
    {
        match Compact::of_word(self.find(place)).slot() {
            Some(near) if near.index < first => Limit::Below(near.dist),
            Some(near) => Limit::Within(near.dist),
            None => Limit::Every,
        }
    }
}

/// The way to offer windows of a series to each other that tells all workers of them.
pub(crate) struct TellEachOther<'t, 'a> {
    teller: Teller<'t, 'a>,
}

impl<'t, 'a> Offers for TellEachOther<'t, 'a> {
    type Into = Teller<'t, 'a>;

    ghost least = { 1 };

    ghost fits = { FitsTeller };

    ghost may_offer = { MayTell };

    ghost is_scanned = { AreTold };

    ghost laws = { tellers_offer };

    ghost keeps_row = { keeps_row_told };

    ghost keeps_column = { keeps_column_told };

    ghost limits = { tellers_limit };

    #[inline]
    fn offer(into: &mut Teller<'t, 'a>, row: u64, column: u64, dist: Sq) {
        if row + into.apart <= column {
            into.tell(
                into.count + row,
                Near {
                    dist,
                    index: column,
                },
            );
            into.tell(column, Near { dist, index: row });
        }
    }

    #[inline]
    fn row_limit(into: &Teller<'t, 'a>, row: u64, first: u64) -> Limit {
        if row < into.count {
            into.limit(into.count + row, first)
        } else {
            Limit::Every
        }
    }

    #[inline]
    fn column_limit(into: &Teller<'t, 'a>, column: u64, first: u64) -> Limit {
        if column < into.count {
            into.limit(column, first)
        } else {
            Limit::Every
        }
    }
}
