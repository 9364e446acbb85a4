//! What workers know of entries, and what all of it together tells.

ghost use Rattle.std.specs.Prelude.{◌≡◌, ◌<◌, ◌≤◌, [], ◌∷◌, ◌++◌, length, slice_index_or, None};
ghost use Rattle.mp_partial.specs.Values.{merged_column};
ghost use Rattle.mp_workers.specs.Entries.{IsAtMost, IsWithin, count_of, left_of, right_of, whole_of};
ghost use Rattle.mp_workers.specs.Tellers.{IsHold, IsWholeTold};

use crate::entries::{AlsoTold, BothTold, Entries, EntriesView, Find, Look};
use atomic_table::Seat;
use mp_nums::{Slot, Slots, nearer};
use mp_tiles::Compact;
use std::marker::Model;

/// A worker's hold of entries. What it knows are words that it told or saw: those that stand in the entries are at most
/// these, whatever the others do. It has no bytes, and can move between threads.
#[derive(Drop)]
pub(crate) struct Hold {
    pub(crate) seat: Seat<(), EntriesView>,
}

impl Model for Hold {
    ghost use Rattle.std.specs.Prelude.{◌≡◌, []};
    ghost use Rattle.mp_workers.specs.Tellers.{HoldState};

    ghost Value = { HoldState };

    ghost view = { λ hold. record {
      table = hold.seat.table_id;
      whole = hold.seat.me.0.whole;
      told = hold.seat.me.0.told;
    } };

    ghost invariant = { λ hold. hold.seat.me.1 ≡ [] };
}

impl<'a> Entries<'a> {
    /// A hold by which nothing is known yet.
    pub(crate) fn hold(&self) -> Hold
        requires { 1 ≤ count_of self.now.series }
        ensures hold { IsHold self.now result }
        ensures told { result.told ≡ [] }
    {
        let (_word, seat) = self.table.shared.load_new_seat::<Find>(0);
        Hold { seat }
    }

    /// Another hold, by which the same is known.
    pub(crate) fn split(&self, hold: &mut Hold) -> Hold
        requires some { 1 ≤ count_of self.now.series }
        requires hold { IsHold self.now hold.old }
        ensures same { hold.new ≡ hold.old }
        ensures other { result ≡ hold.old }
    {
        Hold {
            seat: self.table.shared.split_seat::<AlsoTold>(&mut hold.seat),
        }
    }

    /// Takes in what is known by another hold.
    pub(crate) fn join(&self, hold: &mut Hold, other: Hold)
        requires some { 1 ≤ count_of self.now.series }
        requires hold { IsHold self.now hold.old }
        requires other { IsHold self.now other }
        ensures hold { IsHold self.now hold.new }
        ensures told { hold.new.told ≡ hold.old.told ++ other.told }
    {
        let Hold { seat } = other;
        self.table
            .shared
            .join_seat::<BothTold>(&mut hold.seat, seat);
    }

    /// The word at a place.
    #[inline]
    fn last(&self, hold: &mut Hold, place: u64) -> u64
        requires place { place < length (whole_of self.now.series) }
        requires hold { IsHold self.now hold.old }
        ensures within { IsWithin result (slice_index_or (whole_of self.now.series) place None) }
        ensures least { IsAtMost result place hold.old.told }
        ensures hold { IsHold self.now hold.new }
        ensures told { (place, result) ∷ hold.old.told ≡ hold.new.told }
    {
        self.table
            .shared
            .load::<Look>(&mut hold.seat, place as usize)
    }

    /// The window at a place of the whole, all of which is told of.
    #[inline]
    fn slot(&self, hold: &mut Hold, place: u64) -> Slot
        requires place { place < length (whole_of self.now.series) }
        requires hold { IsHold self.now hold.old }
        requires whole { IsWholeTold self.now.series hold.old.told }
        ensures slot { result ≡ slice_index_or (whole_of self.now.series) place None }
        ensures hold { IsHold self.now hold.new }
        ensures whole { IsWholeTold self.now.series hold.new.told }
    {
        Compact::of_word(self.last(hold, place)).slot()
    }

    /// Puts the nearest windows before each window into a column of no windows, which has room for them, where all are
    /// told of. It takes no memory.
    pub(crate) fn put_left(&self, hold: &mut Hold, column: &mut Slots)
        requires hold { IsHold self.now hold.old }
        requires whole { IsWholeTold self.now.series hold.old.told }
        requires no_window { column.old.items ≡ [] }
        requires spare { count_of self.now.series ≤ column.old.spare }
        ensures column { column.new.items ≡ left_of self.now.series }
        ensures hold { IsHold self.now hold.new }
        ensures whole { IsWholeTold self.now.series hold.new.told }
    {
        let count = self.len();
        for place in 0..count {
            column.push(self.slot(hold, place)).unwrap();
        }
    }

    /// The same behind them.
    pub(crate) fn put_right(&self, hold: &mut Hold, column: &mut Slots)
        requires hold { IsHold self.now hold.old }
        requires whole { IsWholeTold self.now.series hold.old.told }
        requires no_window { column.old.items ≡ [] }
        requires spare { count_of self.now.series ≤ column.old.spare }
        ensures column { column.new.items ≡ right_of self.now.series }
        ensures hold { IsHold self.now hold.new }
        ensures whole { IsWholeTold self.now.series hold.new.told }
    {
        let count = self.len();
        for place in 0..count {
            column.push(self.slot(hold, count + place)).unwrap();
        }
    }

    /// Puts the nearer one of both for each window into such a column.
    pub(crate) fn put_nearer(&self, hold: &mut Hold, column: &mut Slots)
        requires hold { IsHold self.now hold.old }
        requires whole { IsWholeTold self.now.series hold.old.told }
        requires no_window { column.old.items ≡ [] }
        requires spare { count_of self.now.series ≤ column.old.spare }
        ensures column { column.new.items ≡ merged_column (left_of self.now.series) (right_of self.now.series) }
        ensures hold { IsHold self.now hold.new }
        ensures whole { IsWholeTold self.now.series hold.new.told }
    {
        let count = self.len();
        for place in 0..count {
            let left = self.slot(hold, place);
            let right = self.slot(hold, count + place);
            column.push(nearer(left, right)).unwrap();
        }
    }
}
