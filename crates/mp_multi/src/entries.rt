//! Entries that workers share: for each window the nearest one that some worker has found so far.

ghost use Rattle.std.specs.Prelude.{◌≡◌, ◌<◌, length, map, slice_index_or, IfOk, None};
ghost use Rattle.mp_defs.specs.Series.{series_of};
ghost use Rattle.mp_results.specs.Multi.{multi_of};
ghost use Rattle.mp_partial.specs.Values.{Column};
ghost use Rattle.mp_tiles.specs.Compact.{IsWordOf};
ghost use Rattle.mp_workers.specs.Entries.{HasMore, IsWithin, IsWithinColumn};
ghost use Rattle.mp_multi.specs.Sharing.{AreEntriesOf, Finds, Lowers, view_of};

use atomic_table::{Play, Table, TableRule};
use mp_nums::{Memory, Slot, Slots};
use mp_partial::offer_at;
use mp_series::{Bundle, MAX_SAMPLES};
use mp_tiles::{Compact, NO_WORD};
use std::alloc::Global;
use std::collections::LinkedList;
use std::marker::Model;

/// The channels that entries are of, the length of a window, and how many channels are taken together.
#[derive(Drop)]
pub struct EntryChannels<'a> {
    list: &'a Bundle,
    m: u32,
    k: u64,
}

impl<'a> Model for EntryChannels<'a> {
    ghost Value = { Column };

    ghost view = { λ key. multi_of key.m key.k (map series_of key.list.now) };
}

/// What is known of the words of entries: the multidimensional profile. No value of it is made.
pub struct EntriesView {
    pub whole: LinkedList<Slot>,
}

/// What holds of the words of entries between any two steps: none tells a window that comes before the one that stands
/// there in the profile.
pub struct WithinRule;

impl<'a> TableRule<(), EntriesView, EntryChannels<'a>> for WithinRule {
    ghost holds = { AreEntriesOf };

    ghost first = { view_of };
}

/// The step that looks at a word.
pub struct Find;

impl Play<(), EntriesView> for Find {
    ghost then = { Finds };
}

/// The step that lowers a word.
pub struct Lower;

impl Play<(), EntriesView> for Lower {
    ghost then = { Lowers };
}

/// The least distance of which no word tells: 2^46 - 1.
const FAR: u128 = 70_368_744_177_663;

/// The word of a slot, where it fits one.
fn word_of(slot: &Slot) -> u64
    ensures { IsWordOf slot.now result }
{
    match *slot {
        Some(near) if near.dist.0 < FAR && near.index < MAX_SAMPLES => Compact::of(near).word(),
        _ => NO_WORD,
    }
}

/// For each window of some channels the nearest one that some worker has found so far, in a word. What a worker takes
/// from them is within the profile, whatever the others do.
#[derive(Drop)]
pub(crate) struct Entries<'a> {
    table: Table<(), EntriesView, EntryChannels<'a>, WithinRule, Global>,
}

impl<'a> Model for Entries<'a> {
    ghost Value = { Column };

    ghost view = { λ entries. entries.table.shared.key };

    ghost invariant = { λ entries. entries.table.shared.table_id.words ≡ length entries.table.shared.key };
}

impl<'a> Entries<'a> {
    /// Entries of the channels' windows of length `m`, of which there are so many and none is found yet. A window takes
    /// 8 bytes.
    pub(crate) fn new(
        alloc: Global,
        list: &'a Bundle,
        m: u32,
        k: u64,
        windows: u64,
    ) -> Result<Entries<'a>, Memory>
        requires { windows ≡ length (multi_of m k (map series_of list.now)) }
        ensures { IfOk result (λ entries. entries ≡ multi_of m k (map series_of list.now)) }
    {
        let words = vec![in alloc; NO_WORD; windows as usize]?;
        let key = EntryChannels { list, m, k };
        let (table, _seat) = Table::of_words(alloc, words.as_slice(), &key)?;
        Ok(Entries { table })
    }

    /// The number of windows.
    fn len(&self) -> u64
        ensures { result ≡ length self.now }
    {
        self.table.word_count() as u64
    }

    /// The word at a place.
    #[inline]
    fn find(&self, place: u64) -> u64
        requires { place < length self.now }
        ensures { IsWithin result (slice_index_or self.now place None) }
    {
        let (word, _seat) = self.table.shared.load_new_seat::<Find>(place as usize);
        word
    }

    /// Lowers the word at a place to another one, where it is higher.
    #[inline]
    fn lower(&self, place: u64, word: u64)
        requires place { place < length self.now }
        requires within { IsWithin word (slice_index_or self.now place None) }
    {
        if word == NO_WORD {
            return;
        }
        let at = place as usize;
        let (found, mut seat) = self.table.shared.load_new_seat::<Find>(at);
        if word < found {
            let _before = self.table.shared.fetch_min::<Lower>(&mut seat, at, word);
        }
    }

    /// Takes for a window the one that others have found, where it is nearer.
    #[inline]
    fn take_at(&self, place: u64, into: &mut Slots)
        requires place { place < length self.now }
        requires size { length into.old.items ≡ length self.now }
        ensures more { (first : Column) → HasMore self.now first into.old.items
            → HasMore self.now first into.new.items }
        ensures size { length into.new.items ≡ length into.old.items }
        ensures spare { into.new.spare ≡ into.old.spare }
    {
        let word = self.find(place);
        // most words tell what stands there already
        if word_of(&into.as_slice()[place as usize]) <= word {
            return;
        }
        if let Some(near) = Compact::of_word(word).slot() {
            offer_at(into, place, near.index, near.dist);
        }
    }

    /// Takes for the windows from one on and before another the nearest ones that others have found, where these are
    /// nearer than what stands there. It takes no memory.
    pub(crate) fn take(&self, from: u64, to: u64, into: &mut Slots)
        requires size { length into.old.items ≡ length self.now }
        ensures more { (first : Column) → HasMore self.now first into.old.items
            → HasMore self.now first into.new.items }
        ensures size { length into.new.items ≡ length into.old.items }
        ensures spare { into.new.spare ≡ into.old.spare }
    {
        for place in from..to.min(self.len()) {
            self.take_at(place, into);
        }
    }

    /// Tells for the windows from one on and before another what was found. It takes no memory.
    pub(crate) fn tell(&self, from: u64, to: u64, found: &Slots)
        requires size { length found.now.items ≡ length self.now }
        requires within { IsWithinColumn self.now found.now.items }
    {
        for place in from..to.min(self.len()) {
            self.lower(place, word_of(&found.as_slice()[place as usize]));
        }
    }
}
