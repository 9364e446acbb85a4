//! Slots of places from words that no worker lowers any more.

ghost use Rattle.std.specs.Prelude.{◌≡◌, ◌+◌, ◌*◌, ◌≤◌, map, IfOk};
ghost use Rattle.std.specs.Mem.Slots.{IsFull, slots_items, slots_len};
ghost use Rattle.mp_topk.specs.Ranking.{those_in};
ghost use Rattle.mp_topk.specs.Words.{nears, nears_of};

use atomic_table::Closed;
use mp_nums::Memory;
use mp_tiles::Compact;
use std::alloc::Global;

/// The slots that `K` words side by side tell.
#[inline]
fn slots_from<const K: usize>(words: &Closed<(), Global>, first: usize) -> [Compact; K]
    requires within { first + K ≤ slots_len words.now.words }
    requires full { IsFull words.now.words }
    ensures { those_in result ≡ nears (slots_items words.now.words) first K }
{
    let none = Compact::none();
    let mut slots = [none; K];
    for rank in 0..K {
        slots[rank] = Compact::of_word(words.word(first + rank));
    }
    slots
}

/// The slots of so many places, each of which has `K` words.
pub(crate) fn slots_in_words<const K: usize>(
    alloc: Global,
    words: &Closed<(), Global>,
    count: u64,
) -> Result<Vec<[Compact; K]>, Memory>
    requires within { count * K ≤ slots_len words.now.words }
    requires full { IsFull words.now.words }
    ensures { IfOk result (λ places. map those_in places.items ≡ nears_of (slots_items words.now.words) K count) }
{
    let _words = words.words.len();
    let mut places = Vec::with_capacity(alloc, count as usize)?;
    for place in 0..count {
        places.push(slots_from(words, place as usize * K))?;
    }
    Ok(places)
}
