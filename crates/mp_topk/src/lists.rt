//! The lists of some places.

ghost use Rattle.std.specs.Prelude.{◌≡◌, ◌++◌, [], ◌∷◌, map, OnOk, IfOk};
ghost use Rattle.mp_topk.specs.Ranking.{lists_in, those_in};

use mp_nums::{Items, Memory, NearList, Slot};
use std::alloc::Global;

/// Appends the window, where there is one.
pub(crate) fn push_slot(list: &mut NearList, slot: Slot) -> Result<(), Memory>
    ensures { OnOk result (list.new.items ≡ list.old.items ++ those_in (slot ∷ [])) }
{
    if let Some(near) = slot {
        list.push(near)?;
    }
    Ok(())
}

/// Appends the windows of a place.
fn push_slots<const K: usize>(list: &mut NearList, slots: &[Slot; K]) -> Result<(), Memory>
    ensures { OnOk result (list.new.items ≡ list.old.items ++ those_in slots.now) }
{
    for slot in slots {
        push_slot(list, *slot)?;
    }
    Ok(())
}

fn list_of<const K: usize>(alloc: Global, slots: &[Slot; K]) -> Result<NearList, Memory>
    ensures { IfOk result (λ list. list.items ≡ those_in slots.now) }
{
    let mut list = Items::from(Vec::with_capacity(alloc, K)?);
    push_slots(&mut list, slots)?;
    Ok(list)
}

/// For each place the list of its windows.
pub(crate) fn lists_of<const K: usize>(
    alloc: Global,
    places: &[[Slot; K]],
) -> Result<Vec<NearList>, Memory>
    ensures { IfOk result (λ lists. lists_in lists.items ≡ map those_in places.now) }
{
    let mut lists = Vec::with_capacity(alloc, places.len())?;
    for place in places {
        lists.push(list_of(alloc, place)?)?;
    }
    Ok(lists)
}
