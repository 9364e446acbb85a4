//! The rows of a block: windows of one series that may still be the centre, and how far they reach.

ghost use Rattle.std.specs.Prelude.{◌≡◌, ℕ, ◌<◌, false, length, slice_index_or, All, IfOk, Some, None};
ghost use Rattle.mp_consensus.specs.Searches.{as_square};
ghost use Rattle.mp_consensus.specs.Searches.{is_at_end, reach_with, renewed, start_of};

use mp_nums::{Items, Memory, Near, Slot, Slots, Sq};
use std::alloc::Global;

/// How far a row reaches: the greatest distance to its nearest windows at the places so far, and none once it is given
/// up.
pub(crate) type Reach = Option<Sq>;

/// The reaches of so many rows that were compared with no place yet.
pub(crate) fn unreached(alloc: Global, count: u64) -> Result<Vec<Reach>, Memory>
    ensures places { IfOk result (λ reaches. length reaches.items ≡ count) }
    ensures each { IfOk result (λ reaches. (i : ℕ) → i < count
        → slice_index_or reaches.items i None ≡ Some (as_square 0)) }
{
    let mut reaches = Vec::with_capacity(alloc, count as usize)?;
    for _ in 0..count {
        reaches.push(Some(Sq(0)))?;
    }
    Ok(reaches)
}

/// What stands in a row's slot before its windows are compared. A row that was given up takes none. Where there is an
/// end, the others take those that are nearer.
fn start(end: Option<Sq>, reach: Reach) -> Slot
    ensures { result ≡ start_of end reach }
{
    match (reach, end) {
        (None, _) => Some(Near {
            dist: Sq(0),
            index: 0,
        }),
        (Some(_), None) => None,
        (Some(_), Some(dist)) => Some(Near { dist, index: 0 }),
    }
}

/// The same for each row.
pub(crate) fn starts(alloc: Global, end: Option<Sq>, reaches: &[Reach]) -> Result<Slots, Memory>
    ensures places { IfOk result (λ slots. length slots.items ≡ length reaches.now) }
    ensures each { IfOk result (λ slots. (i : ℕ) → i < length reaches.now
        → slice_index_or slots.items i None ≡ start_of end (slice_index_or reaches.now i None)) }
{
    let mut slots = Items::new(alloc);
    slots.reserve(reaches.len() as u64)?;
    for reach in reaches {
        slots.push(start(end, *reach))?;
    }
    Ok(slots)
}

/// Whether a distance lies at the end or behind it.
fn is_at_end(end: Option<Sq>, dist: Sq) -> bool
    ensures { result ≡ is_at_end end dist.0 }
{
    match end {
        Some(end) => end <= dist,
        None => false,
    }
}

/// How far a row reaches once it was compared with the windows of one more place, of which its slot has the nearest. It
/// is given up where there is none before the end.
fn reach_with(end: Option<Sq>, reach: Reach, slot: Slot) -> Reach
    ensures { result ≡ reach_with end reach slot }
{
    let (reach, near) = (reach?, slot?);
    if is_at_end(end, near.dist) {
        None
    } else {
        Some(Sq(reach.0.max(near.dist.0)))
    }
}

/// The same for each row.
pub(crate) fn reach_on(end: Option<Sq>, reaches: &mut [Reach], slots: &[Slot])
    requires { length slots.now ≡ length reaches.old }
    ensures places { length reaches.new ≡ length reaches.old }
    ensures each { (i : ℕ) → i < length reaches.old → slice_index_or reaches.new i None
        ≡ reach_with end (slice_index_or reaches.old i None) (slice_index_or slots.now i None) }
{
    for i in 0..reaches.len() {
        reaches[i] = reach_with(end, reaches[i], slots[i]);
    }
}

/// A row that is left, compared with no place yet.
fn renewed(reach: Reach) -> Reach
    ensures { result ≡ renewed reach }
{
    match reach {
        Some(_) => Some(Sq(0)),
        None => None,
    }
}

/// The same for each row.
fn renew_each(reaches: &mut [Reach])
    ensures places { length reaches.new ≡ length reaches.old }
    ensures each { (i : ℕ) → i < length reaches.old → slice_index_or reaches.new i None
        ≡ renewed (slice_index_or reaches.old i None) }
{
    for i in 0..reaches.len() {
        reaches[i] = renewed(reaches[i]);
    }
}

/// The rows that are left begin anew.
pub(crate) fn renew(reaches: &mut Vec<Reach>)
    ensures places { length reaches.new.items ≡ length reaches.old.items }
    ensures each { (i : ℕ) → i < length reaches.old.items → slice_index_or reaches.new.items i None
        ≡ renewed (slice_index_or reaches.old.items i None) }
{
    renew_each(reaches.as_mut_slice());
}

/// Whether a row is left that isn't given up.
pub(crate) fn is_any_left(reaches: &[Reach]) -> bool
    ensures { result ≡ false → All (λ reach. reach ≡ None) reaches.now }
{
    for reach in reaches {
        if reach.is_some() {
            return true;
        }
    }
    false
}
