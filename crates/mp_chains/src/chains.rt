ghost use Rattle.std.specs.Prelude.{◌≡◌, ◌<◌, ℕ, map, length, IfOk, OnOk, Some};
ghost use Rattle.mp_results.specs.Columns.{index_at, named_back, AreColumns};
ghost use Rattle.mp_results.specs.Chains.{chain_from, chains_of};

use mp_nums::{Memory, Places, Slot};
use std::alloc::Global;

/// The chain from window `j`: `j`, its successor, the successor of that, and so on to the end.
///
/// `left` and `right` have the nearest earlier and the nearest later window of each window, or none. A window is
/// succeeded by the one that it names to the right, where that one names it to the left. The rule is our own, after
/// `atsc` of STUMPY.
pub fn anchored(alloc: Global, left: &[Slot], right: &[Slot], j: u64) -> Result<Places, Memory>
    requires columns { AreColumns left.now right.now }
    requires start { j < length right.now }
    ensures { IfOk result (λ chain. chain.items ≡ chain_from left.now right.now j) }
{
    let mut chain = Places::new(alloc);
    chain.push(j)?;
    let mut last = j;
    while let Some(next) = named_back(right, left, last) {
        chain.push(next)?;
        last = next;
    }
    Ok(chain)
}

/// All chains, by rising start: those from the windows that succeed none. Each window stands in one of them. The rule
/// is our own, after `allc` of STUMPY. It takes time linear in the number of windows.
pub fn all_chains(alloc: Global, left: &[Slot], right: &[Slot]) -> Result<Vec<Places>, Memory>
    requires { AreColumns left.now right.now }
    ensures { IfOk result (λ chains. map (λ chain. chain.items) chains.items ≡ chains_of left.now right.now) }
{
    let mut chains = Vec::new(alloc);
    for j in 0..right.len() as u64 {
        if named_back(left, right, j).is_none() {
            chains.push(anchored(alloc, left, right, j)?)?;
        }
    }
    Ok(chains)
}

/// The window that the column names at `j`, where the other column names `j` there.
fn named_back(column: &[Slot], other: &[Slot], j: u64) -> Option<u64>
    requires within { j < length column.now }
    requires named { (k : ℕ) → index_at column.now j ≡ Some k → k < length other.now }
    ensures { result ≡ named_back column.now other.now j }
{
    let there = index_at(column, j)?;
    let back = index_at(other, there)?;
    (back == j).then_some(there)
}

pub(crate) fn index_at(column: &[Slot], j: u64) -> Option<u64>
    requires { j < length column.now }
    ensures { result ≡ index_at column.now j }
{
    match column[j as usize] {
        None => None,
        Some(near) => Some(near.index),
    }
}
