//! How many arcs begin and how many end at each place. What an arc adds at its lesser end it takes away at its greater.

ghost use Rattle.std.specs.Prelude.{◌≡◌, ◌<◌, ℕ, List, length, slice_get, slice_set, Option, None, Some, IfOk, IfSome};
ghost use Rattle.mp_results.specs.Arcs.{arcs_of};
ghost use Rattle.mp_arcs.specs.Board.{AreEnds};

use mp_nums::{Memory, Places};
use std::alloc::Global;

/// Window `i` names another one, or none.
pub(crate) fn change(
    indices: &mut [Option<u64>],
    begun: &mut [u32],
    ended: &mut [u32],
    i: usize,
    new: Option<u64>,
)
    requires ends { AreEnds indices.old begun.old ended.old }
    requires window { i < length indices.old }
    requires named { IfSome new (λ j. j < length indices.old) }
    ensures indices { indices.new ≡ slice_set indices.old i new }
    ensures ends { AreEnds indices.new begun.new ended.new }
{
    erase(indices, begun, ended, i);
    if let Some(j) = new {
        draw(indices, begun, ended, i, j);
    }
}

/// Takes away the arc of window `i`.
fn erase(indices: &mut [Option<u64>], begun: &mut [u32], ended: &mut [u32], i: usize)
    requires ends { AreEnds indices.old begun.old ended.old }
    requires window { i < length indices.old }
    ensures indices { indices.new ≡ slice_set indices.old i None }
    ensures ends { AreEnds indices.new begun.new ended.new }
{
    if let Some(j) = indices[i] {
        begun[i.min(j as usize)] -= 1;
        ended[i.max(j as usize)] -= 1;
        indices[i] = None;
    }
}

/// Adds the arc of window `i`, which has none.
fn draw(indices: &mut [Option<u64>], begun: &mut [u32], ended: &mut [u32], i: usize, j: u64)
    requires ends { AreEnds indices.old begun.old ended.old }
    requires window { slice_get indices.old i ≡ Some None }
    requires named { j < length indices.old }
    ensures indices { indices.new ≡ slice_set indices.old i (Some j) }
    ensures ends { AreEnds indices.new begun.new ended.new }
{
    begun[i.min(j as usize)] += 1;
    ended[i.max(j as usize)] += 1;
    indices[i] = Some(j);
}

/// How many arcs pass over each place: those that began up to it and haven't ended.
pub(crate) fn counts(alloc: Global, begun: &[u32], ended: &[u32]) -> Result<Places, Memory>
    requires { (indices : List (Option ℕ)) × AreEnds indices begun.now ended.now }
    ensures { (indices : List (Option ℕ)) → AreEnds indices begun.now ended.now
        → IfOk result (λ counts. counts.items ≡ arcs_of indices) }
{
    let mut counts = Vec::with_capacity(alloc, begun.len())?;
    let mut passing = 0;
    for place in 0..begun.len() {
        passing = passing + u64::from(begun[place]) - u64::from(ended[place]);
        counts.push(passing)?;
    }
    Ok(Places::from(counts))
}
