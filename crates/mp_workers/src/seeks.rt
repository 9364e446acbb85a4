//! Pairs of windows that are likely near, looked for by workers side by side.

ghost use Rattle.std.specs.Prelude.{◌+◌, ◌<◌, ◌≤◌};
ghost use Rattle.std.specs.Thread.{IsSync};

use crate::aside::run_aside;
use crate::begins::Share;
use crate::joins::workers_for;
use mp_nums::Memory;
use mp_partial::MAX_WORKERS;
use mp_skips::Seeking;
use std::alloc::Global;
use std::thread::{Threads, join};

/// What a share finds, looked for by another one like the first.
fn find_one<S: Seeking>(alloc: Global, first: &S, share: Share) -> Result<S, Memory>
    requires { share.number < share.of }
{
    let mut own = first.again(alloc)?;
    own.find(share.number, share.of);
    Ok(own)
}

/// What so many shares find, from one share on, each looked for by another one like the first in a thread of its own.
#[cycle(seeks)]
fn find_some<R: Threads + Sync, S: Seeking>(
    rt: &R,
    alloc: Global,
    first: &S,
    share: Share,
    count: u32,
) -> Result<S, Memory>
    requires some { 1 ≤ count }
    requires shares { share.number + count ≤ share.of }
{
    if count == 1 {
        let mut own = || -> Result<S, Memory>
            requires { share.number < share.of }
        { find_one(alloc, first, share) };
        return run_aside(rt, &mut own);
    }
    let half = count / 2;
    let next = Share {
        number: share.number + half,
        of: share.of,
    };
    find_both(rt, alloc, first, share, half, next, count - half)
}

/// The same of two halves side by side.
#[cycle(seeks)]
fn find_both<R: Threads + Sync, S: Seeking>(
    rt: &R,
    alloc: Global,
    first: &S,
    share: Share,
    count: u32,
    next: Share,
    others: u32,
) -> Result<S, Memory>
    requires some { 1 ≤ count }
    requires shares { share.number + count ≤ share.of }
    requires some_others { 1 ≤ others }
    requires next_shares { next.number + others ≤ next.of }
{
    let front = move || -> Result<S, Memory>
        requires { IsSync R.row × IsSync S.row × (1 ≤ count) × (share.number + count ≤ share.of) }
    { find_some(rt, alloc, first, share, count) };
    let back = move || -> Result<S, Memory>
        requires { IsSync R.row × IsSync S.row × (1 ≤ others) × (next.number + others ≤ next.of) }
    { find_some(rt, alloc, first, next, others) };
    let (low, high) = join(rt, front, back);
    let (mut low, high) = (low?, high?);
    low.merge(&high);
    Ok(low)
}

/// What is looked for, a share by each of so many workers side by side. Where there are few pairs to compare, fewer do.
pub fn find_by_workers<R: Threads + Sync, S: Seeking>(
    rt: &R,
    alloc: Global,
    mut first: S,
    workers: u32,
) -> Result<S, Memory>
    requires some { 1 ≤ workers }
    requires few { workers ≤ MAX_WORKERS }
{
    let workers = workers_for(first.pairs(), workers);
    if workers == 1 {
        first.find(0, 1);
        return Ok(first);
    }
    let whole = Share {
        number: 0,
        of: workers,
    };
    find_some(rt, alloc, &first, whole, workers)
}
