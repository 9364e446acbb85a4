//! The search for the centre, by workers side by side.

ghost use Rattle.std.specs.Prelude.{◌≡◌, ◌+◌, ◌<◌, ◌≤◌, [], length, map, All, IfOk, IfSome};
ghost use Rattle.std.specs.Option.{option_map};
ghost use Rattle.std.specs.Thread.{IsSync};
ghost use Rattle.mp_partial.specs.declared.limits.TheConstants.{MAX_WORKERS};
ghost use Rattle.mp_workers.specs.Teams.{HasPast};
ghost use Rattle.mp_defs.specs.Series.{series_of};
ghost use Rattle.mp_results.specs.Consensus.{centre_of};
ghost use Rattle.mp_consensus.specs.Bounds.{least_radius};
ghost use Rattle.mp_consensus.specs.Conditions.{MayBeCompared};
ghost use Rattle.mp_consensus.specs.Searches.{IsWindow, central_by};
ghost use Rattle.mp_consensus.specs.Searchers.{HasFound, IsDone, IsReady, IsSearch};

use crate::blocks::count_pieces;
use crate::bounds::Bound;
use crate::candidates::{Candidate, first_of_both};
use crate::lookers::Looker;
use crate::searchers::{Search, Searcher};
use mp_nums::Memory;
use mp_outside::Gate;
use mp_partial::MAX_WORKERS;
use mp_series::Bundle;
use mp_workers::{Desk, Pass, run_aside};
use std::alloc::Global;
use std::thread::{Threads, join_mut};

/// How many of the workers are started: no more than there are pieces, and at least one.
fn with_work(workers: u32, pieces: u64) -> u32
    requires { 1 ≤ workers }
    ensures some { 1 ≤ result }
    ensures within { result ≤ workers }
{
    u64::from(workers).min(pieces).max(1) as u32
}

/// So many workers, each with a pass that is cut off from this one, and with a looker of its own.
fn hire(
    alloc: Global,
    search: &Search,
    pass: &mut Pass,
    looker: &mut Looker,
    count: u32,
) -> Result<Vec<Searcher>, Memory>
    requires desk { pass.old.desk ≡ search.now.desk }
    requires unused { pass.old.drawn ≡ [] }
    requires weight { count < pass.old.weight }
    requires bound { looker.old.bound ≡ search.now.bound }
    requires least { looker.old.least ≡ least_radius search.now.m search.now.list.now }
    ensures desk { IfOk result (λ _. pass.new.desk ≡ search.now.desk) }
    ensures unused { IfOk result (λ _. pass.new.drawn ≡ []) }
    ensures weight { IfOk result (λ _. pass.new.weight + count ≡ pass.old.weight) }
    ensures count { IfOk result (λ team. length team.items ≡ count) }
    ensures ready { IfOk result (λ team. All (IsReady search.now) team.items) }
{
    let mut team = Vec::with_capacity(alloc, count as usize)?;
    for number in 0..count {
        team.push(Searcher {
            number,
            pass: search.desk.split(pass),
            looker: search.bound.split(looker),
            best: None,
            outcome: Ok(()),
        })?;
    }
    Ok(team)
}

/// Runs a team of one worker, until no piece is left.
fn run_one<G: Gate>(alloc: Global, search: &Search, team: &mut [Searcher], gate: &G)
    requires search { IsSearch search.now }
    requires one { length team.old ≡ 1 }
    requires ready { All (IsReady search.now) team.old }
    ensures { All (IsDone search.now) team.new }
{
    team[0].run(alloc, search, gate);
}

/// Runs all workers side by side, each in a thread of its own, until no piece is left.
#[cycle(teams)]
fn run_team<R: Threads + Sync, G: Gate>(
    rt: &R,
    alloc: Global,
    search: &Search,
    team: &mut [Searcher],
    gate: &G,
)
    requires search { IsSearch search.now }
    requires some { 0 < length team.old }
    requires ready { All (IsReady search.now) team.old }
    ensures { All (IsDone search.now) team.new }
{
    if team.len() == 1 {
        let mut one = ||
            requires { IsSearch search.now × (length team.now ≡ 1) × All (IsReady search.now) team.now }
            ensures { All (IsDone search.entry.now) team.exit.now }
        { run_one(alloc, search, team, gate) };
        run_aside(rt, &mut one);
        return;
    }
    let (low, high) = team.split_at_mut(team.len() / 2);
    run_halves(rt, alloc, search, low, high, gate);
}

/// Runs two halves of the workers side by side.
#[cycle(teams)]
fn run_halves<R: Threads + Sync, G: Gate>(
    rt: &R,
    alloc: Global,
    search: &Search,
    low: &mut [Searcher],
    high: &mut [Searcher],
    gate: &G,
)
    requires search { IsSearch search.now }
    requires some { 0 < length low.old }
    requires others { 0 < length high.old }
    requires ready { All (IsReady search.now) low.old }
    requires others_ready { All (IsReady search.now) high.old }
    ensures low { All (IsDone search.now) low.new }
    ensures high { All (IsDone search.now) high.new }
{
    let mut front = ||
        requires { IsSync R.row × IsSync G.row × IsSearch search.now × (0 < length low.now)
            × All (IsReady search.now) low.now }
        ensures { All (IsDone search.entry.now) low.exit.now }
    { run_team(rt, alloc, search, low, gate) };
    let mut back = ||
        requires { IsSync R.row × IsSync G.row × IsSearch search.now × (0 < length high.now)
            × All (IsReady search.now) high.now }
        ensures { All (IsDone search.entry.now) high.exit.now }
    { run_team(rt, alloc, search, high, gate) };
    join_mut(rt, &mut front, &mut back);
}

/// The same for a team in a vector.
fn run_all<R: Threads + Sync, G: Gate>(
    rt: &R,
    alloc: Global,
    search: &Search,
    team: &mut Vec<Searcher>,
    gate: &G,
)
    requires search { IsSearch search.now }
    requires some { 0 < length team.old.items }
    requires ready { All (IsReady search.now) team.old.items }
    ensures count { length team.new.items ≡ length team.old.items }
    ensures done { All (IsDone search.now) team.new.items }
{
    if team.len() == 1 {
        run_one(alloc, search, team.as_mut_slice(), gate);
    } else {
        run_team(rt, alloc, search, team.as_mut_slice(), gate);
    }
}

/// Takes in the passes of all workers, and tells the first of the best candidates that they found.
fn gather(
    search: &Search,
    pass: &mut Pass,
    mut team: Vec<Searcher>,
) -> Result<Option<Candidate>, Memory>
    requires desk { pass.old.desk ≡ search.now.desk }
    requires unused { pass.old.drawn ≡ [] }
    requires some { 0 < length team.items }
    requires done { All (IsDone search.now) team.items }
    ensures desk { IfOk result (λ _. pass.new.desk ≡ search.now.desk) }
    ensures weight { IfOk result (λ _. pass.new.weight ≡ pass.old.weight + length team.items) }
    ensures found { IfOk result (λ best. HasFound search.now pass.new.drawn best) }
    ensures past { IfOk result (λ _. HasPast search.now.pieces pass.new.drawn) }
{
    let mut best = None;
    while let Some(searcher) = team.pop() {
        let Searcher {
            pass: other,
            best: found,
            outcome,
            ..
        } = searcher;
        outcome?;
        search.desk.join(pass, other);
        best = first_of_both(best, found);
    }
    Ok(best)
}

/// The best candidate of all windows of 2 to 64 series, found by so many workers.
pub(crate) fn search<R: Threads + Sync, G: Gate>(
    rt: &R,
    alloc: Global,
    list: &Bundle,
    m: u32,
    workers: u32,
    gate: &G,
) -> Result<Option<Candidate>, Memory>
    requires conditions { MayBeCompared list.now m }
    requires some { 1 ≤ workers }
    requires few { workers ≤ MAX_WORKERS }
    ensures window { IfOk result (λ best. IfSome best (IsWindow m (map series_of list.now))) }
    ensures centre { IfOk result (λ best. option_map (central_by m (map series_of list.now)) best
        ≡ centre_of m (map series_of list.now)) }
{
    let pieces = count_pieces(list, m);
    let (desk, mut pass) = Desk::new(alloc, pieces)?;
    let (bound, mut looker) = Bound::new(alloc, list, m)?;
    let search = Search {
        list,
        m,
        pieces,
        desk,
        bound,
    };
    let workers = with_work(workers, pieces);
    let mut team = hire(alloc, &search, &mut pass, &mut looker, workers)?;
    run_all(rt, alloc, &search, &mut team, gate);
    let best = gather(&search, &mut pass, team)?;
    let Search { desk, .. } = search;
    // the passes are one again, and show that each piece was drawn
    let _next = desk.close(pass);
    Ok(best)
}
