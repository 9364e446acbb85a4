//! Matches of a pattern.

ghost use Rattle.std.specs.Prelude.{◌≡◌, ◌-◌, ◌≤◌, ◌++◌, length, map, None, IfOk, IsSome, slice_index_or};
ghost use Rattle.std.specs.List.{enumerate_from};
ghost use Rattle.std.specs.Option.{ForSome, option_to_list};
ghost use Rattle.mp_motifs.specs.Described.{AreMatches};
ghost use Rattle.mp_results.specs.Matches.{given, matches};
ghost use Rattle.mp_motifs.specs.Retold.{match_key, near_of};

use mp_nums::{Items, Memory, Near, NearList, Sq};
use mp_picks::{Candidate, picks};
use std::alloc::{AllocError, Global};

/// Which windows may match: those within the radius, and outside the zone of the one that is given.
#[derive(Clone, Copy)]
struct Matching {
    excl: u64,
    radius: Sq,
    given: Option<Near>,
}

impl Matching {
    /// The distance of a window that may match.
    #[inline]
    fn key(&self, start: u64, dist: Option<Sq>) -> Option<Sq>
        ensures { result ≡ match_key self.now.excl self.now.radius.0 self.now.given (start, dist) }
    {
        let dist = dist?;
        let is_outside = match self.given {
            Some(near) => self.excl < near.index.abs_diff(start),
            None => true,
        };
        if dist <= self.radius && is_outside {
            Some(dist)
        } else {
            None
        }
    }

    fn keys(&self, alloc: Global, dist: &[Option<Sq>]) -> Result<Vec<Option<Sq>>, AllocError>
        ensures { IfOk result (λ keys. keys.items
            ≡ map (match_key self.now.excl self.now.radius.0 self.now.given) (enumerate_from 0 dist.now)) }
    {
        dist.iter()
            .enumerate()
            .map(|(start, dist)| self.key(start as u64, *dist))
            .collect(alloc)
    }
}

fn near(found: &Candidate<Sq>) -> Near
    ensures { result ≡ near_of found.now }
{
    Near {
        dist: found.key,
        index: found.place,
    }
}

/// The place that is given, with its distance.
fn given_window(dist: &[Option<Sq>], first: Option<u64>) -> Option<Near>
    requires { ForSome first (λ start. IsSome (slice_index_or dist.now start None)) }
    ensures { result ≡ given dist.now first }
{
    let start = first?;
    Some(Near {
        dist: dist[start as usize].unwrap(),
        index: start,
    })
}

/// How many may be listed behind the one that is given.
fn room(given: Option<Near>, max: u64) -> u64
    requires { 1 ≤ max }
    ensures { result ≡ max - length (option_to_list given) }
{
    match given {
        Some(_) => max - 1,
        None => max,
    }
}

/// The one that is given, and behind it those that were found.
fn listed(
    alloc: Global,
    given: Option<Near>,
    found: &[Candidate<Sq>],
) -> Result<Vec<Near>, AllocError>
    ensures { IfOk result (λ list. list.items ≡ option_to_list given ++ map near_of found.now) }
{
    let mut list = Vec::with_capacity(alloc, found.len() + 1)?;
    if let Some(near) = given {
        list.push(near)?;
    }
    for candidate in found {
        list.push(near(candidate))?;
    }
    Ok(list)
}

/// The windows that match, by their distances: the place that is given as the first, and at most so many windows that
/// `max` are listed in all. Each of these is at most the radius away, and the starts of any two of the list are further
/// apart than the zone. The nearest is listed first, the first by start among equally near ones.
pub fn matches(
    alloc: Global,
    dist: &[Option<Sq>],
    excl: u64,
    first: Option<u64>,
    radius: Sq,
    max: u64,
) -> Result<NearList, Memory>
    requires first { ForSome first (λ start. IsSome (slice_index_or dist.now start None)) }
    requires max { 1 ≤ max }
    ensures matches { IfOk result (λ list. list.items ≡ matches dist.now excl first radius.0 max) }
    ensures described { first ≡ None
        → IfOk result (λ list. AreMatches dist.now excl radius.0 max list.items) }
{
    let given = given_window(dist, first);
    let matching = Matching {
        excl,
        radius,
        given,
    };
    let keys = matching.keys(alloc, dist)?;
    let found = picks(alloc, keys.as_slice(), excl, room(given, max))?;
    Ok(Items::from(listed(alloc, given, found.as_slice())?))
}
