ghost use Rattle.std.specs.Prelude.{◌≡◌, map, IfOk};
ghost use Rattle.mp_picks.specs.Candidates.{place_of};
ghost use Rattle.mp_results.specs.Curve.{parts_of};
ghost use Rattle.mp_results.specs.Regimes.{AreRegimes, below_one, regimes_in, regimes_of};

use mp_nums::{Memory, Places, Ratio};
use mp_picks::{Candidate, picks};
use std::alloc::{AllocError, Global};

/// The places of at most `count` regimes: the place with the least value below one, the smallest one on a tie, then of
/// the places that are further from it than `zone` the one with the least value, and so on. The order is FLUSS's; the
/// ties and the zone are our own.
pub fn regimes(alloc: Global, curve: &[Ratio], zone: u64, count: u64) -> Result<Places, Memory>
    ensures regimes { IfOk result (λ places. places.items ≡ regimes_of curve.now zone count) }
    ensures described { IfOk result (λ places. AreRegimes curve.now zone count places.items) }
    ensures by_parts { IfOk result (λ places. places.items ≡ regimes_in (map parts_of curve.now) zone count) }
{
    let low = low_values(alloc, curve)?;
    let chosen = picks(alloc, low.as_slice(), zone, count)?;
    Ok(Places::from(places_of(alloc, chosen.as_slice())?))
}

fn low_values(alloc: Global, curve: &[Ratio]) -> Result<Vec<Option<Ratio>>, AllocError>
    ensures { IfOk result (λ low. low.items ≡ map below_one curve.now) }
{
    curve.iter().map(below_one).collect(alloc)
}

fn below_one(value: &Ratio) -> Option<Ratio>
    ensures { result ≡ below_one value.now }
{
    (value.num < value.den).then_some(*value)
}

fn places_of(alloc: Global, chosen: &[Candidate<Ratio>]) -> Result<Vec<u64>, AllocError>
    ensures { IfOk result (λ places. places.items ≡ map place_of chosen.now) }
{
    chosen
        .iter()
        .map(|candidate| candidate.place)
        .collect(alloc)
}
