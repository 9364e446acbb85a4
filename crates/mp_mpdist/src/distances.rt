ghost use Rattle.std.specs.Prelude.{◌≡◌, ◌≤◌, ◌++◌, IfOk, OnOk};
ghost use Rattle.std.specs.List.{filter_map};
ghost use Rattle.std.specs.Option.{option_map};
ghost use Rattle.mp_series.specs.declared.limits.TheConstants.{MAX_SAMPLES};
ghost use Rattle.mp_results.specs.Mpdist.{distance_in, distances_of, in_rising_order, at_or_greatest, mpdist_of};
ghost use Rattle.mp_results.specs.Slide.{square};

use mp_nums::{Memory, Slot, Sq};
use mp_series::MAX_SAMPLES;
use std::alloc::{AllocError, Global};

/// One part in so many of the samples is the place.
const PARTS: u64 = 20;

/// MPdist of two series of `na` and `nb` samples, as a square. `ab` is the join of the first series in the second, and
/// `ba` that of the second in the first: a nearest window, or none, for each window.
///
/// The distances of both stand in rising order, and behind them the windows that have none. The item at a twentieth of
/// the samples of both series is the answer, or the greatest distance where that item has none. It is `None` exactly
/// where there is no distance. The measure is the known one; the exact place and the greatest distance in place of
/// a missing one are this project's own rule.
pub fn mpdist(
    alloc: Global,
    ab: &[Slot],
    ba: &[Slot],
    na: u64,
    nb: u64,
) -> Result<Option<Sq>, Memory>
    requires na { na ≤ MAX_SAMPLES }
    requires nb { nb ≤ MAX_SAMPLES }
    ensures { IfOk result (λ answer. answer ≡ mpdist_of ab.now ba.now na nb) }
{
    let mut distances = distances_of(alloc, ab, ba)?;
    let items = ab.len() + ba.len();
    let place = (na + nb).div_ceil(PARTS) as usize;
    let place = place.min(items.saturating_sub(1));
    Ok(at_or_greatest(distances.as_mut_slice(), place))
}

fn distances_of(alloc: Global, ab: &[Slot], ba: &[Slot]) -> Result<Vec<u128>, AllocError>
    ensures { IfOk result (λ distances. distances.items ≡ distances_of ab.now ba.now) }
{
    let mut distances = Vec::with_capacity(alloc, ab.len() + ba.len())?;
    push_distances(&mut distances, ab)?;
    push_distances(&mut distances, ba)?;
    Ok(distances)
}

fn push_distances(distances: &mut Vec<u128>, join: &[Slot]) -> Result<(), AllocError>
    ensures { OnOk result (distances.new.items ≡ distances.old.items ++ filter_map distance_in join.now) }
{
    for slot in join {
        if let Some(near) = slot {
            distances.push(near.dist.0)?;
        }
    }
    Ok(())
}

// The distance at the place, if they were in rising order. They are put into another order on the way.
fn at_or_greatest(distances: &mut [u128], place: usize) -> Option<Sq>
    ensures { result ≡ option_map square (at_or_greatest place (in_rising_order distances.old)) }
{
    if distances.is_empty() {
        return None;
    }
    let place = place.min(distances.len() - 1);
    let (_, distance, _) = distances.select_nth_unstable(place);
    Some(Sq(*distance))
}
