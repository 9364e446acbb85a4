//! Unusual windows.

ghost use Rattle.std.specs.Prelude.{◌≡◌, ◌≤◌, map, IfOk};
ghost use Rattle.mp_motifs.specs.Described.{AreDiscords};
ghost use Rattle.mp_results.specs.Discords.{discords};
ghost use Rattle.mp_motifs.specs.Retold.{discord_of, peak_key, peak_of};

use mp_nums::{Discord, Memory, Near, Slot, Sq};
use mp_picks::{Candidate, picks};
use std::alloc::{AllocError, Global};
use std::cmp::Reverse;

/// An entry as a key: the one with the greatest distance comes first.
#[derive(Clone, Copy)]
#[derive_where(PartialEq, Eq, PartialOrd, Ord)]
struct Peak {
    dist: Reverse<Sq>,
    #[derive_where(skip(EqHashOrd))]
    index: u64,
}

fn peak_at(near: Near) -> Peak
    ensures { result ≡ peak_of near }
{
    Peak {
        dist: Reverse(near.dist),
        index: near.index,
    }
}

fn peaks(alloc: Global, profile: &[Slot]) -> Result<Vec<Option<Peak>>, AllocError>
    ensures { IfOk result (λ keys. keys.items ≡ map peak_key profile.now) }
{
    profile.iter().map(|slot| slot.map(peak_at)).collect(alloc)
}

fn discord(found: &Candidate<Peak>) -> Discord
    ensures { result ≡ discord_of found.now }
{
    Discord {
        start: found.place,
        near: Near {
            dist: found.key.dist.0,
            index: found.key.index,
        },
    }
}

fn told(alloc: Global, found: &[Candidate<Peak>]) -> Result<Vec<Discord>, AllocError>
    ensures { IfOk result (λ discords. discords.items ≡ map discord_of found.now) }
{
    found.iter().map(discord).collect(alloc)
}

/// At most `count` windows with the greatest distances to their nearest windows, the first of them by start where these
/// are equal, and no two of them closer than the zone. A window without an entry is none of them.
pub fn discords(
    alloc: Global,
    profile: &[Slot],
    excl: u64,
    count: u64,
) -> Result<Vec<Discord>, Memory>
    requires { 1 ≤ count }
    ensures discords { IfOk result (λ found. found.items ≡ discords profile.now excl count) }
    ensures described { IfOk result (λ found. AreDiscords profile.now excl count found.items) }
{
    let keys = peaks(alloc, profile)?;
    let found = picks(alloc, keys.as_slice(), excl, count)?;
    Ok(told(alloc, found.as_slice())?)
}
