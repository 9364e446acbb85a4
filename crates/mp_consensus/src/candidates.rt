//! Windows of which one may be the centre.

ghost use Rattle.std.specs.Prelude.{◌≡◌, ℕ, ◌⊎◌, IfSome, Some};
ghost use Rattle.mp_consensus.specs.Searches.{IsNoLater, Leads};

use mp_nums::Sq;

/// A window, the one that starts at `start` of the series at `place`, and its radius. The order is that of centres: by
/// radius, then by place, then by start.
#[derive(Clone, Copy, Debug, PartialEq, Eq, PartialOrd, Ord)]
pub(crate) struct Candidate {
    pub(crate) radius: Sq,
    pub(crate) place: u64,
    pub(crate) start: u64,
}

/// The one that comes first.
pub(crate) fn first_of(best: Option<Candidate>, found: Candidate) -> Candidate
    ensures either { (result ≡ found) ⊎ (best ≡ Some result) }
    ensures found { IsNoLater result found.radius.0 found.place found.start }
    ensures best { IfSome best (λ c. IsNoLater result c.radius.0 c.place c.start) }
{
    match best {
        Some(best) if best < found => best,
        _ => found,
    }
}

/// The one of both that comes first.
pub(crate) fn first_of_both(best: Option<Candidate>, found: Option<Candidate>) -> Option<Candidate>
    ensures either { (result ≡ best) ⊎ (result ≡ found) }
    ensures best { (r p i : ℕ) → Leads best r p i → Leads result r p i }
    ensures found { (r p i : ℕ) → Leads found r p i → Leads result r p i }
{
    match found {
        Some(found) => Some(first_of(best, found)),
        None => best,
    }
}
