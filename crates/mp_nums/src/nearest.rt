ghost use Rattle.std.specs.Prelude.{◌≡◌};
ghost use Rattle.mp_nums.specs.Near.{nearer_of};

/// A squared distance of two windows: the sum of the squared differences of their samples, in units of
/// `10^(-2 * scale)`.
#[derive(Clone, Copy, Debug, PartialEq, Eq, PartialOrd, Ord)]
pub struct Sq(pub u128);

/// A window, named by its start counted from 0, and its distance. The order is by distance, and then by start.
#[derive(Clone, Copy, Debug, PartialEq, Eq, PartialOrd, Ord)]
pub struct Near {
    pub dist: Sq,
    pub index: u64,
}

/// The nearest window, where there is one.
pub type Slot = Option<Near>;

/// The lesser of the two, where `None` is greater than all.
pub fn nearer(a: Slot, b: Slot) -> Slot
    ensures { result ≡ nearer_of a b }
{
    match (a, b) {
        (Some(first), Some(second)) if second < first => b,
        (None, _) => b,
        _ => a,
    }
}
