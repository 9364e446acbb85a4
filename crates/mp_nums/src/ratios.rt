ghost use Rattle.std.specs.Prelude.{◌≡◌, ◌<◌, ◌*◌};

use std::cmp::Ordering;

/// A fraction, kept as it stands and not reduced. Order and equality compare the cross products, so that `0/6`
/// equals `0/1`.
#[derive(Clone, Copy, Debug)]
pub struct Ratio {
    pub num: u64,
    pub den: u64,
    ghost positive: { 0 < den },
}

impl Ratio {
    /// The fraction `num / den`, as it stands. It takes no memory.
    pub fn new(num: u64, den: u64) -> Ratio
        requires { 0 < den }
        ensures num { result.num ≡ num }
        ensures den { result.den ≡ den }
    {
        Ratio { num, den }
    }

    /// The numerators of both over their common denominator.
    fn crossed(&self, other: &Ratio) -> (u128, u128)
        ensures first { result.0 ≡ self.now.num * other.now.den }
        ensures second { result.1 ≡ other.now.num * self.now.den }
    {
        let first = u128::from(self.num) * u128::from(other.den);
        let second = u128::from(other.num) * u128::from(self.den);
        (first, second)
    }
}

impl PartialEq for Ratio {
    ghost use Rattle.mp_nums.specs.Ratio.{ratio_eq};
    ghost use Rattle.mp_nums.specs.RatioLaws.{ratio_partial_equivalence};

    ghost eq = { ratio_eq };

    ghost laws = { ratio_partial_equivalence };

    fn eq(&self, other: &Ratio) -> bool {
        let (first, second) = self.crossed(other);
        first == second
    }
}

impl Eq for Ratio {
    ghost use Rattle.mp_nums.specs.RatioLaws.{ratio_equivalence};

    ghost laws = { ratio_equivalence };
}

impl PartialOrd for Ratio {
    ghost use Rattle.std.specs.Ordering.{as_partial_cmp};
    ghost use Rattle.mp_nums.specs.Ratio.{ratio_cmp};
    ghost use Rattle.mp_nums.specs.RatioLaws.{ratio_order};

    ghost partial_cmp = { as_partial_cmp ratio_cmp };

    ghost laws = { ratio_order };

    fn partial_cmp(&self, other: &Ratio) -> Option<Ordering> {
        Some(self.cmp(other))
    }
}

impl Ord for Ratio {
    ghost use Rattle.std.proofs.Common.{refl};
    ghost use Rattle.mp_nums.specs.Ratio.{ratio_cmp};
    ghost use Rattle.mp_nums.specs.RatioLaws.{ratio_total, ratio_matches_eq};

    ghost cmp = { ratio_cmp };

    ghost total = { ratio_total };

    ghost matches_partial_cmp = { λ a b. refl };

    ghost matches_eq = { ratio_matches_eq };

    fn cmp(&self, other: &Ratio) -> Ordering {
        let (first, second) = self.crossed(other);
        first.cmp(&second)
    }
}
