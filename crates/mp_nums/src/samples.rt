//! Samples: whole numbers of 48 bits, and missing ones.

ghost use Rattle.std.specs.Prelude.{◌≡◌, ◌↔◌, ◌≤ℤ◌, IsSome, IfSome};
ghost use Rattle.mp_nums.specs.Whole.{IsWhole, least_whole, greatest_whole};

use std::marker::Model;

/// The least number of 48 bits with sign.
const LEAST: i64 = -140_737_488_355_328;

/// The greatest number of 48 bits with sign.
const GREATEST: i64 = 140_737_488_355_327;

/// A whole number of 48 bits with sign.
#[derive(Clone, Copy, Debug, PartialEq, Eq, PartialOrd, Ord)]
pub struct Whole {
    number: i64,
}

impl Model for Whole {
    ghost use Rattle.std.specs.Prelude.{ℤ};
    ghost use Rattle.mp_nums.specs.Whole.{IsWhole};

    ghost Value = { ℤ };

    ghost view = { λ whole. whole.number };

    ghost invariant = { λ whole. IsWhole whole.number };

    ghost inverse = { λ number. record { number = number } };
}

impl Whole {
    /// The number, where it has no more than 48 bits with sign. It takes no memory.
    pub fn new(number: i64) -> Option<Whole>
        ensures whole { IsSome result ↔ IsWhole number }
        ensures value { IfSome result (λ whole. whole ≡ number) }
    {
        if LEAST <= number && number <= GREATEST {
            Some(Whole { number })
        } else {
            None
        }
    }

    /// The number. It takes no memory.
    #[inline]
    pub fn get(&self) -> i64
        ensures value { result ≡ self.now }
        ensures least { least_whole ≤ℤ result }
        ensures greatest { result ≤ℤ greatest_whole }
    {
        self.number
    }
}

/// A number of 32 bits has no more than 48. It takes no memory.
impl From<i32> for Whole {
    ghost use Rattle.std.specs.Prelude.{◌≡◌};

    ghost from_gives = { λ number whole. whole ≡ number };

    #[inline]
    fn from(number: i32) -> Whole {
        Whole {
            number: i64::from(number),
        }
    }
}

/// One measured value of a series, in units of `10^-scale`, or a value that is missing.
#[derive(Clone, Copy, Debug, PartialEq, Eq)]
pub enum Sample {
    Missing,
    Value(Whole),
}
