//! Several series together.

ghost use Rattle.std.specs.Prelude.{◌≡◌, ◌<◌, [], ◌∷◌, ◌++◌, length, slice_get, Some, OnOk, OnErr};

use mp_nums::{Memory, Sample};
use std::alloc::Global;
use std::marker::Model;

/// Several series, seen as their list, in the order in which they were added.
#[derive(Debug, Drop)]
pub struct Bundle {
    stored: Vec<Vec<Sample>>,
}

impl Model for Bundle {
    ghost use Rattle.std.specs.Prelude.{List, map};
    ghost use Rattle.mp_nums.specs.declared.samples.Sample.{Sample};

    ghost Value = { List (List Sample) };

    ghost view = { λ bundle. map (λ series. series.items) bundle.stored.items };
}

impl Bundle {
    /// No series. It takes no memory.
    pub fn new(alloc: Global) -> Bundle
        ensures { result ≡ [] }
    {
        Bundle {
            stored: Vec::new(alloc),
        }
    }

    /// Adds a copy of the series as the last.
    pub fn add(&mut self, series: &[Sample]) -> Result<(), Memory>
        ensures ok { OnOk result (self.new ≡ self.old ++ series.now ∷ []) }
        ensures err { OnErr result (self.new ≡ self.old) }
    {
        let copy = Vec::from_slice(*self.stored.allocator(), series)?;
        self.stored.push(copy)?;
        Ok(())
    }

    /// How many series there are.
    pub fn count(&self) -> u64
        ensures { result ≡ length self.now }
    {
        self.stored.len() as u64
    }

    /// Series `c`, counted from 0.
    pub fn series(&self, c: u64) -> &[Sample]
        requires { c < length self.now }
        ensures { slice_get self.now c ≡ Some result.now }
    {
        self.stored[c as usize].as_slice()
    }
}

/// The series as they stand, in their order. It takes no memory.
impl From<Vec<Vec<Sample>>> for Bundle {
    ghost use Rattle.std.specs.Prelude.{◌≡◌, map};

    ghost from_gives = { λ stored bundle. bundle ≡ map (λ series. series.items) stored.items };

    fn from(stored: Vec<Vec<Sample>>) -> Bundle {
        Bundle { stored }
    }
}
