//! How many runs gave what is wanted.

ghost use Rattle.std.specs.Prelude.{◌≡◌, ◌+◌, ◌-◌, ◌^◌, ◌<◌, ◌↔◌, IsTrue, true, false};

/// How many runs gave what is wanted, and how many didn't.
#[derive(Clone, Copy, Debug, PartialEq, Eq)]
pub(crate) struct Tally {
    pub(crate) same: usize,
    pub(crate) differing: usize,
}

impl Tally {
    pub(crate) fn new() -> Tally
        ensures same { result.same ≡ 0 }
        ensures differing { result.differing ≡ 0 }
    {
        Tally {
            same: 0,
            differing: 0,
        }
    }

    /// Counts one run.
    pub(crate) fn add(&mut self, is_same: bool)
        requires { self.old.same + self.old.differing < 2 ^ 64 - 1 }
        ensures same { is_same ≡ true → self.new ≡ record self.old { same = self.old.same + 1 } }
        ensures differing { is_same ≡ false → self.new ≡ record self.old { differing = self.old.differing + 1 } }
    {
        if is_same {
            self.same += 1;
        } else {
            self.differing += 1;
        }
    }

    /// Whether no run differed.
    pub(crate) fn is_good(&self) -> bool
        ensures { IsTrue result ↔ (self.now.differing ≡ 0) }
    {
        self.differing == 0
    }
}
