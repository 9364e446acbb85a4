ghost use Rattle.std.specs.Prelude.{◌≡◌};
ghost use Rattle.mp_outside.specs.Planned.{is_next_to_fail, after_call};

use std::marker::Model;

/// Which calls of an object are to fail.
#[derive(Debug, Drop)]
pub(crate) struct FaultPlan {
    fail: Vec<u64>,
    calls: u128,
    faults: u64,
}

impl Model for FaultPlan {
    ghost use Rattle.mp_outside.specs.Planned.{PlanState};

    ghost Value = { PlanState };

    ghost view = { λ a. record { fail = a.fail.items; calls = a.calls; faults = a.faults } };
}

impl FaultPlan {
    /// A plan to fail the calls of these numbers, counted from 0. None was made yet.
    pub(crate) fn new(fail: Vec<u64>) -> FaultPlan
        ensures { result ≡ record { fail = fail.items; calls = 0; faults = 0 } }
    {
        FaultPlan {
            fail,
            calls: 0,
            faults: 0,
        }
    }

    /// Counts one more call, and answers whether it is to fail.
    pub(crate) fn fails(&mut self) -> bool
        ensures fails { result ≡ is_next_to_fail self.old }
        ensures after { self.new ≡ after_call self.old }
    {
        let fails = self.is_next_to_fail();
        self.calls = self.calls.saturating_add(1);
        if fails {
            self.faults = self.faults.saturating_add(1);
        }
        fails
    }

    fn is_next_to_fail(&self) -> bool
        ensures { result ≡ is_next_to_fail self.now }
    {
        self.fail
            .iter()
            .any(|number| u128::from(*number) == self.calls)
    }
}
