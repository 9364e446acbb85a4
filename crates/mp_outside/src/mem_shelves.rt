ghost use Rattle.std.specs.Prelude.{◌≡◌, ◌-◌, ◌^◌, ◌<◌, ◌≤◌, ◌↔◌, min, length, vec_len, Some, None, IfOk, OnOk, OnErr};
ghost use Rattle.std.specs.Prelude.{IsErrOf, IsTrue};
ghost use Rattle.std.specs.Option.{IsSomeAnd};
ghost use Rattle.std.specs.FinMap as map;
ghost use Rattle.std.proofs.Common.{rules};
ghost use Rattle.mp_outside.specs.Planned.{is_next_to_fail, after_call};

use crate::calm_shelves::CalmShelf;
use crate::failures::ShelfAnswer;
use crate::fault_plans::FaultPlan;
use crate::shelves::Shelf;
use mp_nums::Memory;
use std::alloc::Global;
use std::marker::Model;

/// Files in memory, by their names, where some fetches fail.
#[derive(Debug, Drop)]
pub struct MemShelf {
    shelf: CalmShelf,
    plan: FaultPlan,
}

impl Model for MemShelf {
    ghost use Rattle.mp_outside.specs.Planned.{MemShelfState, mem_shelf_code};

    ghost Value = { MemShelfState };

    ghost coded = { mem_shelf_code };

    ghost view = { λ a. record { files = a.shelf.files; plan = a.plan } };
}

impl MemShelf {
    /// A shelf without files. The fetches with the numbers in `fail`, counted from 0, fail.
    pub fn new(alloc: Global, fail: Vec<u64>) -> MemShelf
        ensures files { ⟦<MemShelf as Shelf>⟧.files result ≡ Some map.empty }
        ensures fetches { ⟦<MemShelf as Shelf>⟧.fetches result ≡ 0 }
        ensures faults { ⟦<MemShelf as Shelf>⟧.faults result ≡ 0 }
        ensures plan { result.plan ≡ record { fail = fail.items; calls = 0; faults = 0 } }
    {
        MemShelf {
            shelf: CalmShelf::new(alloc),
            plan: FaultPlan::new(fail),
        }
    }

    /// Puts a file under the name, in the place of one that has it.
    pub fn put(&mut self, name: Vec<u8>, bytes: Vec<u8>) -> Result<(), Memory>
        ensures ok { OnOk result (self.new.files ≡ map.insert self.old.files name.items bytes.items) }
        ensures err { OnErr result (self.new.files ≡ self.old.files) }
        ensures plan { self.new.plan ≡ self.old.plan }
    {
        self.shelf.put(name, bytes)
    }
}

impl Shelf for MemShelf {
    ghost files = { λ it. Some it.files };

    ghost fetches = { λ it. min it.plan.calls (2 ^ 128 - 1) };

    ghost faults = { λ it. min it.plan.faults (2 ^ 64 - 1) };

    ghost fetches_fit = { Prim.search rules };

    ghost faults_fit = { Prim.search rules };

    fn fetch(&mut self, alloc: Global, name: &[u8], limit: u64) -> Result<Vec<u8>, ShelfAnswer>
        ensures fails { IsErrOf result ShelfAnswer.Failed ↔ IsTrue (is_next_to_fail self.old.plan) }
        ensures plan { self.new.plan ≡ after_call self.old.plan }
        ensures files { self.new.files ≡ self.old.files }

        ensures within { IfOk result (λ bytes. vec_len bytes ≤ limit) }
        ensures found { IfOk result (λ bytes. map.get self.old.files name.now ≡ Some bytes.items) }
        ensures absent { IsErrOf result ShelfAnswer.Absent → map.get self.old.files name.now ≡ None }
        ensures too_large { IsErrOf result ShelfAnswer.TooLarge →
            IsSomeAnd (map.get self.old.files name.now) (λ bytes. limit < length bytes) }
    {
        if self.plan.fails() {
            return Err(ShelfAnswer::Failed);
        }
        self.shelf.fetch(alloc, name, limit)
    }
}
