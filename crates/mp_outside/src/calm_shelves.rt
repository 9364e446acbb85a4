ghost use Rattle.std.specs.Prelude.{◌≡◌, ◌-◌, ◌^◌, min, Some, OnOk, OnErr};
ghost use Rattle.std.specs.Option.{option_copied};
ghost use Rattle.std.specs.FinMap as map;
ghost use Rattle.std.proofs.Common.{rules};

use crate::failures::ShelfAnswer;
use crate::shelves::Shelf;
use mp_nums::Memory;
use std::alloc::Global;
use std::collections::BTreeMap;
use std::marker::Model;

/// Files in memory, by their names, that are fetched without failing.
#[derive(Debug, Drop)]
pub struct CalmShelf {
    files: BTreeMap<Vec<u8>, Vec<u8>>,
    fetches: u128,
}

impl Model for CalmShelf {
    ghost use Rattle.std.specs.FinMap as map;
    ghost use Rattle.mp_outside.specs.Filed.{CalmShelfState, calm_shelf_code, filed};

    ghost Value = { CalmShelfState };

    ghost coded = { calm_shelf_code };

    ghost view = { λ a. record { files = map.from_entries (filed a.files.entries); fetches = a.fetches } };
}

impl CalmShelf {
    /// A shelf without files. It takes no memory.
    pub fn new(alloc: Global) -> CalmShelf
        ensures files { ⟦<CalmShelf as Shelf>⟧.files result ≡ Some map.empty }
        ensures fetches { ⟦<CalmShelf as Shelf>⟧.fetches result ≡ 0 }
        ensures faults { ⟦<CalmShelf as Shelf>⟧.faults result ≡ 0 }
    {
        CalmShelf {
            files: BTreeMap::new(alloc),
            fetches: 0,
        }
    }

    /// Puts a file under the name, in the place of one that has it.
    pub fn put(&mut self, name: Vec<u8>, bytes: Vec<u8>) -> Result<(), Memory>
        ensures ok { OnOk result (self.new.files ≡ map.insert self.old.files name.items bytes.items) }
        ensures err { OnErr result (self.new.files ≡ self.old.files) }
        ensures fetches { self.new.fetches ≡ self.old.fetches }
    {
        self.files.insert(name, bytes)?;
        Ok(())
    }

    fn file(&self, name: &[u8]) -> Option<&[u8]>
        ensures { option_copied result ≡ map.get self.now.files name.now }
    {
        match self.files.get(name) {
            Some(bytes) => Some(bytes.as_slice()),
            None => None,
        }
    }
}

impl Shelf for CalmShelf {
    ghost files = { λ shelf. Some shelf.files };

    ghost fetches = { λ shelf. min shelf.fetches (2 ^ 128 - 1) };

    ghost faults = { λ _. 0 };

    ghost fetches_fit = { Prim.search rules };

    ghost faults_fit = { Prim.search rules };

    fn fetch(&mut self, alloc: Global, name: &[u8], limit: u64) -> Result<Vec<u8>, ShelfAnswer> {
        self.fetches = self.fetches.saturating_add(1);
        let Some(bytes) = self.file(name) else {
            return Err(ShelfAnswer::Absent);
        };
        if bytes.len() as u64 > limit {
            return Err(ShelfAnswer::TooLarge);
        }
        Ok(Vec::from_slice(alloc, bytes)?)
    }
}
