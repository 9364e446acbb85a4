ghost use Rattle.std.specs.Prelude.{◌≡◌, ℕ, ◌-◌, ◌^◌, ◌<◌, ◌≤◌, List, length, vec_len, Option, Some, None};
ghost use Rattle.std.specs.Prelude.{IfOk, IsErrOf};
ghost use Rattle.std.specs.Ordering.{nat_cmp};
ghost use Rattle.std.specs.Cmp.Lexicographic.{slice_cmp};
ghost use Rattle.std.specs.Option.{ForSome, IsSomeAnd};
ghost use Rattle.std.specs.FinMap as map;
ghost use Rattle.mp_outside.specs.Counts.{Rose, raised};

use crate::failures::ShelfAnswer;
use std::alloc::Global;

/// Where files are fetched from, by their names.
pub trait Shelf {
    /// The bytes of the file of each name, where the shelf tells them.
    ghost files: { Self → Option (map.FinMap (slice_cmp nat_cmp) (List ℕ)) };

    /// How often a file was asked for.
    ghost fetches: { Self → ℕ };

    /// How often a fetch has failed.
    ghost faults: { Self → ℕ };

    /// The bytes of the file of this name, if there are at most `limit`.
    fn fetch(&mut self, alloc: Global, name: &[u8], limit: u64) -> Result<Vec<u8>, ShelfAnswer>
        ensures within { IfOk result (λ bytes. vec_len bytes ≤ limit) }
        ensures found { IfOk result (λ bytes.
            ForSome (files self.old) (λ files. map.get files name.now ≡ Some bytes.items)) }
        ensures absent { IsErrOf result ShelfAnswer.Absent
            → ForSome (files self.old) (λ files. map.get files name.now ≡ None) }
        ensures too_large { IsErrOf result ShelfAnswer.TooLarge → ForSome (files self.old) (λ files.
            IsSomeAnd (map.get files name.now) (λ bytes. limit < length bytes)) }

        ensures files { files self.new ≡ files self.old }

        // Each fetch is counted, whatever is answered.
        ensures fetches { fetches self.new ≡ raised 1 (fetches self.old) }

        // A fetch that failed is counted, and no other.
        ensures faults { faults self.old ≤ faults self.new }
        ensures calm { ¬ IsErrOf result ShelfAnswer.Failed → faults self.new ≡ faults self.old }
        ensures cause { IsErrOf result ShelfAnswer.Failed → Rose (faults self.old) (faults self.new) };

    ghost fetches_fit: { (shelf : Self) → fetches shelf ≤ 2 ^ 128 - 1 };

    ghost faults_fit: { (shelf : Self) → faults shelf ≤ 2 ^ 64 - 1 };
}
