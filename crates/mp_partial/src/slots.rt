//! Slots as a part: one column.

ghost use Rattle.std.specs.Prelude.{◌≡◌, [], ◌∷◌, length};
ghost use Rattle.mp_partial.specs.Values.{HasColumns, empty_column, empty_columns, merged_column, merged_columns};
ghost use Rattle.mp_partial.specs.MergeLaws.{columns_merge};

use crate::columns;
use crate::parts::Part;
use mp_nums::{Items, Memory, Slot};
use std::alloc::Global;

impl Part for Items<Slot> {
    ghost value = { λ slots. slots.items ∷ [] };

    ghost size_of = { λ slots. length slots.items };

    ghost room_of = { λ slots. slots.spare };

    ghost is_value = { HasColumns 1 };

    ghost unit_of = { empty_columns 1 };

    ghost merged = { merged_columns };

    ghost laws = { columns_merge 1 };

    fn unit(alloc: Global, size: u64) -> Result<Self, Memory> {
        columns::empty(alloc, size)
    }

    fn size(&self) -> u64 {
        self.as_slice().len() as u64
    }

    fn clear(&mut self)
        ensures items { self.new.items ≡ empty_column (length self.old.items) }
        ensures spare { self.new.spare ≡ self.old.spare }
    {
        columns::clear(self);
    }

    fn merge(&mut self, other: &Self)
        requires { length other.now.items ≡ length self.old.items }
        ensures items { self.new.items ≡ merged_column self.old.items other.now.items }
        ensures places { length self.new.items ≡ length self.old.items }
        ensures spare { self.new.spare ≡ self.old.spare }
    {
        columns::merge(self, other);
    }
}
