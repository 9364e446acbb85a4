//! A profile with a patch to work on.

ghost use Rattle.std.specs.Prelude.{◌≡◌, ◌+◌, ◌≤◌, [], ◌∷◌, length};
ghost use Rattle.mp_partial.specs.Values.{HasColumns, empty_columns, merged_column, merged_columns};
ghost use Rattle.mp_partial.specs.MergeLaws.{columns_merge};
ghost use Rattle.mp_partial.specs.Patching.{slots_from, placed};

use crate::parts::Part;
use crate::patches::{MAX_PATCH_COLUMNS, MAX_PATCH_ROWS, Patch};
use crate::profiles::Profile;
use mp_nums::Memory;
use std::alloc::Global;

/// A profile, and a patch on which a part of the pairs of windows is compared before the profile absorbs what was
/// found. As a part it stands for what the profile does.
#[derive(Debug, Drop)]
pub struct Bench {
    pub profile: Profile,
    pub patch: Patch,
}

impl Bench {
    /// The patch goes to so many rows and columns, with what the profile has of them: of the rows the nearest of the
    /// windows that start later, and of the columns the nearest of those that start earlier. It takes no memory.
    pub fn begin(&mut self, first_row: u64, rows: u64, first_column: u64, columns: u64)
        requires few_rows { rows ≤ MAX_PATCH_ROWS }
        requires few_columns { columns ≤ MAX_PATCH_COLUMNS }
        requires last_row { first_row + rows ≤ length self.old.profile.all }
        requires last_column { first_column + columns ≤ length self.old.profile.all }
        ensures first_row { self.new.patch.first_row ≡ first_row }
        ensures rows { self.new.patch.rows ≡ slots_from self.old.profile.right first_row rows }
        ensures first_column { self.new.patch.first_column ≡ first_column }
        ensures columns { self.new.patch.columns ≡ slots_from self.old.profile.left first_column columns }
        ensures profile { self.new.profile ≡ self.old.profile }
        ensures lesser { self.new.profile.all ≡ merged_column self.new.profile.left self.new.profile.right }
    {
        self.profile
            .begin(&mut self.patch, first_row, rows, first_column, columns);
    }

    /// The profile takes over what the patch has: of the rows into its right column, of the columns into its left one,
    /// and of both into that of the nearest of all. It takes no memory.
    pub fn absorb(&mut self)
        requires last_row { self.old.patch.first_row + length self.old.patch.rows ≤ length self.old.profile.all }
        requires last_column { self.old.patch.first_column + length self.old.patch.columns
            ≤ length self.old.profile.all }
        ensures right { self.new.profile.right ≡ merged_column self.old.profile.right
            (placed (length self.old.profile.all) self.old.patch.first_row self.old.patch.rows) }
        ensures left { self.new.profile.left ≡ merged_column self.old.profile.left
            (placed (length self.old.profile.all) self.old.patch.first_column self.old.patch.columns) }
        ensures all { self.new.profile.all ≡ merged_column self.old.profile.all (merged_column
            (placed (length self.old.profile.all) self.old.patch.first_row self.old.patch.rows)
            (placed (length self.old.profile.all) self.old.patch.first_column self.old.patch.columns)) }
        ensures lesser { self.new.profile.all ≡ merged_column self.new.profile.left self.new.profile.right }
        ensures places { length self.new.profile.all ≡ length self.old.profile.all }
        ensures spare { self.new.profile.spare ≡ self.old.profile.spare }
        ensures room { self.new.profile.room ≡ self.old.profile.room }
        ensures patch { self.new.patch ≡ self.old.patch }
    {
        self.profile.absorb(&self.patch);
    }
}

impl Part for Bench {
    ghost value = { λ bench. bench.profile.all ∷ bench.profile.left ∷ bench.profile.right ∷ [] };

    ghost size_of = { λ bench. length bench.profile.all };

    ghost room_of = { λ bench. bench.profile.spare };

    ghost is_value = { HasColumns 3 };

    ghost unit_of = { empty_columns 3 };

    ghost merged = { merged_columns };

    ghost laws = { columns_merge 3 };

    fn unit(alloc: Global, size: u64) -> Result<Self, Memory> {
        Ok(Bench {
            profile: Profile::unit(alloc, size)?,
            patch: Patch::new(alloc)?,
        })
    }

    fn size(&self) -> u64 {
        self.profile.size()
    }

    fn clear(&mut self) {
        self.profile.clear();
    }

    fn merge(&mut self, other: &Self) {
        self.profile.merge(&other.profile);
    }
}
