//! What was found along some diagonals, by residues that tell the distances or by distances themselves.

ghost use Rattle.std.specs.Prelude.{◌≡◌, length};
ghost use Rattle.mp_partial.specs.Values.{merged_column};
ghost use Rattle.mp_anytime.specs.AnyFound.{found_of};
ghost use Rattle.mp_anytime.specs.Scanning.{AreEarlier, AreLater};

use crate::found::Found;
use crate::residue_found::ResidueFound;
use mp_partial::Profile;

/// What was found on both sides of each window among the pairs on some diagonals.
#[derive(Drop)]
pub(crate) enum AnyFound {
    ByResidue(ResidueFound),
    ByDistance(Found),
}

impl AnyFound {
    /// Merges what was found into a profile of the same windows.
    pub(crate) fn put_into(&self, profile: &mut Profile)
        requires places { length profile.old.all ≡ length (found_of self.now).left }
        requires left { AreEarlier (found_of self.now).left }
        requires right { AreLater (length profile.old.all) (found_of self.now).right }
        ensures left { profile.new.left ≡ merged_column profile.old.left (found_of self.now).left }
        ensures right { profile.new.right ≡ merged_column profile.old.right (found_of self.now).right }
        ensures spare { profile.new.spare ≡ profile.old.spare }
    {
        match self {
            AnyFound::ByResidue(found) => found.put_into(profile),
            AnyFound::ByDistance(found) => found.put_into(profile),
        }
    }
}
