//! Laws of chains, each the contract of a function that does nothing.

ghost use Rattle.mp_chains.specs.Laws.{
  ChainsFollow,
  SuccessorsAreUnique,
  ChainsAreWhole,
  ChainsPartTheWindows,
  LongestIsFirst,
};

/// The chain from a window begins with it, each window succeeds the one before, and the last one has no successor.
pub fn chains_follow()
    ensures { ChainsFollow }
{}

/// Two windows don't succeed the same one, and no window has two that succeed it.
pub fn successors_are_unique()
    ensures { SuccessorsAreUnique }
{}

/// Each of all chains is a chain from a window that succeeds none. So none of them can be made longer at either end.
pub fn chains_are_whole()
    ensures { ChainsAreWhole }
{}

/// Each window stands in exactly one of all chains, and once.
pub fn chains_part_the_windows()
    ensures { ChainsPartTheWindows }
{}

/// The longest chain is the first of greatest length.
pub fn longest_is_first()
    ensures { LongestIsFirst }
{}
