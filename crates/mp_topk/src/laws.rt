//! Laws of ranks, each the contract of a function that does nothing.

ghost use Rattle.mp_topk.specs.Laws.{CandidatesAreInOrder, FirstIsEntry};

/// The first rank of a window is its entry in the matrix profile.
pub fn first_rank_is_the_entry()
    ensures { FirstIsEntry }
{}

/// The candidates in their order are all of them, each once, and each comes before the next.
pub fn candidates_are_in_order()
    ensures { CandidatesAreInOrder }
{}
