//! What holds of parts and of lists of pieces, each the contract of a function that does nothing.

ghost use Rattle.mp_partial.specs.Offers.{OffersAreMerges};
ghost use Rattle.mp_partial.specs.Together.{ListsOfPieces, MergesByPieces};

use crate::parts::Part;

/// What pieces are together rests on which pieces they are, not on their order or on how often each one stands there.
pub fn merges_by_pieces<P: Part>()
    ensures { MergesByPieces P.is_value P.unit_of P.merged }
{}

/// The numbers below a count are those less than it. A list of those that pass a test has just these, and one list
/// behind another has the pieces of both.
pub fn pieces_of_lists()
    ensures { ListsOfPieces }
{}

/// What is offered to a column is merged into it: it is the merge with a column in which nothing else was found.
pub fn offers_are_merges()
    ensures { OffersAreMerges }
{}
