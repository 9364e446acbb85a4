//! What holds of the numbers that passes drew, the contract of a function that does nothing.

ghost use Rattle.mp_workers.specs.DeskLaws.{DeskGivesEachPiece};

/// The pieces that a pass drew are those that its calls of `work` drew, two passes that are put together drew the
/// pieces of both, and a desk that is closed after a call of `work` gave each piece. So what the parts that those calls
/// merged into have together, where they began as units, is what all pieces have together.
pub fn desk_gives_each_piece()
    ensures { DeskGivesEachPiece }
{}
