//! What is prepared for a line before it changes anything.

ghost use Rattle.std.specs.Prelude.{◌≡◌};

use mp_anytime::Anytime;
use mp_nums::Sample;
use mp_replies::Cause;
use mp_requests::Answer;
use mp_stores::Channel;
use mp_stream::Kept;

/// What an accepted line changes in the slots. All memory for it is there but for that of an advance, which leaves the
/// slots as they are where it finds none.
#[derive(Debug, Drop)]
pub enum Change {
    Keep,
    /// Channels in place of what stood in a slot.
    PutChannels { slot: u64, channels: Vec<Channel> },
    /// A channel without a sample, of which the last ones will be kept, in place of what stood in a slot.
    PutKept { slot: u64, kept: Kept },
    /// A series whose profile is made in parts, of which nothing is covered, in place of what stood in a slot.
    PutLazy { slot: u64, part: Anytime },
    /// Samples behind those of each channel of a slot.
    AddSamples { slot: u64, added: Vec<Vec<Sample>> },
    /// So many more diagonals of a lazy slot covered. It takes memory of its own.
    Advance { slot: u64, count: u64 },
}

/// The answer to a line, and its change.
#[derive(Debug, Drop)]
pub struct Prepared {
    pub answer: Answer,
    pub change: Change,
}

impl Prepared {
    /// An answer that changes no slot.
    pub(crate) fn keeping(answer: Answer) -> Prepared
        ensures answer { result.answer ≡ answer }
        ensures change { result.change ≡ Change.Keep }
    {
        Prepared {
            answer,
            change: Change::Keep,
        }
    }

    /// The refusal of a line.
    pub(crate) fn refused(cause: Cause) -> Prepared
        ensures answer { result.answer ≡ Answer.Refused cause }
        ensures change { result.change ≡ Change.Keep }
    {
        Prepared::keeping(Answer::Refused(cause))
    }
}
