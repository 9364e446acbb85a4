//! What becomes of a line.

use crate::answers::ReplyKind;
use mp_nums::{Memory, Text};
use thiserror::Error;

/// The report of a line, and what became of the line.
#[derive(Debug, Drop)]
pub struct Reply {
    /// The report, each of its lines with its LF. It is empty for a quiet line.
    pub text: Text,
    pub kind: ReplyKind,
}

/// Why a run stops at a line.
#[derive(Clone, Copy, Debug, PartialEq, Eq, Error)]
pub enum Stop {
    /// The shelf failed when a line asked it for a file.
    #[error("a file could not be fetched")]
    ShelfFault,
    /// There was no memory for what the line needs, its report included.
    #[error("out of memory")]
    Memory,
}

impl From<Memory> for Stop {
    ghost use Rattle.std.specs.Prelude.{◌≡◌};
    ghost use Rattle.mp_requests.specs.declared.replies.Stop.TheVariants.{Memory as out_of_memory};

    ghost from_gives = { λ _ stop. stop ≡ out_of_memory };

    fn from(_memory: Memory) -> Stop {
        Stop::Memory
    }
}
