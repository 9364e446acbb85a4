use std::alloc::AllocError;
use thiserror::Error;

/// Why there are no distances.
#[derive(Clone, Copy, Debug, PartialEq, Eq, Error)]
pub enum SlideRefusal {
    /// The pattern is shorter than the shortest window, or longer than the longest one.
    #[error("the pattern is too short or too long")]
    Length,
    /// A sample of the pattern is missing.
    #[error("a sample of the pattern is missing")]
    Missing,
    /// There was no memory for the distances.
    #[error("out of memory")]
    Memory,
}

impl From<AllocError> for SlideRefusal {
    ghost use Rattle.std.specs.Prelude.{◌≡◌};
    ghost use Rattle.mp_slide.specs.declared.refusal.SlideRefusal.TheVariants.{Memory};

    ghost from_gives = { λ _ refusal. refusal ≡ Memory };

    fn from(_error: AllocError) -> SlideRefusal {
        SlideRefusal::Memory
    }
}
