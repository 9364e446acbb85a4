ghost use Rattle.std.specs.Prelude.{◌≡◌, ◌≢◌, ◌↔◌};
ghost use Rattle.mp_outside.specs.declared.failures.ShelfAnswer.TheVariants.{Memory};

use std::alloc::AllocError;
use std::io::ErrorKind;
use thiserror::Error;

/// A read, a write or a flush that failed.
#[derive(Clone, Copy, Debug, PartialEq, Eq, Error)]
#[error("input or output failed")]
pub struct Failed;

/// Why a shelf gives no file.
#[derive(Clone, Copy, Debug, PartialEq, Eq, Error)]
pub enum ShelfAnswer {
    /// No file has the name.
    #[error("no such file")]
    Absent,
    /// The file is longer than the limit.
    #[error("the file is too large")]
    TooLarge,
    /// The fetch failed, which the shelf counts. Whether there is such a file is open.
    #[error("the file could not be read")]
    Failed,
    /// There was no memory for the file's bytes.
    #[error("out of memory")]
    Memory,
}

impl ShelfAnswer {
    /// What a shelf of the system's files answers at an error of the system.
    pub fn at_error(kind: ErrorKind) -> ShelfAnswer
        ensures absent { (result ≡ ShelfAnswer.Absent) ↔ (kind ≡ ErrorKind.NotFound) }
        ensures memory { (result ≡ ShelfAnswer.Memory) ↔ (kind ≡ ErrorKind.OutOfMemory) }
        ensures failed { kind ≢ ErrorKind.NotFound → kind ≢ ErrorKind.OutOfMemory → result ≡ ShelfAnswer.Failed }
    {
        match kind {
            ErrorKind::NotFound => ShelfAnswer::Absent,
            ErrorKind::OutOfMemory => ShelfAnswer::Memory,
            _ => ShelfAnswer::Failed,
        }
    }
}

impl From<AllocError> for ShelfAnswer {
    ghost from_gives = { λ _ answer. answer ≡ Memory };

    fn from(_error: AllocError) -> ShelfAnswer {
        ShelfAnswer::Memory
    }
}
