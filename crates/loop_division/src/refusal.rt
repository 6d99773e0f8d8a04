ghost use Rattle.std.specs.Prelude.{◌≡◌};

use std::alloc::AllocError;
use thiserror::Error;

/// Why an executable has no division.
#[derive(Debug, Drop, Error)]
pub enum DivideErr {
    /// More than 262,144 words are reached; the count is 262,145.
    #[error("more than 262144 words are reached")]
    TooManyWords { count: u64 },
    /// So many loops would be chosen, which is more than 1,024.
    #[error("too many loops are chosen")]
    TooManyLoops { count: u64 },
    /// So many words would be added, which is more than 4,194,304.
    #[error("too many words are added")]
    CodeTooLong { words: u64 },
    /// There was no memory.
    #[error("out of memory")]
    OutOfMemory,
}

impl From<AllocError> for DivideErr {
    ghost use Rattle.loop_division.specs.declared.refusal.DivideErr.TheVariants.{OutOfMemory};

    ghost from_gives = { λ _ e. e ≡ OutOfMemory };

    fn from(_error: AllocError) -> DivideErr {
        DivideErr::OutOfMemory
    }
}
