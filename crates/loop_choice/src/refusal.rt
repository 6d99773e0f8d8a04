ghost use Rattle.std.specs.Prelude.{◌≡◌};

use std::alloc::AllocError;
use thiserror::Error;

/// Why no loops are chosen.
#[derive(Debug, Drop, Error)]
pub enum ChooseErr {
    /// So many loops would be chosen, which is more than 1,024.
    #[error("too many loops are chosen")]
    TooManyLoops { count: u64 },
    /// There was no memory.
    #[error("out of memory")]
    OutOfMemory,
}

impl From<AllocError> for ChooseErr {
    ghost use Rattle.loop_choice.specs.declared.refusal.ChooseErr.TheVariants.{OutOfMemory};

    ghost from_gives = { λ _ e. e ≡ OutOfMemory };

    fn from(_error: AllocError) -> ChooseErr {
        ChooseErr::OutOfMemory
    }
}
