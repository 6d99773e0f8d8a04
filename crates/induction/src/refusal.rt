ghost use Rattle.std.specs.Prelude.{◌≡◌};

use linear_forms::Loc;
use std::alloc::AllocError;
use thiserror::Error;

/// Why the locations of a loop have no classes.
#[derive(Debug, Drop, Error)]
pub enum ClassErr {
    /// The loop carries this location from turn to turn; it carries no lower one.
    #[error("a location is carried")]
    Carried { loc: Loc },
    /// There was no memory.
    #[error("out of memory")]
    OutOfMemory,
}

impl From<AllocError> for ClassErr {
    ghost use Rattle.induction.specs.declared.refusal.ClassErr.TheVariants.{OutOfMemory};

    ghost from_gives = { λ _ e. e ≡ OutOfMemory };

    fn from(_error: AllocError) -> ClassErr {
        ClassErr::OutOfMemory
    }
}
