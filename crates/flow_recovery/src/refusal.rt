ghost use Rattle.std.specs.Prelude.{◌≡◌};

use std::alloc::AllocError;
use thiserror::Error;

/// The largest number of reached words.
pub const WORD_LIMIT: usize = 262_144;

/// Why the words of an executable are not recovered.
#[derive(Debug, Drop, Error)]
pub enum FlowErr {
    /// More than 262,144 words are reached. The count is 262,145, where the search stops.
    #[error("{count} words are reached, more than 262144")]
    TooManyWords { count: u64 },
    /// There was no memory.
    #[error("out of memory")]
    OutOfMemory,
}

impl From<AllocError> for FlowErr {
    ghost use Rattle.flow_recovery.specs.declared.refusal.FlowErr.TheVariants.{OutOfMemory};

    ghost from_gives = { λ _ e. e ≡ OutOfMemory };

    fn from(_error: AllocError) -> FlowErr {
        FlowErr::OutOfMemory
    }
}
