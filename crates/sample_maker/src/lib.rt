// Samples: programs with loops that can be divided, made from their sizes.
#![tactic(auto)]

ghost use Rattle.std.specs.Prelude.{◌≡◌, ◌≤◌, IfOk, IfErr, OnOk};
ghost use Rattle.sample_maker.specs.Sample.{sample_bytes, limit, IsRefused};

mod file;
pub mod laws;
mod programs;
#[cfg(test)]
mod tests;

use std::alloc::{AllocError, Global};
use thiserror::Error;

/// A program that is made as a sample. Each ends with the sum of what its loops have made, which it writes in 8
/// bytes to descriptor 1.
#[derive(Clone, Copy, PartialEq, Eq, Debug)]
pub enum Kind {
    /// Adds two arrays of n numbers of 8 bytes.
    Vadd,
    /// Sets each of n times n inner numbers of a square to the sum of its four neighbours in another.
    Stencil,
    /// Turns the lowest bit of n bytes into a second row of bytes.
    Bytemap,
}

/// Why a sample is not made.
#[derive(Debug, Drop, Error)]
pub enum SampleErr {
    /// The size n passes the kind's limit: 1,000,000 for `Vadd`, 2,000 for `Stencil`, 16,000,000 for `Bytemap`.
    #[error("the size {n} is too large for a sample of this kind")]
    TooLarge { n: u64 },
    /// There was no memory for the sample.
    #[error("out of memory")]
    OutOfMemory,
}

impl From<AllocError> for SampleErr {
    ghost use Rattle.sample_maker.specs.declared.SampleErr.TheVariants.{OutOfMemory};

    ghost from_gives = { λ _ e. e ≡ OutOfMemory };

    fn from(_error: AllocError) -> SampleErr {
        SampleErr::OutOfMemory
    }
}

/// The sample of a kind with size n, as the bytes of an executable.
pub fn make_sample(alloc: Global, kind: Kind, n: u64) -> Result<Vec<u8>, SampleErr>
    requires { 1 ≤ n }
    ensures value { IfOk result (λ b. b.items ≡ sample_bytes kind n) }
    ensures fits { OnOk result (n ≤ limit kind) }
    ensures refused { IfErr result (IsRefused kind n) }
{
    if n > limit(kind) {
        return Err(SampleErr::TooLarge { n });
    }
    let words = programs::words_of(alloc, kind, n)?;
    let file = file::file_of(alloc, words.as_slice(), programs::data_size(kind, n))?;
    Ok(file)
}

fn limit(kind: Kind) -> u64
    ensures { result ≡ limit kind }
{
    match kind {
        Kind::Vadd => 1_000_000,
        Kind::Stencil => 2_000,
        Kind::Bytemap => 16_000_000,
    }
}
