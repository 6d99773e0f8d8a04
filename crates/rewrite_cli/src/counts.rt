ghost use Rattle.std.specs.Prelude.{◌≡◌, IfOk};
ghost use Rattle.rewrite_cli.specs.Counts.{tally_of, of_steps};

use hart_core::Counts as RunCounts;
use std::alloc::{AllocError, Global};

/// What a report counts.
#[derive(Drop)]
pub enum Counts {
    /// What is counted of a run.
    Run(RunCounts),
    /// What an image adds to its original: the loops that are divided, and the words of code.
    Image { entries: u32, words: u32 },
    /// The bytes of a sample.
    Sample { bytes: u64 },
    /// Nothing is counted.
    Nothing,
}

impl Counts {
    /// The counts of a run without entries by one hart, which has executed so many instructions.
    pub fn of_steps(alloc: Global, steps: u64) -> Result<Counts, AllocError>
        ensures { IfOk result (λ counts. tally_of counts ≡ of_steps steps) }
    {
        let mut harts = Vec::new(alloc);
        harts.push(steps)?;
        Ok(Counts::Run(RunCounts {
            loops: Vec::new(alloc),
            harts,
            steps,
        }))
    }
}
