use alias_checks::Check;
use loop_data::{Plan, Verdict};

/// What the analysis of a nest ends in.
#[derive(Drop)]
pub enum Outcome {
    /// A verdict against it.
    Against(Verdict),
    /// A plan and a check.
    Free { plan: Plan, check: Check },
}
