ghost use Rattle.std.specs.Prelude.{◌≡◌, IfOk};

use alias_checks::Check;
use loop_data::{Addresses, Plan, Verdict};
use std::alloc::{AllocError, Global};
use std::boxed::Box;
use std::marker::Model;

/// A plan and a check of one loop, seen as the pair of them. They are large, and most loops have none.
#[derive(Drop)]
pub struct PlanAndCheck {
    both: Box<(Plan, Check)>,
}

impl Model for PlanAndCheck {
    ghost use Rattle.loop_data.specs.declared.plans.Plan.{Plan};
    ghost use Rattle.alias_checks.specs.declared.lists.Check.{Check};

    ghost Value = { Plan × Check };

    ghost view = { λ p. p.both.value };
}

/// What is found of a listed loop.
#[derive(Drop)]
pub struct Judged {
    /// The address of the header.
    pub header: u64,
    /// The addresses of the loop's words, in order; none where its shape decides the verdict.
    pub body: Addresses,
    /// The verdict.
    pub verdict: Verdict,
    /// Where the verdict is Parallel, what the code that runs its turns apart is made from, and what is tested
    /// before.
    pub plan: Option<PlanAndCheck>,
}

impl PlanAndCheck {
    /// These two.
    pub fn new(alloc: Global, plan: Plan, check: Check) -> Result<PlanAndCheck, AllocError>
        ensures { IfOk result (λ p. p ≡ (plan, check)) }
    {
        Ok(PlanAndCheck {
            both: Box::new(alloc, (plan, check))?,
        })
    }

    /// The plan.
    pub fn plan(&self) -> &Plan
        ensures { result.now ≡ self.now.0 }
    {
        &self.both.0
    }

    /// The check.
    pub fn check(&self) -> &Check
        ensures { result.now ≡ self.now.1 }
    {
        &self.both.1
    }
}
