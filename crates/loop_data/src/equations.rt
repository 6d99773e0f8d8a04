ghost use Rattle.std.specs.Prelude.{◌≡◌};

use crate::points::Points;
use linear_forms::{Form, Loc};
use std::marker::Model;

/// A form whose values have to be numbers of 32 bits at a word.
#[derive(Drop)]
pub struct Duty {
    /// The address of the word.
    pub at: u64,
    /// The innermost loop round it, by its place among the loop's levels.
    pub level: u32,
    /// By depth the place of the loop of that depth round it, and 0 where there is none.
    pub around: [u32; 3],
    /// The form.
    pub form: Form,
}

/// Duties, seen as a list.
#[derive(Drop)]
pub struct Duties {
    duties: Vec<Duty>,
}

impl Model for Duties {
    ghost use Rattle.std.specs.Prelude.{List};
    ghost use Rattle.loop_data.specs.declared.equations.Duty.{Duty};

    ghost Value = { List Duty };

    ghost view = { λ d. d.duties.items };
}

impl Duties {
    /// These duties.
    pub fn new(duties: Vec<Duty>) -> Duties
        ensures { result ≡ duties.items }
    {
        Duties { duties }
    }

    /// The duties as a slice.
    pub fn as_slice(&self) -> &[Duty]
        ensures { result.now ≡ self.now }
    {
        self.duties.as_slice()
    }

    /// The duties, given back without a copy.
    pub fn into_vec(self) -> Vec<Duty>
        ensures { result.items ≡ self }
    {
        let Duties { duties } = self;
        duties
    }
}

/// The forms at the words of a loop, and what they owe.
#[derive(Drop)]
pub struct Equations {
    /// The forms before each word of the body, in address order.
    pub points: Points,
    /// The duties, in address order.
    pub duties: Duties,
    /// The least induction that is not written with its header's form and the step.
    pub unconfirmed: Option<Loc>,
}
