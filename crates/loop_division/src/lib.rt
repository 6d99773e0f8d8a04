//! The division of an executable: the code that is added for each of its loops that is chosen, and where a run leaves
//! the executable for it.
//!
//! `specs/` has the definition: the verdicts of all loops (`LoopVerdicts`), the stubs of the chosen ones, one behind
//! the other (`Stubs`), and entries and words as a relation over the executable alone (`Division`), of which there is
//! one (`OneDivision`).
#![tactic(auto)]

mod adding;
pub mod division;
pub mod laws;
pub mod refusal;
mod stubs;
#[cfg(test)]
mod tests;
pub mod verdicts;

pub use division::{Division, divide};
pub use refusal::DivideErr;
pub use verdicts::{LoopVerdicts, judge_loops};
