//! The verdict of each loop of a program, and which loops are chosen to be divided.
#![tactic(auto)]

mod choice;
mod copies;
mod dependence;
mod entries;
pub mod judged;
mod judging;
pub mod laws;
mod nest;
mod outcome;
pub mod refusal;
#[cfg(test)]
mod tests;
mod trips;

pub use choice::choose;
pub use judged::{Judged, PlanAndCheck};
pub use judging::judge;
pub use refusal::ChooseErr;
