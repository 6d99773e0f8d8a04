//! The forms at the words of a nest of loops, out of the equations along its edges.
#![tactic(auto)]

mod duties;
mod headers;
pub mod laws;
mod meets;
mod passes;
mod rows;
pub mod solution;
mod system;
mod unconfirmed;

pub use system::solve;
