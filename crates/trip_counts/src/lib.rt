//! How many turns of a loop stay in it, as its exit branch tells before the loop begins.
#![tactic(auto)]

mod forms;
pub mod laws;
mod relations;
#[cfg(test)]
mod tests;
mod trips;

pub use trips::{NoTrip, trip};
