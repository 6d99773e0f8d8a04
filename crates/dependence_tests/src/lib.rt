//! Which two accesses of a loop have no byte in common in different turns.
#![tactic(auto)]

pub mod laws;
pub mod pairs;
pub mod terms;
#[cfg(test)]
mod tests;

pub use pairs::{PairBox, hopeless, pair_test};
pub use terms::pair_term;
